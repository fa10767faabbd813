//! Laws that callers cite, as contracts of functions that do nothing.
ghost use Rattle.std.specs.Prelude.{◌≡◌, ◌==◌, Decides, ℕ, List, [], Result, Ok, Err, false};
ghost use Rattle.gr_base.specs.Lists.{Each, IsAmong, IsSublist, NoneTwice};
ghost use Rattle.gr_symbols.specs.Numbers.{Grows};
ghost use Rattle.gr_tokens.specs.Answers.{AreTokens};
ghost use Rattle.gr_tokens.specs.declared.ReadRefusal.{ReadRefusal};
ghost use Rattle.gr_tokens.specs.declared.ReadRefusal.TheVariants.{Memory};
ghost use Rattle.gr_tokens.specs.declared.Token.{Token};
ghost use Rattle.gr_reader.specs.Classes.{kind_number};
ghost use Rattle.gr_reader.specs.Lexemes.{lexemes};
ghost use Rattle.gr_feats.specs.Grammars.{WrittenLiteral};
ghost use Rattle.sm_input.specs.Answers.{Inputs, IsInputsAnswer, IsInputsReading, IsSame};
ghost use Rattle.sm_input.specs.Firsts.{firsts, same_literal};
ghost use Rattle.sm_input.specs.Inputs.{IsGround, own_name};

/// Literals are the same as written just where they are equal. Those that no equal one stands before
/// are a part of all, in their order, none stands twice, and each literal is one of them.
pub fn literals_count_once()
    ensures same { (w v : WrittenLiteral) → Decides (same_literal w v) (w ≡ v) }
    ensures part { (ws : List WrittenLiteral) → IsSublist (firsts [] ws) ws }
    ensures once { (ws : List WrittenLiteral) → NoneTwice (firsts [] ws) }
    ensures all { (ws : List WrittenLiteral) (w : WrittenLiteral) → IsAmong ws w → IsAmong (firsts [] ws) w }
{}

/// Behind one table in which no text stands twice, one answer besides want of memory is right for a
/// text, and one new table where it is inputs. In the new table no text stands twice, and it begins
/// with the old one.
pub fn one_answer()
    ensures answer { (bytes : List ℕ) (old : List (List ℕ)) → NoneTwice old
        → (new later : List (List ℕ)) (x y : Result Inputs ReadRefusal) → (x ≡ Err Memory → ⊥) → (y ≡ Err Memory → ⊥)
        → IsInputsAnswer bytes old new x → IsInputsAnswer bytes old later y → IsSame x y }
    ensures table { (bytes : List ℕ) (old new later : List (List ℕ)) (is js : Inputs)
        → IsInputsAnswer bytes old new (Ok is) → IsInputsAnswer bytes old later (Ok js) → new ≡ later }
    ensures once { (bytes : List ℕ) (old new : List (List ℕ)) (is : Inputs) → NoneTwice old
        → IsInputsAnswer bytes old new (Ok is) → NoneTwice new }
    ensures grows { (bytes : List ℕ) (old new : List (List ℕ)) (is : Inputs)
        → IsInputsAnswer bytes old new (Ok is) → Grows old new }
{}

/// By one table of texts, one answer besides want of memory is right. An answer that is right by the
/// tables before and behind the reading is right by the one behind it.
pub fn one_reading()
    ensures one { (bytes : List ℕ) (texts : List (List ℕ)) → NoneTwice texts
        → (x y : Result Inputs ReadRefusal) → (x ≡ Err Memory → ⊥) → (y ≡ Err Memory → ⊥)
        → IsInputsReading bytes texts x → IsInputsReading bytes texts y → IsSame x y }
    ensures behind { (bytes : List ℕ) (old new : List (List ℕ)) (x : Result Inputs ReadRefusal)
        → IsInputsAnswer bytes old new x → IsInputsReading bytes new x }
{}

/// What was right stays right as the table of texts grows.
pub fn answers_stay()
    ensures { (texts later : List (List ℕ)) → Grows texts later
        → (bytes : List ℕ) (x : Result Inputs ReadRefusal)
        → IsInputsReading bytes texts x → IsInputsReading bytes later x }
{}

/// No variable stands in an input that was read, and its literals are different, at most 24.
pub fn inputs_are_ground()
    ensures { (bytes : List ℕ) (texts : List (List ℕ)) (inputs : Inputs)
        → IsInputsReading bytes texts (Ok inputs) → Each IsGround inputs.items }
{}

/// No word, string or variable of a file is the name of a handle that was left out.
pub fn own_names_are_unspelled()
    ensures { (bytes : List ℕ) (tokens : List Token) → AreTokens bytes tokens
        → Each (λ t. (kind_number t.kind == 3) ≡ false → (number : ℕ) → t.text ≡ own_name number → ⊥) (lexemes bytes tokens) }
{}
