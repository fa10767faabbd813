//! Laws that callers cite, as contracts of functions that do nothing.
ghost use Rattle.std.specs.Prelude.{◌≡◌, ◌↔◌, ◌+◌, ◌<◌, ◌≤◌, ℕ, List, length, Some, Option, Result, Ok, Err};
ghost use Rattle.gr_base.specs.Lists.{Each, IsAmong, NoneTwice};
ghost use Rattle.gr_text.specs.declared.Place.{Place};
ghost use Rattle.gr_terms.specs.Networks as net;
ghost use Rattle.gr_terms.specs.declared.Sym.{Sym};
ghost use Rattle.gr_terms.specs.declared.Term.{Term};
ghost use Rattle.gr_terms.specs.declared.Literal.{Literal};
ghost use Rattle.gr_terms.specs.declared.bag.Bag.{Bag};
ghost use Rattle.gr_symbols.specs.Numbers.{Grows};
ghost use Rattle.gr_tokens.specs.declared.Token.{Token};
ghost use Rattle.gr_tokens.specs.declared.ReadRefusal.{ReadRefusal};
ghost use Rattle.gr_tokens.specs.declared.ReadRefusal.TheVariants.{Memory};
ghost use Rattle.gr_store.specs.Contents.{IsMade};
ghost use Rattle.gr_grammar.specs.Grammars.{Matches};
ghost use Rattle.gr_reader.specs.Lexemes.{Lexeme};
ghost use Rattle.gr_reader.specs.Classes.{flat};
ghost use Rattle.gr_feats.specs.CanonicalBags.{IsCanonicalBag};
ghost use Rattle.gr_feats.specs.Grammars.{WrittenLiteral, WrittenPair, bag_of, bag_text};
ghost use Rattle.gr_feats.specs.Loading.{counted_from};
ghost use Rattle.gr_feats.specs.Numberings.{GoesOnFrom, IsNumbering, Numbering, none_met};
ghost use Rattle.gr_feats.specs.Readings.{AreLiterals, AreMade, IsBag};
ghost use Rattle.gr_feats.specs.Answers.{IsBagAnswer, IsBagReading, IsLiteralsAnswer, IsLiteralsReading};
ghost use Rattle.gr_feats.specs.declared.gathered.Gathered.{Gathered};

/// A slot has one canonical bag.
pub fn one_canonical_bag()
    ensures { (N : List (net.Assertion ℕ ℕ)) (slot : ℕ) (bag other : List (Sym × Term))
        → IsCanonicalBag N slot bag → IsCanonicalBag N slot other → bag ≡ other }
{}

/// Behind one table of texts, one answer besides want of memory is right for the bag that begins at
/// a token, and one numbering and one new table where there is a bag.
pub fn one_bag_answer()
    ensures answer { (bytes : List ℕ) (tokens : List Token) (at : ℕ) (old : List (List ℕ)) → NoneTwice old
        → (before : Numbering) → IsNumbering before
        → (new later : List (List ℕ)) (m n : Numbering) (x y : Result (Bag × ℕ × Option Place) ReadRefusal)
        → (x ≡ Err Memory → ⊥) → (y ≡ Err Memory → ⊥)
        → IsBagAnswer bytes tokens at old new before m x → IsBagAnswer bytes tokens at old later before n y → x ≡ y }
    ensures numbering { (bytes : List ℕ) (tokens : List Token) (at : ℕ) (old : List (List ℕ)) → NoneTwice old
        → (before : Numbering) → IsNumbering before
        → (new later : List (List ℕ)) (m n : Numbering) (x y : Bag × ℕ × Option Place)
        → IsBagAnswer bytes tokens at old new before m (Ok x) → IsBagAnswer bytes tokens at old later before n (Ok y) → m ≡ n }
    ensures table { (bytes : List ℕ) (tokens : List Token) (at : ℕ) (old new later : List (List ℕ))
        → (before m n : Numbering) (x y : Bag × ℕ × Option Place)
        → IsBagAnswer bytes tokens at old new before m (Ok x) → IsBagAnswer bytes tokens at old later before n (Ok y) → new ≡ later }
{}

/// The same for the literals that begin at a token.
pub fn one_literals_answer()
    ensures answer { (bytes : List ℕ) (tokens : List Token) (at : ℕ) (old : List (List ℕ)) → NoneTwice old
        → (before : Numbering) → IsNumbering before
        → (new later : List (List ℕ)) (m n : Numbering) (x y : Result (List Literal × ℕ) ReadRefusal)
        → (x ≡ Err Memory → ⊥) → (y ≡ Err Memory → ⊥)
        → IsLiteralsAnswer bytes tokens at old new before m x → IsLiteralsAnswer bytes tokens at old later before n y → x ≡ y }
    ensures numbering { (bytes : List ℕ) (tokens : List Token) (at : ℕ) (old : List (List ℕ)) → NoneTwice old
        → (before : Numbering) → IsNumbering before
        → (new later : List (List ℕ)) (m n : Numbering) (x y : List Literal × ℕ)
        → IsLiteralsAnswer bytes tokens at old new before m (Ok x) → IsLiteralsAnswer bytes tokens at old later before n (Ok y) → m ≡ n }
    ensures table { (bytes : List ℕ) (tokens : List Token) (at : ℕ) (old new later : List (List ℕ))
        → (before m n : Numbering) (x y : List Literal × ℕ)
        → IsLiteralsAnswer bytes tokens at old new before m (Ok x) → IsLiteralsAnswer bytes tokens at old later before n (Ok y) → new ≡ later }
{}

/// By one table of texts, one answer besides want of memory is right for the bag that begins at a
/// token, and one numbering where there is a bag. What is right by the tables before and behind the
/// reading is right by the one behind it.
pub fn one_bag_reading()
    ensures answer { (bytes : List ℕ) (tokens : List Token) (at : ℕ) (texts : List (List ℕ)) → NoneTwice texts
        → (before : Numbering) → IsNumbering before
        → (m n : Numbering) (x y : Result (Bag × ℕ × Option Place) ReadRefusal)
        → (x ≡ Err Memory → ⊥) → (y ≡ Err Memory → ⊥)
        → IsBagReading bytes tokens at texts before m x → IsBagReading bytes tokens at texts before n y → x ≡ y }
    ensures numbering { (bytes : List ℕ) (tokens : List Token) (at : ℕ) (texts : List (List ℕ)) → NoneTwice texts
        → (before : Numbering) → IsNumbering before
        → (m n : Numbering) (x y : Bag × ℕ × Option Place)
        → IsBagReading bytes tokens at texts before m (Ok x) → IsBagReading bytes tokens at texts before n (Ok y) → m ≡ n }
    ensures behind { (bytes : List ℕ) (tokens : List Token) (at : ℕ) (old new : List (List ℕ)) (before after : Numbering)
        → (x : Result (Bag × ℕ × Option Place) ReadRefusal)
        → IsBagAnswer bytes tokens at old new before after x → IsBagReading bytes tokens at new before after x }
{}

/// The same for the literals that begin at a token.
pub fn one_literals_reading()
    ensures answer { (bytes : List ℕ) (tokens : List Token) (at : ℕ) (texts : List (List ℕ)) → NoneTwice texts
        → (before : Numbering) → IsNumbering before
        → (m n : Numbering) (x y : Result (List Literal × ℕ) ReadRefusal)
        → (x ≡ Err Memory → ⊥) → (y ≡ Err Memory → ⊥)
        → IsLiteralsReading bytes tokens at texts before m x → IsLiteralsReading bytes tokens at texts before n y → x ≡ y }
    ensures numbering { (bytes : List ℕ) (tokens : List Token) (at : ℕ) (texts : List (List ℕ)) → NoneTwice texts
        → (before : Numbering) → IsNumbering before
        → (m n : Numbering) (x y : List Literal × ℕ)
        → IsLiteralsReading bytes tokens at texts before m (Ok x) → IsLiteralsReading bytes tokens at texts before n (Ok y) → m ≡ n }
    ensures behind { (bytes : List ℕ) (tokens : List Token) (at : ℕ) (old new : List (List ℕ)) (before after : Numbering)
        → (x : Result (List Literal × ℕ) ReadRefusal)
        → IsLiteralsAnswer bytes tokens at old new before after x → IsLiteralsReading bytes tokens at new before after x }
{}

/// What was right stays right as the table of texts grows.
pub fn answers_stay()
    ensures bag { (texts later : List (List ℕ)) → Grows texts later
        → (bytes : List ℕ) (tokens : List Token) (at : ℕ) (before after : Numbering)
        → (x : Result (Bag × ℕ × Option Place) ReadRefusal)
        → IsBagReading bytes tokens at texts before after x → IsBagReading bytes tokens at later before after x }
    ensures literals { (texts later : List (List ℕ)) → Grows texts later
        → (bytes : List ℕ) (tokens : List Token) (at : ℕ) (before after : Numbering)
        → (x : Result (List Literal × ℕ) ReadRefusal)
        → IsLiteralsReading bytes tokens at texts before after x → IsLiteralsReading bytes tokens at later before after x }
{}

/// The variables of a bag and of literals that were read have numbers that were given, so a store
/// with as many variables has them.
pub fn variables_were_given()
    ensures bag { (texts : List (List ℕ)) (before : Numbering) (ws : List WrittenPair) (g : Gathered) (after : Numbering)
        → IsNumbering before → IsBag texts before ws g after → Each (λ p. IsMade after.given p.1) g.bag }
    ensures literals { (texts : List (List ℕ)) (before : Numbering) (ws : List WrittenLiteral) (xs : List Literal) (after : Numbering)
        → IsNumbering before → AreLiterals texts before ws xs after → Each (AreMade after.given) xs }
{}

/// A bag whose variables are among the first few can be loaded where so many variables were made
/// from the first one on.
pub fn counted_variables_are_made()
    ensures { (given first vars : ℕ) (bag : List (Sym × Term)) → first + given ≤ vars
        → Each (λ p. IsMade given p.1) bag → Each (λ p. IsMade vars (counted_from first p.1)) bag }
{}

/// Where an attribute stands a second time is in the bag.
pub fn second_place_is_inside()
    ensures { (texts : List (List ℕ)) (before after : Numbering) (ts rest : List Lexeme)
        → (m : Matches flat bag_text ts rest) (g : Gathered) (left : ℕ)
        → IsBag texts before (bag_of m) g after → g.again ≡ Some left → (length rest < left) × (left ≤ length ts) }
{}

/// As a numbering goes on, variables keep their numbers, and different names have different ones.
pub fn numbers_tell_variables_apart()
    ensures stay { (old new : Numbering) (p : ℕ × ℕ) → GoesOnFrom old new
        → IsAmong old.named p → IsAmong new.named p }
    ensures apart { (met : Numbering) (m n i j : ℕ) → IsNumbering met
        → IsAmong met.named (m, i) → IsAmong met.named (n, j) → ((m ≡ n) ↔ (i ≡ j)) }
    ensures first { IsNumbering none_met }
    ensures none { (met : Numbering) → GoesOnFrom met met }
    ensures after { (a b c : Numbering) → GoesOnFrom a b → GoesOnFrom b c → GoesOnFrom a c }
{}
