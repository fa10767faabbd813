//! Laws of grammars over any type of tokens `T` and of classes of tokens `C`, as contracts of
//! functions that do nothing.
ghost use Rattle.std.specs.Prelude.{◌≡◌, ◌↔◌, ◌⊎◌, ◌-◌, ◌<◌, ℕ, List, [], ◌∷◌, length, take, drop, true, false, Result};
ghost use Rattle.gr_grammar.specs.declared.brackets.Turn.{Turn};
ghost use Rattle.gr_grammar.specs.declared.brackets.Turn.TheVariants.{Neither};
ghost use Rattle.gr_grammar.specs.Grammars.{Grammar, star, System, IsSystem, IsText, GoesOn, IsFault, Matches, Runs, End, took, failed, is_clear, begins, tree_of, items, Rounds, round_items};
ghost use Rattle.gr_grammar.specs.Depths.{IsShallow, IsShallowFault, IsCut, shallow_len};
ghost use Rattle.gr_grammar.specs.Readings.{IsReading, IsStop, IsStopBefore};
ghost use Rattle.gr_grammar.specs.Words.{words, word, IsShortWord};

/// In a grammar where the next token decides, a front of the tokens that is a text has one tree.
/// The tokens have to form a set, as bytes, numbers and structs of these do.
pub fn one_tree<C, T>()
    ensures { IsSet T → (S : System C T) → IsSystem S → (g : Grammar C) → is_clear S g ≡ true
        → (ts rest : List T) (m n : Matches S g ts rest) → m ≡ n }
{}

/// There is one first place after which no text goes on, and none where the tokens are a text; so
/// too with a limit on brackets. The grammar may be any.
pub fn one_place<C, T>()
    ensures one { (S : System C T) (g : Grammar C) (ts r s : List T)
        → IsFault S g ts r → IsFault S g ts s → r ≡ s }
    ensures none { (S : System C T) (g : Grammar C) (ts r : List T)
        → IsText S g ts → IsFault S g ts r → ⊥ }
    ensures one_inside { (S : System C T) (turn : T → Turn) (limit : ℕ) (g : Grammar C)
        → (ts r s : List T)
        → IsShallowFault S turn limit g ts r → IsShallowFault S turn limit g ts s → r ≡ s }
    ensures none_inside { (S : System C T) (turn : T → Turn) (limit : ℕ) (g : Grammar C)
        → (ts r : List T)
        → IsText S g ts → IsShallow turn limit 0 ts → IsShallowFault S turn limit g ts r → ⊥ }
{}

/// Tokens have one run of a grammar. Where the next token decides, each list of tokens has one, and
/// that of a text takes all of it.
pub fn one_run<C, T>()
    ensures one { (S : System C T) (g : Grammar C) (ts : List T) (e f : End T)
        → Runs S g ts e → Runs S g ts f → e ≡ f }
    ensures some { (S : System C T) → IsSystem S → (g : Grammar C) → is_clear S g ≡ true
        → (ts : List T) → (e : End T) × Runs S g ts e }
    ensures takes { (S : System C T) → IsSystem S → (g : Grammar C) → is_clear S g ≡ true
        → (ts : List T) → IsText S g ts → Runs S g ts (took []) }
{}

/// In a grammar where the next token decides, a run takes all tokens exactly where they are a text,
/// and it stops at a place exactly where that is the first after which no text goes on.
pub fn run_is_exact<C, T>()
    ensures text { (S : System C T) → IsSystem S → (g : Grammar C) → is_clear S g ≡ true
        → (ts : List T) (e : End T) → Runs S g ts e → (IsText S g ts ↔ e ≡ took []) }
    ensures place { (S : System C T) → IsSystem S → (g : Grammar C) → is_clear S g ≡ true
        → (ts rest : List T) (e : End T) → Runs S g ts e → (IsFault S g ts rest ↔ IsStop e rest) }
{}

/// The same with a limit on brackets, for a run over the tokens before the first bracket that opens
/// too deep: all tokens are a text inside the limit exactly where the run took all and no bracket
/// is too deep, and a place is the first where no text goes on or a bracket opens too deep exactly
/// where the run stopped there, or took all and the deep bracket is there.
pub fn run_is_exact_inside<C, T>()
    ensures text { (S : System C T) → IsSystem S → (g : Grammar C) → is_clear S g ≡ true
        → (turn : T → Turn) (limit : ℕ) (ts part deep : List T) → IsCut turn limit ts part deep
        → (e : End T) → Runs S g part e
        → ((IsText S g ts × IsShallow turn limit 0 ts) ↔ ((e ≡ took []) × (deep ≡ []))) }
    ensures place { (S : System C T) → IsSystem S → (g : Grammar C) → is_clear S g ≡ true
        → (turn : T → Turn) (limit : ℕ) (ts part deep rest : List T)
        → IsCut turn limit ts part deep → (e : End T) → Runs S g part e
        → (IsShallowFault S turn limit g ts rest ↔ IsStopBefore e deep rest) }
{}

/// Where the tokens before the first bracket that opens too deep begin a text, with any brackets
/// behind them, the bracket is the first place with the limit. The grammar may be any.
pub fn deep_bracket<C, T>()
    ensures { (S : System C T) (turn : T → Turn) (limit : ℕ) (g : Grammar C)
        → (ts part more : List T) (t : T) → IsCut turn limit ts part (t ∷ more) → GoesOn S g part
        → IsShallowFault S turn limit g ts (t ∷ more) }
{}

/// Where no token is a bracket, the limit says nothing: each list is inside it, and a first place
/// with it is one without it.
pub fn no_brackets<C, T>()
    ensures inside { (limit n : ℕ) (ts : List T) → IsShallow (λ t. Neither) limit n ts }
    ensures place { (S : System C T) (limit : ℕ) (g : Grammar C) (ts rest : List T)
        → (IsShallowFault S (λ t. Neither) limit g ts rest ↔ IsFault S g ts rest) }
{}

/// The number of tokens before the first bracket that opens too deep cuts them there.
pub fn cut_by_number<T>()
    ensures { (turn : T → Turn) (limit : ℕ) (ts : List T)
        → IsCut turn limit ts (take (shallow_len turn limit 0 ts) ts)
        (drop (shallow_len turn limit 0 ts) ts) }
{}

/// Where the next token decides, each list of tokens is a text or has a first place after which no
/// text goes on.
pub fn text_or_place<C, T>()
    ensures { (S : System C T) → IsSystem S → (g : Grammar C) → is_clear S g ≡ true
        → (ts : List T) → IsText S g ts ⊎ ((rest : List T) × IsFault S g ts rest) }
{}

/// One answer of a reader is right for each list of tokens, and there is one.
pub fn one_reading<C, T, A>()
    ensures one { IsSet T → (S : System C T) → IsSystem S → (g : Grammar C) → is_clear S g ≡ true
        → (turn : T → Turn) (limit : ℕ) (value : (ts rest : List T) → Matches S g ts rest → A)
        → (ts : List T) (x y : Result A ℕ)
        → IsReading S turn limit g value ts x → IsReading S turn limit g value ts y → x ≡ y }
    ensures some { (S : System C T) → IsSystem S → (g : Grammar C) → is_clear S g ≡ true
        → (turn : T → Turn) (limit : ℕ) (value : (ts rest : List T) → Matches S g ts rest → A)
        → (ts : List T) → (x : Result A ℕ) × IsReading S turn limit g value ts x }
{}

/// A run over the tokens before the first bracket that opens too deep gives the right answer: the
/// value of its tree where it took all and no bracket is too deep, and else the number of tokens
/// before the place where it stopped or the deep bracket is.
pub fn run_reads<C, T, A>()
    ensures taken { (S : System C T) → IsSystem S → (g : Grammar C) → is_clear S g ≡ true
        → (turn : T → Turn) (limit : ℕ) (value : (ts rest : List T) → Matches S g ts rest → A)
        → (ts part : List T) → IsCut turn limit ts part [] → (r : Runs S g part (took []))
        → IsReading S turn limit g value ts (Ok (value part [] (tree_of r))) }
    ensures stopped { (S : System C T) → IsSystem S → (g : Grammar C) → is_clear S g ≡ true
        → (turn : T → Turn) (limit : ℕ) (value : (ts rest : List T) → Matches S g ts rest → A)
        → (ts part deep left : List T) → IsCut turn limit ts part deep
        → Runs S g part (failed left)
        → IsReading S turn limit g value ts (Err (length part - length left)) }
    ensures left_over { (S : System C T) → IsSystem S → (g : Grammar C) → is_clear S g ≡ true
        → (turn : T → Turn) (limit : ℕ) (value : (ts rest : List T) → Matches S g ts rest → A)
        → (ts part deep left : List T) → IsCut turn limit ts part deep
        → Runs S g part (took left) → 0 < length left
        → IsReading S turn limit g value ts (Err (length part - length left)) }
    ensures at_deep { (S : System C T) → IsSystem S → (g : Grammar C) → is_clear S g ≡ true
        → (turn : T → Turn) (limit : ℕ) (value : (ts rest : List T) → Matches S g ts rest → A)
        → (ts part deep : List T) → IsCut turn limit ts part deep → Runs S g part (took [])
        → 0 < length deep → IsReading S turn limit g value ts (Err (length part)) }
{}

/// A loop over a row makes a run of the row: it ends where the next token begins no part, with the
/// values of the parts that it took, and it fails where a part fails.
pub fn loop_runs<C, T, A>()
    ensures ended { (S : System C T) (g : Grammar C)
        → (value : (ts rest : List T) → Matches S g ts rest → A) (ts mid : List T)
        → (r : Rounds S g ts mid) → begins S g mid ≡ false
        → (run : Runs S (star g) ts (took mid))
        × (items value (tree_of run) ≡ round_items value r) }
    ensures broken { (S : System C T) (g : Grammar C) (ts mid rest : List T)
        → Rounds S g ts mid → begins S g mid ≡ true → Runs S g mid (failed rest)
        → Runs S (star g) ts (failed rest) }
{}

/// The example of a counted grammar, in which a part for each number of tokens left is to keep a
/// word to 255 of them, is a system whose next token decides; so the laws above hold of it. Its
/// texts are just the words of at most 255 bytes.
pub fn counted_words()
    ensures system { IsSystem words }
    ensures clear { is_clear words word ≡ true }
    ensures texts { (ts : List ℕ) → (IsText words word ts ↔ IsShortWord ts) }
{}
