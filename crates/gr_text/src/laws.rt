//! Laws of the spelling of names and numbers.
ghost use Rattle.std.specs.Prelude.{◌≡◌, ℕ, ◌^◌, ◌<◌, List, ◌∷◌, ◌++◌, [], ◌↔◌, slice_index, IsTrue};
ghost use Rattle.std.specs.Fmt.{decimal};
ghost use Rattle.std.specs.Str.Parse.{digits_value};
ghost use Rattle.gr_text.specs.Decimals.{IsDecimal};
ghost use Rattle.gr_text.specs.Words.{IsBareWord, Spells, is_word};

/// Each text has just one spelling, and texts with the same spelling are equal. The spelling begins
/// with `"` just where the text isn't a word, and then the text stands between that `"` and the
/// last.
pub fn spelling_tells_texts_apart()
    ensures some { (t : List ℕ) → (s : List ℕ) × Spells s t }
    ensures one { (s r t : List ℕ) → Spells s t → Spells r t → s ≡ r }
    ensures same { (s t u : List ℕ) → Spells s t → Spells s u → t ≡ u }
    ensures quoted { (s t : List ℕ) → Spells s t → ((slice_index s 0 ≡ 34) ↔ ¬ (IsBareWord t)) }
    ensures inside { (s t : List ℕ) → Spells (34 ∷ s) t → s ≡ t ++ 34 ∷ [] }
{}

/// The decimals are just what `{}` writes for the numbers below 1,000,000,000, and the number that
/// such a text spells is the one that it was written for.
pub fn decimals_are_numbers_written()
    ensures read { (n : ℕ) → n < 10 ^ 9 → IsDecimal (decimal n) × (digits_value 10 (decimal n) ≡ n) }
    ensures small { (t : List ℕ) → IsDecimal t → digits_value 10 t < 10 ^ 9 }
    ensures written { (t : List ℕ) → IsDecimal t → decimal (digits_value 10 t) ≡ t }
{}

/// The test of words from the front says just which texts are words.
pub fn words_can_be_tested()
    ensures { (t : List ℕ) → IsTrue (is_word t) ↔ IsBareWord t }
{}
