//! Laws of networks, each at networks over numbers, as contracts of functions that do nothing.
//! Their proofs in `proofs/NetworkLemmas` and `proofs/AdditionLemmas` are for any type of
//! variables and slots.
ghost use Rattle.std.specs.Prelude.{◌≡◌, ◌↔◌, ℕ, List, [], ◌∷◌, ◌++◌};
ghost use Rattle.gr_base.specs.Lists.{IsWithin, Each};
ghost use Rattle.gr_base.specs.Decisions.{IsDecided, AreToldApart};
ghost use Rattle.gr_terms.specs.Networks as net;
ghost use Rattle.gr_terms.specs.Networks.{entry, equate, link, name, variable, Agrees, AreLinked, AreLinkedSlots, HasValue, Follows, put_term, put_assertion, put_network};
ghost use Rattle.gr_terms.specs.Interpretations.{Interprets, Entails, AreEquivalent, Labels};
ghost use Rattle.gr_terms.specs.Additions.{Joined, JoinedSlots, LacksValue, ShareValues, EquatesValues, AreCompatible};

/// A part of an agreeing network agrees, and what it links the whole links.
pub fn part_agrees()
    ensures terms { (part whole : List (net.Assertion ℕ ℕ)) → IsWithin part whole
        → (x y : net.Term ℕ) → AreLinked part x y → AreLinked whole x y }
    ensures slots { (part whole : List (net.Assertion ℕ ℕ)) → IsWithin part whole
        → (s t : ℕ) → AreLinkedSlots part s t → AreLinkedSlots whole s t }
    ensures agrees { (part whole : List (net.Assertion ℕ ℕ)) → IsWithin part whole
        → Agrees whole → Agrees part }
{}

/// Order and repetition do not matter: networks with the same assertions link alike and agree
/// together.
pub fn order_is_free()
    ensures terms { (M N : List (net.Assertion ℕ ℕ)) → IsWithin M N → IsWithin N M
        → (x y : net.Term ℕ) → AreLinked M x y ↔ AreLinked N x y }
    ensures slots { (M N : List (net.Assertion ℕ ℕ)) → IsWithin M N → IsWithin N M
        → (s t : ℕ) → AreLinkedSlots M s t ↔ AreLinkedSlots N s t }
    ensures agrees { (M N : List (net.Assertion ℕ ℕ)) → IsWithin M N → IsWithin N M
        → (Agrees M ↔ Agrees N) }
{}

/// Where each assertion of a network follows from another, the other has all its links, and the
/// network agrees where the other does.
pub fn entailed_agrees()
    ensures follows { (N M : List (net.Assertion ℕ ℕ)) → Entails N M
        → (e : net.Assertion ℕ ℕ) → Follows M e → Follows N e }
    ensures terms { (N M : List (net.Assertion ℕ ℕ)) → Entails N M
        → (x y : net.Term ℕ) → AreLinked M x y → AreLinked N x y }
    ensures slots { (N M : List (net.Assertion ℕ ℕ)) → Entails N M
        → (s t : ℕ) → AreLinkedSlots M s t → AreLinkedSlots N s t }
    ensures agrees { (N M : List (net.Assertion ℕ ℕ)) → Entails N M → Agrees N → Agrees M }
{}

/// A map of variables and slots that sends each assertion of a network to a consequence of
/// another carries all consequences along, so the first agrees where the second does.
pub fn interpreted_agrees()
    ensures follows { (f : ℕ → net.Term ℕ) (g : ℕ → ℕ) (M N : List (net.Assertion ℕ ℕ))
        → Interprets f g M N
        → (e : net.Assertion ℕ ℕ) → Follows M e → Follows N (put_assertion f g e) }
    ensures terms { (f : ℕ → net.Term ℕ) (g : ℕ → ℕ) (M N : List (net.Assertion ℕ ℕ))
        → Interprets f g M N
        → (x y : net.Term ℕ) → AreLinked M x y → AreLinked N (put_term f x) (put_term f y) }
    ensures slots { (f : ℕ → net.Term ℕ) (g : ℕ → ℕ) (M N : List (net.Assertion ℕ ℕ))
        → Interprets f g M N
        → (s t : ℕ) → AreLinkedSlots M s t → AreLinkedSlots N (g s) (g t) }
    ensures agrees { (f : ℕ → net.Term ℕ) (g : ℕ → ℕ) (M N : List (net.Assertion ℕ ℕ))
        → Interprets f g M N → Agrees N → Agrees M }
{}

/// Renaming that can be undone changes nothing.
pub fn renaming_is_free()
    ensures terms { (f h : ℕ → net.Term ℕ) (g k : ℕ → ℕ) (N : List (net.Assertion ℕ ℕ))
        → ((v : ℕ) → put_term h (f v) ≡ variable v) → ((s : ℕ) → k (g s) ≡ s)
        → (x y : net.Term ℕ)
        → AreLinked (put_network f g N) (put_term f x) (put_term f y) ↔ AreLinked N x y }
    ensures slots { (f h : ℕ → net.Term ℕ) (g k : ℕ → ℕ) (N : List (net.Assertion ℕ ℕ))
        → ((v : ℕ) → put_term h (f v) ≡ variable v) → ((s : ℕ) → k (g s) ≡ s)
        → (s t : ℕ) → AreLinkedSlots (put_network f g N) (g s) (g t) ↔ AreLinkedSlots N s t }
    ensures agrees { (f h : ℕ → net.Term ℕ) (g k : ℕ → ℕ) (N : List (net.Assertion ℕ ℕ))
        → ((v : ℕ) → put_term h (f v) ≡ variable v) → ((s : ℕ) → k (g s) ≡ s)
        → (Agrees (put_network f g N) ↔ Agrees N) }
{}

/// Equivalent networks link alike and agree together.
pub fn equivalent_agree()
    ensures terms { (N M : List (net.Assertion ℕ ℕ)) (e : AreEquivalent N M) (x y : net.Term ℕ)
        → AreLinked M (put_term e.forth x) (put_term e.forth y) ↔ AreLinked N x y }
    ensures slots { (N M : List (net.Assertion ℕ ℕ)) (e : AreEquivalent N M) (s t : ℕ)
        → AreLinkedSlots M (e.forth_slot s) (e.forth_slot t) ↔ AreLinkedSlots N s t }
    ensures agrees { (N M : List (net.Assertion ℕ ℕ)) → AreEquivalent N M
        → (Agrees M ↔ Agrees N) }
{}

/// A labelling that fits a network gives linked terms one label, so a network with a labelling
/// that keeps names apart agrees.
pub fn labelled_agrees()
    ensures terms { (N : List (net.Assertion ℕ ℕ)) (f : Labels ℕ ℕ N) (x y : net.Term ℕ)
        → AreLinked N x y → f.label x ≡ f.label y }
    ensures slots { (N : List (net.Assertion ℕ ℕ)) (f : Labels ℕ ℕ N) (s t : ℕ)
        → AreLinkedSlots N s t → f.place s ≡ f.place t }
    ensures agrees { (N : List (net.Assertion ℕ ℕ)) (f : Labels ℕ ℕ N)
        → ((a b : ℕ) → f.label (name a) ≡ f.label (name b) → a ≡ b) → Agrees N }
{}

/// One more assertion that follows already changes nothing.
pub fn add_consequence()
    ensures terms { (N : List (net.Assertion ℕ ℕ)) (e : net.Assertion ℕ ℕ) → Follows N e
        → (x y : net.Term ℕ) → AreLinked (N ++ e ∷ []) x y ↔ AreLinked N x y }
    ensures slots { (N : List (net.Assertion ℕ ℕ)) (e : net.Assertion ℕ ℕ) → Follows N e
        → (s t : ℕ) → AreLinkedSlots (N ++ e ∷ []) s t ↔ AreLinkedSlots N s t }
    ensures agrees { (N : List (net.Assertion ℕ ℕ)) (e : net.Assertion ℕ ℕ) → Follows N e
        → (Agrees (N ++ e ∷ []) ↔ Agrees N) }
{}

/// One more equation joins its two sides. An agreeing network with it agrees exactly where no two
/// different names are linked with the two sides.
pub fn add_equation()
    ensures terms { (N : List (net.Assertion ℕ ℕ)) (x y u v : net.Term ℕ)
        → AreLinked (N ++ equate x y ∷ []) u v ↔ Joined N x y u v }
    ensures slots { (N : List (net.Assertion ℕ ℕ)) (x y : net.Term ℕ) (s t : ℕ)
        → AreLinkedSlots (N ++ equate x y ∷ []) s t ↔ AreLinkedSlots N s t }
    ensures agrees { (N : List (net.Assertion ℕ ℕ)) (x y : net.Term ℕ) → Agrees N
        → (Agrees (N ++ equate x y ∷ []) ↔ AreCompatible N x y) }
{}

/// One more entry at a slot that has a value of the attribute joins the two values, as an equation
/// of them does.
pub fn add_entry()
    ensures terms { (N : List (net.Assertion ℕ ℕ)) (s a : ℕ) (x y u v : net.Term ℕ)
        → HasValue N s a y → (AreLinked (N ++ entry s a x ∷ []) u v ↔ Joined N x y u v) }
    ensures slots { (N : List (net.Assertion ℕ ℕ)) (s a : ℕ) (x : net.Term ℕ) (p q : ℕ)
        → AreLinkedSlots (N ++ entry s a x ∷ []) p q ↔ AreLinkedSlots N p q }
    ensures agrees { (N : List (net.Assertion ℕ ℕ)) (s a : ℕ) (x y : net.Term ℕ)
        → HasValue N s a y → Agrees N → (Agrees (N ++ entry s a x ∷ []) ↔ AreCompatible N x y) }
{}

/// One more entry at a slot that has no value of the attribute links nothing.
pub fn add_first_entry()
    ensures terms { (N : List (net.Assertion ℕ ℕ)) (s a : ℕ) (x u v : net.Term ℕ)
        → LacksValue N s a → (AreLinked (N ++ entry s a x ∷ []) u v ↔ AreLinked N u v) }
    ensures agrees { (N : List (net.Assertion ℕ ℕ)) (s a : ℕ) (x : net.Term ℕ)
        → LacksValue N s a → (Agrees (N ++ entry s a x ∷ []) ↔ Agrees N) }
{}

/// One more link joins its two slots. Where their values of each attribute are linked already it
/// links no terms.
pub fn add_link()
    ensures slots { (N : List (net.Assertion ℕ ℕ)) (s t p q : ℕ)
        → AreLinkedSlots (N ++ link s t ∷ []) p q ↔ JoinedSlots N s t p q }
    ensures terms { (N : List (net.Assertion ℕ ℕ)) (s t : ℕ) (x y : net.Term ℕ)
        → ShareValues N s t → (AreLinked (N ++ link s t ∷ []) x y ↔ AreLinked N x y) }
    ensures agrees { (N : List (net.Assertion ℕ ℕ)) (s t : ℕ) → ShareValues N s t
        → (Agrees (N ++ link s t ∷ []) ↔ Agrees N) }
{}

/// One more link does to terms what equations of values of the two slots do, where these equations
/// link all their values.
pub fn link_is_equations()
    ensures terms { (N E : List (net.Assertion ℕ ℕ)) (s t : ℕ) → Each (EquatesValues N s t) E
        → ShareValues (N ++ E) s t
        → (x y : net.Term ℕ) → AreLinked (N ++ link s t ∷ []) x y ↔ AreLinked (N ++ E) x y }
    ensures agrees { (N E : List (net.Assertion ℕ ℕ)) (s t : ℕ) → Each (EquatesValues N s t) E
        → ShareValues (N ++ E) s t → (Agrees (N ++ link s t ∷ []) ↔ Agrees (N ++ E)) }
{}

/// Where variables and slots can be told apart, it is decided which slots and which terms a network
/// links, which terms have a name, and whether the network agrees.
pub fn agreement_is_decided<V, S>()
    ensures slots { AreToldApart S → (N : List (net.Assertion V S)) (s t : S)
        → IsDecided (AreLinkedSlots N s t) }
    ensures terms { AreToldApart V → AreToldApart S → (N : List (net.Assertion V S)) (x y : net.Term V)
        → IsDecided (AreLinked N x y) }
    ensures names { AreToldApart V → AreToldApart S → (N : List (net.Assertion V S)) (x : net.Term V)
        → IsDecided ((a : ℕ) × AreLinked N x (name a)) }
    ensures agrees { AreToldApart V → AreToldApart S → (N : List (net.Assertion V S))
        → IsDecided (Agrees N) }
{}
