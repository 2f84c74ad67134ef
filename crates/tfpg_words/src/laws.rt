//! What the definitions of this crate come to, as functions that do nothing: each says its law in its clauses.

ghost use Rattle.std.specs.Prelude.{◌≡◌, ◌≤◌, ℕ, Bool, List, Ok};
ghost use Rattle.tfpg_base.specs.declared.terms.Terms.{Terms};
ghost use Rattle.tfpg_base.specs.Terms.{AreReportTerms};
ghost use Rattle.tfpg_base.specs.declared.limits.TheConstants.{MAX_CASE_SIZE, MAX_TIME};
ghost use Rattle.tfpg_words.specs.Meaning.{meaning, Diagnose, Generate, Simulate, Ask, Fleet, Predict};
ghost use Rattle.tfpg_words.specs.Names.{AreNames};
ghost use Rattle.tfpg_words.specs.declared.limits.TheConstants.{MAX_DRAW};

/// The numbers of a command are within their limits, and its names are names.
pub fn numbers_are_within_their_limits()
    ensures diagnose { (words : List (List ℕ)) (terms : Terms) (graph : List ℕ) →
        meaning words ≡ Ok (Diagnose terms graph) → AreReportTerms terms }
    ensures simulate { (words : List (List ℕ)) (draw : ℕ) (trace : Bool) (graph script : List ℕ) →
        meaning words ≡ Ok (Simulate draw trace graph script) → draw ≤ MAX_DRAW }
    ensures generate { (words : List (List ℕ)) (draw size : ℕ) → meaning words ≡ Ok (Generate draw size) →
        (draw ≤ MAX_DRAW) × (1 ≤ size) × (size ≤ MAX_CASE_SIZE) }
    ensures ask { (words : List (List ℕ)) (terms : Terms) (graph log : List ℕ) →
        meaning words ≡ Ok (Ask terms graph log) → AreReportTerms terms }
    ensures fleet { (words : List (List ℕ)) (terms : Terms) (graph : List ℕ) (names : List (List ℕ)) →
        meaning words ≡ Ok (Fleet terms graph names) → AreReportTerms terms × AreNames names }
    ensures predict { (words : List (List ℕ)) (terms : Terms) (ahead : ℕ) (graph log node : List ℕ) →
        meaning words ≡ Ok (Predict terms ahead graph log node) → AreReportTerms terms × (ahead ≤ MAX_TIME) }
{}
