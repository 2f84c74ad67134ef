//! What the definitions of maps come to, as functions that do nothing: each says its laws in its clauses.

ghost use Rattle.std.specs.Prelude.{◌≡◌, ◌≤◌, ℕ, List, length, All};
ghost use Rattle.tfpg_base.specs.declared.activation.Activation.{Activation};
ghost use Rattle.tfpg_base.specs.Hypothesis.{Hypothesis, believing};
ghost use Rattle.tfpg_base.specs.declared.limits.TheConstants.{LONGEST_LINE};
ghost use Rattle.tfpg_base.specs.Lines.{lines_of};
ghost use Rattle.tfpg_base.specs.Trace.{IsRisingByNode};
ghost use Rattle.tfpg_graph.specs.Graph.{Tfpg, IsSetOf};
ghost use Rattle.tfpg_graph.specs.Valid.{IsValid};
ghost use Rattle.tfpg_report.specs.SetText.{IsHypothesisOf};
ghost use Rattle.tfpg_map.specs.Spelling.{IsActivationOf, SpellsMap, set_line};
ghost use Rattle.tfpg_map.specs.MapText.{map_text};

/// Lines spell at most one map of a valid graph. So a verdict on a map that they spell is the verdict on theirs.
pub fn lines_spell_at_most_one_map()
    ensures { (graph : Tfpg) (lines : List (List ℕ)) (hypothesis other : Hypothesis)
        (trace more : List Activation) →
        IsValid graph → SpellsMap graph lines hypothesis trace → SpellsMap graph lines other more →
        (hypothesis ≡ other) × (trace ≡ more) }
{}

/// The text of a map spells it, where the line of its set is not too long. It never is where no monitor is ignored, and so
/// what `simulate` writes with `--trace` is a map that `explain` reads.
pub fn the_text_of_a_map_spells_it()
    ensures short { (graph : Tfpg) (hypothesis : Hypothesis) (trace : List Activation) →
        IsValid graph → IsHypothesisOf graph hypothesis → All (IsActivationOf graph) trace →
        IsRisingByNode trace → length (set_line graph hypothesis) ≤ LONGEST_LINE →
        SpellsMap graph (lines_of (map_text graph hypothesis trace)) hypothesis trace }
    ensures believing { (graph : Tfpg) (set : List ℕ) (trace : List Activation) →
        IsValid graph → IsSetOf graph set → All (IsActivationOf graph) trace → IsRisingByNode trace →
        SpellsMap graph (lines_of (map_text graph (believing set) trace)) (believing set) trace }
{}
