//! What a part of a hypothesis explains, the hypothesis does too.

ghost use Rattle.std.specs.Prelude.{ℕ, List};
ghost use Rattle.tfpg_base.specs.declared.activation.Activation.{Activation};
ghost use Rattle.tfpg_base.specs.Hypothesis.{Hypothesis};
ghost use Rattle.tfpg_base.specs.Set.{IsSubset};
ghost use Rattle.tfpg_graph.specs.Graph.{Tfpg};
ghost use Rattle.tfpg_log.specs.Log.{Logbook, ignoring};
ghost use Rattle.tfpg_log.specs.Explains.{Explains};
ghost use Rattle.tfpg_hyp.specs.Views.{HypothesisFits};

/// A trace that explains a log from a set explains it where more monitors are ignored. So a hypothesis fits each log that one
/// with fewer members fits.
pub fn a_larger_hypothesis_fits_as_well()
    ensures explains { (graph : Tfpg) (log : Logbook) (set few many : List ℕ) (trace : List Activation) →
        IsSubset few many →
        Explains graph (ignoring log few) set trace → Explains graph (ignoring log many) set trace }
    ensures fits { (graph : Tfpg) (log : Logbook) (part whole : Hypothesis) →
        IsSubset part.set whole.set → IsSubset part.doubts whole.doubts →
        HypothesisFits graph log part → HypothesisFits graph log whole }
{}
