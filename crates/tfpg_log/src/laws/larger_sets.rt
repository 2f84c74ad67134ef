//! What a set explains, a larger one does too.

ghost use Rattle.std.specs.Prelude.{ℕ, List};
ghost use Rattle.tfpg_base.specs.declared.activation.Activation.{Activation};
ghost use Rattle.tfpg_base.specs.Set.{IsSubset};
ghost use Rattle.tfpg_graph.specs.Graph.{Tfpg};
ghost use Rattle.tfpg_log.specs.Log.{Logbook};
ghost use Rattle.tfpg_log.specs.Explains.{Explains, Fits};

/// A trace that explains a log from a set explains it from each set that has all its members. So each such set fits a log
/// that the set fits.
pub fn a_larger_set_explains_as_well()
    ensures explains { (graph : Tfpg) (log : Logbook) (set larger : List ℕ) (trace : List Activation) →
        IsSubset set larger → Explains graph log set trace → Explains graph log larger trace }
    ensures fits { (graph : Tfpg) (log : Logbook) (set larger : List ℕ) →
        IsSubset set larger → Fits graph log set → Fits graph log larger }
{}
