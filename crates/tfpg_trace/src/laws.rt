//! What the definition of a verdict comes to, as a function that does nothing: it says its law in its clause.

ghost use Rattle.std.specs.Prelude.{◌≡◌, ℕ, List};
ghost use Rattle.tfpg_base.specs.declared.activation.Activation.{Activation};
ghost use Rattle.tfpg_graph.specs.Graph.{Tfpg};
ghost use Rattle.tfpg_log.specs.Log.{Logbook};
ghost use Rattle.tfpg_log.specs.Rules.{IsTraceOf};
ghost use Rattle.tfpg_trace.specs.declared.verdict.Verdict.{Verdict};
ghost use Rattle.tfpg_trace.specs.FirstFault.{IsVerdict};

/// Each trace has a verdict, and has no other. The log and the set may be any.
pub fn a_trace_has_one_verdict()
    ensures some { (graph : Tfpg) (log : Logbook) (set : List ℕ) (trace : List Activation) →
        IsTraceOf graph trace → (said : Verdict) × IsVerdict graph log set trace said }
    ensures one { (graph : Tfpg) (log : Logbook) (set : List ℕ) (trace : List Activation) →
        (one other : Verdict) → IsVerdict graph log set trace one → IsVerdict graph log set trace other →
        one ≡ other }
{}
