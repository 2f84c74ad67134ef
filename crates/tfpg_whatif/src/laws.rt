//! What outcomes and questions come to, as functions that do nothing: each says its law in its clause.

ghost use Rattle.tfpg_whatif.specs.Laws.{OutcomesForeseeRounds, QuestionsForeseeRounds};

use tfpg_clause::laws::a_refutation_leaves_no_trace;
use tfpg_hyp::laws::{rounds_say_which_sets_fit, the_table_is_one};

/// A hypothesis that is out fits no log that goes on from the one at which is asked. One that fits is rejected in no round of
/// that log. Where such a round has no open hypothesis, it rejects those that are out, and of the others unknown ones alone.
pub fn outcomes_foresee_rounds()
    ensures { OutcomesForeseeRounds }
{
    a_refutation_leaves_no_trace();
    rounds_say_which_sets_fit();
    the_table_is_one();
}

/// After each of its two answers a round without an open hypothesis rejects at least as many as a question counts, and at most as many
/// more as are unknown.
pub fn questions_foresee_rounds()
    ensures { QuestionsForeseeRounds }
{
    outcomes_foresee_rounds();
}
