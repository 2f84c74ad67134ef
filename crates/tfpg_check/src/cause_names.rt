//! The names of why a line of a report, of a map or of a script is refused.

ghost use Rattle.std.specs.Prelude.{◌≡◌};
ghost use Rattle.tfpg_check.specs.CauseNames.{check_cause_name};

use crate::cause::CheckCause;

/// The name of why a line is refused.
pub fn check_cause_word(cause: CheckCause) -> &'static [u8]
    ensures { result.now ≡ check_cause_name cause }
{
    match cause {
        CheckCause::AfterClosed => b"AfterClosed",
        CheckCause::NotReusable => b"NotReusable",
        CheckCause::NotAClause => b"NotAClause",
        CheckCause::NotAFact => b"NotAFact",
        CheckCause::NotOnPath => b"NotOnPath",
        CheckCause::Unchained => b"Unchained",
        CheckCause::NotNegative => b"NotNegative",
        CheckCause::BadReport => b"BadReport",
        CheckCause::Surplus => b"Surplus",
        CheckCause::WrongRound => b"WrongRound",
        CheckCause::WrongHypothesis => b"WrongHypothesis",
        CheckCause::WrongRanked => b"WrongRanked",
        CheckCause::NotATrace => b"NotATrace",
        CheckCause::WrongOpen => b"WrongOpen",
        CheckCause::WrongRejected => b"WrongRejected",
        CheckCause::WrongStatus => b"WrongStatus",
        CheckCause::WrongCounts => b"WrongCounts",
        CheckCause::EndsEarly => b"EndsEarly",
        CheckCause::BadMap => b"BadMap",
        CheckCause::BadScript => b"BadScript",
    }
}
