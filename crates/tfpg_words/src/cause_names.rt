//! The names of why words are refused.

ghost use Rattle.std.specs.Prelude.{◌≡◌};
ghost use Rattle.tfpg_words.specs.CauseNames.{usage_name};

use crate::usage_cause::UsageCause;

/// The name of why words are refused.
pub fn usage_cause_word(cause: UsageCause) -> &'static [u8]
    ensures { result.now ≡ usage_name cause }
{
    match cause {
        UsageCause::NoCommand => b"NoCommand",
        UsageCause::UnknownCommand => b"UnknownCommand",
        UsageCause::BadWords => b"BadWords",
        UsageCause::BadNumber => b"BadNumber",
        UsageCause::OutOfRange => b"OutOfRange",
        UsageCause::BadPanel => b"BadPanel",
        UsageCause::BadNames => b"BadNames",
        UsageCause::UnknownNode => b"UnknownNode",
    }
}
