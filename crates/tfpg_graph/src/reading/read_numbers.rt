//! What the words of a line say in the place of numbers: rarities, lags and delays.

ghost use Rattle.std.specs.Prelude.{◌≡◌, ◌≤◌, ◌∷◌, [], IfOk, IfSome, Some, Ok, Err, nat_lt, if◌then◌else◌};
ghost use Rattle.tfpg_base.specs.Words.{number_of};
ghost use Rattle.tfpg_base.specs.declared.limits.TheConstants.{MAX_TIME};
ghost use Rattle.tfpg_graph.specs.Valid.{HasValidNumber, IsValidLag};
ghost use Rattle.tfpg_graph.specs.Declares.{kind_of_words, lag_of_words};
ghost use Rattle.tfpg_graph.specs.inside.reading.WordValues.{numbers_of_words, delays_of_words};
ghost use Rattle.tfpg_base.specs.Choice.{first_of};
ghost use Rattle.tfpg_graph.specs.Statements.{OrWords};
ghost use Rattle.tfpg_graph.specs.inside.reading.LineCauses.{number_causes, node_number_causes, range_causes, delay_causes};
ghost use Rattle.tfpg_graph.specs.inside.reading.StatementSeen.{node_words_of, lag_seen};
ghost use Rattle.tfpg_graph.specs.inside.reading.Turns.{ReadAs};
ghost use Rattle.tfpg_graph.specs.inside.declaring.Declaring.{AreDelays};
ghost use Rattle.tfpg_graph.specs.declared.cause.GraphCause.TheVariants.{MinOverMax};

use crate::cause::GraphCause;
use crate::kind::{Kind, Lag};
use crate::limits::MAX_RARITY;
use crate::reading::statement::{LagWords, NodeWords};
use tfpg_base::{MAX_TIME, Number, read_number};

/// What the words say that a node is.
pub(crate) fn read_kind(words: NodeWords<'_>) -> Result<Kind, GraphCause>
    ensures kind { ReadAs (first_of (node_number_causes (node_words_of words.entry)))
        (kind_of_words (node_words_of words.entry)) result }
    ensures valid { IfOk result HasValidNumber }
{
    match words {
        NodeWords::Failure { rarity } => {
            let rarity = read_up_to(rarity, MAX_RARITY)?;
            Ok(Kind::Failure { rarity })
        }
        NodeWords::Or { lag } => {
            let lag = read_lag(lag)?;
            Ok(Kind::Or { lag })
        }
        NodeWords::And { lag } => {
            let lag = read_lag(lag)?;
            Ok(Kind::And { lag })
        }
    }
}

/// The lag that the words say, where there are any.
fn read_lag(words: Option<LagWords<'_>>) -> Result<Option<Lag>, GraphCause>
    ensures lag { ReadAs (first_of (node_number_causes (OrWords (lag_seen words.entry))))
        (lag_of_words (lag_seen words.entry)) result }
    ensures valid { IfOk result (λ lag. IfSome lag IsValidLag) }
{
    match words {
        None => Ok(None),
        Some(words) => {
            let (least, most) = read_range(words.least, words.most)?;
            Ok(Some(Lag { least, most }))
        }
    }
}

/// The number that the word says, where it is not above the limit.
fn read_up_to(word: &[u8], limit: u64) -> Result<u64, GraphCause>
    ensures number { ReadAs (first_of (number_causes ((word.now, limit) ∷ []))) (number_of word.now) result }
    ensures small { IfOk result (λ number. number ≤ limit) }
{
    match read_number(word, limit) {
        Number::NotANumber => Err(GraphCause::BadNumber),
        Number::TooLarge => Err(GraphCause::NumberTooLarge),
        Number::Value(number) => Ok(number),
    }
}

/// The delays that the words say, in milliseconds: the least, and the greatest where there is one.
pub(crate) fn read_delays(tmin: &[u8], tmax: &[u8]) -> Result<(u64, Option<u64>), GraphCause>
    ensures delays { ReadAs (first_of (delay_causes tmin.now tmax.now)) (delays_of_words tmin.now tmax.now)
        result }
    ensures valid { IfOk result (λ delays. AreDelays delays.0 delays.1) }
{
    if tmax == b"inf".as_slice() {
        let least = read_up_to(tmin, MAX_TIME)?;
        return Ok((least, None));
    }
    let (least, greatest) = read_range(tmin, tmax)?;
    Ok((least, Some(greatest)))
}

/// The least and the greatest time that the words say, in milliseconds.
fn read_range(least: &[u8], greatest: &[u8]) -> Result<(u64, u64), GraphCause>
    ensures range { ReadAs (first_of (range_causes least.now greatest.now))
        (numbers_of_words least.now greatest.now) result }
    ensures valid { IfOk result (λ range. (range.0 ≤ range.1) × (range.1 ≤ MAX_TIME)) }
{
    match (
        read_number(least, MAX_TIME),
        read_number(greatest, MAX_TIME),
    ) {
        (Number::NotANumber, _) => Err(GraphCause::BadNumber),
        (_, Number::NotANumber) => Err(GraphCause::BadNumber),
        (Number::TooLarge, _) => Err(GraphCause::NumberTooLarge),
        (_, Number::TooLarge) => Err(GraphCause::NumberTooLarge),
        (Number::Value(least), Number::Value(greatest)) => in_order(least, greatest),
    }
}

/// The times, where they are in order.
fn in_order(least: u64, greatest: u64) -> Result<(u64, u64), GraphCause>
    requires { greatest ≤ MAX_TIME }
    ensures range { result ≡ (if nat_lt greatest least then Err MinOverMax else Ok (least, greatest)) }
    ensures valid { IfOk result (λ range. (range.0 ≤ range.1) × (range.1 ≤ MAX_TIME)) }
{
    if least > greatest {
        return Err(GraphCause::MinOverMax);
    }
    Ok((least, greatest))
}
