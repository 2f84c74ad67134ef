//! The line of a node, as it is written.

ghost use Rattle.std.specs.Prelude.{◌≡◌, ◌∷◌, Some};
ghost use Rattle.tfpg_base.specs.Append.{Appends};
ghost use Rattle.tfpg_base.specs.TextLine.{text_line};
ghost use Rattle.tfpg_graph.specs.Text.{node_text};
ghost use Rattle.tfpg_graph.specs.inside.writing.Written.{watch_words};

use crate::kind::{Kind, Lag};
use crate::version::Version;
use itoa::Buffer;
use tfpg_base::{NoMemory, append_line};

/// Appends the line that declares a node of this name and kind, with its line end, as a text of this version has it. Of a
/// lag the least and the greatest are written, in milliseconds, and in version 1 the greatest alone. Where memory runs out,
/// a part of the line may follow the old bytes. Takes time and memory linear in the length of the line.
pub fn append_node(
    version: Version,
    name: &[u8],
    kind: Kind,
    into: &mut Vec<u8>,
) -> Result<(), NoMemory>
    ensures { Appends result into.old.items into.new.items
        (node_text version (record { name = name.now; kind = kind })) }
{
    match kind {
        Kind::Failure { rarity } => {
            let mut digits = Buffer::new();
            append_line(into, &[b"failure", name, digits.format(rarity).as_bytes()])
        }
        Kind::Or { lag } => append_discrepancy(version, b"or", name, lag, into),
        Kind::And { lag } => append_discrepancy(version, b"and", name, lag, into),
    }
}

/// Appends the line of a discrepancy of this keyword.
fn append_discrepancy(
    version: Version,
    keyword: &[u8],
    name: &[u8],
    lag: Option<Lag>,
    into: &mut Vec<u8>,
) -> Result<(), NoMemory>
    ensures { Appends result into.old.items into.new.items
        (text_line (keyword.now ∷ name.now ∷ watch_words version lag)) }
{
    match lag {
        Some(lag) => append_monitored(version, keyword, name, lag, into),
        None => append_line(into, &[keyword, name, b"hidden"]),
    }
}

/// Appends the line of a monitored discrepancy of this keyword.
fn append_monitored(
    version: Version,
    keyword: &[u8],
    name: &[u8],
    lag: Lag,
    into: &mut Vec<u8>,
) -> Result<(), NoMemory>
    ensures { Appends result into.old.items into.new.items
        (text_line (keyword.now ∷ name.now ∷ watch_words version (Some lag))) }
{
    let mut most_digits = Buffer::new();
    let most = most_digits.format(lag.most).as_bytes();
    match version {
        Version::One => append_line(into, &[keyword, name, b"watch", most]),
        Version::Two => {
            let mut least_digits = Buffer::new();
            let least = least_digits.format(lag.least).as_bytes();
            append_line(into, &[keyword, name, b"watch", least, most])
        }
    }
}
