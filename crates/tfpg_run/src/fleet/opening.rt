//! What stands before the answers.

ghost use Rattle.std.specs.Prelude.{◌≡◌, ◌++◌, IfOk};
ghost use Rattle.tfpg_base.specs.Append.{Appends};
ghost use Rattle.tfpg_report.specs.Blocks.{head_text};
ghost use Rattle.tfpg_run.specs.fleet.Answers.{naming_text, opening_text};

use super::watch::Vehicles;
use std::alloc::Global;
use tfpg_base::{Bytes, NoMemory, Terms, append_line};
use tfpg_report::head;

/// For each vehicle the line with its name, and the first line of a report.
pub(super) fn opening_of(alloc: Global, vehicles: &Vehicles<'_>) -> Result<Vec<u8>, NoMemory>
    ensures { IfOk result (λ text. text.items ≡ opening_text vehicles.now.names.now vehicles.now.terms) }
{
    opening_on(alloc, vehicles.names.as_slice(), vehicles.terms)
}

/// For each of the names its line, and the first line of a report on these terms.
fn opening_on(alloc: Global, names: &[Bytes], terms: Terms) -> Result<Vec<u8>, NoMemory>
    ensures { IfOk result (λ text. text.items ≡ opening_text names.now terms) }
{
    let mut text = Vec::new(alloc);
    for name in names {
        append_opening(name.as_slice(), terms, &mut text)?;
    }
    Ok(text)
}

/// Appends the line with the name of a vehicle, and the first line of a report.
fn append_opening(name: &[u8], terms: Terms, into: &mut Vec<u8>) -> Result<(), NoMemory>
    ensures { Appends result into.old.items into.new.items (naming_text name.now ++ head_text terms) }
{
    append_name(name, into)?;
    head(terms.k, terms.doubt, terms.budget, into)
}

/// Appends the line with the name of a vehicle.
pub(super) fn append_name(name: &[u8], into: &mut Vec<u8>) -> Result<(), NoMemory>
    ensures { Appends result into.old.items into.new.items (naming_text name.now) }
{
    append_line(into, &[b"vehicle", name])
}
