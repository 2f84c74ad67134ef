//! The reader of the words that name panels.

ghost use Rattle.std.specs.Prelude.{◌≡◌, map, option_map};
ghost use Rattle.tfpg_words.specs.PanelWords.{kind_named, panel_named, panels_named};
ghost use Rattle.tfpg_words.specs.inside.PanelsOf.{NamesPanels, panel_over};

use crate::panel_word::{PanelKind, PanelWord, PanelWordList};
use crate::plan_fault::PlanFault;
use crate::usage_cause::UsageCause;
use std::alloc::Global;
use tfpg_base::{Items, Text};

/// The panels that the words name.
pub(crate) fn panels_of(alloc: Global, words: &[&str]) -> Result<PanelWordList, PlanFault>
    ensures { NamesPanels (panels_named (map (λ word. word.now) words.now)) result }
{
    let mut panels = Items::new(alloc);
    for word in words {
        panels.push(panel_of(alloc, word)?)?;
    }
    Ok(panels)
}

/// The panel that the word names.
fn panel_of(alloc: Global, word: &str) -> Result<PanelWord, PlanFault>
    ensures { NamesPanels (panel_named word.now) result }
{
    let (kind, file) = kind_and_file(word).ok_or(UsageCause::BadPanel)?;
    Ok(PanelWord {
        kind,
        file: Text::of(alloc, file)?,
    })
}

/// The kind and the file of the panel that the word names.
fn kind_and_file(word: &str) -> Option<(PanelKind, &str)>
    ensures { option_map (λ parts. panel_over parts.0 parts.1.now) result ≡ panel_named word.now }
{
    let (name, file) = word.split_once(':')?;
    if file.is_empty() {
        return None;
    }
    let kind = kind_named(name)?;
    Some((kind, file))
}

/// The kind of this name.
fn kind_named(name: &str) -> Option<PanelKind>
    ensures { result ≡ kind_named name.now }
{
    if name == "top" {
        Some(PanelKind::Top)
    } else if name == "count" {
        Some(PanelKind::Count)
    } else if name == "json" {
        Some(PanelKind::Json)
    } else {
        None
    }
}
