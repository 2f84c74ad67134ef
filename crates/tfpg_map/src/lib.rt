//! Maps: a set of failure modes and of monitors that are ignored, and a trace, as a text.
//!
//! [`read_map`] reads the [`Map`] that the lines of an input spell, or says by [`NoMap`] why there is none. [`map_text`] is the text of a
//! map that ignores no monitor. [`laws`] says that lines spell at most one map, and that the text of a map spells it.
//!
//! ```
//! let map = read_map(alloc, &graph, &mut input)?;
//! let text = map_text(alloc, &graph, map.set(), &map.trace)?;
//! ```
//!
//! # Proved, and by which clause
//!
//! - The one map that the lines of the input spell: `read_map`, `map`; why there is none: `read_map`, `none`.
//! - The text of a map: `map_text`; that it spells the map: law `the_text_of_a_map_spells_it`.
//! - One map at most: law `lines_spell_at_most_one_map`.
#![tactic(auto)]

pub mod laws;
mod lines;
mod map;
mod reading;
mod text;

pub use map::{Map, NoMap};
pub use reading::read_map;
pub use text::map_text;
