//! The table of hypotheses, their ranking, and what a round is.
//!
//! A hypothesis is a set of failure modes and a set of monitors that it doubts: at most `k` members, and at most `doubt` of them
//! monitors.
//!
//! - [`Table`] lists all hypotheses of a graph in order, with what each reaches. Where there are more than
//!   [`MAX_HYPOTHESES`], [`TableFault`] says how many.
//! - [`cost`] and [`robust`] find what ranks a hypothesis, its [`Place`], and [`before`] compares two keys. Robustness is
//!   a [`Fraction`]. A doubt costs [`DOUBT_COST`].
//! - [`laws`] says what follows from the definitions of the table, of the ranking order and of a round.
//!
//! In this crate a round is a definition alone (`specs/Rounds.antt`). `tfpg_engine` makes rounds.
//!
//! ```
//! let table = Table::new(alloc, &graph, 2, 1)?;
//! for number in 0..table.len() {
//!     let key = Place {
//!         cost: cost(&graph, table.set(number), table.doubts(number)),
//!         robust: robust(&graph, &log, table.reach(number), table.doubts(number)),
//!         number,
//!     };
//! }
//! ```
//!
//! # Proved, and by which clause
//!
//! - Each hypothesis of at most `k` members and `doubt` monitors once: `Table::new`, `table`, `too_many`.
//! - What statuses say of hypotheses, and that the ranking order is total: its laws.
//!
//! # Not proved
//!
//! - That cost by rarity ranks what is likely first.
#![tactic(auto)]

mod counting;
pub mod laws;
mod limits;
mod listing;
mod monitors;
mod place;
mod ranking;
mod reaches;
mod table;

pub use limits::{DOUBT_COST, MAX_HYPOTHESES};
pub use place::{Fraction, Place};
pub use ranking::{before, cost, robust};
pub use table::{Table, TableFault};
