//! Panels: who watches a diagnosis is told each of its rounds.
//!
//! - [`Panel`] is told rounds one by one, and may fail, by a [`PanelFault`].
//! - [`Desk`] has boxed panels, which are numbered from 1. It tells each of its kept panels a round. One that fails is put aside as a
//!   [`LostPanel`], and told nothing more.
//! - [`laws`] says what telling one round after another comes to.
//! - [`SteadyPanel`] keeps the rounds that it is told, and never fails. [`MemoryPanel`] keeps them too, and fails at chosen calls. A panel
//!   that cannot lend its rounds has [`ToldRounds`], which contracts alone see.
//!
//! ```
//! let mut desk = Desk::new(alloc, panels)?;
//! desk.tell(&graph, &round);
//! for lost in desk.losses() {
//!     // lost.panel was lost at the round of the number lost.round
//! }
//! ```
//!
//! # Proved, and by which clause
//!
//! - Who is told a round, and who is lost: `Desk::tell`, `told`.
//! - Rounds in turn: laws `a_desk_is_told_round_by_round`, `the_losses_of_a_round_rise`.
#![tactic(auto)]

mod desk;
pub mod laws;
mod lost_panel;
mod memory_panel;
mod panel;
mod steady_panel;
mod told_rounds;

pub use desk::Desk;
pub use lost_panel::LostPanel;
pub use memory_panel::MemoryPanel;
pub use panel::{Panel, PanelFault};
pub use steady_panel::SteadyPanel;
pub use told_rounds::ToldRounds;
