//! The diagnoser for C: a static library, whose header is `include/tfpg.h`.
//!
//! [`tfpg_report`] writes the report of a whole log into a room, and [`tfpg_check`] judges one. [`tfpg_ask`], [`tfpg_predict`] and
//! [`tfpg_explain`] write what the program writes for these commands. A [`TfpgSession`] takes one line after the other: [`tfpg_open`] opens it, [`tfpg_line`] takes a line and [`tfpg_event`] an event without a text, [`tfpg_block`] writes the
//! block of the last one into a room, and [`tfpg_close`] closes it. What the block says is had as numbers too: [`tfpg_result_of`] has those
//! of the last line and the last round, [`tfpg_ranked_at`] those of a hypothesis that this ranks, and [`tfpg_index`] and [`tfpg_name`] lead
//! from names to indexes and back. Events and numbers make no text. Each call but `tfpg_close` answers by a [`TfpgAnswer`], whose status is
//! [`DONE`] or another of the constants.
//! What opens, takes a line, reports or judges calls `tfpg_diagnose`, what asks, predicts or explains `tfpg_answers`, and its clause says
//! what came of that.
//!
//! [`laws`] says that the statuses and the kinds are the numbers that the header has, and that each number says one thing.
//!
//! # Proved, and by which clause
//!
//! - The rows of the library for C in `docs/promises.md`: what each call answers, writes and leaves.
//!
//! # Not proved
//!
//! - That a C program passes what the header asks for.
#![tactic(auto)]

mod answer;
mod event_lines;
mod kinds;
pub mod laws;
mod names;
mod ranking;
mod results;
mod room;
mod session;
mod status;
mod text_calls;

pub use answer::TfpgAnswer;
pub use kinds::{ALARM, FAILURE_NAME, MODE, MODE_NAME, NODE_NAME, SILENT, SWEEP, TICK};
pub use ranking::TfpgRanked;
pub use results::TfpgResult;
pub use session::{
    TfpgSession, tfpg_block, tfpg_close, tfpg_event, tfpg_index, tfpg_line, tfpg_name, tfpg_open,
    tfpg_ranked_at, tfpg_result_of,
};
pub use status::{
    BAD_GRAPH, BAD_MAP, DONE, ENDED, FULL_GRAPH, NO_MEMORY, NO_SUCH, NOT_ACCEPTED, OUT_OF_RANGE,
    ROOM_TOO_SMALL, TOO_MANY_HYPOTHESES, TOO_MUCH_INPUT,
};
pub use text_calls::{
    TfpgPredictionTerms, tfpg_ask, tfpg_check, tfpg_explain, tfpg_predict, tfpg_report,
};
