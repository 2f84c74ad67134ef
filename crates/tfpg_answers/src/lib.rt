//! What `ask`, `predict` and `explain` answer, over texts in memory.
//!
//! [`questions_text`] says which questions would tell most after the lines of a log, and [`forecasts_text`] when a node becomes active at
//! the earliest, by each ranked hypothesis. [`verdict_on_map`] says whether a map explains the log. All three take a graph and the text of
//! a log, whose lines that are refused leave no trace.
//!
//! For programs that have no files and no streams there are calls over texts alone: [`ask_texts`], [`predict_texts`] and
//! [`explain_texts`].
//!
//! ```
//! let asked = ForecastRequest { terms, ahead: 1000, node: b"PressureLow" };
//! let text = predict_texts(alloc, graph_text, log_text, &asked)?;
//! ```
//!
//! # Proved, and by which clause
//!
//! - The questions after a log, and their text: `questions_text`, `questions`.
//! - The forecasts of a node, and their text: `forecasts_text`, `forecasts`; which node takes a probe: `probed_node`.
//! - That a text is missing for too many hypotheses alone, or for memory: `questions_text` and `forecasts_text`, `too_many`.
//! - The verdict on a map, by the log that ignores the monitors of the map: `verdict_on_map`.
//! - What comes of texts, and which cause is said where there is no answer: `ask_texts`, `predict_texts`, `explain_texts`.
//!
//! # Not proved
//!
//! - That a call does not run out of memory.
#![tactic(auto)]

mod ask;
mod explain;
mod predict;
mod texts;

pub use ask::questions_text;
pub use explain::verdict_on_map;
pub use predict::{ForecastRequest, ProbeFault, forecasts_text, probed_node};
pub use texts::{
    AskTextsFault, ExplainTextsFault, PredictTextsFault, ask_texts, explain_texts, predict_texts,
};
