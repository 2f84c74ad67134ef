//! Calls over texts in memory, for programs that have no files and no streams.
//!
//! [`ask_texts`], [`predict_texts`] and [`explain_texts`] return what the program writes for the commands `ask`, `predict` and `explain`,
//! or say why there is no such text. Of several causes they say the one that the program finds first.

mod asking;
mod explaining;
mod fault;
mod predicting;

pub use asking::ask_texts;
pub use explaining::explain_texts;
pub use fault::{AskTextsFault, ExplainTextsFault, PredictTextsFault};
pub use predicting::predict_texts;
