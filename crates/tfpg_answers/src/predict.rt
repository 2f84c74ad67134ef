//! When a node becomes active at the earliest, by each ranked hypothesis after the lines of a log, as a text.

mod forecast_lines;
mod forecasts;
mod probing;
mod query;

pub use forecasts::forecasts_text;
pub use probing::{ForecastRequest, ProbeFault, probed_node};
