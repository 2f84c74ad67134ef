//! The outside in memory, for tests and for bytes that are at hand.
//!
//! Contracts know the contents of [`MemorySource`], [`MemorySink`] and [`MemoryShelf`]. Each is made with the numbers
//! of the calls at which it fails. Calls are numbered from 1. A count of faults stands still at the last value of its
//! type. A [`SteadySource`] never fails.

mod bytes_left;
mod failing_calls;
mod memory_shelf;
mod memory_sink;
mod memory_source;
mod steady_source;

pub use memory_shelf::MemoryShelf;
pub use memory_sink::MemorySink;
pub use memory_source::MemorySource;
pub use steady_source::SteadySource;
