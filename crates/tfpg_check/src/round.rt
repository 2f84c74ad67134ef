//! The tests of a round. They are made in this order: its steps, its ranked, open and rejected lines, the statuses, the counts.

pub(crate) mod counts;
pub(crate) mod largest_parts;
pub(crate) mod lookup;
pub(crate) mod parts;
pub(crate) mod ranked;
pub(crate) mod rejected;
pub(crate) mod statuses;
mod steps;
pub(crate) mod unsettled;
