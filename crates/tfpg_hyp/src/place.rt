//! By what ranked hypotheses are ordered.

/// Two counts, which are not reduced.
#[derive(Clone, Copy, Debug, PartialEq, Eq)]
pub struct Fraction {
    pub alarmed: u32,
    pub monitored: u32,
}

/// By what a ranked hypothesis is ordered: its cost, then its robustness, then its number.
#[derive(Clone, Copy, PartialEq, Eq)]
pub struct Place {
    pub cost: u64,
    pub robust: Fraction,
    pub number: u32,
}
