//! The public calls of `tfpg_base`: the outside, lines, and values such as lists and traces.

mod lines;
mod outside;
mod values;
