//! Graphs and rounds as JSON, for the tools that read it.
//!
//! - [`read_graph`] reads a graph from JSON, and [`write_graph`] writes one: an object with `modes`, `nodes` and `edges`.
//! - [`write_round`] writes a round as one line.
//! - [`laws`] says that what is written of a graph is read back as the same graph.
//!
//! A failure `F` that shows by the alarm `A` at most three milliseconds later:
//!
//! ```
//! let graph = read(alloc, b"tfpg 1\nmode N\nfailure F 1\nor A watch 0\nedge F A 1 3 *\nend\n")?;
//! let mut text = Vec::new(alloc);
//! write_graph(&graph, &mut text)?;
//! // {"edges":[{"from":"F","max":3,"min":1,"modes":["N"],"to":"A"}],"modes":["N"],
//! // "nodes":[{"kind":"failure","name":"F","rarity":1},{"kind":"or","lag":0,"name":"A"}]}
//! ```
//!
//! # Proved, and by which clause
//!
//! - A graph from JSON, exactly, or its first fault: `read_graph`, `spelled`, `valid`, `exact`, `refused`, `faulty`.
//! - The line of a graph, and of a round: `write_graph`, `write_round`.
//! - The way back: law `a_written_graph_is_read_back`.
#![tactic(auto)]

pub mod laws;
mod reading;
mod writing;

pub use reading::read_graph;
pub use writing::{write_graph, write_round};
