//! Timed failure propagation graphs: failure modes and discrepancies as nodes, propagations with their delays and
//! system modes as edges.
//!
//! - [`read`] reads the text of a graph, and [`write`] writes it. [`append_node`] writes the line of one node, as a text of
//!   a [`Version`] has it, and [`append_edge_start`] that of one edge up to its greatest delay.
//! - [`Graph`] is a valid graph with its look-ups. [`Kind`], with [`Lag`], and [`Edge`] are its parts.
//! - [`NodeSet`] is a set of its nodes. [`Graph::reach`] returns the nodes that a set of failure modes reaches, and
//!   [`Graph::reach_with`] those of the set with one more, by [`Onward`].
//! - [`GraphCause`] says what is wrong with a text that spells no valid graph, and [`GraphFault`] in which line.
//!   [`GraphRefusal`] is that fault, or out of memory. [`graph_cause_word`] is the name of a cause.
//! - [`MAX_NODES`] and the other limits say how much a graph may have of each thing.
//! - [`laws`] has the laws of the definitions that the contracts cite.
//!
//! A failure mode `F` that shows by the alarm `A` at most three milliseconds later:
//!
//! ```
//! let graph = read(rt.alloc(), b"tfpg 1\nmode N\nfailure F 1\nor A watch 0\nedge F A 1 3 *\nend\n")?;
//! let reached = graph.reach(Set::empty().with(0));
//! assert_eq!(rt; graph.find(b"A"), Some(1));
//! assert!(rt; reached.has(1));
//! ```
//!
//! # Proved, and by which clause
//!
//! - A text is read exactly, or refused with its first fault: `read`, `spelled`, `valid`, `exact`, `refused`, `faulty`.
//! - Its canonical text: `write`.
//! - Reach: `Graph::reach`, `Graph::reach_with`.
//! - That a text spells a valid graph or has a first fault: its laws.
#![tactic(auto)]

mod cause;
mod cause_names;
mod declared;
mod edge;
mod graph;
mod kind;
pub mod laws;
mod limits;
mod node_steps;
mod probe;
mod reach;
mod reading;
mod version;
mod writing;
mod zero_cycle;

pub use cause::{GraphCause, GraphFault, GraphRefusal};
pub use cause_names::graph_cause_word;
pub use edge::Edge;
pub use graph::Graph;
pub use kind::{Kind, Lag};
pub use limits::{MAX_EDGES, MAX_FAILURES, MAX_INCOMING, MAX_MODES, MAX_NODES, MAX_RARITY};
pub use reach::{NodeSet, Onward};
pub use reading::read;
pub use version::Version;
pub use writing::{append_edge_start, append_node, write};
