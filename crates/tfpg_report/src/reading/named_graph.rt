//! A graph with guesses which node has a name.
//!
//! A report names the same nodes on many lines. To look whether the guessed node has a name takes less than a look-up in the map of the
//! graph.

ghost use Rattle.std.specs.Prelude.{◌≡◌, ◌<◌, ◌≤◌, IfSome, Some, length};
ghost use Rattle.tfpg_graph.specs.Graph.{edge_from_to, is_monitored, node_named, position_of_failure};
ghost use Rattle.tfpg_graph.specs.Valid.{IsValid};
ghost use Rattle.tfpg_graph.specs.ZeroCycle.{HasZeroOrder};
ghost use Rattle.tfpg_graph.specs.declared.limits.TheConstants.{MAX_NODES};

use std::marker::Model;
use tfpg_graph::Graph;

/// How many guesses there are.
const GUESSES: usize = 1024;

/// For each remainder of names a node that may have such a name. A wrong guess costs time alone.
#[derive(Drop)]
pub(crate) struct NameGuesses {
    nodes: [u16; GUESSES],
    are_made: bool,
}

impl NameGuesses {
    /// The guesses for a graph that is not known yet. Takes no memory.
    pub(crate) fn new() -> NameGuesses {
        NameGuesses {
            nodes: [0; GUESSES],
            are_made: false,
        }
    }

    /// Guesses by the names of this graph, once. Takes time linear in the graph the first time.
    pub(crate) fn make(&mut self, graph: &Graph) {
        if self.are_made {
            return;
        }
        self.are_made = true;
        graph.is_always_valid();
        for node in 0..graph.node_count() {
            self.nodes[remainder(graph.name(node))] = node as u16;
        }
    }

    /// The guesses.
    pub(crate) fn as_slice(&self) -> &[u16] {
        &self.nodes
    }
}

/// A number below [`GUESSES`] by the bytes of a name. Names that differ in their last three digits alone have different ones.
fn remainder(name: &[u8]) -> usize
    ensures { result < GUESSES }
{
    let mut remainder = 0;
    for byte in name {
        remainder = (remainder * 10 + usize::from(*byte)) % GUESSES;
    }
    remainder
}

/// A graph with guesses which node has a name. Contracts see it as the graph.
#[derive(Drop)]
pub(crate) struct NamedGraph<'a> {
    graph: &'a Graph,
    guesses: &'a [u16],
}

impl<'a> Model for NamedGraph<'a> {
    ghost use Rattle.tfpg_graph.specs.Graph.{Tfpg};

    ghost Value = { Tfpg };

    ghost view = { λ named. named.graph.now };
}

impl<'a> NamedGraph<'a> {
    /// The graph without a guess.
    pub(crate) fn unguessed(graph: &'a Graph) -> NamedGraph<'a>
        ensures { result ≡ graph.now }
    {
        NamedGraph {
            graph,
            guesses: &[],
        }
    }

    /// The graph with these guesses, which may be any.
    pub(crate) fn with_guesses(graph: &'a Graph, guesses: &'a NameGuesses) -> NamedGraph<'a>
        ensures { result ≡ graph.now }
    {
        NamedGraph {
            graph,
            guesses: guesses.as_slice(),
        }
    }

    /// Does nothing: brings into a proof that the graph is valid.
    pub(crate) fn is_always_valid(&self)
        ensures valid { IsValid self.now }
        ensures few { length self.now.nodes ≤ MAX_NODES }
        ensures order { HasZeroOrder self.now }
    {
        self.graph.is_always_valid();
    }

    /// The node of this name: the guessed one, if it has the name, else by one look-up in a map.
    pub(crate) fn find(&self, name: &[u8]) -> Option<u32>
        ensures { result ≡ node_named self.now name.now }
    {
        match self.guess(name) {
            Some(node) => Some(node),
            None => self.graph.find(name),
        }
    }

    /// The guessed node, if it has this name.
    fn guess(&self, name: &[u8]) -> Option<u32>
        ensures { IfSome result (λ node. node_named self.now name.now ≡ Some node) }
    {
        self.graph.is_always_valid();
        let guess = u32::from(*self.guesses.get(remainder(name))?);
        if guess < self.graph.node_count() && self.graph.name(guess) == name {
            Some(guess)
        } else {
            None
        }
    }

    /// The edge from the one node to the other. Goes through the edges into the other.
    pub(crate) fn edge_between(&self, source: u32, target: u32) -> Option<u32>
        requires source_in { source < length self.now.nodes }
        requires target_in { target < length self.now.nodes }
        ensures { result ≡ edge_from_to self.now source target }
    {
        self.graph.edge_between(source, target)
    }

    /// Whether it is a node that is monitored. The number may be any.
    pub(crate) fn is_monitored(&self, node: u32) -> bool
        ensures { result ≡ is_monitored self.now node }
    {
        self.graph.is_monitored(node)
    }

    /// The position of the node among the failure modes, where it is one.
    pub(crate) fn place_of(&self, node: u32) -> Option<u32>
        requires { node < length self.now.nodes }
        ensures { result ≡ position_of_failure self.now node }
    {
        self.graph.place_of(node)
    }
}
