//! Which nodes a set of failure modes reaches.

ghost use Rattle.std.specs.Prelude.{◌≡◌, ◌<◌, ◌↔◌, ◌⊎◌, ℕ, length, All, Contains, IsTrue, false};
ghost use Rattle.tfpg_graph.specs.Graph.{failures};
ghost use Rattle.tfpg_graph.specs.Reach.{IsReach};
ghost use Rattle.tfpg_graph.specs.inside.reach.Reaching.{HasSourceIn, HasAllSourcesIn, IsFed, IsFullBefore, AreReached, Widens};

mod growing;
mod node_set;
mod onward;

use crate::graph::Graph;
use crate::kind::Kind;
use crate::limits::MAX_NODES;
pub use node_set::NodeSet;
pub use onward::Onward;
use tfpg_base::Set;

impl Graph {
    /// The nodes that a set of failure modes, given by their positions, can reach whatever the times are: their own
    /// nodes, each OR discrepancy with a source among them, and each AND discrepancy with all its sources among them.
    ///
    /// It is the least fixed point, found by iteration: sweeps over all nodes, up and down in turn, until one adds
    /// nothing. A sweep takes time linear in the number of nodes and edges. Where the numbers of the nodes rise or fall along
    /// the edges, three sweeps are enough; at worst each sweep adds one node. Takes no memory.
    pub fn reach(&self, set: Set) -> NodeSet
        requires members { All (λ position. position < length (failures self.now)) set }
        ensures { IsReach self.now set result }
    {
        let mut reached = self.own_nodes(set);
        while self.sweep_up(&mut reached) {
            self.sweep_down(&mut reached);
        }
        reached
    }

    /// The nodes of the failure modes in the set.
    fn own_nodes(&self, set: Set) -> NodeSet
        ensures { AreReached self.now set result }
    {
        self.is_always_valid();
        let mut nodes = NodeSet::empty();
        for position in 0..self.failure_count() {
            if set.has(position) {
                nodes = nodes.with(self.failure_node(position));
            }
        }
        nodes
    }

    /// Goes once over the nodes by rising numbers, and adds what is fed. Says whether it added a node.
    fn sweep_up(&self, reached: &mut NodeSet) -> bool
        ensures widens { Widens self.now reached.old reached.new }
        ensures added { IsTrue result → length reached.old < length reached.new }
        ensures full { result ≡ false → IsFullBefore self.now reached.new (length self.now.nodes) }
    {
        let mut added = false;
        for node in 0..self.node_count() {
            if self.add_if_fed(reached, node) {
                added = true;
            }
        }
        added
    }

    /// Goes once over the nodes by falling numbers, and adds what is fed.
    fn sweep_down(&self, reached: &mut NodeSet)
        ensures { Widens self.now reached.old reached.new }
    {
        for node in (0..self.node_count()).rev() {
            self.add_if_fed(reached, node);
        }
    }

    /// Adds the node where the set feeds it. Says whether it added it.
    fn add_if_fed(&self, reached: &mut NodeSet, node: u32) -> bool
        requires within { node < length self.now.nodes }
        requires small { node < MAX_NODES }
        ensures widens { Widens self.now reached.old reached.new }
        ensures added { IsTrue result → length reached.old < length reached.new }
        ensures same { result ≡ false → reached.new ≡ reached.old }
        ensures full { result ≡ false → IsFed self.now reached.new node → Contains reached.new node }
        ensures here { IsTrue result → Contains reached.new node }
        ensures only { (other : ℕ) → Contains reached.new other → (node ≡ other) ⊎ Contains reached.old other }
    {
        if reached.has(node) || !self.is_fed(reached, node) {
            return false;
        }
        *reached = reached.with(node);
        true
    }

    /// Whether the node is a discrepancy that is reached where these nodes are.
    fn is_fed(&self, nodes: &NodeSet, node: u32) -> bool
        requires { node < length self.now.nodes }
        ensures { IsTrue result ↔ IsFed self.now nodes.now node }
    {
        match self.kind(node) {
            Kind::Failure { rarity: _ } => false,
            Kind::Or { lag: _ } => self.has_source_in(nodes, node),
            Kind::And { lag: _ } => self.has_all_sources_in(nodes, node),
        }
    }

    fn has_source_in(&self, nodes: &NodeSet, node: u32) -> bool
        requires { node < length self.now.nodes }
        ensures { IsTrue result ↔ HasSourceIn self.now nodes.now node }
    {
        for number in self.incoming(node) {
            if nodes.has(self.edge(*number).source) {
                return true;
            }
        }
        false
    }

    fn has_all_sources_in(&self, nodes: &NodeSet, node: u32) -> bool
        requires { node < length self.now.nodes }
        ensures { IsTrue result ↔ HasAllSourcesIn self.now nodes.now node }
    {
        for number in self.incoming(node) {
            if !nodes.has(self.edge(*number).source) {
                return false;
            }
        }
        true
    }
}
