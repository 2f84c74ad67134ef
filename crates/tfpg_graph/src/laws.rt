//! The laws of the crate's definitions, as functions that do nothing: each says its law in its clauses.

ghost use Rattle.std.specs.Prelude.{◌≡◌, ◌↔◌, ◌⊎◌, ◌<◌, ℕ, List, length, Bool, IsTrue, All, Contains, Some};
ghost use Rattle.tfpg_base.specs.Words.{is_name};
ghost use Rattle.tfpg_graph.specs.declared.cause.GraphFault.{GraphFault};
ghost use Rattle.tfpg_graph.specs.declared.version.Version.{Version};
ghost use Rattle.tfpg_graph.specs.Graph.{Tfpg, incoming, failure_at, name_at, node_named};
ghost use Rattle.tfpg_graph.specs.Valid.{IsValid};
ghost use Rattle.tfpg_graph.specs.ZeroCycle.{HasZeroOrder};
ghost use Rattle.tfpg_graph.specs.Text.{Spells};
ghost use Rattle.tfpg_graph.specs.Statements.{Statement, SaysStatement, statement_of};
ghost use Rattle.tfpg_graph.specs.Faults.{IsFirstFault};
ghost use Rattle.tfpg_graph.specs.Laws.{TextsSpellAtMostOneGraph};
ghost use Rattle.tfpg_graph.specs.Reach.{IsClosed, IsReach, is_among};

/// What a set reaches is the least closed set of nodes: it is closed, each closed test passes all of it, and so there
/// is only one.
pub fn reach_is_the_least_closed_set()
    ensures closed { (graph : Tfpg) (set nodes : List ℕ) → IsReach graph set nodes →
        IsClosed graph set (is_among nodes) }
    ensures least { (graph : Tfpg) (set nodes : List ℕ) → IsReach graph set nodes →
        (test : ℕ → Bool) → IsClosed graph set test → All (λ node. IsTrue (test node)) nodes }
    ensures one { (graph : Tfpg) (set nodes others : List ℕ) →
        IsReach graph set nodes → IsReach graph set others → nodes ≡ others }
{}

/// A node is among the nodes of a list exactly where the list contains it.
pub fn being_among_nodes_is_being_contained()
    ensures { (nodes : List ℕ) (node : ℕ) → IsTrue (is_among nodes node) ↔ Contains nodes node }
{}

/// The edges into a node are edges of the graph, and the node of a failure mode is a node of it.
pub fn numbers_are_those_of_the_graph()
    ensures incoming { (graph : Tfpg) (node : ℕ) →
        All (λ edge. edge < length graph.edges) (incoming graph node) }
    ensures failure { (graph : Tfpg) (position node : ℕ) →
        failure_at graph position ≡ Some node → node < length graph.nodes }
{}

/// In a valid graph each node has a name, by which it is found; and what is found by a name has it.
pub fn a_node_is_found_by_its_name()
    ensures form { (graph : Tfpg) (node : ℕ) (name : List ℕ) → IsValid graph →
        name_at graph node ≡ Some name → IsTrue (is_name name) }
    ensures found { (graph : Tfpg) (node : ℕ) (name : List ℕ) → IsValid graph →
        name_at graph node ≡ Some name → node_named graph name ≡ Some node }
    ensures named { (graph : Tfpg) (node : ℕ) (name : List ℕ) →
        node_named graph name ≡ Some node → name_at graph node ≡ Some name }
{}

/// In each valid graph the nodes have ranks by which each edge that may take no time goes upwards.
pub fn a_valid_graph_has_a_zero_order()
    ensures { (graph : Tfpg) → IsValid graph → HasZeroOrder graph }
{}

/// A line says exactly the statement whose words it has, with a space between each two, in each version.
pub fn a_line_says_the_statement_whose_words_it_has()
    ensures { (version : Version) (line : List ℕ) (said : Statement) →
        (statement_of version line ≡ Some said) ↔ SaysStatement version line said }
{}

/// A text spells at most one valid graph.
pub fn a_text_spells_at_most_one_valid_graph()
    ensures { TextsSpellAtMostOneGraph }
{}

/// A text has at most one first fault, and one that spells a valid graph has none.
pub fn a_text_has_at_most_one_first_fault()
    ensures one { (text : List ℕ) (fault other : GraphFault) →
        IsFirstFault text fault → IsFirstFault text other → fault ≡ other }
    ensures none { (text : List ℕ) (graph : Tfpg) → Spells text graph → IsValid graph →
        (fault : GraphFault) → IsFirstFault text fault → ⊥ }
{}

/// Every text spells a valid graph, or has a first fault.
pub fn a_text_spells_a_valid_graph_or_has_a_first_fault()
    ensures { (text : List ℕ) → ((graph : Tfpg) × Spells text graph × IsValid graph) ⊎
        ((fault : GraphFault) × IsFirstFault text fault) }
{}
