//! The kinds of clauses.

ghost use Rattle.std.specs.Prelude.{◌≡◌};

use tfpg_evidence::ClauseName;
use tfpg_graph::Graph;

/// A kind of clause, in the order of the names of one horizon.
#[derive(Clone, Copy)]
pub(crate) enum ClauseKind {
    OrMay,
    AndMay,
    OrMust,
    AndMust,
}

/// All kinds, in their order.
pub(crate) const KINDS: [ClauseKind; 4] = [
    ClauseKind::OrMay,
    ClauseKind::AndMay,
    ClauseKind::OrMust,
    ClauseKind::AndMust,
];

impl ClauseKind {
    ghost use Rattle.tfpg_clause.specs.inside.FirstSpan.{named, subject_count};

    /// The name of the clause of this kind, of a node or an edge and of a span up to a horizon.
    pub(crate) fn named(self, subject: u32, span: u32, horizon: u64) -> ClauseName
        ensures { result ≡ named self subject span horizon }
    {
        match self {
            ClauseKind::OrMay => ClauseName::OrMay {
                node: subject,
                span,
                horizon,
            },
            ClauseKind::AndMay => ClauseName::AndMay {
                edge: subject,
                span,
                horizon,
            },
            ClauseKind::OrMust => ClauseName::OrMust {
                edge: subject,
                span,
                horizon,
            },
            ClauseKind::AndMust => ClauseName::AndMust {
                node: subject,
                span,
                horizon,
            },
        }
    }

    /// How many nodes or edges of the graph may have a clause of this kind.
    pub(crate) fn subject_count(self, graph: &Graph) -> u32
        ensures { result ≡ subject_count graph.now self }
    {
        match self {
            ClauseKind::OrMay | ClauseKind::AndMust => graph.node_count(),
            ClauseKind::AndMay | ClauseKind::OrMust => graph.edge_count(),
        }
    }
}
