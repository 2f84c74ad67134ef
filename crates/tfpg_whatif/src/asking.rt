//! What is asked, lent, and the event after which it is asked.

ghost use Rattle.std.specs.Prelude.{◌≡◌, []};
ghost use Rattle.tfpg_log.specs.Log.{IsLogOf};
ghost use Rattle.tfpg_whatif.specs.Laws.{IsWellAsked};
ghost use Rattle.tfpg_whatif.specs.inside.Asking.{IsAsking, asked_by};

use crate::outcome::Outcome;
use tfpg_base::{Hypothesis, NumberList, Set};
use tfpg_engine::Engine;
use tfpg_graph::{Graph, NodeSet};
use tfpg_log::{Event, Log};
use tfpg_search::Search;

/// Which hypotheses of an engine are asked about, by their numbers, and with which budget.
#[derive(Clone, Copy)]
pub(crate) struct Asking<'a> {
    pub(crate) engine: &'a Engine,
    pub(crate) among: &'a NumberList,
    /// At least 1.
    pub(crate) budget: u64,
}

/// A hypothesis that is asked about, by the log as it sees it.
#[derive(Clone, Copy)]
pub(crate) struct Subject<'a> {
    pub(crate) graph: &'a Graph,
    pub(crate) log: &'a Log,
    pub(crate) hypothesis: Hypothesis,
    /// What it reaches.
    pub(crate) reach: NodeSet,
    /// Its search in the engine, where there is one.
    pub(crate) kept: Option<&'a Search>,
    /// At least 1.
    pub(crate) budget: u64,
}

impl<'a> Subject<'a> {
    /// The failure modes of the hypothesis.
    pub(crate) fn set(&self) -> Set
        ensures { result ≡ self.now.hypothesis.set }
    {
        self.hypothesis.set
    }
}

/// The last event of the log at which is asked, and outcomes at the log before it: of the first hypotheses that are asked about.
#[derive(Clone, Copy)]
pub(crate) struct LastEvent<'a> {
    pub(crate) event: Event,
    pub(crate) before: &'a [Outcome],
}

impl<'a> LastEvent<'a> {
    /// The event, where no outcome before it is known.
    pub(crate) fn alone(event: Event) -> LastEvent<'a>
        ensures event { result.event ≡ event }
        ensures none { result.before.now ≡ [] }
    {
        LastEvent { event, before: &[] }
    }
}

/// What is asked makes sense at a log of the graph. It does nothing.
pub(crate) fn is_well_asked(asking: &Asking<'_>, log: &Log)
    requires asking { IsAsking asking.now }
    requires log { IsLogOf asking.now.engine.now.graph log.now }
    ensures { IsWellAsked (asked_by asking.now log.now) }
{
    let _table = asking.engine.table();
    asking.engine.graph().is_always_valid();
    log.is_always_ordered();
}
