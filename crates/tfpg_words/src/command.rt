//! What the words ask for.

ghost use Rattle.std.specs.Prelude.{◌≡◌, []};

use crate::panel_word::PanelWordList;
use std::alloc::Global;
use tfpg_base::{Items, Text};

/// A command with its values.
#[derive(Drop)]
pub enum Command {
    /// `diagnose [--k N] [--doubt N] [--budget N] GRAPH [PANEL]..`: reports on a log, for the hypotheses of at most `k` members,
    /// each a failure mode or a monitor that it doubts, and tells each panel every round. At most `doubt` of the members are monitors,
    /// and a hypothesis has at most `budget` splits in a round. `k` is at most [`MAX_K`](tfpg_base::MAX_K),
    /// [`DEFAULT_K`](crate::DEFAULT_K) by default;
    /// `doubt` is at most [`MAX_DOUBT`](tfpg_base::MAX_DOUBT), [`DEFAULT_DOUBT`](crate::DEFAULT_DOUBT) by default; `budget`
    /// is 1 to [`MAX_BUDGET`](tfpg_base::MAX_BUDGET), [`DEFAULT_BUDGET`](crate::DEFAULT_BUDGET) by default.
    Diagnose {
        k: u32,
        doubt: u32,
        budget: u64,
        graph: Text,
    },
    /// `check GRAPH LOG`: whether a text is the report on the log.
    Check {
        graph: Text,
        log: Text,
    },
    /// `explain GRAPH LOG`: whether a map explains the log.
    Explain {
        graph: Text,
        log: Text,
    },
    /// `simulate [--draw N] [--trace] GRAPH SCRIPT`: the log of a script, or with `--trace` its map. `draw` is at most
    /// [`MAX_DRAW`](crate::MAX_DRAW), [`DEFAULT_DRAW`](crate::DEFAULT_DRAW) by default.
    Simulate {
        draw: u64,
        trace: bool,
        graph: Text,
        script: Text,
    },
    /// `generate [--draw N] [--size N]`: the summary of a generated case. `draw` is at most [`MAX_DRAW`](crate::MAX_DRAW),
    /// [`DEFAULT_DRAW`](crate::DEFAULT_DRAW) by default; `size` is 1 to [`MAX_CASE_SIZE`](tfpg_base::MAX_CASE_SIZE),
    /// [`DEFAULT_SIZE`](crate::DEFAULT_SIZE) by default.
    Generate {
        draw: u64,
        size: u32,
    },
    /// `convert [--json] GRAPH`: the graph as JSON, or with `--json` the graph text of a graph that is JSON.
    Convert {
        json: bool,
        graph: Text,
    },
    /// `predict [--k N] [--doubt N] [--budget N] [--ahead N] GRAPH LOG NODE`: when at the earliest the node becomes active, by
    /// each ranked hypothesis of a diagnosis of the log. `k`, `doubt` and `budget` are those of `diagnose`; the budget is also
    /// that of each search. It looks `ahead` milliseconds past the last event, at most [`MAX_TIME`](tfpg_base::MAX_TIME),
    /// [`DEFAULT_AHEAD`](crate::DEFAULT_AHEAD) by default.
    Predict {
        k: u32,
        doubt: u32,
        budget: u64,
        ahead: u64,
        graph: Text,
        log: Text,
        node: Text,
    },
    /// `ask [--k N] [--doubt N] [--budget N] GRAPH LOG`: which observation would tell most after a log, for the hypotheses that its
    /// diagnosis leaves. The numbers are those of `diagnose`; `budget` is also that of each outcome of a question.
    Ask {
        k: u32,
        doubt: u32,
        budget: u64,
        graph: Text,
        log: Text,
    },
    /// `fleet [--k N] [--doubt N] [--budget N] GRAPH NAMES`: reports on the logs of many vehicles of one graph, whose lines come on
    /// one stream. The numbers are those of `diagnose`. `names` has the names of the vehicles with commas between: 1 to
    /// [`MAX_VEHICLES`](tfpg_base::MAX_VEHICLES), no two alike.
    Fleet {
        k: u32,
        doubt: u32,
        budget: u64,
        graph: Text,
        names: Text,
    },
}

/// What is to be done.
#[derive(Drop)]
pub struct Planned {
    pub command: Command,
    /// The panels of `diagnose`, in the order of the words: `top:FILE`, `count:FILE` or `json:FILE`. No other command has any.
    pub panels: PanelWordList,
}

impl Planned {
    /// The command alone, with no panels.
    pub(crate) fn alone(alloc: Global, command: Command) -> Planned
        ensures { result ≡ record { command = command; panels = [] } }
    {
        Planned {
            command,
            panels: Items::new(alloc),
        }
    }
}
