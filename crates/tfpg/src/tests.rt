//! The limits and the defaults that definitions cite, against their numerals: a change of one changes what is promised.

use std::test::Fail;
use tfpg_base::{
    BUFFER_SIZE, LONGEST_FILE, LONGEST_LINE, LONGEST_NAME, MAX_BUDGET, MAX_BYTES, MAX_CASE_SIZE,
    MAX_DOUBT, MAX_K, MAX_LINE_NUMBER, MAX_MEMBERS, MAX_NODE_NUMBERS, MAX_PANEL_NUMBER, MAX_TIME,
    MAX_VEHICLES, MAX_WORDS, NEVER,
};
use tfpg_clause::MAX_CONSTRAINTS;
use tfpg_fleet::MAX_FLEET_HYPOTHESES;
use tfpg_graph::{MAX_EDGES, MAX_FAILURES, MAX_INCOMING, MAX_MODES, MAX_NODES, MAX_RARITY};
use tfpg_hyp::{DOUBT_COST, MAX_HYPOTHESES};
use tfpg_log::{MAX_EVENTS, MAX_MODE_CHANGES};
use tfpg_run::{GENERATED_BUDGET, GENERATED_K};
use tfpg_sim::{
    DELAY_STREAM, FAILURE_COUNT, GENERATED_DELAYS, GRAPH_STREAM, MAX_ENTRIES, OPEN_DELAYS,
};
use tfpg_words::{
    DEFAULT_AHEAD, DEFAULT_BUDGET, DEFAULT_DOUBT, DEFAULT_DRAW, DEFAULT_K, DEFAULT_SIZE, MAX_DRAW,
};

/// A name, the constant, and the number that is promised.
const LIMITS: [(&str, u64, u64); 44] = [
    ("bytes of a file", LONGEST_FILE as u64, 16_777_216),
    ("bytes of a line", LONGEST_LINE as u64, 4_096),
    ("bytes of a name", LONGEST_NAME as u64, 32),
    ("bytes of a buffer", BUFFER_SIZE as u64, 65_536),
    ("bytes of an input", MAX_BYTES, 4_294_967_296),
    ("words of a line", MAX_WORDS as u64, 9),
    ("greatest time", MAX_TIME, 1_000_000_000_000),
    ("never", NEVER, 1_000_000_000_001),
    ("members of a set", MAX_MEMBERS as u64, 64),
    ("numbers of a set of nodes", MAX_NODE_NUMBERS as u64, 512),
    ("nodes of a graph", MAX_NODES as u64, 512),
    ("failure modes of a graph", MAX_FAILURES as u64, 64),
    ("edges of a graph", MAX_EDGES as u64, 2_048),
    ("edges into a node", MAX_INCOMING as u64, 32),
    ("modes of a graph", MAX_MODES as u64, 64),
    ("greatest rarity", MAX_RARITY, 1_000_000),
    ("events of a log", MAX_EVENTS as u64, 65_536),
    ("changes of mode of a log", MAX_MODE_CHANGES as u64, 1_024),
    ("constraints of an alternative", MAX_CONSTRAINTS as u64, 3),
    ("hypotheses", MAX_HYPOTHESES as u64, 4_096),
    ("hypotheses of a fleet", MAX_FLEET_HYPOTHESES as u64, 8_192),
    ("vehicles of a stream", MAX_VEHICLES as u64, 64),
    ("entries of a script", MAX_ENTRIES as u64, 8_192),
    (
        "delays of an edge without a greatest one",
        OPEN_DELAYS,
        1_000,
    ),
    ("delays of a generated edge", GENERATED_DELAYS as u64, 50),
    (
        "failure modes of a generated graph",
        FAILURE_COUNT as u64,
        16,
    ),
    ("stream of a graph", GRAPH_STREAM, 1),
    ("stream of the delays", DELAY_STREAM, 2),
    ("greatest size", MAX_CASE_SIZE, 100),
    ("greatest k", MAX_K, 64),
    ("greatest doubt", MAX_DOUBT, 4),
    ("cost of a doubt", DOUBT_COST, 1_000),
    ("greatest budget", MAX_BUDGET, 1_000_000_000_000),
    (
        "greatest number of a line",
        MAX_LINE_NUMBER,
        9_223_372_036_854_775_807,
    ),
    (
        "greatest number of a panel",
        MAX_PANEL_NUMBER,
        9_223_372_036_854_775_807,
    ),
    ("greatest draw", MAX_DRAW, 1_000_000_000_000),
    ("k by default", DEFAULT_K, 2),
    ("doubt by default", DEFAULT_DOUBT, 0),
    ("budget by default", DEFAULT_BUDGET, 1_000),
    ("milliseconds ahead by default", DEFAULT_AHEAD, 1_000),
    ("draw by default", DEFAULT_DRAW, 1),
    ("size by default", DEFAULT_SIZE, 10),
    ("k of a generated diagnosis", GENERATED_K as u64, 2),
    ("budget of a generated diagnosis", GENERATED_BUDGET, 50),
];

#[test]
fn limits_and_defaults_are_those_promised(rt: HostRuntime) -> Result<(), Fail> {
    for (name, limit, promised) in &LIMITS {
        assert_eq!(rt; limit, promised, "{name}");
    }
    Ok(())
}
