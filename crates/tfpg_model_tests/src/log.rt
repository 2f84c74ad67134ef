//! The public calls of `tfpg_log`: what the look-ups and copies of logs say, and their spans and windows.

use crate::given::{compare, on_log};
use std::test::Fail;
use tfpg_graph::Graph;
use tfpg_log::{Log, Span, Window};

/// A failure mode, two monitored discrepancies and a hidden one, in two modes.
const GRAPH: &[u8] =
    b"tfpg 1\nmode N\nmode D\nfailure F 1\nor A watch 0\nor B hidden\nor C watch 7\nedge F A 1 3 *\nedge F B 2 inf *\nedge B C 9 9 *\nend\n";

/// Lines of which each is accepted.
const LINES: [&[u8]; 8] = [
    b"5 sweep",
    b"10 alarm C",
    b"10 sweep",
    b"12 silent A",
    b"12 mode D",
    b"20 mode N",
    b"20 mode D",
    b"25 mode N",
];

/// Instants with their modes.
const MODES: [(&str, u64, u32); 8] = [
    ("at 0", 0, 0),
    ("at the first change", 12, 0),
    ("after the first change", 13, 1),
    ("at two changes", 20, 1),
    ("after two changes", 21, 1),
    ("at the last change", 25, 1),
    ("after the last change", 26, 0),
    ("at the greatest number", u64::MAX, 0),
];

/// Compares what the look-ups of a log of these lines say.
fn compare_look_ups(graph: &Graph, log: &Log) -> Result<(), Fail> {
    for (row, instant, mode) in &MODES {
        if log.mode_at(*instant) != *mode {
            return Err(Fail::new(*row));
        }
    }
    compare(&[
        ("now", Some(log.now()), Some(25)),
        ("how many events", Some(u64::from(log.len())), Some(8)),
        ("the alarm of A", log.alarm_of(1), None),
        ("the alarm of C", log.alarm_of(3), Some(10)),
        ("the alarm of no node", log.alarm_of(4), None),
        ("the event of A", log.alarm_event(1).map(u64::from), None),
        ("the event of C", log.alarm_event(3).map(u64::from), Some(2)),
        (
            "the last silence of A",
            log.last_quiet(graph, 1).map(u64::from),
            Some(4),
        ),
        (
            "the last silence of B",
            log.last_quiet(graph, 2).map(u64::from),
            None,
        ),
        (
            "the last silence of C",
            log.last_quiet(graph, 3).map(u64::from),
            Some(1),
        ),
        ("a silence of A", log.silence_at(graph, 1, 3), Some(5)),
        (
            "until when A is inactive",
            log.inactive_until(graph, 1, 12),
            Some(12),
        ),
    ])
}

#[test]
fn a_log_has_its_look_ups(rt: HostRuntime) -> Result<(), Fail> {
    on_log(rt.alloc(), GRAPH, &LINES, |graph, log| {
        compare_look_ups(graph, log)
    })
}

/// Compares what the look-ups of a copy of a log of these lines say.
fn compare_copy(graph: &Graph, log: &Log) -> Result<(), Fail> {
    let copy = log.copy()?;
    compare_look_ups(graph, &copy)
}

#[test]
fn a_copy_has_the_look_ups_of_its_log(rt: HostRuntime) -> Result<(), Fail> {
    on_log(
        rt.alloc(),
        GRAPH,
        &LINES,
        |graph, log| compare_copy(graph, log),
    )
}

/// An AND node with an edge in one mode and an edge in both, and after it a node with an edge in the other mode.
const TWO_EDGES: &[u8] =
    b"tfpg 1\nmode N\nmode D\nfailure F 1\nfailure G 1\nand A watch 0\nor B hidden\nedge F A 1 3 N\nedge G A 1 3 *\nedge A B 1 1 D\nend\n";

/// Lines with changes of mode: two at one time, one to the mode that holds, and one at the last instant.
const CHANGES: [&[u8]; 7] = [
    b"10 mode D",
    b"10 mode N",
    b"20 mode D",
    b"30 mode D",
    b"40 mode N",
    b"50 tick",
    b"50 mode D",
];

/// Instants with the numbers of their spans.
const NUMBERS: [(&str, u64, Option<u32>); 8] = [
    ("at 0", 0, Some(0)),
    ("after two changes at one time", 11, Some(0)),
    ("at the end of the first span", 20, Some(0)),
    ("at the beginning of the second span", 21, Some(1)),
    ("at the end of the second span", 40, Some(1)),
    ("at the beginning of the last span", 41, Some(2)),
    ("at now", 50, Some(2)),
    ("after now", 51, None),
];

/// Numbers and horizons with their spans, as first and last instant and mode.
const SPANS: [(&str, u32, u64, Option<(u64, u64, u32)>); 8] = [
    ("the first instant alone", 0, 0, Some((0, 0, 0))),
    ("the first span", 0, 50, Some((0, 20, 0))),
    ("a span up to a horizon after now", 0, 51, None),
    ("a span that begins after the horizon", 1, 20, None),
    (
        "a span that begins at the horizon",
        1,
        21,
        Some((21, 21, 1)),
    ),
    ("the second span", 1, 50, Some((21, 40, 1))),
    ("the last span", 2, 50, Some((41, 50, 0))),
    ("a span past the end", 3, 50, None),
];

/// Edges, numbers and horizons with their windows, as first span, and first and last instant.
const WINDOWS: [(&str, u32, u32, u64, Option<(u32, u64, u64)>); 9] = [
    ("of mode N, up to a horizon", 0, 0, 15, Some((0, 0, 15))),
    ("of mode N", 0, 0, 50, Some((0, 0, 20))),
    ("of mode N, in mode D", 0, 1, 50, None),
    ("of mode N once more", 0, 2, 50, Some((2, 41, 50))),
    ("of both modes, after the horizon", 1, 1, 20, None),
    ("of both modes, up to a horizon", 1, 1, 30, Some((0, 0, 30))),
    ("of both modes", 1, 1, 50, Some((0, 0, 50))),
    ("of mode D", 2, 1, 50, Some((1, 21, 40))),
    ("of mode D, up to a horizon after now", 2, 2, 51, None),
];

/// The same of all edges into a node.
const JOINT_WINDOWS: [(&str, u32, u32, u64, Option<(u32, u64, u64)>); 5] = [
    ("a node without edges", 0, 1, 50, Some((0, 0, 50))),
    ("two edges that are active", 2, 0, 50, Some((0, 0, 20))),
    ("two edges, of which one is not active", 2, 1, 50, None),
    ("two edges, up to a horizon", 2, 2, 45, Some((2, 41, 45))),
    ("a node with one edge", 3, 1, 50, Some((1, 21, 40))),
];

/// The first and last instant and the mode of a span.
fn ends_of_span(span: Option<Span>) -> Option<(u64, u64, u32)> {
    let span = span?;
    Some((span.lo, span.hi, span.mode))
}

/// The first span, and the first and last instant, of a window.
fn ends_of_window(window: Option<Window>) -> Option<(u32, u64, u64)> {
    let window = window?;
    Some((window.first, window.lo, window.hi))
}

/// The window of the edge, where there is such an edge.
fn window_at(graph: &Graph, log: &Log, edge: u32, number: u32, horizon: u64) -> Option<Window> {
    if edge >= graph.edge_count() {
        return None;
    }
    log.window_of(graph, edge, number, horizon)
}

/// The joint window of the node, where there is such a node.
fn joint_at(graph: &Graph, log: &Log, node: u32, number: u32, horizon: u64) -> Option<Window> {
    if node >= graph.node_count() {
        return None;
    }
    log.joint_of(graph, node, number, horizon)
}

#[test]
fn a_span_has_a_first_instant_from_another_on(rt: HostRuntime) {
    let span = Span {
        lo: 5,
        hi: 9,
        mode: 1,
    };
    for (row, instant, wanted) in &[
        ("before its first instant", 3, Some(5)),
        ("within it", 7, Some(7)),
        ("at its last instant", 9, Some(9)),
        ("after it", 10, None),
    ] {
        assert_eq!(rt; span.first_from(*instant), *wanted, "{row}");
    }
}

/// Compares the spans of a log with these changes.
fn compare_spans(log: &Log) -> Result<(), Fail> {
    for (row, instant, wanted) in &NUMBERS {
        if log.span_of(*instant) != *wanted {
            return Err(Fail::new(*row));
        }
    }
    for (row, number, horizon, wanted) in &SPANS {
        if ends_of_span(log.span(*number, *horizon)) != *wanted {
            return Err(Fail::new(*row));
        }
    }
    Ok(())
}

/// Compares the windows of edges and nodes.
fn compare_windows(graph: &Graph, log: &Log) -> Result<(), Fail> {
    for (row, edge, number, horizon, wanted) in &WINDOWS {
        if ends_of_window(window_at(graph, log, *edge, *number, *horizon)) != *wanted {
            return Err(Fail::new(*row));
        }
    }
    for (row, node, number, horizon, wanted) in &JOINT_WINDOWS {
        if ends_of_window(joint_at(graph, log, *node, *number, *horizon)) != *wanted {
            return Err(Fail::new(*row));
        }
    }
    Ok(())
}

#[test]
fn finds_spans_and_windows(rt: HostRuntime) -> Result<(), Fail> {
    on_log(rt.alloc(), TWO_EDGES, &CHANGES, |graph, log| {
        compare_spans(log)?;
        compare_windows(graph, log)
    })
}
