//! Reading the map of the input, line by line.

ghost use Rattle.std.specs.Prelude.{◌<◌, ◌≡◌, IfOk, IfErr, IsTrue, All, length};
ghost use Rattle.tfpg_base.specs.Outside.{SourceState};
ghost use Rattle.tfpg_graph.specs.Graph.{is_monitored};
ghost use Rattle.tfpg_map.specs.inside.Reading.{IsReadingMap, ReadsOn, ReturnsMap, map_reading_at};
ghost use Rattle.tfpg_map.specs.InputMap.{LacksMap, ReadsMap};

use crate::map::{Map, MapFault, MapReader, NoMap};
use std::alloc::Global;
use tfpg_base::{Line, Lines, Source};
use tfpg_graph::Graph;

/// Whether a line was read, or the input has ended.
#[derive(Clone, Copy)]
pub(crate) enum NextMapLine {
    Read,
    Ended,
}

/// Reads the whole input, whose lines spell a map.
///
/// # Errors
///
/// `Refused` at the first faulty line; an input without a line is refused at line 1.
pub fn read_map<S: Source>(alloc: Global, graph: &Graph, input: &mut S) -> Result<Map, NoMap>
    ensures map { IfOk result (ReadsMap graph.now (S.state input.old) (S.state input.new)) }
    ensures nodes { IfOk result (λ map. All (λ activation. activation.node < length graph.now.nodes)
        map.trace) }
    ensures monitors { IfOk result (λ map. All (λ node. IsTrue (is_monitored graph.now node))
        map.hypothesis.doubts) }
    ensures none { IfErr result (LacksMap graph.now (S.state input.old) (S.state input.new)) }
{
    let mut reader = MapReader::new(alloc);
    let mut lines = Lines::new(alloc)?;
    loop {
        match read_next_line(&mut reader, &mut lines, graph, input)? {
            NextMapLine::Read => {}
            NextMapLine::Ended => return map_of(reader),
        }
    }
}

/// Takes the next line.
fn read_next_line<S: Source>(
    reader: &mut MapReader,
    lines: &mut Lines,
    graph: &Graph,
    input: &mut S,
) -> Result<NextMapLine, NoMap>
    ensures reads_on { (before : SourceState) → IsReadingMap graph.now before
        (map_reading_at (S.state input.old) lines.old reader.old)
        → IfOk result (ReadsOn graph.now before lines.old.number
        (map_reading_at (S.state input.new) lines.new reader.new)) }
    ensures none { (before : SourceState) → IsReadingMap graph.now before
        (map_reading_at (S.state input.old) lines.old reader.old)
        → IfErr result (LacksMap graph.now before (S.state input.new)) }
{
    match lines.next(input)? {
        Line::End => Ok(NextMapLine::Ended),
        Line::TooLong => Err(not_a_map(lines)),
        Line::Text => match reader.take(graph, lines.text()) {
            Ok(()) => Ok(NextMapLine::Read),
            Err(MapFault::BadMap) => Err(not_a_map(lines)),
            Err(MapFault::NoMemory) => Err(NoMap::NoMemory),
        },
    }
}

/// The line that was returned last is faulty.
fn not_a_map(lines: &Lines) -> NoMap
    ensures { result ≡ NoMap.Refused lines.now.number }
{
    NoMap::Refused {
        line: lines.number(),
    }
}

/// The map that was read, once all lines of the input are.
fn map_of(reader: MapReader) -> Result<Map, NoMap>
    ensures { ReturnsMap reader result }
{
    let MapReader {
        hypothesis,
        trace,
        ..
    } = reader;
    match hypothesis {
        Some(hypothesis) => Ok(Map { hypothesis, trace }),
        None => Err(NoMap::Refused { line: 1 }),
    }
}
