//! The reader of a graph's text, line by line.

ghost use Rattle.std.specs.Prelude.{◌≡◌, ◌≤◌, ◌^◌, length, Some, IfOk, IfErr};
ghost use Rattle.tfpg_base.specs.Lines.{parts_of};
ghost use Rattle.tfpg_graph.specs.Text.{version_said};
ghost use Rattle.tfpg_graph.specs.Valid.{IsValid};
ghost use Rattle.tfpg_graph.specs.Statements.{DeclaresMode, DeclaresNode, Ends};
ghost use Rattle.tfpg_graph.specs.inside.reading.StatementSeen.{statement_seen, node_words_of, edge_said};
ghost use Rattle.tfpg_graph.specs.inside.reading.Turns.{ReaderRepresents, turn, turn_said};
ghost use Rattle.tfpg_graph.specs.inside.reading.TurnResults.{IsTurnResult, IsEndRefusal, refusal_at};

use crate::cause::{GraphCause, GraphFault, GraphRefusal};
use crate::declared::Declared;
use crate::graph::Graph;
use crate::reading::check_edge::read_edge;
use crate::reading::check_mode::mode_cause;
use crate::reading::check_node::read_node;
use crate::reading::find_line::{Declaring, line_declaring};
use crate::reading::list_modes::listed_modes;
use crate::reading::statement::{EdgeWords, NodeWords, Statement, is_skipped, statement_of};
use crate::version::Version;
use crate::zero_cycle::first_on_zero_cycle;
use std::alloc::Global;
use tfpg_base::NoMemory;

/// Which lines may come next.
#[derive(Clone, Copy)]
pub(crate) enum ReadingStage {
    /// The header.
    Header,
    /// A line that declares something, or the end.
    Declarations,
    /// Only lines that are skipped.
    Ended,
}

/// Why a line was not taken.
#[derive(Clone, Copy)]
pub(crate) enum GraphLineRefusal {
    Cause(GraphCause),
    NoMemory,
}

impl From<NoMemory> for GraphLineRefusal {
    ghost use Rattle.std.specs.Prelude.{◌≡◌};
    ghost use Rattle.tfpg_graph.specs.declared.reading.reader.GraphLineRefusal.TheVariants as line_refusal;

    ghost from_gives = { λ _ refusal. refusal ≡ line_refusal.NoMemory };

    fn from(_no_memory: NoMemory) -> GraphLineRefusal {
        GraphLineRefusal::NoMemory
    }
}

impl From<GraphCause> for GraphLineRefusal {
    ghost use Rattle.std.specs.Prelude.{◌≡◌};
    ghost use Rattle.tfpg_graph.specs.declared.reading.reader.GraphLineRefusal.TheVariants as line_refusal;

    ghost from_gives = { λ cause refusal. refusal ≡ line_refusal.Cause cause };

    fn from(cause: GraphCause) -> GraphLineRefusal {
        GraphLineRefusal::Cause(cause)
    }
}

impl GraphLineRefusal {
    /// The refusal of the text, where this is the refusal of the line of this number.
    pub(crate) fn at(self, line: u64) -> GraphRefusal
        ensures { result ≡ refusal_at self line }
    {
        match self {
            GraphLineRefusal::Cause(cause) => GraphRefusal::Fault(GraphFault { line, cause }),
            GraphLineRefusal::NoMemory => GraphRefusal::NoMemory,
        }
    }
}

/// What the lines so far have declared, the version of the text, and which lines may come next.
#[derive(Drop)]
pub(crate) struct Reader {
    part: ReadingStage,
    /// What the header says. It does not matter before that is read.
    version: Version,
    declared: Declared,
}

impl Reader {
    ghost use Rattle.tfpg_graph.specs.inside.reading.Turns.{nothing_read};

    /// Nothing is read yet. Takes no memory.
    pub(crate) fn new(alloc: Global) -> Reader
        ensures { result ≡ nothing_read }
    {
        Reader {
            part: ReadingStage::Header,
            version: Version::One,
            declared: Declared::new(alloc),
        }
    }

    /// Reads one more line. Takes time linear in the length of the line, but for look-ups by name, and for an edge with a fault
    /// quadratic in the number of modes that it lists.
    pub(crate) fn take(self, alloc: Global, line: &[u8]) -> Result<Reader, GraphLineRefusal>
        ensures { IsTurnResult (turn self line.now) result }
    {
        match self.part {
            ReadingStage::Header => self.take_header(line),
            ReadingStage::Declarations => self.take_declaration(alloc, line),
            ReadingStage::Ended => self.take_after_end(line),
        }
    }

    /// The graph of a text whose lines are all read, of which there are so many. Takes time linear in the number of nodes
    /// and edges, and where there is a fault, a walk through the text.
    pub(crate) fn end(
        self,
        alloc: Global,
        text: &[u8],
        line_count: u64,
    ) -> Result<Graph, GraphRefusal>
        requires stands { ReaderRepresents self (parts_of text.now) }
        requires count { line_count ≡ length (parts_of text.now) }
        requires few { line_count ≤ 2 ^ 63 }
        ensures graph { IfOk result (λ graph. (graph ≡ self.declared) × (self.part ≡ ReadingStage.Ended)) }
        ensures valid { IfOk result IsValid }
        ensures fault { IfErr result (IsEndRefusal (parts_of text.now)) }
    {
        match self.test_whole(alloc, text, line_count) {
            Err(refusal) => Err(refusal),
            Ok(()) => Ok(Graph::new(self.declared)),
        }
    }

    /// Tests what no line shows alone: whether a discrepancy has no edge into it, a cycle may take no time, or the end is missing.
    fn test_whole(&self, alloc: Global, text: &[u8], line_count: u64) -> Result<(), GraphRefusal>
        requires stands { ReaderRepresents self.now (parts_of text.now) }
        requires count { line_count ≡ length (parts_of text.now) }
        requires few { line_count ≤ 2 ^ 63 }
        ensures ended { IfOk result (λ _. self.now.part ≡ ReadingStage.Ended) }
        ensures valid { IfOk result (λ _. IsValid self.now.declared) }
        ensures fault { IfErr result (IsEndRefusal (parts_of text.now)) }
    {
        let declared = &self.declared;
        if let Some(node) = declared.without_incoming() {
            let line = line_declaring(text, self.version, Declaring::Node, node);
            return Err(GraphLineRefusal::Cause(GraphCause::NoIncoming).at(line));
        }
        if let Some(edge) = first_on_zero_cycle(alloc, declared)? {
            let line = line_declaring(text, self.version, Declaring::Edge, edge);
            return Err(GraphLineRefusal::Cause(GraphCause::ZeroCycle).at(line));
        }
        match self.part {
            ReadingStage::Ended => Ok(()),
            _ => Err(GraphLineRefusal::Cause(GraphCause::MissingEnd).at(line_count + 1)),
        }
    }

    fn take_header(self, line: &[u8]) -> Result<Reader, GraphLineRefusal>
        requires { self.part ≡ ReadingStage.Header }
        ensures { IsTurnResult (turn self line.now) result }
    {
        match version_said(line) {
            None => Err(GraphLineRefusal::Cause(GraphCause::BadHeader)),
            Some(version) => Ok(Reader {
                part: ReadingStage::Declarations,
                version,
                declared: self.declared,
            }),
        }
    }

    fn take_after_end(self, line: &[u8]) -> Result<Reader, GraphLineRefusal>
        requires { self.part ≡ ReadingStage.Ended }
        ensures { IsTurnResult (turn self line.now) result }
    {
        if !is_skipped(line) {
            return Err(GraphLineRefusal::Cause(GraphCause::AfterEnd));
        }
        Ok(self)
    }

    fn take_declaration(self, alloc: Global, line: &[u8]) -> Result<Reader, GraphLineRefusal>
        requires { self.part ≡ ReadingStage.Declarations }
        ensures { IsTurnResult (turn self line.now) result }
    {
        if is_skipped(line) {
            return Ok(self);
        }
        match statement_of(line, self.version) {
            None => Err(GraphLineRefusal::Cause(GraphCause::BadLine)),
            Some(statement) => self.with_statement(alloc, statement),
        }
    }

    fn with_statement(
        self,
        alloc: Global,
        statement: Statement<'_>,
    ) -> Result<Reader, GraphLineRefusal>
        ensures { IsTurnResult (turn_said self.version self.declared (Some (statement_seen statement.entry))) result }
    {
        match statement {
            Statement::Mode { name } => self.with_mode(alloc, name),
            Statement::Node { name, words } => self.with_node(alloc, name, words),
            Statement::Edge(words) => self.with_edge(alloc, words),
            Statement::End => self.with_end(),
        }
    }

    fn with_mode(self, alloc: Global, name: &[u8]) -> Result<Reader, GraphLineRefusal>
        ensures { IsTurnResult (turn_said self.version self.declared (Some (DeclaresMode name.now))) result }
    {
        if let Some(cause) = mode_cause(&self.declared, name) {
            return Err(GraphLineRefusal::Cause(cause));
        }
        let declared = self.declared.with_mode(alloc, name)?;
        Ok(Reader {
            part: ReadingStage::Declarations,
            version: self.version,
            declared,
        })
    }

    fn with_node(
        self,
        alloc: Global,
        name: &[u8],
        words: NodeWords<'_>,
    ) -> Result<Reader, GraphLineRefusal>
        ensures { IsTurnResult (turn_said self.version self.declared
            (Some (DeclaresNode name.now (node_words_of words.entry)))) result }
    {
        let kind = read_node(&self.declared, name, words)?;
        let declared = self.declared.with_node(alloc, name, kind)?;
        Ok(Reader {
            part: ReadingStage::Declarations,
            version: self.version,
            declared,
        })
    }

    fn with_edge(self, alloc: Global, words: EdgeWords<'_>) -> Result<Reader, GraphLineRefusal>
        ensures { IsTurnResult (turn_said self.version self.declared (Some (edge_said words.entry))) result }
    {
        let modes = listed_modes(alloc, words.modes)?;
        let edge = read_edge(&self.declared, words, modes.as_slice())?;
        let declared = self.declared.with_edge(edge)?;
        Ok(Reader {
            part: ReadingStage::Declarations,
            version: self.version,
            declared,
        })
    }

    fn with_end(self) -> Result<Reader, GraphLineRefusal>
        ensures { IsTurnResult (turn_said self.version self.declared (Some Ends)) result }
    {
        if self.declared.mode_count() == 0 {
            return Err(GraphLineRefusal::Cause(GraphCause::BadLine));
        }
        Ok(Reader {
            part: ReadingStage::Ended,
            version: self.version,
            declared: self.declared,
        })
    }
}

/// The version that the line says, where it is a header.
fn version_said(line: &[u8]) -> Option<Version>
    ensures { result ≡ version_said line.now }
{
    if line == b"tfpg 1".as_slice() {
        Some(Version::One)
    } else if line == b"tfpg 2".as_slice() {
        Some(Version::Two)
    } else {
        None
    }
}
