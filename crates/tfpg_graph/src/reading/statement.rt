//! What a line of a graph's text says by its words alone: no name is looked up, and no number is read.

ghost use Rattle.std.specs.Prelude.{◌≡◌, length, map, Option, option_map};
ghost use Rattle.tfpg_graph.specs.Statements.{is_empty_or_comment};
ghost use Rattle.tfpg_graph.specs.Statements.{statement_of, OrWords, AndWords, DeclaresNode, is_skipped};
ghost use Rattle.tfpg_graph.specs.inside.reading.Shapes.{statement_by_keyword, mode_in, failure_in, discrepancy_in, edge_in, end_in, lag_by_state, hidden_in, watched_in};
ghost use Rattle.tfpg_graph.specs.Statements as definition;
ghost use Rattle.tfpg_graph.specs.declared.version.Version.TheVariants.{One, Two};
ghost use Rattle.tfpg_graph.specs.inside.reading.StatementSeen.{statement_seen, lag_seen};

use crate::version::Version;
use tfpg_base::{LONGEST_LINE, Words};

/// What a line after the header says.
#[derive(Clone, Copy)]
pub(crate) enum Statement<'a> {
    Mode {
        name: &'a [u8],
    },
    Node {
        name: &'a [u8],
        words: NodeWords<'a>,
    },
    Edge(EdgeWords<'a>),
    End,
}

/// The words that say what a node is, with the words for its numbers.
#[derive(Clone, Copy)]
pub(crate) enum NodeWords<'a> {
    Failure { rarity: &'a [u8] },
    Or { lag: Option<LagWords<'a>> },
    And { lag: Option<LagWords<'a>> },
}

/// The words for a lag.
#[derive(Clone, Copy)]
pub(crate) struct LagWords<'a> {
    pub(crate) least: &'a [u8],
    pub(crate) most: &'a [u8],
}

/// The words of an edge's line after its keyword.
#[derive(Clone, Copy)]
pub(crate) struct EdgeWords<'a> {
    pub(crate) source: &'a [u8],
    pub(crate) target: &'a [u8],
    pub(crate) tmin: &'a [u8],
    pub(crate) tmax: &'a [u8],
    pub(crate) modes: &'a [u8],
}

/// Whether a line after the header is skipped: it is empty or begins with `#`, and is not too long.
pub(crate) fn is_skipped(line: &[u8]) -> bool
    ensures { result ≡ is_skipped line.now }
{
    is_empty_or_comment(line) && line.len() <= LONGEST_LINE
}

fn is_empty_or_comment(line: &[u8]) -> bool
    ensures { result ≡ is_empty_or_comment line.now }
{
    match line {
        [] => true,
        [first, ..] => *first == b'#',
    }
}

/// What the line of a text of this version says, where it has one of the shapes. Takes time linear in its length.
pub(crate) fn statement_of(line: &[u8], version: Version) -> Option<Statement<'_>>
    ensures { option_map statement_seen result ≡ statement_of version line.now }
{
    if line.len() > LONGEST_LINE {
        return None;
    }
    let words = Words::filled(line)?;
    statement_in(words.as_slice(), version)
}

/// What a line of these words says.
fn statement_in<'a>(words: &[&'a [u8]], version: Version) -> Option<Statement<'a>>
    ensures { option_map statement_seen result ≡ statement_by_keyword version (map (λ word. word.now) words.now) }
{
    let (keyword, others) = words.split_first()?;
    if *keyword == b"mode".as_slice() {
        mode_in(others)
    } else if *keyword == b"failure".as_slice() {
        failure_in(others)
    } else if *keyword == b"or".as_slice() {
        or_in(others, version)
    } else if *keyword == b"and".as_slice() {
        and_in(others, version)
    } else if *keyword == b"edge".as_slice() {
        edge_in(others)
    } else if *keyword == b"end".as_slice() {
        end_in(others)
    } else {
        None
    }
}

fn mode_in<'a>(words: &[&'a [u8]]) -> Option<Statement<'a>>
    ensures { option_map statement_seen result ≡ mode_in (map (λ word. word.now) words.now) }
{
    match words {
        [name] => Some(Statement::Mode { name: *name }),
        _ => None,
    }
}

fn failure_in<'a>(words: &[&'a [u8]]) -> Option<Statement<'a>>
    ensures { option_map statement_seen result ≡ failure_in (map (λ word. word.now) words.now) }
{
    match words {
        [name, rarity] => Some(Statement::Node {
            name: *name,
            words: NodeWords::Failure { rarity: *rarity },
        }),
        _ => None,
    }
}

fn or_in<'a>(words: &[&'a [u8]], version: Version) -> Option<Statement<'a>>
    ensures { option_map statement_seen result ≡
        discrepancy_in version OrWords (map (λ word. word.now) words.now) }
{
    let (name, lag) = discrepancy_in(words, version)?;
    Some(Statement::Node {
        name,
        words: NodeWords::Or { lag },
    })
}

fn and_in<'a>(words: &[&'a [u8]], version: Version) -> Option<Statement<'a>>
    ensures { option_map statement_seen result ≡
        discrepancy_in version AndWords (map (λ word. word.now) words.now) }
{
    let (name, lag) = discrepancy_in(words, version)?;
    Some(Statement::Node {
        name,
        words: NodeWords::And { lag },
    })
}

/// The name of a discrepancy, and the words for its lag where it is monitored.
fn discrepancy_in<'a>(
    words: &[&'a [u8]],
    version: Version,
) -> Option<(&'a [u8], Option<LagWords<'a>>)>
    ensures { (with_lag : Option definition.LagWords → definition.NodeWords) →
        option_map (λ found. DeclaresNode found.0.now (with_lag (lag_seen found.1))) result
        ≡ discrepancy_in version with_lag (map (λ word. word.now) words.now) }
{
    let (name, others) = words.split_first()?;
    let lag = lag_in(others, version)?;
    Some((*name, lag))
}

/// The words for the lag, where the last words of a discrepancy's line say that it is watched.
fn lag_in<'a>(words: &[&'a [u8]], version: Version) -> Option<Option<LagWords<'a>>>
    ensures { option_map lag_seen result ≡ lag_by_state version (map (λ word. word.now) words.now) }
{
    let (state, others) = words.split_first()?;
    if *state == b"hidden".as_slice() {
        hidden_in(others)
    } else if *state == b"watch".as_slice() {
        watched_in(others, version)
    } else {
        None
    }
}

fn hidden_in<'a>(words: &[&'a [u8]]) -> Option<Option<LagWords<'a>>>
    ensures { option_map lag_seen result ≡ hidden_in (map (λ word. word.now) words.now) }
{
    match words {
        [] => Some(None),
        _ => None,
    }
}

fn watched_in<'a>(words: &[&'a [u8]], version: Version) -> Option<Option<LagWords<'a>>>
    ensures { option_map lag_seen result ≡ watched_in version (map (λ word. word.now) words.now) }
{
    match version {
        Version::One => most_in(words),
        Version::Two => least_and_most_in(words),
    }
}

/// A lag from 0 up to what the one word says.
fn most_in<'a>(words: &[&'a [u8]]) -> Option<Option<LagWords<'a>>>
    ensures { option_map lag_seen result ≡ watched_in One (map (λ word. word.now) words.now) }
{
    match words {
        [most] => Some(Some(LagWords {
            least: b"0",
            most: *most,
        })),
        _ => None,
    }
}

fn least_and_most_in<'a>(words: &[&'a [u8]]) -> Option<Option<LagWords<'a>>>
    ensures { option_map lag_seen result ≡ watched_in Two (map (λ word. word.now) words.now) }
{
    match words {
        [least, most] => Some(Some(LagWords {
            least: *least,
            most: *most,
        })),
        _ => None,
    }
}

fn edge_in<'a>(words: &[&'a [u8]]) -> Option<Statement<'a>>
    ensures { option_map statement_seen result ≡ edge_in (map (λ word. word.now) words.now) }
{
    match words {
        [source, target, tmin, tmax, modes] => Some(Statement::Edge(EdgeWords {
            source: *source,
            target: *target,
            tmin: *tmin,
            tmax: *tmax,
            modes: *modes,
        })),
        _ => None,
    }
}

fn end_in<'a>(words: &[&'a [u8]]) -> Option<Statement<'a>>
    ensures { option_map statement_seen result ≡ end_in (map (λ word. word.now) words.now) }
{
    match words {
        [] => Some(Statement::End),
        _ => None,
    }
}
