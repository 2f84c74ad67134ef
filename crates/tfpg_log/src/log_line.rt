//! What a line of the log says by its words alone: no name is looked up, and no number read.

ghost use Rattle.std.specs.Prelude.{◌≡◌, length, map, codes, bytes_eq, option_map, if◌then◌else◌};
ghost use Rattle.tfpg_log.specs.LogStatements.{log_statement_of, log_statement_in, Alarm, Silent, Sweep, Tick, Mode};
ghost use Rattle.tfpg_log.specs.inside.LogLine.{log_statement_seen, log_line_seen};

use tfpg_base::Words;

/// What a line says after its time, with its name unread.
#[derive(Clone, Copy)]
pub(crate) enum LogStatement<'a> {
    Alarm(&'a [u8]),
    Silent(&'a [u8]),
    Sweep,
    Tick,
    Mode(&'a [u8]),
}

/// A line that has one of the five shapes: the word for its time, unread, and what it says.
#[derive(Clone, Copy)]
pub(crate) struct LogLine<'a> {
    pub(crate) time: &'a [u8],
    pub(crate) statement: LogStatement<'a>,
}

/// The line, where it has one of the five shapes. Takes time linear in its length.
pub(crate) fn read_line(line: &[u8]) -> Option<LogLine<'_>>
    ensures { option_map log_line_seen result ≡ log_statement_of line.now }
{
    let words = Words::filled(line)?;
    log_line_in(words.as_slice())
}

/// The line of these words.
fn log_line_in<'a>(words: &[&'a [u8]]) -> Option<LogLine<'a>>
    ensures { option_map log_line_seen result ≡ log_statement_in (map (λ word. word.now) words.now) }
{
    match words {
        [time, word] => Some(LogLine {
            time: *time,
            statement: statement_alone(*word)?,
        }),
        [time, word, name] => Some(LogLine {
            time: *time,
            statement: statement_with_name(*word, *name)?,
        }),
        _ => None,
    }
}

/// What the word says that no name follows.
fn statement_alone(word: &[u8]) -> Option<LogStatement<'static>>
    ensures { option_map log_statement_seen result
        ≡ (if bytes_eq word.now (codes "sweep") then Some Sweep
        else (if bytes_eq word.now (codes "tick") then Some Tick else None)) }
{
    match word {
        b"sweep" => Some(LogStatement::Sweep),
        b"tick" => Some(LogStatement::Tick),
        _ => None,
    }
}

/// What the word says of this name.
fn statement_with_name<'a>(word: &[u8], name: &'a [u8]) -> Option<LogStatement<'a>>
    ensures { option_map log_statement_seen result
        ≡ (if bytes_eq word.now (codes "alarm") then Some (Alarm name.now)
        else (if bytes_eq word.now (codes "silent") then Some (Silent name.now)
        else (if bytes_eq word.now (codes "mode") then Some (Mode name.now) else None))) }
{
    match word {
        b"alarm" => Some(LogStatement::Alarm(name)),
        b"silent" => Some(LogStatement::Silent(name)),
        b"mode" => Some(LogStatement::Mode(name)),
        _ => None,
    }
}
