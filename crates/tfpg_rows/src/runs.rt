//! The runs of a line `run`: in large pieces and in small ones, and with calls that fail in turn.

use crate::answer::{append_failed, append_made};
use crate::made::{Made, Outside, make_run};
use crate::row::{InTurn, NamedFile, Row};
use std::alloc::Global;
use tfpg_base::NoMemory;

/// How many bytes a call reads or writes at most where a row says nothing of it.
const LARGE_ROOM: usize = 4096;

/// Makes the runs on these words, over these files, and appends what came of them.
pub(crate) fn append_runs(
    alloc: Global,
    words: &[String],
    files: &[NamedFile],
    row: &Row,
    into: &mut Vec<u8>,
) -> Result<(), NoMemory> {
    let mut named = Vec::new(alloc);
    for file in files {
        named.push((file.name.as_str(), file.text.as_slice()))?;
    }
    let input = row.changed_input(alloc)?;
    append_runs_over(alloc, words, &outside_of(row, &named, &input), row, into)
}

/// What a run of the row has besides its words, over these files and with this input.
fn outside_of<'a>(row: &'a Row, files: &'a [(&'a str, &'a [u8])], input: &'a [u8]) -> Outside<'a> {
    Outside {
        files,
        input,
        room: row.room,
        file_fails: &row.file_fails,
        read_fails: &row.read_fails,
        write_fails: &row.write_fails,
        panels: &row.panels,
    }
}

/// The same, over all that a run has besides its words.
fn append_runs_over(
    alloc: Global,
    words: &[String],
    outside: &Outside<'_>,
    row: &Row,
    into: &mut Vec<u8>,
) -> Result<(), NoMemory> {
    let room = if outside.room == 0 {
        LARGE_ROOM
    } else {
        outside.room
    };
    let made = make_run(alloc, words, &Outside { room, ..*outside })?;
    append_made(alloc, &made, &row.view, into)?;
    if outside.room == 0 {
        let again = make_run(
            alloc,
            words,
            &Outside {
                room: 1,
                ..*outside
            },
        )?;
        append_difference(alloc, &made, &again, b"in pieces of one byte", row, into)?;
    }
    if let Some(in_turn) = row.in_turn {
        append_in_turn(alloc, words, outside, in_turn, &made.written, into)?;
    }
    Ok(())
}

/// Appends what came of the run once more, made in this way, where it is not the same.
pub(crate) fn append_difference(
    alloc: Global,
    made: &Made,
    again: &Made,
    way: &[u8],
    row: &Row,
    into: &mut Vec<u8>,
) -> Result<(), NoMemory> {
    let is_same = made.end == again.end
        && made.written == again.written
        && made.asked == again.asked
        && made.panels == again.panels;
    if !is_same {
        into.extend_from_slice(b"other ")?;
        into.extend_from_slice(way)?;
        into.extend_from_slice(b":\n")?;
        append_made(alloc, again, &row.view, into)?;
    }
    Ok(())
}

/// Makes the run once more for each number, and appends what came of each.
fn append_in_turn(
    alloc: Global,
    words: &[String],
    outside: &Outside<'_>,
    in_turn: InTurn,
    whole: &[u8],
    into: &mut Vec<u8>,
) -> Result<(), NoMemory> {
    match in_turn {
        InTurn::ReadFails(count) => {
            for call in 1..=count {
                let fails = [call];
                let failing = Outside {
                    read_fails: &fails,
                    ..*outside
                };
                append_other(alloc, words, &failing, (b"read ", call), whole, into)?;
            }
        }
        InTurn::WriteFails(count) => {
            for call in 1..=count {
                let fails = [call];
                let failing = Outside {
                    write_fails: &fails,
                    ..*outside
                };
                append_other(alloc, words, &failing, (b"write ", call), whole, into)?;
            }
        }
        InTurn::Cut => {
            for len in 0..=outside.input.len() {
                let (front, _) = outside.input.split_at(len);
                let cut = Outside {
                    input: front,
                    ..*outside
                };
                append_other(alloc, words, &cut, (b"cut ", len as u64), whole, into)?;
            }
        }
    }
    Ok(())
}

/// Makes another run, and appends what came of it after its name and number.
fn append_other(
    alloc: Global,
    words: &[String],
    outside: &Outside<'_>,
    turn: (&[u8], u64),
    whole: &[u8],
    into: &mut Vec<u8>,
) -> Result<(), NoMemory> {
    let room = if outside.room == 0 {
        LARGE_ROOM
    } else {
        outside.room
    };
    let made = make_run(alloc, words, &Outside { room, ..*outside })?;
    let (name, number) = turn;
    append_failed(alloc, name, number, &made, whole, into)
}
