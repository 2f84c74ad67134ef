//! The lines that say what came of a run.

use crate::bytes::append_number;
use crate::made::Made;
use crate::view::View;
use std::alloc::Global;
use tfpg_base::NoMemory;

/// Appends the lines for a run: what of it is shown, each line after a bar, how it ended, and what its panels were told.
pub(crate) fn append_made(
    alloc: Global,
    made: &Made,
    view: &View,
    into: &mut Vec<u8>,
) -> Result<(), NoMemory> {
    append_shown(view, &view.shown(alloc, &made.written)?, into)?;
    append_end(alloc, made, into)?;
    into.extend_from_slice(&made.panels)?;
    Ok(())
}

/// Appends the lines after a bar, or the last ones after the number of those that are left out.
fn append_shown(view: &View, shown: &[u8], into: &mut Vec<u8>) -> Result<(), NoMemory> {
    let left_out = view.left_out(line_count(shown));
    if left_out > 0 {
        into.extend_from_slice(b".. ")?;
        append_number(left_out, into)?;
        into.extend_from_slice(b" lines\n")?;
    }
    let mut passed = 0;
    for line in shown.split_inclusive(|byte| *byte == b'\n') {
        if passed >= left_out {
            append_barred(line, into)?;
        } else {
            passed += 1;
        }
    }
    Ok(())
}

/// How many lines the text has.
fn line_count(text: &[u8]) -> u64 {
    text.split_inclusive(|byte| *byte == b'\n').count() as u64
}

/// Appends a line after a bar; where it has no line end, a backslash says so.
fn append_barred(line: &[u8], into: &mut Vec<u8>) -> Result<(), NoMemory> {
    match line.strip_suffix(b"\n".as_slice()) {
        Some([]) => into.extend_from_slice(b"|\n")?,
        Some(text) => {
            into.extend_from_slice(b"| ")?;
            into.extend_from_slice(text)?;
            into.push(b'\n')?;
        }
        None => {
            into.extend_from_slice(b"| ")?;
            into.extend_from_slice(line)?;
            into.extend_from_slice(b"\\\n")?;
        }
    }
    Ok(())
}

/// Appends the status of the run, how many files it asked for, and the line of its end, where it has one.
pub(crate) fn append_end(alloc: Global, made: &Made, into: &mut Vec<u8>) -> Result<(), NoMemory> {
    into.extend_from_slice(b"status ")?;
    append_number(u64::from(made.end.status()), into)?;
    into.extend_from_slice(b", files ")?;
    append_number(made.asked as u64, into)?;
    let mut line = Vec::new(alloc);
    made.end.line(&mut line)?;
    if !line.is_empty() {
        into.extend_from_slice(b": ")?;
        into.extend_from_slice(&line)?;
    }
    into.push(b'\n')?;
    Ok(())
}

/// Appends how many bytes a run wrote at which this call failed, where they begin what is written without a fault, and how it
/// ended.
pub(crate) fn append_failed(
    alloc: Global,
    name: &[u8],
    call: u64,
    made: &Made,
    whole: &[u8],
    into: &mut Vec<u8>,
) -> Result<(), NoMemory> {
    into.extend_from_slice(name)?;
    append_number(call, into)?;
    if whole.starts_with(&made.written) {
        into.extend_from_slice(b": ")?;
        append_number(made.written.len() as u64, into)?;
        into.extend_from_slice(b" bytes, ")?;
    } else {
        into.extend_from_slice(b": other bytes, ")?;
    }
    append_end(alloc, made, into)
}
