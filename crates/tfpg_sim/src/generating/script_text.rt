//! The script for a generated graph.

ghost use Rattle.std.specs.Prelude.{◌≡◌, ◌<◌, ◌^◌, IfOk, [], if◌then◌else◌, ◌==◌};
ghost use Rattle.tfpg_base.specs.Append.{Appends};
ghost use Rattle.tfpg_sim.specs.Generated.{start_text, last_lines, script_drawn};

use crate::generating::drawn_name::drawn_name;
use crate::generating::draws::draw;
use crate::limits::FAILURE_COUNT;
use itoa::Buffer;
use rand_pcg::Lcg64Xsh32;
use std::alloc::Global;
use tfpg_base::{Bytes, NoMemory, append_line};

/// Draws which failure modes start, and gives the script.
pub(crate) fn draw_script(alloc: Global, state: &mut Lcg64Xsh32) -> Result<Bytes, NoMemory>
    ensures { IfOk result (λ script. script ≡ script_drawn state.old) }
{
    let first = draw(state, FAILURE_COUNT);
    let second = draw(state, FAILURE_COUNT);
    let mut text = Vec::new(alloc);
    append_start(alloc, 0, first, &mut text)?;
    append_second(alloc, first, second, &mut text)?;
    append_last_lines(&mut text)?;
    Ok(Bytes::from_vec(text))
}

/// Appends the start of the second failure mode, where it is another one.
fn append_second(alloc: Global, first: u32, second: u32, into: &mut Vec<u8>) -> Result<(), NoMemory>
    ensures { Appends result into.old.items into.new.items
        (if first == second then [] else start_text 50 second) }
{
    if first == second {
        Ok(())
    } else {
        append_start(alloc, 50, second, into)
    }
}

/// Appends the line by which a failure mode starts.
fn append_start(alloc: Global, time: u64, failure: u32, into: &mut Vec<u8>) -> Result<(), NoMemory>
    ensures { Appends result into.old.items into.new.items (start_text time failure) }
{
    let mut digits = Buffer::new();
    let name = drawn_name(alloc, failure)?;
    append_line(into, &[digits.format(time).as_bytes(), b"start", &name])
}

/// Appends the changes of mode, the sweeps and the stop.
fn append_last_lines(into: &mut Vec<u8>) -> Result<(), NoMemory>
    ensures { Appends result into.old.items into.new.items last_lines }
{
    into.extend_from_slice(b"100 mode M1\n140 mode M0\n200 sweep\n300 sweep\n400 stop\n")?;
    Ok(())
}
