//! Bytes as lines.

use std::alloc::Global;
use std::test::Fail;
use tfpg_base::*;

/// What the first six calls of `next` return: a bar and the text, `x` for a line that is too long, `.` for the end, `!` for a
/// fault. The source gives so many bytes in a call, and fails at the calls with these numbers.
fn returned(
    alloc: Global,
    text: &[u8],
    piece: usize,
    failing: &[u64],
) -> Result<Vec<u8>, NoMemory> {
    let mut source = MemorySource::new(text, piece.max(1), failing);
    let mut lines = Lines::new(alloc)?;
    let mut all = Vec::new(alloc);
    for _ in 0..6 {
        match lines.next(&mut source) {
            Ok(Line::Text) => all.push(b'|')?,
            Ok(Line::TooLong) => all.push(b'x')?,
            Ok(Line::End) => all.push(b'.')?,
            Err(_) => all.push(b'!')?,
        }
        all.extend_from_slice(lines.text())?;
    }
    Ok(all)
}

#[test]
fn short_lines(rt: HostRuntime) -> Result<(), Fail> {
    let rows = [
        (
            "nothing",
            b"".as_slice(),
            b"......".as_slice(),
            b"!!!!!!".as_slice(),
        ),
        ("no last line end", b"a\nbc", b"|a|bc....", b"|a!!!!!"),
        ("a last line end", b"a\nbc\n", b"|a|bc....", b"|a|bc!!!!"),
        ("empty lines", b"\n\n x \n", b"||| x ...", b"||| x !!!"),
    ];
    for (row, text, ended, failed) in rows {
        for piece in [1, 2, 100] {
            assert_eq!(rt;
                returned(rt.alloc(), text, piece, &[])?.as_slice(),
                ended,
                "{row}, in pieces of {piece}"
            );
            let after_all = text.len().div_ceil(piece) as u64 + 1;
            assert_eq!(rt;
                returned(rt.alloc(), text, piece, &[after_all])?.as_slice(),
                failed,
                "{row}, in pieces of {piece}, then a failure"
            );
        }
    }
    Ok(())
}

#[test]
fn numbers_count_every_line(rt: HostRuntime) -> Result<(), Fail> {
    let mut source = SteadySource::new(b"a\n\nb");
    let mut lines = Lines::new(rt.alloc())?;
    for (call, number) in [
        ("the first call", 0),
        ("the second call", 1),
        ("the third call", 2),
        ("the call that finds the end", 3),
        ("a call after the end", 3),
    ] {
        assert_eq!(rt; lines.number(), number, "before {call}");
        let _ = lines.next(&mut source);
    }
    Ok(())
}
