ghost use Rattle.std.specs.Prelude.{◌≡◌, IfOk};

use super::steady::{SteadyRead, SteadyWrite};
use super::*;
use crate::run_on_files;
use std::alloc::{AllocError, Global};
use std::fs::File;
use std::io::{Error, ErrorKind, PipeWriter, Read, Write};
use std::test::Fail;
use std::{fs, io};
use tfpg_base::{Failed, Shelf, ShelfFault, Sink, Source};
use tfpg_run::End;

/// A file that opens and cannot be read, not even by root: the memory of this process, which has none at the address 0.
const UNREADABLE_FILE: &str = "/proc/self/mem";

/// Reads and writes, of which the first is cut off by a signal, the second goes well, and the others fail.
#[derive(Drop)]
struct Faulty {
    calls: u8,
}

impl Faulty {
    /// How the next call ends: with this count, if it goes well.
    fn next_call(&mut self, count: usize) -> io::Result<usize>
        ensures { IfOk result (λ done. done ≡ count) }
    {
        self.calls = self.calls.saturating_add(1);
        match self.calls {
            1 => Err(Error::from(ErrorKind::Interrupted)),
            2 => Ok(count),
            _ => Err(Error::from(ErrorKind::BrokenPipe)),
        }
    }
}

impl Read for Faulty {
    fn read(&mut self, room: &mut [u8]) -> io::Result<usize> {
        room.fill(b'f');
        self.next_call(room.len())
    }
}

impl Write for Faulty {
    fn write(&mut self, piece: &[u8]) -> io::Result<usize> {
        self.next_call(piece.len())
    }

    fn flush(&mut self) -> io::Result<()> {
        Ok(())
    }
}

impl SteadyRead for Faulty {
    ghost use Rattle.std.specs.Prelude.{refl};

    ghost steady = { λ _ _ _. refl };
}

impl SteadyWrite for Faulty {
    ghost use Rattle.std.specs.Prelude.{refl};

    ghost steady = { λ _ _ _. refl };
}

impl SteadyRead for File {
    ghost use Rattle.std.specs.Prelude.{refl};

    ghost steady = { λ _ _ _. refl };
}

impl SteadyWrite for PipeWriter {
    ghost use Rattle.std.specs.Prelude.{refl};

    ghost steady = { λ _ _ _. refl };
}

impl SteadyWrite for &mut [u8] {
    ghost use Rattle.std.specs.Prelude.{refl};

    ghost steady = { λ _ _ _. refl };
}

impl SteadyRead for &[u8] {
    ghost use Rattle.std.specs.Prelude.{Some};
    ghost use Rattle.std.proofs.Common.{ap};

    ghost steady = { λ _ _ same. ap Some same };
}

#[test]
fn input_is_taken_in_pieces(rt: HostRuntime) {
    let mut input = StandardInput::new(b"abcde".as_slice());
    let mut room = [0; 3];
    for (row, count, front) in [
        ("as much as fits", 3, b"abc"),
        ("the rest", 2, b"dec"),
        ("the end", 0, b"dec"),
    ] {
        assert_eq!(rt; input.take(&mut room), Ok(count), "{row}");
        assert_eq!(rt; room.as_slice(), front.as_slice(), "{row}");
    }
    let mut faulty = StandardInput::new(Faulty { calls: 0 });
    for (call, taken) in [
        ("a call that is made again", Ok(3)),
        ("the first that fails", Err(Failed)),
        ("the second that fails", Err(Failed)),
    ] {
        assert_eq!(rt; faulty.take(&mut room), taken, "{call}");
    }
    assert_eq!(rt; faulty.faults(), 2);
}

#[test]
fn output_is_put_in_pieces(rt: HostRuntime) {
    let mut room = [b'-'; 5];
    let mut output = StandardOutput::new(room.as_mut_slice());
    for (row, piece, put) in [
        ("fits", b"abc".as_slice(), Ok(3)),
        ("nothing", b"", Ok(0)),
        ("a part fits", b"def", Ok(2)),
        ("no room", b"f", Err(Failed)),
    ] {
        assert_eq!(rt; output.put(piece), put, "{row}");
    }
    assert_eq!(rt; output.faults(), 1);
    assert_eq!(rt; room.as_slice(), b"abcde".as_slice());
    let mut faulty = StandardOutput::new(Faulty { calls: 0 });
    for (row, put) in [
        ("a call that is made again", Ok(3)),
        ("the first that fails", Err(Failed)),
        ("the second that fails", Err(Failed)),
    ] {
        assert_eq!(rt; faulty.put(b"abc"), put, "{row}");
    }
    assert_eq!(rt; faulty.faults(), 2);
}

#[test]
fn files_are_fetched(rt: HostRuntime) -> Result<(), Fail> {
    let mut content = vec![in rt.alloc(); b'7'; (1 << 24) + 1]?;
    fs::write(&rt, "too_long.file_shelf", content.as_slice())?;
    content.truncate(1 << 24);
    fs::write(&rt, "longest.file_shelf", content.as_slice())?;
    fs::write(&rt, "short.file_shelf", "two\nlines\n")?;
    let mut shelf = FileShelf::new(&rt);
    let mut file = Vec::new(rt.alloc());
    for (name, fetched, length) in [
        ("short.file_shelf", Ok(()), 10),
        ("longest.file_shelf", Ok(()), 1 << 24),
        ("too_long.file_shelf", Err(ShelfFault::TooLong), 1 << 24),
        ("absent.file_shelf", Err(ShelfFault::Failed), 0),
        (".", Err(ShelfFault::Failed), 0),
    ] {
        assert_eq!(rt; shelf.fetch(rt.alloc(), name, &mut file), fetched, "{name}");
        assert_eq!(rt; file.len(), length, "{name}");
    }
    assert_eq!(rt; shelf.faults(), 2);
    shelf
        .fetch(rt.alloc(), "short.file_shelf", &mut file)
        .map_err(|_| "short")?;
    assert_eq!(rt; file.as_slice(), b"two\nlines\n".as_slice());
    for name in [
        "too_long.file_shelf",
        "longest.file_shelf",
        "short.file_shelf",
    ] {
        fs::remove_file(&rt, name)?;
    }
    Ok(())
}

/// A pipe that nobody reads.
fn closed_pipe(rt: &HostRuntime) -> io::Result<PipeWriter> {
    let (_reader, writer) = io::pipe(rt)?;
    Ok(writer)
}

/// The words as texts.
fn words_of(alloc: Global, texts: &[&str]) -> Result<Vec<String>, AllocError> {
    let mut words = Vec::new(alloc);
    for text in texts {
        words.push(String::from_str(alloc, text)?)?;
    }
    Ok(words)
}

/// How a run on the file of this name ends.
fn run_on<S: Source, K: Sink>(
    rt: &HostRuntime,
    name: &str,
    input: &mut S,
    out: &mut K,
) -> Result<End, AllocError> {
    let words = words_of(rt.alloc(), &["diagnose", "--k", "0", name])?;
    Ok(run_on_files(rt, &words, input, out))
}

#[test]
fn a_closed_pipe_is_a_write_fault(rt: HostRuntime) -> Result<(), Fail> {
    fs::write(&rt, "graph.closed_pipe", "tfpg 1\nmode N\nend\n")?;
    let mut input = StandardInput::new(b"5 tick\n".as_slice());
    let mut output = StandardOutput::new(closed_pipe(&rt)?);
    let end = run_on(&rt, "graph.closed_pipe", &mut input, &mut output)?;
    assert_eq!(rt; end, End::WriteFault);
    assert_eq!(rt; end.status(), 6);
    let mut line = Vec::new(rt.alloc());
    end.line(&mut line)?;
    assert_eq!(rt; line.as_slice(), b"write fault".as_slice());
    assert_eq!(rt; output.faults(), 1);
    Ok(fs::remove_file(&rt, "graph.closed_pipe")?)
}

#[test]
fn an_unreadable_file_is_a_read_fault(rt: HostRuntime) -> Result<(), Fail> {
    let mut input = StandardInput::new(fs::open(&rt, UNREADABLE_FILE)?);
    let mut output = StandardOutput::new(closed_pipe(&rt)?);
    let end = run_on(&rt, UNREADABLE_FILE, &mut input, &mut output)?;
    assert_eq!(rt; end, End::ReadFault);
    assert_eq!(rt; end.status(), 5);
    // So is a folder.
    assert_eq!(rt; run_on(&rt, ".", &mut input, &mut output)?, End::ReadFault);
    // Neither was touched.
    assert_eq!(rt; input.faults(), 0);
    assert_eq!(rt; output.faults(), 0);
    // Reading it fails as an input too.
    assert_eq!(rt; input.take(&mut [0; 3]), Err(Failed));
    Ok(())
}

/// A graph of two failure modes, of which both explain an alarm of `A` at 30.
const TWO_CAUSES: &str =
    "tfpg 1\nmode N\nfailure F1 3\nfailure F2 5\nor A watch 0\nor B hidden\nand C watch 0\n\
    edge F1 A 10 20 *\nedge F2 A 5 5 *\nedge F1 B 0 inf *\nedge A C 0 10 *\nedge B C 0 10 *\nend\n";

/// What panels of each kind write, in the files of these names.
const PANEL_FILES: [(&str, &str); 3] = [
    (
        "top.file_panel",
        "round 1 best F1 cost 3\nround 2 best F1 cost 3\n",
    ),
    (
        "count.file_panel",
        "round 1 ranked 2 covered 0 rejected 1 open 0\nround 2 ranked 2 covered 0 rejected 1 open 0\n",
    ),
    (
        "json.file_panel",
        "{\"counts\":{\"covered\":0,\"open\":0,\"ranked\":2,\"rejected\":1},\"line\":1,\"now\":30,\"open\":[],\
        \"ranked\":[{\"alarmed\":1,\"cost\":3,\"monitored\":2,\"set\":[\"F1\"]},\
        {\"alarmed\":1,\"cost\":5,\"monitored\":1,\"set\":[\"F2\"]}],\"rejected\":[[]],\"round\":1}\n\
        {\"counts\":{\"covered\":0,\"open\":0,\"ranked\":2,\"rejected\":1},\"line\":3,\"now\":31,\"open\":[],\
        \"ranked\":[{\"alarmed\":1,\"cost\":3,\"monitored\":2,\"set\":[\"F1\"]},\
        {\"alarmed\":1,\"cost\":5,\"monitored\":1,\"set\":[\"F2\"]}],\"rejected\":[],\"round\":2}\n",
    ),
];

/// The words of a diagnosis with a panel for each of these files, and one whose file cannot be made.
const PANEL_WORDS: [&str; 8] = [
    "diagnose",
    "--k",
    "1",
    "graph.file_panel",
    "top:top.file_panel",
    "count:count.file_panel",
    "top:no_such_folder/top.file_panel",
    "json:json.file_panel",
];

/// Whether one of the lines of the text is this one.
fn has_line(text: &[u8], line: &[u8]) -> bool {
    text.split(|byte| *byte == b'\n').any(|found| found == line)
}

#[test]
fn panels_write_a_line_for_each_round(rt: HostRuntime) -> Result<(), Fail> {
    fs::write(&rt, "graph.file_panel", TWO_CAUSES)?;
    fs::write(&rt, "top.file_panel", "what an earlier run wrote\n")?;
    let words = words_of(rt.alloc(), &PANEL_WORDS)?;
    let mut input = StandardInput::new(b"30 alarm A\n29 tick\n31 tick\n".as_slice());
    let mut room = [b'-'; 4096];
    let mut output = StandardOutput::new(room.as_mut_slice());
    let end = run_on_files(&rt, &words, &mut input, &mut output);
    assert_eq!(rt; end, End::Done);
    assert!(rt; has_line(&room, b"panel 3 lost"));
    for (name, text) in &PANEL_FILES {
        let written = fs::read(&rt, *name)?;
        assert_eq!(rt; written.as_slice(), text.as_bytes(), "{name}");
        fs::remove_file(&rt, *name)?;
    }
    Ok(fs::remove_file(&rt, "graph.file_panel")?)
}
