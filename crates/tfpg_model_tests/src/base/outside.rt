//! Sources, sinks and shelves of files in memory, and files.

use std::alloc::Global;
use std::test::Fail;
use tfpg_base::*;

/// What the next calls of a source return, through the bound: so many bytes each, `!` for a failure.
fn taken<S: Source>(alloc: Global, source: &mut S, calls: usize) -> Result<Vec<u8>, NoMemory> {
    let mut room = [0; 3];
    let mut all = Vec::new(alloc);
    for _ in 0..calls {
        match source.take(&mut room) {
            Ok(count) => {
                all.extend_from_slice(&room[..count.min(3)])?;
                all.push(b'|')?;
            }
            Err(Failed) => all.push(b'!')?,
        }
    }
    Ok(all)
}

#[test]
fn a_memory_source_gives_its_bytes_in_pieces(rt: HostRuntime) -> Result<(), Fail> {
    let mut source = MemorySource::new(b"abcde", 2, &[2]);
    assert_eq!(rt;
        taken(rt.alloc(), &mut source, 5)?.as_slice(),
        b"ab|!cd|e||".as_slice()
    );
    assert_eq!(rt; source.faults(), 1);
    assert!(rt; source.left().is_empty());
    Ok(())
}

#[test]
fn a_steady_source_fills_the_room(rt: HostRuntime) -> Result<(), Fail> {
    let mut source = SteadySource::new(b"abcde");
    assert_eq!(rt;
        taken(rt.alloc(), &mut source, 1)?.as_slice(),
        b"abc|".as_slice()
    );
    assert_eq!(rt; source.left(), b"de".as_slice());
    assert_eq!(rt;
        taken(rt.alloc(), &mut source, 2)?.as_slice(),
        b"de||".as_slice()
    );
    Ok(())
}

/// What one call of a sink returns, through the bound.
fn put<K: Sink>(sink: &mut K, piece: &[u8]) -> Result<usize, Failed> {
    sink.put(piece)
}

#[test]
fn a_memory_sink_keeps_what_it_takes(rt: HostRuntime) {
    let mut sink = MemorySink::new(rt.alloc(), 2, &[2]);
    for (row, piece, count) in [
        ("as much as fits a call", b"abc".as_slice(), Ok(2)),
        ("a call that is to fail", b"c", Err(Failed)),
        ("the rest", b"c", Ok(1)),
        ("nothing", b"", Ok(0)),
    ] {
        assert_eq!(rt; put(&mut sink, piece), count, "{row}");
    }
    assert_eq!(rt; sink.bytes(), b"abc".as_slice());
    assert_eq!(rt; sink.faults(), 1);
    assert_eq!(rt; sink.into_bytes().as_slice(), b"abc".as_slice());
}

/// What one call of a shelf returns, through the bound.
fn fetch<F: Shelf>(
    alloc: Global,
    shelf: &mut F,
    name: &str,
    into: &mut Vec<u8>,
) -> Result<(), ShelfFault> {
    shelf.fetch(alloc, name, into)
}

#[test]
fn a_memory_shelf_gives_its_files(rt: HostRuntime) -> Result<(), Fail> {
    let files: [(&str, &[u8]); 3] = [("a", b"1"), ("b", b"22"), ("a", b"333")];
    let mut shelf = MemoryShelf::new(rt.alloc(), &files, &[2]);
    let mut file = Vec::new(rt.alloc());
    for (row, name, fetched, content) in [
        ("the first of two", "a", Ok(()), b"1".as_slice()),
        ("a call that is to fail", "a", Err(ShelfFault::Failed), b""),
        ("another file", "b", Ok(()), b"22"),
        ("an absent file", "c", Err(ShelfFault::Failed), b""),
    ] {
        assert_eq!(rt;
            fetch(rt.alloc(), &mut shelf, name, &mut file),
            fetched,
            "{row}"
        );
        assert_eq!(rt; file.as_slice(), content, "{row}");
    }
    assert_eq!(rt; shelf.faults(), 2);
    assert_eq!(rt; shelf.asked().len(), 4);
    assert_eq!(rt; shelf.asked()[3].as_str(), "c");
    Ok(())
}

/// A row by its name: how many bytes a file has, what is appended, whether that fits, how many bytes the file has then, and
/// how it ends.
const APPENDED: [(&str, usize, &[u8], bool, usize, &[u8]); 4] = [
    ("a part that fits", 2, b"ab", true, 4, b"77ab"),
    (
        "a part that reaches the limit",
        LONGEST_FILE - 2,
        b"ab",
        true,
        LONGEST_FILE,
        b"7ab",
    ),
    (
        "a part that passes it by one",
        LONGEST_FILE - 1,
        b"ab",
        false,
        LONGEST_FILE,
        b"7a",
    ),
    (
        "nothing, at the limit",
        LONGEST_FILE,
        b"",
        true,
        LONGEST_FILE,
        b"7",
    ),
];

/// Whether the part fits a file of so many bytes, and what the file holds then.
fn appended(alloc: Global, count: usize, part: &[u8]) -> Result<(bool, Vec<u8>), Fail> {
    let mut file = vec![in alloc; b'7'; count]?;
    if file.len() > LONGEST_FILE {
        return Err(Fail::from("the file is too long"));
    }
    let fits = append_to_file(&mut file, part)?;
    Ok((fits, file))
}

#[test]
fn a_file_grows_up_to_its_limit(rt: HostRuntime) -> Result<(), Fail> {
    for (row, count, part, fits, length, end) in &APPENDED {
        let (whole, file) = appended(rt.alloc(), *count, *part)?;
        assert_eq!(rt; whole, *fits, "{row}");
        assert_eq!(rt; file.len(), *length, "{row}");
        assert!(rt; file.as_slice().ends_with(*end), "{row}");
    }
    Ok(())
}
