use crate::{
    Code, FoldKind, Got, MemSink, MemSource, ReadStop, Refusal, Sink, Source, Stop, Text, Took,
    WriteFault, put, read_all,
};
use std::alloc::{AllocError, Global};
use std::test::Fail;

/// A source of these bytes, in pieces of at least one, whose calls with these numbers fail.
fn source(
    alloc: Global,
    bytes: &[u8],
    piece: usize,
    fails: &[u64],
) -> Result<MemSource, AllocError> {
    let piece = piece.max(1);
    Ok(MemSource::new(
        Vec::from_slice(alloc, bytes)?,
        piece,
        Vec::from_slice(alloc, fails)?,
    ))
}

/// What was read, and how the reading ended: `+` for all, else the stop.
fn read_of(alloc: Global, piece: usize, fails: &[u64], limit: usize) -> Result<String, Fail> {
    let mut input = source(alloc, b"abcdefgh", piece, fails)?;
    match read_all(alloc, &mut input, limit) {
        Ok(bytes) => Ok(String::from_str(
            alloc,
            std::str::from_utf8(&bytes).unwrap_or("not a text"),
        )?),
        Err(stop) => Ok(format!(in alloc; "{stop:?}")?),
    }
}

#[test]
fn reads_in_pieces(rt: HostRuntime) -> Result<(), Fail> {
    let alloc = rt.alloc();
    let table: [(usize, &[u64], usize, &str); 8] = [
        (1, &[], 8, "abcdefgh"),
        (3, &[], 8, "abcdefgh"),
        (100, &[], 100, "abcdefgh"),
        (3, &[], 7, "TooLong"),
        (3, &[], 0, "TooLong"),
        (3, &[1], 8, "Fault"),
        (3, &[4], 8, "Fault"),
        (3, &[5], 8, "abcdefgh"),
    ];
    for (piece, fails, limit, want) in table {
        let got = read_of(alloc, piece, fails, limit)?;
        assert_eq!(rt; got.as_str(), want);
    }
    assert_eq!(rt; ReadStop::Memory, ReadStop::Memory);
    let mut input = source(alloc, b"ab", 9, &[2])?;
    let mut buffer = [0; 4];
    assert_eq!(rt; input.read(&mut buffer), Got::Bytes(2));
    assert_eq!(rt; input.read(&mut buffer), Got::Failed);
    assert_eq!(rt; input.read(&mut buffer), Got::End);
    Ok(())
}

#[test]
fn writes_in_pieces(rt: HostRuntime) -> Result<(), Fail> {
    let alloc = rt.alloc();
    let table: [(usize, usize, &[u64], bool, &str); 5] = [
        (8, 1, &[], true, "abcdefgh"),
        (100, 3, &[], true, "abcdefgh"),
        (5, 3, &[], false, "abcde"),
        (8, 3, &[1], false, ""),
        (8, 3, &[3], false, "abcdef"),
    ];
    for (room, piece, fails, whole, want) in table {
        let piece = piece.max(1);
        let mut out = MemSink::new(alloc, room, piece, Vec::from_slice(alloc, fails)?)?;
        assert_eq!(rt;
            put(&mut out, b"abcdefgh"),
            if whole { Ok(()) } else { Err(WriteFault) }
        );
        assert_eq!(rt; out.bytes(), want.as_bytes());
    }
    let mut out = MemSink::new(alloc, 2, 9, Vec::new(alloc))?;
    assert_eq!(rt; out.write(b"abc"), Took::Bytes(2));
    assert_eq!(rt; out.write(b"c"), Took::Failed);
    Ok(())
}

#[test]
fn texts_and_refusals(rt: HostRuntime) -> Result<(), Fail> {
    let alloc = rt.alloc();
    let mut text = Text::of(alloc, "le")?;
    text.push_str("gal")?;
    assert_eq!(rt; text.as_str(), "legal");
    assert_eq!(rt; Text::new(alloc).as_str(), "");
    let refusal = Refusal::at(alloc, Code::NoReading, 4, 5);
    assert_eq!(rt;
        (refusal.code.number(), refusal.line, refusal.column),
        (10, 4, 5)
    );
    assert_eq!(rt; refusal.code.name(), "NoReading");
    assert_eq!(rt; (Code::TooLong.number(), Code::BadNumber.number()), (1, 24));
    assert!(rt; matches!(Stop::from(AllocError), Stop::Memory));
    assert_ne!(rt; FoldKind::Sum, FoldKind::Greatest);
    Ok(())
}
