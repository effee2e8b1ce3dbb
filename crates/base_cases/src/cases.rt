use dice_base::{
    ByteClass, Failed, MemSink, MemSource, NoMemory, Sink, Source, StdSink, StdSource, Text,
    byte_class, one_more, push_decimal, write_all,
};
use script_lines::{Got, LineFault, next_line, stripped};
use std::io::{Cursor, writer};
use std::test::Fail;

#[test]
fn texts_and_decimals(rt: HostRuntime) -> Result<(), Fail> {
    let mut text = Text::new(rt.alloc());
    text.push(rt.alloc(), b'a')?;
    text.append(rt.alloc(), b"b ")?;
    push_decimal(rt.alloc(), &mut text, 0)?;
    push_decimal(rt.alloc(), &mut text, 18_446_744_073_709_551_615)?;
    assert_eq!(rt;
        text.copy(rt.alloc())?.bytes(),
        b"ab 018446744073709551615".as_slice()
    );
    Ok(())
}

#[test]
fn source_in_memory(rt: HostRuntime) -> Result<(), Fail> {
    let mut source = MemSource::new(rt.alloc(), b"abcd", 3, &[2])?;
    let mut piece = [0; 8];
    assert_eq!(rt; source.read(&mut piece), Ok(3));
    assert_eq!(rt; source.read(&mut piece), Err(Failed));
    assert_eq!(rt; source.read(&mut piece), Ok(1));
    assert_eq!(rt; piece[0], b'd');
    assert_eq!(rt; source.read(&mut piece), Ok(0));
    Ok(())
}

#[test]
fn sink_in_memory(rt: HostRuntime) -> Result<(), Fail> {
    let mut sink = MemSink::new(rt.alloc(), 5, 2, &[4])?;
    assert_eq!(rt; write_all(&mut sink, b"abc"), Ok(()));
    assert_eq!(rt; sink.write(b"d"), Ok(1));
    assert_eq!(rt; sink.write(b"e"), Err(Failed));
    assert_eq!(rt; write_all(&mut sink, b"ef"), Err(Failed));
    assert_eq!(rt; sink.write(b""), Ok(0));
    assert_eq!(rt; sink.bytes(), b"abcde".as_slice());
    Ok(())
}

// A reader of the kit as a source, and two of its writers as sinks: the second has room for one byte.
#[test]
fn standard_ends(rt: HostRuntime) -> Result<(), Fail> {
    let mut source = StdSource::new(rt.alloc(), b"xy".as_slice())?;
    let mut piece = [0; 8];
    assert_eq!(rt; source.read(&mut piece), Ok(2));
    assert_eq!(rt; piece[1], b'y');
    assert_eq!(rt; source.read(&mut piece), Ok(0));
    let mut sink = StdSink::new(writer(&rt));
    assert_eq!(rt; write_all(&mut sink, b"."), Ok(()));
    let mut room = [0];
    let mut sink = StdSink::new(Cursor::new(&mut room[..]));
    assert_eq!(rt; sink.write(b"ab"), Ok(1));
    assert_eq!(rt; sink.write(b"b"), Err(Failed));
    Ok(())
}

#[test]
fn classes_and_counts(rt: HostRuntime) {
    for (byte, wanted) in [
        (b'z', ByteClass::Letter),
        (b'9', ByteClass::Digit),
        (b'\r', ByteClass::Separator),
        (b'[', ByteClass::Mark),
    ] {
        assert_eq!(rt; byte_class(byte), wanted);
    }
    assert_eq!(rt; one_more(0), Ok(1));
    assert_eq!(rt; one_more(u32::MAX), Err(NoMemory));
}

// A carriage return goes only before a line feed, the room ends between two bytes, and the source fails in a line.
#[test]
fn lines_of_a_source(rt: HostRuntime) -> Result<(), Fail> {
    let mut source = MemSource::new(rt.alloc(), b"ab\n\nc\rd\r\nlast", 3, &[6])?;
    let mut line = Vec::new(rt.alloc());
    let mut room = 10;
    for (text, left) in [("ab", 7), ("", 6)] {
        let got = next_line(&mut source, &mut line, &mut room);
        assert_eq!(rt; got, Ok(Got::Whole));
        assert_eq!(rt; stripped(&line), text.as_bytes());
        assert_eq!(rt; room, left);
    }
    let got = next_line(&mut source, &mut line, &mut room);
    assert_eq!(rt; got, Err(LineFault::SourceFailed));
    let got = next_line(&mut source, &mut line, &mut room);
    assert_eq!(rt; got, Ok(Got::Whole));
    assert_eq!(rt; stripped(&line), b"\rd".as_slice());
    let got = next_line(&mut source, &mut line, &mut room);
    assert_eq!(rt; got, Ok(Got::TooFar));
    Ok(())
}
