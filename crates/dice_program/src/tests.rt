//! Whole runs. The scripts in examples/ try the built program.
use crate::status::Status;
use crate::top::{dice11, run};
use dice_base::{MemSink, MemSource, Source};
use pdp11_machine::Machine;
use std::process::ExitCode;
use std::test::Fail;

// Each reply is written before the next line is read: a source that fails in the second line does not keep the first
// reply back.
#[test]
fn a_reply_before_the_next_line(rt: HostRuntime) -> Result<(), Fail> {
    let mut source = MemSource::new(rt.alloc(), b"run 1\nrun 1\n", 1, &[7])?;
    let mut sink = MemSink::new(rt.alloc(), 100, 100, &[])?;
    let mut machine = Machine::new(rt.alloc())?;
    let status = dice11(rt.alloc(), &[], &mut source, &mut sink, &mut machine);
    assert_eq!(rt; status, Status::ReadFault);
    assert!(rt; sink.bytes() == b"no program\n".as_slice());
    Ok(())
}

// A sink that fails leaves the second line in the source, and so does `quit`.
#[test]
fn the_next_line_is_left(rt: HostRuntime) -> Result<(), Fail> {
    for (script, fails, wanted) in [
        (b"run 1\nrun 2\n".as_slice(), 1, Status::WriteFault),
        (b"quit\nrun 2\n".as_slice(), 0, Status::Done),
    ] {
        let mut source = MemSource::new(rt.alloc(), script, 100, &[])?;
        let mut sink = MemSink::new(rt.alloc(), 100, 100, &[fails])?;
        let mut machine = Machine::new(rt.alloc())?;
        let status = dice11(rt.alloc(), &[], &mut source, &mut sink, &mut machine);
        assert_eq!(rt; status, wanted);
        assert!(rt; sink.bytes().is_empty());
        let mut next = [0; 8];
        assert_eq!(rt; source.read(&mut next), Ok(6));
        assert_eq!(rt; next[4], b'2');
    }
    Ok(())
}

// A word is answered by the usage line, and a sink that fails in it by a line of the other.
#[test]
fn a_word_gives_the_usage_line(rt: HostRuntime) -> Result<(), Fail> {
    let words = vec![in rt.alloc(); String::new(rt.alloc())]?;
    for (room, told, code) in [
        (100, "", 2),
        (9, "dice11: the transcript could not be written\n", 4),
    ] {
        let mut source = MemSource::new(rt.alloc(), b"run 1\n", 1, &[])?;
        let mut sink = MemSink::new(rt.alloc(), room, 100, &[])?;
        let mut errors = MemSink::new(rt.alloc(), 100, 100, &[])?;
        let mut machine = Machine::new(rt.alloc())?;
        let exit = run(
            rt.alloc(),
            &words,
            &mut source,
            &mut sink,
            &mut machine,
            &mut errors,
        );
        assert_eq!(rt; exit, ExitCode::from(code));
        assert!(rt; sink.bytes().len() == 39usize.min(room));
        assert!(rt; errors.bytes() == told.as_bytes());
    }
    Ok(())
}
