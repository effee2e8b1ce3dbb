//! Lines and their commands.
use dice_base::NoMemory;
use dice_command::{Command, CommandFault, parse_command, takes_text};
use pascal_parser::ParseFault;
use pascal_scanner::ScanFault;
use std::alloc::Global;
use std::test::Fail;

// A command without its tree.
#[derive(Clone, Copy, PartialEq, Eq)]
enum Kind {
    Blank,
    Load,
    List,
    Replace(u32),
    Apply,
    Run(u32),
    Quit,
    Unbuilt,
    Bad(CommandFault),
}

const BAD: Kind = Kind::Bad(CommandFault::NotACommand);

const NUMBER: Kind = Kind::Bad(CommandFault::BadNumber);

fn kind_of(alloc: Global, line: &[u8], text: &[u8]) -> Result<Kind, NoMemory> {
    let command = parse_command(alloc, line, text)?;
    Ok(match &command {
        Command::Blank => Kind::Blank,
        Command::Load(_) => Kind::Load,
        Command::List => Kind::List,
        Command::Replace(name, _) => Kind::Replace(name.0),
        Command::Apply => Kind::Apply,
        Command::Run(gates) => Kind::Run(*gates),
        Command::Quit => Kind::Quit,
        Command::Unbuilt => Kind::Unbuilt,
        Command::Bad(fault) => Kind::Bad(*fault),
    })
}

#[test]
fn lines_are_commands(rt: HostRuntime) -> Result<(), Fail> {
    let cases = [
        (b"".as_slice(), Kind::Blank),
        (b" \t ", Kind::Blank),
        (b"\tload ", Kind::Load),
        (b"list", Kind::List),
        (b" replace\t7 \t x := 1 ", Kind::Replace(7)),
        (b"replace 5", Kind::Replace(5)),
        (b"apply", Kind::Apply),
        (b"quit", Kind::Quit),
        (b"  run\t0001000000 ", Kind::Run(1_000_000)),
        (b"discard", Kind::Unbuilt),
        (b"break x", Kind::Unbuilt),
        (b"head", Kind::Unbuilt),
        (b"insert after x", Kind::Unbuilt),
        (b"show i 3", Kind::Unbuilt),
    ];
    for (line, wanted) in cases {
        let kind = kind_of(rt.alloc(), line, b"program p; begin end.")?;
        assert!(rt; kind == wanted);
        assert!(rt; takes_text(line) == (wanted == Kind::Load));
    }
    Ok(())
}

#[test]
fn lines_are_refused(rt: HostRuntime) -> Result<(), Fail> {
    let cases = [
        (b"jump".as_slice(), BAD),
        (b"Load", BAD),
        (b"load x", BAD),
        (b"quit 1", BAD),
        (b"run a b", BAD),
        (b"run\r1", BAD),
        (b"run", NUMBER),
        (b"run 0", NUMBER),
        (b"run 1000001", NUMBER),
        (b"run 00000000000000000001000001", NUMBER),
        (b"run -1", NUMBER),
        (b"replace x y", NUMBER),
        (b"discard now", BAD),
        (b"break 1 2", BAD),
        (b"insert beside 3", BAD),
        (b"show 1", BAD),
        (b"show i 3 4", BAD),
    ];
    for (line, wanted) in cases {
        let kind = kind_of(rt.alloc(), line, b"")?;
        assert!(rt; kind == wanted);
    }
    Ok(())
}

#[test]
fn texts_are_refused(rt: HostRuntime) -> Result<(), Fail> {
    let cases = [
        (
            b"load".as_slice(),
            b"program p begin end.".as_slice(),
            CommandFault::Parse(ParseFault::Unexpected(2)),
        ),
        (b"load", b"", CommandFault::Parse(ParseFault::EndsEarly)),
        (
            b"load",
            b"program p; begin p(32768) end.",
            CommandFault::Scan(ScanFault::NumberTooLarge(19)),
        ),
        (
            b"replace 8 s := s +",
            b"",
            CommandFault::Parse(ParseFault::EndsEarly),
        ),
        (
            b"replace 8 s := ) s",
            b"",
            CommandFault::Parse(ParseFault::Unexpected(2)),
        ),
    ];
    for (line, text, fault) in cases {
        let kind = kind_of(rt.alloc(), line, text)?;
        assert!(rt; kind == Kind::Bad(fault));
    }
    Ok(())
}
