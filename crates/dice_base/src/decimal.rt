//! Numbers as text.
ghost use Rattle.std.specs.Prelude.{◌≡◌, ◌++◌, OnOk, OnErr};
ghost use Rattle.std.specs.Fmt.{decimal};

use crate::{NoMemory, Text};
use itoa::Buffer;
use std::alloc::Global;

/// Adds the decimal digits of a number, with no leading zero. A refusal leaves the text as it was.
pub fn push_decimal(alloc: Global, out: &mut Text, value: u64) -> Result<(), NoMemory>
    ensures ok { OnOk result (out.new ≡ out.old ++ decimal value) }
    ensures err { OnErr result (out.new ≡ out.old) }
{
    let mut buffer = Buffer::new();
    out.append(alloc, buffer.format(value).as_bytes())
}
