//! Counts that go up by one.
ghost use Rattle.std.specs.Prelude.{◌≡◌, ◌+◌, ◌<◌, ◌^◌, OkIff};

use crate::fault::NoMemory;

/// One more than this, where that has 32 bits. What is counted stands in memory, so a count past them is refused as if
/// there were none.
pub fn one_more(count: u32) -> Result<u32, NoMemory>
    ensures { OkIff result (count + 1 < 2 ^ 32) (count + 1) }
{
    count.checked_add(1).ok_or(NoMemory)
}
