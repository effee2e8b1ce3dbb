//! Sums that stop counting at their limit.
ghost use Rattle.std.specs.Prelude.{◌≡◌, ◌≤◌, ◌+◌};
ghost use Rattle.core_tree.specs.Charge.{counted_charge};

use crate::limits::MAX_COUNTED_CHARGE;

/// A sum of words of code or of temporaries, counted up to 1,000,000. Takes no memory.
pub fn counted_sum(first: u32, second: u32) -> u32
    requires first_counted { first ≤ MAX_COUNTED_CHARGE }
    requires second_counted { second ≤ MAX_COUNTED_CHARGE }
    ensures { result ≡ counted_charge (first + second) }
{
    (first + second).min(MAX_COUNTED_CHARGE)
}

/// A number of things, counted up to 1,000,000.
pub fn count(length: usize) -> u32
    ensures { result ≡ counted_charge length }
{
    if length < MAX_COUNTED_CHARGE as usize {
        length as u32
    } else {
        MAX_COUNTED_CHARGE
    }
}
