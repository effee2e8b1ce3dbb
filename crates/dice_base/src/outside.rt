//! The two ends that a run reads from and writes to.
ghost use Rattle.std.specs.Prelude.{◌≡◌, ◌<◌, ◌≤◌, List, ℕ, length, IfOk};
ghost use Rattle.std.specs.declared.option.Option.{Option};
ghost use Rattle.std.specs.Io.{ReadsAtMost, WritesAtMost};
ghost use Rattle.std.specs.Io.KnownBytes.{ReadConsumes, WriteAppends};
ghost use Rattle.dice_base.specs.Causes.{HasCause};

use crate::Failed;

/// Where bytes come from.
pub trait Source {
    /// The bytes that reads will give from here on, where the source tells them.
    ghost left: { Self → Option (List ℕ) };

    /// How often the source has failed: a 64-bit count that rises at each failed read, and at no other.
    ghost faults: { Self → ℕ };

    /// Reads the next bytes into the front of the piece and gives their number, which is 0 only at the end of
    /// input or where the piece is empty. A read that fails leaves the bytes left as they are.
    fn read(&mut self, into: &mut [u8]) -> Result<usize, Failed>
        ensures bound { ReadsAtMost result into.new }
        ensures bytes { ReadConsumes (left self.old) (left self.new) result into.new }
        ensures cause { HasCause (faults self.old) (faults self.new) result };
}

/// Where bytes go.
pub trait Sink {
    /// The bytes that were taken, where the sink tells them.
    ghost held: { Self → Option (List ℕ) };

    /// How often the sink has failed: a 64-bit count that rises at each failed write, and at no other.
    ghost faults: { Self → ℕ };

    /// Takes bytes from the front of the piece and gives their number, at least 1 of a piece that has any. A write
    /// that fails takes none.
    fn write(&mut self, piece: &[u8]) -> Result<usize, Failed>
        ensures bound { WritesAtMost result piece.now }
        ensures some { IfOk result (λ n. 0 < length piece.now → 0 < n) }
        ensures bytes { WriteAppends (held self.old) (held self.new) result piece.now }
        ensures cause { HasCause (faults self.old) (faults self.new) result };
}
