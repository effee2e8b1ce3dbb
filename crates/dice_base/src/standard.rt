//! Standard input and output, or any other reader and writer of the kit, as a source and a sink. They tell the bytes
//! that the reader has left and those that the writer holds, where these tell them. No contract says when they fail.
ghost use Rattle.std.specs.Prelude.{◌≡◌, IfOk};

use crate::{Failed, NoMemory, Sink, Source};
use std::alloc::Global;
use std::io::{BufReader, Read, Write};

/// A source that reads ahead in large pieces.
#[derive(Drop)]
pub struct StdSource<R> {
    reader: BufReader<R>,
    faults: u64,
}

impl<R: Read + Drop> StdSource<R> {
    ghost use Rattle.dice_base.specs.Standard.{input_left, input_faults};

    /// A source of the bytes that this reader has left.
    pub fn new(alloc: Global, reader: R) -> Result<StdSource<R>, NoMemory>
        ensures left { IfOk result (λ source. input_left R.remaining source ≡ R.remaining reader) }
        ensures faults { IfOk result (λ source. input_faults source ≡ 0) }
    {
        match BufReader::new(alloc, reader) {
            Ok(reader) => Ok(StdSource { reader, faults: 0 }),
            Err(_) => Err(NoMemory),
        }
    }
}

impl<R: Read + Drop> Source for StdSource<R> {
    ghost use Rattle.dice_base.specs.Standard.{input_left, input_faults};

    ghost left = { input_left R.remaining };

    ghost faults = { input_faults };

    fn read(&mut self, into: &mut [u8]) -> Result<usize, Failed> {
        match self.reader.read(into) {
            Ok(count) => Ok(count),
            Err(_) => {
                self.faults = self.faults.saturating_add(1);
                Err(Failed)
            }
        }
    }
}

/// A sink that hands each piece to a writer at once.
#[derive(Drop)]
pub struct StdSink<W> {
    output: W,
    faults: u64,
}

impl<W: Write + Drop> StdSink<W> {
    ghost use Rattle.dice_base.specs.Standard.{output_held, output_faults};

    /// A sink that writes behind what this writer holds.
    pub fn new(output: W) -> StdSink<W>
        ensures held { output_held W.contents result ≡ W.contents output }
        ensures faults { output_faults result ≡ 0 }
    {
        StdSink { output, faults: 0 }
    }
}

impl<W: Write + Drop> Sink for StdSink<W> {
    ghost use Rattle.dice_base.specs.Standard.{output_held, output_faults};

    ghost held = { output_held W.contents };

    ghost faults = { output_faults };

    // A write that takes nothing of a piece counts as a fault, since it would be repeated without end.
    fn write(&mut self, piece: &[u8]) -> Result<usize, Failed> {
        match self.output.write(piece) {
            Ok(count) if count > 0 || piece.is_empty() => Ok(count),
            _ => {
                self.faults = self.faults.saturating_add(1);
                Err(Failed)
            }
        }
    }
}
