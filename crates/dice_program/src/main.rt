//! The program `dice11`: a script on standard input, and its transcript on standard output.
#![tactic(auto)]

mod limits;
mod serve;
mod status;
#[cfg(test)]
mod tests;
mod text;
mod top;

use dice_base::{NoMemory, Sink, StdSink, StdSource};
use pdp11_machine::Machine;
use status::Status;
use std::env::{Env, args};
use std::io::{ErrorKind, writer};
use std::process::ExitCode;
use top::{run, told};

// `run` says what the process reads, writes and ends with, as far as the kit tells what standard input gives and what
// standard output takes.
fn main(rt: HostRuntime) -> ExitCode {
    let mut errors = StdSink::new(rt.stderr());
    match started(&rt, &mut errors) {
        Ok(code) => code,
        Err(NoMemory) => told(&mut errors, Status::NoMemory),
    }
}

// Runs the script on standard input, on a new machine. Where there is no memory to begin, nothing is read or written.
fn started<E: Sink>(
    rt: &(impl Env + Input + Print + AllocGlobal),
    errors: &mut E,
) -> Result<ExitCode, NoMemory> {
    let words = words_of(rt)?;
    let mut source = StdSource::new(rt.alloc(), rt.reader())?;
    let mut sink = StdSink::new(writer(rt));
    let mut machine = Machine::new(rt.alloc())?;
    Ok(run(
        rt.alloc(),
        &words,
        &mut source,
        &mut sink,
        &mut machine,
        errors,
    ))
}

// The words behind the program's own name. One that is no text stands for all of them.
fn words_of(rt: &(impl Env + AllocGlobal)) -> Result<Vec<String>, NoMemory> {
    match args(rt) {
        Ok(mut words) => {
            let _name = words.next();
            Ok(words.collect(rt.alloc())?)
        }
        Err(error) if error.kind() == ErrorKind::OutOfMemory => Err(NoMemory),
        Err(_) => Ok(vec![in rt.alloc(); String::new(rt.alloc())]?),
    }
}
