//! The session: what each command does, and the reply to it.
ghost use Rattle.std.specs.Prelude.{◌≡◌, ◌≤◌, List, Some, IfOk, OnOk};
ghost use Rattle.pdp11_machine.specs.State.{zero_machine};
ghost use Rattle.pascal_tree.specs.declared.program.Tree.{Tree};
ghost use Rattle.simple_form.specs.Simple.{resolution_of};
ghost use Rattle.pascal_semantics.specs.Valid.{IsProgram};
ghost use Rattle.dice_command.specs.Command.{IsWellRead};
ghost use Rattle.dice_session.specs.Readings.{AreNamed};
ghost use Rattle.dice_session.specs.World.{World, empty_world, program_reply, load_reply, if_program, run_reply, begun_reply, reply_of};
ghost use Rattle.dice_session.specs.SessionOf.{IsSessionOf, Became};

use crate::loading::load;
use crate::progress::{Progress, progress_after};
use crate::reply::{push_full, refuse, refuse_line};
use crate::running::run;
use console_service::Console;
use dice_base::{NoMemory, Text};
use dice_command::Command;
use pascal_semantics::{MAX_PROGRAM_WORDS, Statement, code_words};
use pdp11_machine::Machine;
use program_tree::Program;
use simple_form::resolve_program;
use std::alloc::Global;

/// A session: the present program and the draft. The program's state is that of the machine and the console.
#[derive(Drop)]
pub struct Session {
    pub(crate) console: Console,
    // The statements of the present program.
    pub(crate) program: Option<Vec<Statement>>,
    pub(crate) progress: Progress,
    // The program that edits change.
    pub(crate) draft: Option<Program>,
}

impl Session {
    /// A session before its first command. There is no program, and the machine was not used.
    pub fn new(alloc: Global) -> Result<Session, NoMemory>
        ensures { IfOk result (λ session. IsSessionOf empty_world session zero_machine) }
    {
        Ok(Session {
            console: Console::new(alloc)?,
            program: None,
            progress: Progress::NotStarted,
            draft: None,
        })
    }

    /// Carries out a command, and adds the reply behind `out`. Where memory is refused, the session is not to be used
    /// again.
    pub fn command(
        &mut self,
        alloc: Global,
        command: Command,
        machine: &mut Machine,
        out: &mut Text,
    ) -> Result<(), NoMemory>
        requires well_read { IsWellRead command }
        // The session and the machine are those of some world.
        requires lives { (w : World) × IsSessionOf w self.old machine.old }
        ensures { OnOk result ((w : World) → IsSessionOf w self.old machine.old
            → Became (reply_of w command) out.old out.new machine.old self.new machine.new) }
    {
        match command {
            Command::Blank => Ok(()),
            Command::Quit => Ok(()),
            Command::Load(program) => self.load(alloc, program, machine, out),
            Command::List => self.list(alloc, out),
            Command::Replace(name, stmt) => self.replace(alloc, name, &stmt, out),
            Command::Apply => self.apply(alloc, machine, out),
            Command::Run(gates) => self.run(alloc, gates, machine, out),
            Command::Unbuilt => refuse(alloc, out, b"not built"),
            Command::Bad(fault) => refuse_line(alloc, out, fault),
        }
    }

    fn run(
        &mut self,
        alloc: Global,
        gates: u32,
        machine: &mut Machine,
        out: &mut Text,
    ) -> Result<(), NoMemory>
        requires some { 1 ≤ gates }
        requires lives { (w : World) × IsSessionOf w self.old machine.old }
        ensures { OnOk result ((w : World) → IsSessionOf w self.old machine.old
            → Became (if_program w.present w (run_reply w gates)) out.old out.new machine.old self.new machine.new) }
    {
        let Some(statements) = &self.program else {
            return refuse(alloc, out, b"no program");
        };
        if self.progress.is_over() {
            return refuse(alloc, out, b"already ended");
        }
        let over = run(alloc, statements, gates, machine, &mut self.console, out)?;
        self.progress = progress_after(over);
        Ok(())
    }

    // The program is the present one and the draft, where it is built and its blocks fit.
    fn load(
        &mut self,
        alloc: Global,
        program: Program,
        machine: &mut Machine,
        out: &mut Text,
    ) -> Result<(), NoMemory>
        ensures { OnOk result ((w : World) → IsSessionOf w self.old machine.old
            → Became (program_reply w program) out.old out.new machine.old self.new machine.new) }
    {
        match resolve_program(alloc, &program)? {
            Some(simple) => self.load_statements(alloc, program, simple.statements, machine, out),
            None => refuse(alloc, out, b"not built"),
        }
    }

    fn load_statements(
        &mut self,
        alloc: Global,
        program: Program,
        statements: Vec<Statement>,
        machine: &mut Machine,
        out: &mut Text,
    ) -> Result<(), NoMemory>
        requires resolves { resolution_of program ≡ Some statements.items }
        requires named { AreNamed statements.items }
        ensures { OnOk result ((w : World) → IsSessionOf w self.old machine.old
            → Became (load_reply w program statements.items) out.old out.new machine.old self.new machine.new) }
    {
        let words = code_words(&statements);
        if words > MAX_PROGRAM_WORDS {
            return push_full(alloc, out, words);
        }
        self.begin(alloc, statements, machine, out)?;
        self.draft = Some(program);
        Ok(())
    }

    /// The statements of a program become those of the present one, and the machine is ready to begin it.
    pub(crate) fn begin(
        &mut self,
        alloc: Global,
        statements: Vec<Statement>,
        machine: &mut Machine,
        out: &mut Text,
    ) -> Result<(), NoMemory>
        requires { IsProgram statements.items }
        ensures { OnOk result ((w : World) (p : Tree) → IsSessionOf w self.old machine.old
            → resolution_of p ≡ Some statements.items
            → Became (begun_reply w p statements.items) out.old out.new machine.old self.new machine.new) }
    {
        load(alloc, &statements, machine, &mut self.console, out)?;
        self.program = Some(statements);
        self.progress = Progress::NotStarted;
        Ok(())
    }
}
