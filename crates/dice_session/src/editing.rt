//! The draft: its listing, its edits, and how it becomes the present program.
ghost use Rattle.std.specs.Prelude.{◌≡◌, ◌++◌, ℕ, true, List, Some, OnOk};
ghost use Rattle.pascal_tree.specs.declared.program.Tree.{Tree};
ghost use Rattle.pascal_tree.specs.Formed.{is_formed_stmt};
ghost use Rattle.pdp11_machine.specs.State.{MachineState};
ghost use Rattle.simple_form.specs.Simple.{resolution_of};
ghost use Rattle.dice_session.specs.Readings.{AreNamed};
ghost use Rattle.dice_session.specs.World.{World, if_program, list_reply, replace_reply, apply_reply};
ghost use Rattle.dice_session.specs.SessionOf.{IsSessionOf, Became};

use crate::reply::{push_edited, push_full, refuse, refuse_edit};
use crate::session::Session;
use dice_base::{Name, NoMemory, Text};
use pascal_print::print_program;
use pascal_semantics::{MAX_PROGRAM_WORDS, Statement, code_words};
use pascal_tree::Stmt;
use pdp11_machine::Machine;
use simple_form::resolve_program;
use std::alloc::Global;
use tree_edit::replace;

impl Session {
    /// Lists the draft, with its names.
    pub(crate) fn list(&mut self, alloc: Global, out: &mut Text) -> Result<(), NoMemory>
        ensures { OnOk result ((w : World) (machine : MachineState) → IsSessionOf w self.old machine
            → Became (if_program w.draft w (list_reply w)) out.old out.new machine self.new machine) }
    {
        let Some(draft) = &self.draft else {
            return refuse(alloc, out, b"no program");
        };
        let text = print_program(alloc, draft, true)?;
        out.append(alloc, text.bytes())
    }

    /// Puts a statement in the place of the one of this name in the draft.
    pub(crate) fn replace(
        &mut self,
        alloc: Global,
        name: Name,
        stmt: &Stmt,
        out: &mut Text,
    ) -> Result<(), NoMemory>
        requires { is_formed_stmt stmt.now ≡ true }
        ensures { OnOk result ((w : World) (machine : MachineState) → IsSessionOf w self.old machine
            → Became (if_program w.draft w (replace_reply w name.0 stmt.now)) out.old out.new
            machine self.new machine) }
    {
        let Some(draft) = &mut self.draft else {
            return refuse(alloc, out, b"no program");
        };
        match replace(alloc, draft, name, stmt) {
            Ok(()) => push_edited(alloc, out, name.0),
            Err(fault) => refuse_edit(alloc, out, fault),
        }
    }

    /// The draft becomes the present program.
    pub(crate) fn apply(
        &mut self,
        alloc: Global,
        machine: &mut Machine,
        out: &mut Text,
    ) -> Result<(), NoMemory>
        ensures { OnOk result ((w : World) → IsSessionOf w self.old machine.old
            → Became (if_program w.draft w (apply_reply w)) out.old out.new machine.old self.new machine.new) }
    {
        let Some(draft) = &self.draft else {
            return refuse(alloc, out, b"no program");
        };
        match resolve_program(alloc, draft)? {
            Some(program) => self.apply_statements(alloc, program.statements, machine, out),
            None => refuse(alloc, out, b"not built"),
        }
    }

    fn apply_statements(
        &mut self,
        alloc: Global,
        statements: Vec<Statement>,
        machine: &mut Machine,
        out: &mut Text,
    ) -> Result<(), NoMemory>
        requires { AreNamed statements.items }
        ensures { OnOk result ((w : World) (p : Tree) → IsSessionOf w self.old machine.old
            → resolution_of p ≡ Some statements.items
            → Became (apply_reply w p) out.old out.new machine.old self.new machine.new) }
    {
        let words = code_words(&statements);
        if words > MAX_PROGRAM_WORDS {
            return push_full(alloc, out, words);
        }
        if self.progress.is_halted() {
            return refuse(alloc, out, b"not built");
        }
        self.begin(alloc, statements, machine, out)
    }
}
