//! Statements. The rules take the reader of the inner statements as a parameter.
ghost use Rattle.std.specs.Prelude.{◌≡◌};
ghost use Rattle.token_reader.specs.Readers.{Reads, separated, ended};
ghost use Rattle.pascal_tree.specs.Classes.{semicolon_class};
ghost use Rattle.expression_parser.specs.Readers.{inside};
ghost use Rattle.declaration_parser.specs.Readers.{constant_first};
ghost use Rattle.statement_parser.specs.Readers as spec;
ghost use Rattle.statement_parser.specs.NestsStmt.{NestsStmt, part_in, sequence_in};

use crate::parts::{
    begins_arm, boxed_expr, by_ident, direction, goto_statement, hole, hole_list, records,
};
use declaration_parser::constants;
use dice_base::Name;
use expression_parser::expr;
use pascal_tree::{Arm, Expr, Stmt, StmtKind};
use sqlite_items::{Boxed, Items};
use std::alloc::Global;
use token_reader::classes::{
    BECOMES, BEGIN, CASE, COLON, DO, ELSE, END, FOR, GOTO, IDENT, IF, NUMBER, OF, REPEAT,
    SEMICOLON, THEN, UNTIL, WHILE, WITH,
};
use token_reader::{Cursor, Stop};

/// What stands for the substatements of a statement.
#[derive(Clone, Copy)]
pub enum Parts {
    /// Statements one level further in.
    Written,
    /// A hole for each, and one for all those of a `repeat`.
    Holes,
}

/// The rules over a reader of the statements one level further in.
#[derive(Clone, Copy)]
pub struct Statements<F> {
    alloc: Global,
    parts: Parts,
    stmt: F,
}

impl<F: Fn(Global, &mut Cursor<'_>, usize) -> Result<Stmt, Stop>> Statements<F> {
    fn part(&self, tokens: &mut Cursor<'_>, depth: usize) -> Result<Stmt, Stop>
        requires { NestsStmt depth (F.pre self.now.stmt) (F.post self.now.stmt) }
        ensures { Reads (part_in self.now.parts depth tokens.old) result tokens.new }
    {
        match self.parts {
            Parts::Written => (self.stmt)(self.alloc, tokens, depth),
            Parts::Holes => hole(tokens),
        }
    }

    fn boxed_part(&self, tokens: &mut Cursor<'_>, depth: usize) -> Result<Boxed<Stmt>, Stop>
        requires { NestsStmt depth (F.pre self.now.stmt) (F.post self.now.stmt) }
        ensures { Reads (part_in self.now.parts depth tokens.old) result tokens.new }
    {
        let part = self.part(tokens, depth)?;
        Ok(Boxed::new(self.alloc, part)?)
    }

    #[tactic(auto, using(token_reader::proofs::Turns::many_step, token_reader::proofs::Turns::many_stop), unfolding(token_reader::specs::Readers::separated))]
    fn part_list(&self, tokens: &mut Cursor<'_>, depth: usize) -> Result<Items<Stmt>, Stop>
        requires { NestsStmt depth (F.pre self.now.stmt) (F.post self.now.stmt) }
        ensures { Reads (separated semicolon_class (part_in self.now.parts depth) tokens.old)
            result tokens.new }
    {
        let mut found = Items::new(self.alloc);
        found.push(self.part(tokens, depth)?)?;
        for _turn in 0..tokens.len() {
            match tokens.class() {
                SEMICOLON => {
                    tokens.expect(SEMICOLON)?;
                    found.push(self.part(tokens, depth)?)?;
                }
                _ => return Ok(found),
            }
        }
        Ok(found)
    }

    // The statements of a `repeat`.
    fn sequence(&self, tokens: &mut Cursor<'_>, depth: usize) -> Result<Items<Stmt>, Stop>
        requires { NestsStmt depth (F.pre self.now.stmt) (F.post self.now.stmt) }
        ensures { Reads (sequence_in self.now.parts depth tokens.old) result tokens.new }
    {
        match self.parts {
            Parts::Written => self.part_list(tokens, depth),
            Parts::Holes => hole_list(self.alloc, tokens),
        }
    }

    #[tactic(auto, unfolding(crate::specs::Readers::compound))]
    fn compound(&self, tokens: &mut Cursor<'_>, depth: usize) -> Result<StmtKind, Stop>
        requires { NestsStmt depth (F.pre self.now.stmt) (F.post self.now.stmt) }
        ensures { Reads (spec.compound (part_in self.now.parts depth) tokens.old)
            result tokens.new }
    {
        tokens.expect(BEGIN)?;
        let body = self.part_list(tokens, depth)?;
        tokens.expect(END)?;
        Ok(StmtKind::Compound(body))
    }

    #[tactic(auto, unfolding(crate::specs::Readers::else_part))]
    fn else_part(
        &self,
        tokens: &mut Cursor<'_>,
        depth: usize,
        test: Boxed<Expr>,
        branch: Boxed<Stmt>,
    ) -> Result<StmtKind, Stop>
        requires { NestsStmt depth (F.pre self.now.stmt) (F.post self.now.stmt) }
        ensures { Reads (spec.else_part (part_in self.now.parts depth) test branch tokens.old)
            result tokens.new }
    {
        match tokens.class() {
            ELSE => {
                tokens.expect(ELSE)?;
                let other = self.boxed_part(tokens, depth)?;
                Ok(StmtKind::If(test.into_inner(), branch, Some(other)))
            }
            _ => Ok(StmtKind::If(test.into_inner(), branch, None)),
        }
    }

    #[tactic(auto, unfolding(crate::specs::Readers::if_statement))]
    fn if_statement(&self, tokens: &mut Cursor<'_>, depth: usize) -> Result<StmtKind, Stop>
        requires { NestsStmt depth (F.pre self.now.stmt) (F.post self.now.stmt) }
        ensures { Reads (spec.if_statement (inside depth) (part_in self.now.parts depth)
            tokens.old) result tokens.new }
    {
        tokens.expect(IF)?;
        let test = boxed_expr(self.alloc, tokens, depth)?;
        tokens.expect(THEN)?;
        let branch = self.boxed_part(tokens, depth)?;
        self.else_part(tokens, depth, test, branch)
    }

    #[tactic(auto, unfolding(crate::specs::Readers::arm))]
    fn arm(&self, tokens: &mut Cursor<'_>, depth: usize) -> Result<Arm, Stop>
        requires { NestsStmt depth (F.pre self.now.stmt) (F.post self.now.stmt) }
        ensures { Reads (spec.arm (part_in self.now.parts depth) tokens.old) result tokens.new }
    {
        let constants = constants(self.alloc, tokens)?;
        tokens.expect(COLON)?;
        let body = self.part(tokens, depth)?;
        Ok(Arm { constants, body })
    }

    #[tactic(auto, using(token_reader::proofs::Turns::ended_step, token_reader::proofs::Turns::ended_stop))]
    fn arms(&self, tokens: &mut Cursor<'_>, depth: usize) -> Result<Items<Arm>, Stop>
        requires { NestsStmt depth (F.pre self.now.stmt) (F.post self.now.stmt) }
        ensures { Reads (ended semicolon_class constant_first
            (spec.arm (part_in self.now.parts depth)) tokens.old) result tokens.new }
    {
        let mut found = Items::new(self.alloc);
        found.push(self.arm(tokens, depth)?)?;
        for _turn in 0..tokens.len() {
            match tokens.class() {
                SEMICOLON => {
                    tokens.expect(SEMICOLON)?;
                    if !begins_arm(tokens.class()) {
                        return Ok(found);
                    }
                    found.push(self.arm(tokens, depth)?)?;
                }
                _ => return Ok(found),
            }
        }
        Ok(found)
    }

    #[tactic(auto, unfolding(crate::specs::Readers::case_statement))]
    fn case_statement(&self, tokens: &mut Cursor<'_>, depth: usize) -> Result<StmtKind, Stop>
        requires { NestsStmt depth (F.pre self.now.stmt) (F.post self.now.stmt) }
        ensures { Reads (spec.case_statement (inside depth) (part_in self.now.parts depth)
            tokens.old) result tokens.new }
    {
        tokens.expect(CASE)?;
        let selector = boxed_expr(self.alloc, tokens, depth)?;
        tokens.expect(OF)?;
        let arms = self.arms(tokens, depth)?;
        tokens.expect(END)?;
        Ok(StmtKind::Case(selector.into_inner(), arms))
    }

    #[tactic(auto, unfolding(crate::specs::Readers::while_statement))]
    fn while_statement(&self, tokens: &mut Cursor<'_>, depth: usize) -> Result<StmtKind, Stop>
        requires { NestsStmt depth (F.pre self.now.stmt) (F.post self.now.stmt) }
        ensures { Reads (spec.while_statement (inside depth) (part_in self.now.parts depth)
            tokens.old) result tokens.new }
    {
        tokens.expect(WHILE)?;
        let test = boxed_expr(self.alloc, tokens, depth)?;
        tokens.expect(DO)?;
        let body = self.boxed_part(tokens, depth)?;
        Ok(StmtKind::While(test.into_inner(), body))
    }

    #[tactic(auto, unfolding(crate::specs::Readers::repeat_statement))]
    fn repeat_statement(&self, tokens: &mut Cursor<'_>, depth: usize) -> Result<StmtKind, Stop>
        requires { NestsStmt depth (F.pre self.now.stmt) (F.post self.now.stmt) }
        ensures { Reads (spec.repeat_statement (inside depth) (part_in self.now.parts depth)
            (sequence_in self.now.parts depth) tokens.old) result tokens.new }
    {
        tokens.expect(REPEAT)?;
        let body = self.sequence(tokens, depth)?;
        tokens.expect(UNTIL)?;
        let test = expr(self.alloc, tokens, depth)?;
        Ok(StmtKind::Repeat(body, test))
    }

    #[tactic(auto, unfolding(crate::specs::Readers::for_statement))]
    fn for_statement(&self, tokens: &mut Cursor<'_>, depth: usize) -> Result<StmtKind, Stop>
        requires { NestsStmt depth (F.pre self.now.stmt) (F.post self.now.stmt) }
        ensures { Reads (spec.for_statement (inside depth) (part_in self.now.parts depth)
            tokens.old) result tokens.new }
    {
        tokens.expect(FOR)?;
        let ident = tokens.ident(self.alloc)?;
        tokens.expect(BECOMES)?;
        let first = boxed_expr(self.alloc, tokens, depth)?;
        let down = direction(tokens)?;
        let last = boxed_expr(self.alloc, tokens, depth)?;
        tokens.expect(DO)?;
        let body = self.boxed_part(tokens, depth)?;
        Ok(StmtKind::For(ident, first.into_inner(), down, last.into_inner(), body))
    }

    #[tactic(auto, unfolding(crate::specs::Readers::with_statement))]
    fn with_statement(&self, tokens: &mut Cursor<'_>, depth: usize) -> Result<StmtKind, Stop>
        requires { NestsStmt depth (F.pre self.now.stmt) (F.post self.now.stmt) }
        ensures { Reads (spec.with_statement (inside depth) (part_in self.now.parts depth)
            tokens.old) result tokens.new }
    {
        tokens.expect(WITH)?;
        let records = records(self.alloc, tokens, depth)?;
        tokens.expect(DO)?;
        let body = self.boxed_part(tokens, depth)?;
        Ok(StmtKind::With(records, body))
    }

    // A statement without its label.
    #[tactic(auto, unfolding(crate::specs::Readers::kind))]
    fn kind(&self, tokens: &mut Cursor<'_>, depth: usize) -> Result<StmtKind, Stop>
        requires { NestsStmt depth (F.pre self.now.stmt) (F.post self.now.stmt) }
        ensures { Reads (spec.kind (inside depth) (part_in self.now.parts depth)
            (sequence_in self.now.parts depth) tokens.old) result tokens.new }
    {
        match tokens.class() {
            BEGIN => self.compound(tokens, depth),
            IF => self.if_statement(tokens, depth),
            CASE => self.case_statement(tokens, depth),
            WHILE => self.while_statement(tokens, depth),
            REPEAT => self.repeat_statement(tokens, depth),
            FOR => self.for_statement(tokens, depth),
            WITH => self.with_statement(tokens, depth),
            GOTO => goto_statement(tokens),
            IDENT => by_ident(self.alloc, tokens, depth),
            _ => Ok(StmtKind::Empty),
        }
    }

    #[tactic(auto, unfolding(crate::specs::Readers::labelled))]
    fn labelled(&self, tokens: &mut Cursor<'_>, depth: usize) -> Result<Stmt, Stop>
        requires { NestsStmt depth (F.pre self.now.stmt) (F.post self.now.stmt) }
        ensures { Reads (spec.labelled (inside depth) (part_in self.now.parts depth)
            (sequence_in self.now.parts depth) tokens.old) result tokens.new }
    {
        let label = tokens.number()?;
        tokens.expect(COLON)?;
        let kind = self.kind(tokens, depth)?;
        Ok(Stmt {
            name: Name(0),
            label: Some(label),
            kind,
        })
    }

    #[tactic(auto, unfolding(crate::specs::Readers::statement))]
    fn whole(&self, tokens: &mut Cursor<'_>, depth: usize) -> Result<Stmt, Stop>
        requires { NestsStmt depth (F.pre self.now.stmt) (F.post self.now.stmt) }
        ensures { Reads (spec.statement (inside depth) (part_in self.now.parts depth)
            (sequence_in self.now.parts depth) tokens.old) result tokens.new }
    {
        match tokens.class() {
            NUMBER => self.labelled(tokens, depth),
            _ => {
                let kind = self.kind(tokens, depth)?;
                Ok(Stmt {
                    name: Name(0),
                    label: None,
                    kind,
                })
            }
        }
    }
}

/// A statement of at most this many levels (ISO 7185:1990, 6.8.1).
#[tactic(auto, using(crate::proofs::Further::stmt_none, crate::proofs::Further::stmt_some))]
pub fn statement(alloc: Global, tokens: &mut Cursor<'_>, depth: usize) -> Result<Stmt, Stop>
    ensures { Reads (spec.stmt_in depth tokens.old) result tokens.new }
{
    if depth == 0 {
        return Err(Stop::Deep);
    }
    let rules = Statements {
        alloc,
        parts: Parts::Written,
        stmt: statement,
    };
    rules.whole(tokens, depth - 1)
}

/// A statement of at most this many levels, with a hole for each of its substatements.
#[tactic(auto, using(crate::proofs::Further::header_none, crate::proofs::Further::header_some))]
pub fn header(alloc: Global, tokens: &mut Cursor<'_>, depth: usize) -> Result<Stmt, Stop>
    ensures { Reads (spec.header_in depth tokens.old) result tokens.new }
{
    if depth == 0 {
        return Err(Stop::Deep);
    }
    let rules = Statements {
        alloc,
        parts: Parts::Holes,
        stmt: statement,
    };
    rules.whole(tokens, depth - 1)
}

/// The body of a block (6.2.1), a compound statement of at most this many levels.
#[tactic(auto, using(crate::proofs::Further::body_none, crate::proofs::Further::body_some))]
pub fn body(alloc: Global, tokens: &mut Cursor<'_>, depth: usize) -> Result<StmtKind, Stop>
    ensures { Reads (spec.body_in depth tokens.old) result tokens.new }
{
    if depth == 0 {
        return Err(Stop::Deep);
    }
    let rules = Statements {
        alloc,
        parts: Parts::Written,
        stmt: statement,
    };
    rules.compound(tokens, depth - 1)
}
