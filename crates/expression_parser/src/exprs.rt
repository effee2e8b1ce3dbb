//! Expressions, accesses and arguments. The methods take the reader of inner expressions as a parameter, so that each is
//! proved by itself.
ghost use Rattle.std.specs.Prelude.{◌≡◌, [], ◌∷◌, IfOk};
ghost use Rattle.dice_base.specs.Tokens.{keys};
ghost use Rattle.pascal_tree.specs.Classes.{comma_class};
ghost use Rattle.pascal_tree.specs.Expressions.{mul_ops, add_ops};
ghost use Rattle.token_reader.specs.Readers.{Reads, many, separated};
ghost use Rattle.expression_parser.specs.Nests.{Nests};
ghost use Rattle.expression_parser.specs.Readers as spec;
ghost use Rattle.expression_parser.specs.Readers.{inside};

use crate::operators::{add_op, mul_op, rel_op, sign};
use dice_base::Text;
use pascal_tree::{
    Access, AccessPart, AddPart, Arg, Expr, Factor, MulPart, RelPart, SetMember, SumExpr, Term,
};
use sqlite_items::{Boxed, Items};
use std::alloc::Global;
use token_reader::classes::{
    AND, ARROW, AT_LEAST, AT_MOST, CLOSE, COLON, COMMA, DIV, EQUAL, GREATER, IDENT, IN, LEFT, LESS,
    MINUS, MOD, NIL, NOT, NOT_EQUAL, NUMBER, OPEN, OR, PERIOD, PLUS, RANGE, RIGHT, STRING, TIMES,
};
use token_reader::{Cursor, Stop};

/// Readers over a reader of the expressions one level further in.
#[derive(Clone, Copy)]
pub struct Grammar<F> {
    alloc: Global,
    expr: F,
}

impl<F: Fn(Global, &mut Cursor<'_>, usize) -> Result<Expr, Stop>> Grammar<F> {
    /// An expression one level further in.
    #[tactic(auto, unfolding(crate::specs::Readers::inside))]
    fn inner(&self, tokens: &mut Cursor<'_>, depth: usize) -> Result<Expr, Stop>
        requires { Nests depth (F.pre self.now.expr) (F.post self.now.expr) }
        ensures { Reads ((inside depth).expr tokens.old) result tokens.new }
    {
        if depth == 0 {
            return Err(Stop::Deep);
        }
        (self.expr)(self.alloc, tokens, depth - 1)
    }

    // ---- accesses

    #[tactic(auto, using(token_reader::proofs::Turns::many_step, token_reader::proofs::Turns::many_stop), unfolding(token_reader::specs::Readers::separated))]
    fn exprs(&self, tokens: &mut Cursor<'_>, depth: usize) -> Result<Items<Expr>, Stop>
        requires { Nests depth (F.pre self.now.expr) (F.post self.now.expr) }
        ensures { Reads (separated comma_class ((inside depth).expr) tokens.old) result tokens.new }
    {
        let mut found = Items::new(self.alloc);
        found.push(self.inner(tokens, depth)?)?;
        for _turn in 0..tokens.len() {
            match tokens.class() {
                COMMA => {
                    tokens.expect(COMMA)?;
                    found.push(self.inner(tokens, depth)?)?;
                }
                _ => return Ok(found),
            }
        }
        Ok(found)
    }

    #[tactic(auto, unfolding(crate::specs::Readers::access_part))]
    fn access_part(&self, tokens: &mut Cursor<'_>, depth: usize) -> Result<AccessPart, Stop>
        requires { Nests depth (F.pre self.now.expr) (F.post self.now.expr) }
        ensures { Reads (spec.access_part (inside depth) tokens.old) result tokens.new }
    {
        match tokens.class() {
            LEFT => {
                tokens.expect(LEFT)?;
                let found = self.exprs(tokens, depth)?;
                tokens.expect(RIGHT)?;
                Ok(AccessPart::Index(found))
            }
            PERIOD => {
                tokens.expect(PERIOD)?;
                Ok(AccessPart::Field(tokens.ident(self.alloc)?))
            }
            ARROW => {
                tokens.expect(ARROW)?;
                Ok(AccessPart::Dereference)
            }
            _ => Err(Stop::At),
        }
    }

    #[tactic(auto, using(token_reader::proofs::Turns::many_step, token_reader::proofs::Turns::many_stop))]
    fn access_parts(&self, tokens: &mut Cursor<'_>, depth: usize) -> Result<Items<AccessPart>, Stop>
        requires { Nests depth (F.pre self.now.expr) (F.post self.now.expr) }
        ensures { Reads (many spec.part_first (spec.access_part (inside depth)) [] tokens.old) result tokens.new }
    {
        let mut found = Items::new(self.alloc);
        for _turn in 0..tokens.len() {
            match tokens.class() {
                LEFT | PERIOD | ARROW => found.push(self.access_part(tokens, depth)?)?,
                _ => return Ok(found),
            }
        }
        Ok(found)
    }

    /// What follows the identifier of an access.
    #[tactic(auto, unfolding(crate::specs::Readers::access_rest))]
    fn access_rest(
        &self,
        tokens: &mut Cursor<'_>,
        depth: usize,
        ident: Text,
    ) -> Result<Access, Stop>
        requires { Nests depth (F.pre self.now.expr) (F.post self.now.expr) }
        ensures { Reads (spec.access_rest (inside depth) ident tokens.old) result tokens.new }
    {
        let parts = self.access_parts(tokens, depth)?;
        Ok(Access { ident, parts })
    }

    // ---- arguments

    #[tactic(auto, unfolding(crate::specs::Readers::width))]
    fn width(&self, tokens: &mut Cursor<'_>, depth: usize) -> Result<Option<Expr>, Stop>
        requires { Nests depth (F.pre self.now.expr) (F.post self.now.expr) }
        ensures { Reads (spec.width (inside depth) tokens.old) result tokens.new }
    {
        match tokens.class() {
            COLON => {
                tokens.expect(COLON)?;
                Ok(Some(self.inner(tokens, depth)?))
            }
            _ => Ok(None),
        }
    }

    #[tactic(auto, unfolding(crate::specs::Readers::arg))]
    fn arg(&self, tokens: &mut Cursor<'_>, depth: usize) -> Result<Arg, Stop>
        requires { Nests depth (F.pre self.now.expr) (F.post self.now.expr) }
        ensures { Reads (spec.arg (inside depth) tokens.old) result tokens.new }
    {
        let value = self.inner(tokens, depth)?;
        let width = self.width(tokens, depth)?;
        Ok(Arg { value, width })
    }

    #[tactic(auto, using(token_reader::proofs::Turns::many_step, token_reader::proofs::Turns::many_stop), unfolding(token_reader::specs::Readers::separated))]
    fn arg_list(&self, tokens: &mut Cursor<'_>, depth: usize) -> Result<Items<Arg>, Stop>
        requires { Nests depth (F.pre self.now.expr) (F.post self.now.expr) }
        ensures { Reads (separated comma_class (spec.arg (inside depth)) tokens.old) result tokens.new }
    {
        let mut found = Items::new(self.alloc);
        found.push(self.arg(tokens, depth)?)?;
        for _turn in 0..tokens.len() {
            match tokens.class() {
                COMMA => {
                    tokens.expect(COMMA)?;
                    found.push(self.arg(tokens, depth)?)?;
                }
                _ => return Ok(found),
            }
        }
        Ok(found)
    }

    /// What follows `(` of a list of arguments.
    #[tactic(auto, unfolding(crate::specs::Readers::args_rest))]
    fn args_rest(&self, tokens: &mut Cursor<'_>, depth: usize) -> Result<Items<Arg>, Stop>
        requires { Nests depth (F.pre self.now.expr) (F.post self.now.expr) }
        ensures { Reads (spec.args_rest (inside depth) tokens.old) result tokens.new }
    {
        let args = self.arg_list(tokens, depth)?;
        tokens.expect(CLOSE)?;
        Ok(args)
    }

    #[tactic(auto, unfolding(crate::specs::Readers::args))]
    fn args(&self, tokens: &mut Cursor<'_>, depth: usize) -> Result<Items<Arg>, Stop>
        requires { Nests depth (F.pre self.now.expr) (F.post self.now.expr) }
        ensures { Reads (spec.args (inside depth) tokens.old) result tokens.new }
    {
        match tokens.class() {
            OPEN => {
                tokens.expect(OPEN)?;
                self.args_rest(tokens, depth)
            }
            _ => Ok(Items::new(self.alloc)),
        }
    }

    // ---- sets

    #[tactic(auto, unfolding(crate::specs::Readers::last))]
    fn last(&self, tokens: &mut Cursor<'_>, depth: usize) -> Result<Option<Expr>, Stop>
        requires { Nests depth (F.pre self.now.expr) (F.post self.now.expr) }
        ensures { Reads (spec.last (inside depth) tokens.old) result tokens.new }
    {
        match tokens.class() {
            RANGE => {
                tokens.expect(RANGE)?;
                Ok(Some(self.inner(tokens, depth)?))
            }
            _ => Ok(None),
        }
    }

    #[tactic(auto, unfolding(crate::specs::Readers::member))]
    fn member(&self, tokens: &mut Cursor<'_>, depth: usize) -> Result<SetMember, Stop>
        requires { Nests depth (F.pre self.now.expr) (F.post self.now.expr) }
        ensures { Reads (spec.member (inside depth) tokens.old) result tokens.new }
    {
        let first = self.inner(tokens, depth)?;
        let last = self.last(tokens, depth)?;
        Ok(SetMember { first, last })
    }

    #[tactic(auto, using(token_reader::proofs::Turns::many_step, token_reader::proofs::Turns::many_stop), unfolding(token_reader::specs::Readers::separated))]
    fn member_list(&self, tokens: &mut Cursor<'_>, depth: usize) -> Result<Items<SetMember>, Stop>
        requires { Nests depth (F.pre self.now.expr) (F.post self.now.expr) }
        ensures { Reads (separated comma_class (spec.member (inside depth)) tokens.old) result tokens.new }
    {
        let mut found = Items::new(self.alloc);
        found.push(self.member(tokens, depth)?)?;
        for _turn in 0..tokens.len() {
            match tokens.class() {
                COMMA => {
                    tokens.expect(COMMA)?;
                    found.push(self.member(tokens, depth)?)?;
                }
                _ => return Ok(found),
            }
        }
        Ok(found)
    }

    /// What follows `[` of a set.
    #[tactic(auto, unfolding(crate::specs::Readers::members_rest))]
    fn members_rest(&self, tokens: &mut Cursor<'_>, depth: usize) -> Result<Factor, Stop>
        requires { Nests depth (F.pre self.now.expr) (F.post self.now.expr) }
        ensures { Reads (spec.members_rest (inside depth) tokens.old) result tokens.new }
    {
        match tokens.class() {
            RIGHT => {
                tokens.expect(RIGHT)?;
                Ok(Factor::Members(Items::new(self.alloc)))
            }
            _ => {
                let found = self.member_list(tokens, depth)?;
                tokens.expect(RIGHT)?;
                Ok(Factor::Members(found))
            }
        }
    }

    // ---- factors

    /// What an identifier begins: a call or an access.
    #[tactic(auto, unfolding(crate::specs::Readers::by_ident))]
    fn by_ident(&self, tokens: &mut Cursor<'_>, depth: usize) -> Result<Factor, Stop>
        requires { Nests depth (F.pre self.now.expr) (F.post self.now.expr) }
        ensures { Reads (spec.by_ident (inside depth) tokens.old) result tokens.new }
    {
        let ident = tokens.ident(self.alloc)?;
        match tokens.class() {
            OPEN => {
                tokens.expect(OPEN)?;
                let args = self.args_rest(tokens, depth)?;
                Ok(Factor::Call(ident, args))
            }
            _ => Ok(Factor::Access(self.access_rest(tokens, depth, ident)?)),
        }
    }

    // An expression one level further in, in a box: so no large value is let go of where `)` is missing.
    fn boxed(&self, tokens: &mut Cursor<'_>, depth: usize) -> Result<Boxed<Expr>, Stop>
        requires { Nests depth (F.pre self.now.expr) (F.post self.now.expr) }
        ensures { Reads ((inside depth).expr tokens.old) result tokens.new }
    {
        let inner = self.inner(tokens, depth)?;
        Ok(Boxed::new(self.alloc, inner)?)
    }

    #[tactic(auto, using(crate::proofs::Levels::operand_none, crate::proofs::Levels::operand_some), unfolding(crate::specs::Readers::factor))]
    fn factor(&self, tokens: &mut Cursor<'_>, depth: usize) -> Result<Factor, Stop>
        requires { Nests depth (F.pre self.now.expr) (F.post self.now.expr) }
        ensures { Reads (spec.factor (inside depth) tokens.old) result tokens.new }
    {
        match tokens.class() {
            NUMBER => Ok(Factor::Number(tokens.number()?)),
            STRING => Ok(Factor::Str(tokens.string(self.alloc)?)),
            NIL => {
                tokens.expect(NIL)?;
                Ok(Factor::Nil)
            }
            IDENT => self.by_ident(tokens, depth),
            LEFT => {
                tokens.expect(LEFT)?;
                self.members_rest(tokens, depth)
            }
            OPEN => {
                tokens.expect(OPEN)?;
                let inner = self.boxed(tokens, depth)?;
                tokens.expect(CLOSE)?;
                Ok(Factor::Paren(inner))
            }
            NOT => {
                tokens.expect(NOT)?;
                if depth == 0 {
                    return Err(Stop::Deep);
                }
                let operand = self.factor(tokens, depth - 1)?;
                Ok(Factor::Not(Boxed::new(self.alloc, operand)?))
            }
            _ => Err(Stop::At),
        }
    }

    // ---- terms, sums and expressions

    #[tactic(auto, unfolding(crate::specs::Readers::mul_part))]
    fn mul_part(&self, tokens: &mut Cursor<'_>, depth: usize) -> Result<MulPart, Stop>
        requires { Nests depth (F.pre self.now.expr) (F.post self.now.expr) }
        ensures { Reads (spec.mul_part (inside depth) tokens.old) result tokens.new }
    {
        let op = mul_op(tokens)?;
        let right = self.factor(tokens, depth)?;
        Ok(MulPart { op, right })
    }

    #[tactic(auto, using(token_reader::proofs::Turns::many_step, token_reader::proofs::Turns::many_stop))]
    fn mul_parts(&self, tokens: &mut Cursor<'_>, depth: usize) -> Result<Items<MulPart>, Stop>
        requires { Nests depth (F.pre self.now.expr) (F.post self.now.expr) }
        ensures { Reads (many (keys mul_ops) (spec.mul_part (inside depth)) [] tokens.old) result tokens.new }
    {
        let mut found = Items::new(self.alloc);
        for _turn in 0..tokens.len() {
            match tokens.class() {
                TIMES | DIV | MOD | AND => found.push(self.mul_part(tokens, depth)?)?,
                _ => return Ok(found),
            }
        }
        Ok(found)
    }

    #[tactic(auto, unfolding(crate::specs::Readers::term))]
    fn term(&self, tokens: &mut Cursor<'_>, depth: usize) -> Result<Term, Stop>
        requires { Nests depth (F.pre self.now.expr) (F.post self.now.expr) }
        ensures { Reads (spec.term (inside depth) tokens.old) result tokens.new }
    {
        let first = self.factor(tokens, depth)?;
        let rest = self.mul_parts(tokens, depth)?;
        Ok(Term { first, rest })
    }

    #[tactic(auto, unfolding(crate::specs::Readers::add_part))]
    fn add_part(&self, tokens: &mut Cursor<'_>, depth: usize) -> Result<AddPart, Stop>
        requires { Nests depth (F.pre self.now.expr) (F.post self.now.expr) }
        ensures { Reads (spec.add_part (inside depth) tokens.old) result tokens.new }
    {
        let op = add_op(tokens)?;
        let right = self.term(tokens, depth)?;
        Ok(AddPart { op, right })
    }

    #[tactic(auto, using(token_reader::proofs::Turns::many_step, token_reader::proofs::Turns::many_stop))]
    fn add_parts(&self, tokens: &mut Cursor<'_>, depth: usize) -> Result<Items<AddPart>, Stop>
        requires { Nests depth (F.pre self.now.expr) (F.post self.now.expr) }
        ensures { Reads (many (keys add_ops) (spec.add_part (inside depth)) [] tokens.old) result tokens.new }
    {
        let mut found = Items::new(self.alloc);
        for _turn in 0..tokens.len() {
            match tokens.class() {
                PLUS | MINUS | OR => found.push(self.add_part(tokens, depth)?)?,
                _ => return Ok(found),
            }
        }
        Ok(found)
    }

    #[tactic(auto, unfolding(crate::specs::Readers::sum))]
    fn sum(&self, tokens: &mut Cursor<'_>, depth: usize) -> Result<SumExpr, Stop>
        requires { Nests depth (F.pre self.now.expr) (F.post self.now.expr) }
        ensures { Reads (spec.sum (inside depth) tokens.old) result tokens.new }
    {
        let prefix = sign(tokens)?;
        let first = self.term(tokens, depth)?;
        let rest = self.add_parts(tokens, depth)?;
        Ok(SumExpr {
            prefix,
            first,
            rest,
        })
    }

    #[tactic(auto, unfolding(crate::specs::Readers::rel_part))]
    fn rel_part(&self, tokens: &mut Cursor<'_>, depth: usize) -> Result<Option<RelPart>, Stop>
        requires { Nests depth (F.pre self.now.expr) (F.post self.now.expr) }
        ensures { Reads (spec.rel_part (inside depth) tokens.old) result tokens.new }
    {
        match tokens.class() {
            EQUAL | NOT_EQUAL | LESS | GREATER | AT_MOST | AT_LEAST | IN => {
                let op = rel_op(tokens)?;
                let right = self.sum(tokens, depth)?;
                Ok(Some(RelPart { op, right }))
            }
            _ => Ok(None),
        }
    }

    #[tactic(auto, unfolding(crate::specs::Readers::expr))]
    fn whole(&self, tokens: &mut Cursor<'_>, depth: usize) -> Result<Expr, Stop>
        requires { Nests depth (F.pre self.now.expr) (F.post self.now.expr) }
        ensures { Reads (spec.expr (inside depth) tokens.old) result tokens.new }
    {
        let first = self.sum(tokens, depth)?;
        let rest = self.rel_part(tokens, depth)?;
        Ok(Expr { first, rest })
    }
}

/// An expression in which so many levels may nest (ISO 7185:1990, 6.7.1).
pub fn expr(alloc: Global, tokens: &mut Cursor<'_>, depth: usize) -> Result<Expr, Stop>
    ensures { Reads (spec.expr (inside depth) tokens.old) result tokens.new }
{
    Grammar { alloc, expr }.whole(tokens, depth)
}

/// An expression that takes one of so many levels itself.
pub fn inner_expr(alloc: Global, tokens: &mut Cursor<'_>, depth: usize) -> Result<Expr, Stop>
    ensures { Reads ((inside depth).expr tokens.old) result tokens.new }
{
    Grammar { alloc, expr }.inner(tokens, depth)
}

/// A variable access (6.5.1); in its indices so many levels may nest.
#[tactic(auto, unfolding(crate::specs::Readers::access))]
pub fn access(alloc: Global, tokens: &mut Cursor<'_>, depth: usize) -> Result<Access, Stop>
    ensures { Reads (spec.access (inside depth) tokens.old) result tokens.new }
{
    let ident = tokens.ident(alloc)?;
    Grammar { alloc, expr }.access_rest(tokens, depth, ident)
}

/// The steps of an access, behind its identifier.
pub fn access_rest(
    alloc: Global,
    tokens: &mut Cursor<'_>,
    depth: usize,
    ident: Text,
) -> Result<Access, Stop>
    ensures { Reads (spec.access_rest (inside depth) ident tokens.old) result tokens.new }
{
    Grammar { alloc, expr }.access_rest(tokens, depth, ident)
}

/// A list of arguments in parentheses, or none (6.7.3).
pub fn args(alloc: Global, tokens: &mut Cursor<'_>, depth: usize) -> Result<Items<Arg>, Stop>
    ensures { Reads (spec.args (inside depth) tokens.old) result tokens.new }
{
    Grammar { alloc, expr }.args(tokens, depth)
}
