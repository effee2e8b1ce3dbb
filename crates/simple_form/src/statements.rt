//! Statements.
ghost use Rattle.std.specs.Prelude.{◌≡◌, ◌≤◌, ◌∷◌, [], length, Some, IfOk, IfSome};
ghost use Rattle.std.specs.List.{AllByRecursion};
ghost use Rattle.simple_form.specs.Simple as spec;
ghost use Rattle.simple_form.specs.Simple.{IsAdded};
ghost use Rattle.pascal_semantics.specs.Valid.{IsForm, IsWidth};

use crate::operands::{sum, variable};
use dice_base::{Name, NoMemory, Text};
use pascal_semantics::{Operand, SimpleForm, Statement, Sum};
use pascal_tree::{Access, Arg, Expr, Stmt, StmtKind};

const MAX_WIDTH: u16 = 255;

fn assignment(variables: &[Text], access: &Access, value: &Expr) -> Option<SimpleForm>
    requires { length variables.now ≤ 64 }
    ensures value { result ≡ spec.assignment_of variables.now access.now value.now }
    ensures within { IfSome result IsForm }
{
    let Some(number) = variable(variables, access) else {
        return None;
    };
    let Some(value) = sum(variables, value) else {
        return None;
    };
    Some(SimpleForm::Assign(number, value))
}

fn number_width(first: Operand, second: Option<Operand>) -> Option<u8>
    ensures value { result ≡ spec.width_in first second }
    ensures within { IsWidth result }
{
    let Operand::Number(number) = first else {
        return None;
    };
    if second.is_none() && 1 <= number && number <= MAX_WIDTH {
        Some(number as u8)
    } else {
        None
    }
}

// A width that is written as a number.
fn width(expr: &Expr) -> Option<u8>
    ensures value { result ≡ spec.width_of expr.now }
    ensures within { IsWidth result }
{
    match sum(&[], expr) {
        Some(Sum { first, second }) => number_width(first, second),
        None => None,
    }
}

fn writing(variables: &[Text], arg: &Arg) -> Option<SimpleForm>
    requires { length variables.now ≤ 64 }
    ensures value { result ≡ spec.one_argument variables.now (arg.now ∷ []) }
    ensures within { IfSome result IsForm }
{
    let Some(value) = sum(variables, &arg.value) else {
        return None;
    };
    match &arg.width {
        None => Some(SimpleForm::WriteLine(value, None)),
        Some(expr) => match width(expr) {
            Some(width) => Some(SimpleForm::WriteLine(value, Some(width))),
            None => None,
        },
    }
}

fn call(variables: &[Text], ident: &Text, args: &[Arg]) -> Option<SimpleForm>
    requires { length variables.now ≤ 64 }
    ensures value { result ≡ spec.call_of variables.now ident.now args.now }
    ensures within { IfSome result IsForm }
{
    if ident.bytes() != b"writeln".as_slice() {
        return None;
    }
    match args {
        [arg] => writing(variables, arg),
        _ => None,
    }
}

fn push_leaf(
    name: Name,
    form: Option<SimpleForm>,
    out: &mut Vec<Statement>,
) -> Result<bool, NoMemory>
    requires { IfSome form IsForm }
    ensures value { IfOk result (λ is. IsAdded is (spec.leaf name.0 form) out.old.items out.new.items) }
    ensures within { IfOk result (λ _.
        AllByRecursion (λ s. IsForm s.form) out.old.items → AllByRecursion (λ s. IsForm s.form) out.new.items) }
{
    match form {
        Some(form) => {
            out.push(Statement { name: name.0, form })?;
            Ok(true)
        }
        None => Ok(false),
    }
}

#[cycle(push_stmt)]
#[tactic(auto, unfolding(crate::specs::Simple::stmt_leaves, crate::specs::Simple::kind_leaves))]
fn push_kind(
    variables: &[Text],
    name: Name,
    kind: &StmtKind,
    out: &mut Vec<Statement>,
) -> Result<bool, NoMemory>
    requires { length variables.now ≤ 64 }
    ensures value { IfOk result (λ is.
        IsAdded is (spec.kind_leaves variables.now kind.now name.0) out.old.items out.new.items) }
    ensures within { IfOk result (λ _.
        AllByRecursion (λ s. IsForm s.form) out.old.items → AllByRecursion (λ s. IsForm s.form) out.new.items) }
{
    match kind {
        StmtKind::Empty => push_leaf(name, Some(SimpleForm::Empty), out),
        StmtKind::Assign(access, value) => {
            push_leaf(name, assignment(variables, access, value), out)
        }
        StmtKind::Call(ident, args) => {
            push_leaf(name, call(variables, ident, args.as_slice()), out)
        }
        StmtKind::Compound(stmts) => push_stmts(variables, stmts.as_slice(), out),
        _ => Ok(false),
    }
}

/// Adds the statements that have a block, in the order of the text, each under its name; or says that some statement
/// is not simple.
#[cycle(push_stmt)]
#[tactic(auto, unfolding(crate::specs::Simple::stmt_leaves, crate::specs::Simple::kind_leaves))]
pub fn push_stmt(
    variables: &[Text],
    stmt: &Stmt,
    out: &mut Vec<Statement>,
) -> Result<bool, NoMemory>
    requires { length variables.now ≤ 64 }
    ensures value { IfOk result (λ is.
        IsAdded is (spec.stmt_leaves variables.now stmt.now) out.old.items out.new.items) }
    ensures within { IfOk result (λ _.
        AllByRecursion (λ s. IsForm s.form) out.old.items → AllByRecursion (λ s. IsForm s.form) out.new.items) }
{
    if stmt.label.is_some() {
        return Ok(false);
    }
    push_kind(variables, stmt.name, &stmt.kind, out)
}

#[cycle(push_stmt)]
fn push_stmts(
    variables: &[Text],
    stmts: &[Stmt],
    out: &mut Vec<Statement>,
) -> Result<bool, NoMemory>
    requires { length variables.now ≤ 64 }
    ensures value { IfOk result (λ is.
        IsAdded is (spec.stmts_leaves variables.now stmts.now) out.old.items out.new.items) }
    ensures within { IfOk result (λ _.
        AllByRecursion (λ s. IsForm s.form) out.old.items → AllByRecursion (λ s. IsForm s.form) out.new.items) }
{
    for stmt in stmts {
        if !push_stmt(variables, stmt, out)? {
            return Ok(false);
        }
    }
    Ok(true)
}
