//! The own form of a statement, by its kind.
ghost use Rattle.std.specs.Prelude.{◌≡◌, ◌&&◌, not, is_some, map, option_map, length, take, IfOk, OnOk};
ghost use Rattle.expression_rules.specs.Accesses as accesses;
ghost use Rattle.expression_rules.specs.Expressions as judgements;
ghost use Rattle.std.specs.Prelude.{[], None};
ghost use Rattle.resolve_expr.specs.Expressions as nodes;
ghost use Rattle.resolve_statements.specs.Forms as spec;
ghost use Rattle.resolve_statements.specs.Statements as folds;

use crate::assign::{assign_form, target_node, value_form};
use crate::calls::{Transfer, dispose_form, lost_form, new_form, routine_form, transfer_form};
use crate::control::{case_labels, for_form, hold_effects};
use crate::form::{KeptForm, form_with};
use check_expr::is_file;
use check_rules::{Entity, Standard, StandardFile};
use core_tree::StatementOp;
use dice_base::NoMemory;
use expression_rules::{Env, OpenedRecord, declared_entity, opened_field};
use pascal_tree::{Access, Arg, Expr, StmtKind};
use resolve_expr::{Context, KeptNode, no_parts, node_of};
use sqlite_items::Items;
use std::alloc::Global;

#[tactic(auto, using(crate::proofs::Arguments::width_is))]
fn names_file(env: &Env, file: StandardFile, arg: &Arg) -> bool
    ensures { result ≡ folds.names_file file (judgements.argument_of env.now arg.now) }
{
    arg.width.is_none() && is_file(env, file, arg)
}

fn behind_file<'a>(env: &Env, file: StandardFile, args: &'a [Arg]) -> &'a [Arg]
    ensures { result.now ≡ folds.behind_file env.now file args.now }
{
    let [first, others @ ..] = args else {
        return args;
    };
    if names_file(env, file, first) {
        others
    } else {
        args
    }
}

fn file_of(transfer: Transfer) -> StandardFile
    ensures { result ≡ folds.file_of transfer }
{
    match transfer {
        Transfer::Reading => StandardFile::Input,
        Transfer::Writing => StandardFile::Output,
    }
}

fn transferred(
    alloc: Global,
    context: &Context,
    transfer: Transfer,
    line: bool,
    args: &[Arg],
) -> Result<KeptForm, NoMemory>
    ensures { IfOk result (λ f. f ≡ spec.kept_form (folds.transferred context.now transfer line args.now)) }
{
    let args = behind_file(&context.env, file_of(transfer), args);
    transfer_form(alloc, context, transfer, line, args)
}

fn standard_form(
    alloc: Global,
    context: &Context,
    procedure: Standard,
    args: &[Arg],
) -> Result<KeptForm, NoMemory>
    ensures { IfOk result (λ f. f ≡ spec.kept_form (folds.standard_form context.now procedure args.now)) }
{
    match procedure {
        Standard::Read => transferred(alloc, context, Transfer::Reading, false, args),
        Standard::Readln => transferred(alloc, context, Transfer::Reading, true, args),
        Standard::Write => transferred(alloc, context, Transfer::Writing, false, args),
        Standard::Writeln => transferred(alloc, context, Transfer::Writing, true, args),
        Standard::New => new_form(alloc, context, args),
        Standard::Dispose => dispose_form(alloc, context, args),
        _ => Ok(lost_form(alloc, context)),
    }
}

fn call_form(
    alloc: Global,
    context: &Context,
    ident: &[u8],
    args: &[Arg],
) -> Result<KeptForm, NoMemory>
    ensures { IfOk result (λ f. f ≡ spec.kept_form (folds.call_form context.now ident.now args.now)) }
{
    if opened_field(&context.env, ident).is_some() {
        return Ok(lost_form(alloc, context));
    }
    match declared_entity(&context.env, ident) {
        Some(Entity::RoutineOf(routine)) => routine_form(alloc, context, routine, args),
        Some(Entity::StandardOf(procedure)) => standard_form(alloc, context, *procedure, args),
        _ => Ok(lost_form(alloc, context)),
    }
}

fn assigned(
    alloc: Global,
    context: &Context,
    access: &Access,
    expr: &Expr,
) -> Result<KeptForm, NoMemory>
    ensures { IfOk result (λ f. f ≡ spec.kept_form (spec.assign_form context.now (spec.target_node context.now (nodes.access_of context.now access.now)) (nodes.node_of context.now expr.now))) }
{
    let target = target_node(alloc, context, access)?;
    let value = node_of(alloc, context, expr)?;
    assign_form(alloc, context, target, value)
}

fn with_value(
    alloc: Global,
    context: &Context,
    op: StatementOp,
    expr: &Expr,
) -> Result<KeptForm, NoMemory>
    ensures { IfOk result (λ f. f ≡ spec.kept_form (spec.value_form context.now op (nodes.node_of context.now expr.now))) }
{
    let value = node_of(alloc, context, expr)?;
    value_form(alloc, context, op, value)
}

fn without_parts(alloc: Global, context: &Context, op: StatementOp) -> KeptForm
    ensures { result ≡ spec.kept_form (spec.form context.now op None []) }
{
    form_with(context, op, None, no_parts(alloc))
}

fn looping(
    alloc: Global,
    context: &Context,
    ident: &[u8],
    down: bool,
    first: &Expr,
    last: &Expr,
) -> Result<KeptForm, NoMemory>
    ensures { IfOk result (λ f. f ≡ spec.kept_form (spec.for_form context.now ident.now down (nodes.node_of context.now first.now) (nodes.node_of context.now last.now))) }
{
    let first = node_of(alloc, context, first)?;
    let last = node_of(alloc, context, last)?;
    for_form(alloc, context, ident, down, first, last)
}

fn close_opened(opened: &mut Items<OpenedRecord>, count: usize)
    ensures { opened.new ≡ take count opened.old }
{
    while opened.len() > count {
        opened.pop();
    }
}

/// Closes all records but the first so many.
pub fn close_records(context: &mut Context, count: usize, holds: u32)
    ensures { context.new ≡ spec.context_closed context.old count holds }
{
    close_opened(&mut context.env.opened, count);
    context.env.holds = holds;
}

#[tactic(auto, using(crate::proofs::Opened::closed_with))]
fn with_form(alloc: Global, context: &mut Context, records: &[Access]) -> Result<KeptForm, NoMemory>
    ensures value { IfOk result (λ f. f ≡ spec.kept_form (spec.with_form context.old (map folds.access_node records.now))) }
    ensures kept { OnOk result (context.new ≡ context.old) }
{
    let count = context.env.opened.len();
    let holds = context.env.holds;
    let parts = hold_effects(alloc, context, records)?;
    close_records(context, count, holds);
    Ok(form_with(context, StatementOp::With, None, parts))
}

/// The own form of a statement of this kind; `None` exactly where it is a compound.
#[tactic(auto, unfolding(crate::specs::Statements::own_form, crate::specs::Statements::arm_constants))]
pub fn own_form(
    alloc: Global,
    context: &mut Context,
    kind: &StmtKind,
) -> Result<Option<KeptForm>, NoMemory>
    ensures value { IfOk result (λ f. f ≡ option_map spec.kept_form (folds.own_form kind.now context.old)) }
    ensures kept { OnOk result (context.new ≡ context.old) }
{
    let form = match kind {
        StmtKind::Compound(_) => return Ok(None),
        StmtKind::Empty => without_parts(alloc, context, StatementOp::Empty),
        StmtKind::Goto(label) => without_parts(alloc, context, StatementOp::Goto(*label)),
        StmtKind::Assign(access, expr) => assigned(alloc, context, access, expr)?,
        StmtKind::Call(ident, args) => {
            call_form(alloc, context, ident.bytes(), args.as_slice())?
        }
        StmtKind::If(expr, _, other) => {
            with_value(alloc, context, StatementOp::If(other.is_some()), expr)?
        }
        StmtKind::Case(expr, arms) => {
            let labels = case_labels(alloc, &context.env, arms.as_slice())?;
            with_value(alloc, context, StatementOp::Case(labels), expr)?
        }
        StmtKind::While(expr, _) => with_value(alloc, context, StatementOp::While, expr)?,
        StmtKind::Repeat(_, expr) => with_value(alloc, context, StatementOp::Repeat, expr)?,
        StmtKind::For(ident, first, down, last, _) => {
            looping(alloc, context, ident.bytes(), *down, first, last)?
        }
        StmtKind::With(records, _) => with_form(alloc, context, records.as_slice())?,
    };
    Ok(Some(form))
}
