//! The sums of a form: the words of code that its block is given, and the words of temporaries and the holds that it takes
//! at most.
ghost use Rattle.std.specs.Prelude.{◌≡◌, ◌≤◌, ◌+◌, max, map, length};
ghost use Rattle.core_tree.specs.Charge.{charge_of, counted_charge, expr_charge, expr_need, exprs_charge, exprs_need, holds_of, need_of, op_width, own_holds, parameters_charge, statement_charge, width, widths};
ghost use Rattle.core_tree.specs.Plain.{exprs_of};
ghost use Rattle.core_tree.specs.Views.{bare_form, expr_of};

use crate::counting::counted_sum;
use crate::limits::MAX_COUNTED_CHARGE;
use crate::rows::{op_charge, op_need, op_width, own_holds, parameter_charge, statement_charge};
use crate::{CoreExpr, CoreForm, Parameter, StatementForm};

/// The words of code of a block of this form, counted up to 1,000,000. Takes no memory.
pub fn charge(form: &CoreForm) -> u32
    ensures words { result ≡ counted_charge (charge_of (bare_form form.now)) }
{
    match form {
        CoreForm::Program => 32,
        CoreForm::Routine(routine) => counted_sum(
            64,
            parameters_charge(routine.parameters.as_slice()),
        ),
        CoreForm::Statement(statement) => statement_form_charge(statement),
    }
}

/// The words of temporaries that a block of this form takes at most, counted up to 1,000,000. Takes no memory.
pub fn need(form: &CoreForm) -> u32
    ensures words { result ≡ counted_charge (need_of (bare_form form.now)) }
{
    match form {
        CoreForm::Program => 0,
        CoreForm::Routine(_) => 0,
        CoreForm::Statement(statement) => exprs_need(statement.parts.as_slice()),
    }
}

/// The words of code of an expression, counted up to 1,000,000. Takes no memory.
#[cycle(expr_charge)]
#[tactic(auto, using(crate::proofs::Sums::counted_sum, crate::proofs::Layers::charge_layer))]
pub fn expr_charge(expr: &CoreExpr) -> u32
    ensures words { result ≡ counted_charge (expr_charge (expr_of expr.now)) }
{
    counted_sum(op_charge(&expr.op), exprs_charge(expr.parts.as_slice()))
}

#[cycle(expr_charge)]
#[tactic(auto, using(crate::proofs::Sums::counted_sum))]
fn exprs_charge(parts: &[CoreExpr]) -> u32
    ensures { result ≡ counted_charge (exprs_charge (exprs_of (map expr_of parts.now))) }
{
    let mut words = 0;
    for part in parts {
        words = counted_sum(words, expr_charge(part));
    }
    words
}

/// The words of temporaries that an expression takes at most, its value among them, counted up to 1,000,000. Takes no
/// memory.
#[cycle(expr_need)]
#[tactic(auto, using(crate::proofs::Layers::need_layer))]
pub fn expr_need(expr: &CoreExpr) -> u32
    ensures words { result ≡ counted_charge (expr_need (expr_of expr.now)) }
{
    let parts = expr.parts.as_slice();
    op_need(&expr.op, parts_width(parts)).max(exprs_need(parts))
}

// The temporaries of parts, each of which is evaluated below the values of those before it.
#[cycle(expr_need)]
fn exprs_need(parts: &[CoreExpr]) -> u32
    ensures { result ≡ counted_charge (exprs_need (exprs_of (map expr_of parts.now)) 0) }
{
    let mut below = 0;
    let mut most: u32 = 0;
    for part in parts {
        most = most.max(counted_sum(below, expr_need(part)));
        below = counted_sum(below, width(part));
    }
    most
}

// The words of the values of parts.
#[tactic(auto, using(crate::proofs::Sums::counted_sum))]
fn parts_width(parts: &[CoreExpr]) -> u32
    ensures { result ≡ counted_charge (widths (exprs_of (map expr_of parts.now))) }
{
    let mut words = 0;
    for part in parts {
        words = counted_sum(words, width(part));
    }
    words
}

/// The holds of a statement: those around it, and its own.
#[tactic(auto, using(crate::proofs::Layers::part_count_layer))]
pub fn form_holds(form: &CoreForm) -> u32
    ensures { result ≡ counted_charge (holds_of (bare_form form.now)) }
{
    match form {
        CoreForm::Program => 0,
        CoreForm::Routine(_) => 0,
        CoreForm::Statement(statement) => statement_holds(statement),
    }
}

fn statement_holds(form: &StatementForm) -> u32
    ensures { result ≡ counted_charge (form.now.holds + own_holds form.now.op (length form.now.parts)) }
{
    counted_sum(
        form.holds.min(MAX_COUNTED_CHARGE),
        own_holds(&form.op, form.parts.len()),
    )
}

fn statement_form_charge(form: &StatementForm) -> u32
    ensures { result ≡ counted_charge (statement_charge form.now.op + exprs_charge (exprs_of (map expr_of form.now.parts))) }
{
    counted_sum(
        statement_charge(&form.op),
        exprs_charge(form.parts.as_slice()),
    )
}

fn parameters_charge(parameters: &[Parameter]) -> u32
    ensures { result ≡ counted_charge (parameters_charge parameters.now) }
{
    let mut words = 0;
    for parameter in parameters {
        words = counted_sum(words, parameter_charge(*parameter));
    }
    words
}

// The words of an expression's value.
#[tactic(auto, using(crate::proofs::Layers::width_layer))]
fn width(expr: &CoreExpr) -> u32
    ensures value { result ≡ width (expr_of expr.now) }
    ensures small { result ≤ 8 }
{
    op_width(&expr.op)
}
