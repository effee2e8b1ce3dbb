//! Programs.
ghost use Rattle.std.specs.Prelude.{◌≡◌, ◌≤◌, true, length, IfOk, IfSome, option_copied};
ghost use Rattle.std.specs.List.{AllByRecursion};
ghost use Rattle.simple_form.specs.Simple as spec;
ghost use Rattle.pascal_tree.specs.declared.typing.TypeText.{out-TypeText};
ghost use Rattle.simple_form.specs.Simple.{stmt_leaves, resolution_of, statements_in};
ghost use Rattle.pascal_semantics.specs.Valid.{IsForm, IsFree, AllDiffer};

use crate::operands::number_of;
use crate::statements::push_stmt;
use dice_base::{NoMemory, Text};
use pascal_semantics::Statement;
use pascal_tree::{Block, Decl, DeclKind, Stmt, Tree, TypeText};
use program_tree::Program;
use std::alloc::Global;

const MAX_VARIABLES: usize = 64;

/// The statements of a simple program that have a block, in the order of the text, each with its name in the program.
/// A variable's number is its place among the variables, counted from 0.
#[derive(Drop)]
pub struct SimpleProgram {
    pub statements: Vec<Statement>,
}

// Identifiers that differ, and hide none that a simple program uses.
fn all_new(idents: &[Text]) -> bool
    requires { length idents.now ≤ 64 }
    ensures { result ≡ spec.all_new idents.now }
{
    for (at, ident) in idents.iter().enumerate() {
        if ident.bytes() == b"integer".as_slice() || ident.bytes() == b"writeln".as_slice() {
            return false;
        }
        if number_of(&idents[at + 1..], ident.bytes()).is_some() {
            return false;
        }
    }
    true
}

fn are_variables(idents: &[Text]) -> bool
    ensures value { result ≡ spec.are_variables idents.now }
    ensures few { result ≡ true → length idents.now ≤ 64 }
{
    if idents.is_empty() || idents.len() > MAX_VARIABLES {
        return false;
    }
    all_new(idents)
}

fn is_integer(shape: &TypeText) -> bool
    ensures { result ≡ spec.is_integer (out-TypeText shape.now) }
{
    match shape {
        TypeText::Named(ident) => ident.bytes() == b"integer".as_slice(),
        _ => false,
    }
}

fn has_variables_alone(block: &Block) -> bool
    ensures { result ≡ spec.has_variables_alone block.now }
{
    block.labels.is_none()
        && block.consts.is_empty()
        && block.types.is_empty()
        && block.routines.is_empty()
}

fn variables_declared(kind: &DeclKind) -> Option<&[Text]>
    ensures value { option_copied result ≡ spec.variables_declared kind.now }
    ensures few { IfSome result (λ idents. length idents.now ≤ 64) }
{
    let DeclKind::VarDecl(idents, shape) = kind else {
        return None;
    };
    if !is_integer(shape) || !are_variables(idents.as_slice()) {
        return None;
    }
    Some(idents.as_slice())
}

fn one_declaration(decls: &[Decl]) -> Option<&[Text]>
    ensures value { option_copied result ≡ spec.one_declaration decls.now }
    ensures few { IfSome result (λ idents. length idents.now ≤ 64) }
{
    match decls {
        [decl] => variables_declared(&decl.kind),
        _ => None,
    }
}

fn declared_variables(tree: &Tree) -> Option<&[Text]>
    ensures value { option_copied result ≡ spec.declared_variables tree.now }
    ensures few { IfSome result (λ idents. length idents.now ≤ 64) }
{
    if !tree.files.is_empty() || !has_variables_alone(&tree.block) {
        return None;
    }
    one_declaration(tree.block.vars.as_slice())
}

fn resolve_body(
    alloc: Global,
    variables: &[Text],
    body: &Stmt,
) -> Result<Option<SimpleProgram>, NoMemory>
    requires { length variables.now ≤ 64 }
    ensures value { IfOk result (λ r. statements_in r ≡ stmt_leaves variables.now body.now) }
    ensures forms { IfOk result (λ r. IfSome r (λ p. AllByRecursion (λ s. IsForm s.form) p.statements.items)) }
{
    let mut statements = Vec::new(alloc);
    if push_stmt(variables, body, &mut statements)? {
        return Ok(Some(SimpleProgram { statements }));
    }
    Ok(None)
}

fn resolve_tree(alloc: Global, tree: &Tree) -> Result<Option<SimpleProgram>, NoMemory>
    ensures value { IfOk result (λ r. statements_in r ≡ resolution_of tree.now) }
    ensures forms { IfOk result (λ r. IfSome r (λ p. AllByRecursion (λ s. IsForm s.form) p.statements.items)) }
{
    match declared_variables(tree) {
        Some(variables) => resolve_body(alloc, variables, &tree.block.body),
        None => Ok(None),
    }
}

/// The statements of a simple program, their variables resolved. None where the program is not simple.
pub fn resolve_program(alloc: Global, program: &Program) -> Result<Option<SimpleProgram>, NoMemory>
    // The answer is what the program resolves to.
    ensures value { IfOk result (λ r. statements_in r ≡ resolution_of program.now) }
    // All parts are in range, no two statements, and not the program, have the same name, and there are no more
    // statements than names.
    ensures forms { IfOk result (λ r. IfSome r (λ p. AllByRecursion (λ s. IsForm s.form) p.statements.items)) }
    ensures differ { IfOk result (λ r. IfSome r (λ p. AllDiffer p.statements.items)) }
    ensures free { IfOk result (λ r. IfSome r (λ p. IsFree 1 p.statements.items)) }
    ensures few { IfOk result (λ r. IfSome r (λ p. length p.statements.items ≤ 4294967296)) }
{
    resolve_tree(alloc, program.tree())
}
