//! What a block declares anywhere in it (ISO 7185:1990, 6.2.2).
ghost use Rattle.std.specs.Prelude.{◌≡◌, ◌++◌, ◌∷◌, [], map, IfOk, OnOk};
ghost use Rattle.check_decl.specs.BlockRules as spec;
ghost use Rattle.check_decl.specs.Blocks as folds;

use check_types::push_constants;
use dice_base::{Name, NoMemory, Text};
use pascal_tree::{Block, Decl, DeclKind, Routine, copy_texts};
use sqlite_items::Items;
use std::alloc::Global;

fn push_decl(alloc: Global, decl: &Decl, out: &mut Items<Text>) -> Result<(), NoMemory>
    ensures { OnOk result (out.new ≡ out.old ++ (folds.decl_judge decl.now).idents) }
{
    match &decl.kind {
        DeclKind::LabelDecl(_) => Ok(()),
        DeclKind::ConstDecl(ident, _) => {
            out.push(ident.copy(alloc)?)?;
            Ok(())
        }
        DeclKind::TypeDecl(ident, text) => {
            out.push(ident.copy(alloc)?)?;
            push_constants(alloc, text, out)
        }
        DeclKind::VarDecl(idents, text) => {
            let idents = copy_texts(alloc, idents.as_slice())?;
            out.append(idents)?;
            push_constants(alloc, text, out)
        }
    }
}

fn push_decls(alloc: Global, decls: &[Decl], out: &mut Items<Text>) -> Result<(), NoMemory>
    ensures { OnOk result (out.new ≡ out.old ++ spec.decl_idents (map folds.decl_judge decls.now)) }
{
    for decl in decls {
        push_decl(alloc, decl, out)?;
    }
    Ok(())
}

#[tactic(auto, unfolding(crate::specs::Blocks::routine_judge))]
fn push_routine(alloc: Global, routine: &Routine, out: &mut Items<Text>) -> Result<(), NoMemory>
    ensures { OnOk result (out.new ≡ out.old ++ (folds.routine_judge folds.bodyless routine.now).heading.ident ∷ []) }
{
    out.push(routine.heading.ident.copy(alloc)?)?;
    Ok(())
}

fn push_routines(alloc: Global, routines: &[Routine], out: &mut Items<Text>) -> Result<(), NoMemory>
    ensures { OnOk result (out.new ≡ out.old ++ spec.routine_idents (map (folds.routine_judge folds.bodyless) routines.now)) }
{
    for routine in routines {
        push_routine(alloc, routine, out)?;
    }
    Ok(())
}

fn part_idents(
    alloc: Global,
    consts: &[Decl],
    types: &[Decl],
    vars: &[Decl],
    routines: &[Routine],
) -> Result<Items<Text>, NoMemory>
    ensures { IfOk result (λ xs. xs ≡ spec.decl_idents (map folds.decl_judge consts.now) ++ (spec.decl_idents (map folds.decl_judge types.now) ++ (spec.decl_idents (map folds.decl_judge vars.now) ++ spec.routine_idents (map (folds.routine_judge folds.bodyless) routines.now)))) }
{
    let mut all = Items::new(alloc);
    push_decls(alloc, consts, &mut all)?;
    push_decls(alloc, types, &mut all)?;
    push_decls(alloc, vars, &mut all)?;
    push_routines(alloc, routines, &mut all)?;
    Ok(all)
}

/// All identifiers that a block declares, in the order of the text, but for those of its routines' own blocks.
#[tactic(auto, unfolding(crate::specs::Blocks::block_judge, crate::specs::Blocks::routine_judge))]
pub fn block_idents(alloc: Global, block: &Block) -> Result<Items<Text>, NoMemory>
    ensures { IfOk result (λ xs. xs ≡ (folds.block_judge folds.bodyless block.now).idents) }
{
    part_idents(
        alloc,
        block.consts.as_slice(),
        block.types.as_slice(),
        block.vars.as_slice(),
        block.routines.as_slice(),
    )
}

fn push_type_name(alloc: Global, decl: &Decl, out: &mut Items<(Text, Name)>) -> Result<(), NoMemory>
    ensures { OnOk result (out.new ≡ out.old ++ (folds.decl_judge decl.now).types) }
{
    match &decl.kind {
        DeclKind::TypeDecl(ident, _) => {
            let ident = ident.copy(alloc)?;
            out.push((ident, decl.name))?;
            Ok(())
        }
        _ => Ok(()),
    }
}

/// The identifiers of the types of a type part, with the names of their declarations.
pub fn type_names(alloc: Global, decls: &[Decl]) -> Result<Items<(Text, Name)>, NoMemory>
    ensures { IfOk result (λ ns. ns ≡ spec.type_names (map folds.decl_judge decls.now)) }
{
    let mut all = Items::new(alloc);
    for decl in decls {
        push_type_name(alloc, decl, &mut all)?;
    }
    Ok(all)
}

fn push_type_constants(alloc: Global, decl: &Decl, out: &mut Items<Text>) -> Result<(), NoMemory>
    ensures { OnOk result (out.new ≡ out.old ++ (folds.decl_judge decl.now).constants) }
{
    match &decl.kind {
        DeclKind::TypeDecl(_, text) => push_constants(alloc, text, out),
        _ => Ok(()),
    }
}

/// The enumeration constants of a type part.
pub fn type_constants(alloc: Global, decls: &[Decl]) -> Result<Items<Text>, NoMemory>
    ensures { IfOk result (λ xs. xs ≡ spec.type_constants (map folds.decl_judge decls.now)) }
{
    let mut all = Items::new(alloc);
    for decl in decls {
        push_type_constants(alloc, decl, &mut all)?;
    }
    Ok(all)
}
