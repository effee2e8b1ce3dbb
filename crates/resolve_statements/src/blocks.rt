//! The block of a statement by itself.
ghost use Rattle.std.specs.Prelude.{◌≡◌, Some, OnOk};
ghost use Rattle.core_tree.specs.declared.form.StatementForm.{StatementForm};
ghost use Rattle.resolve_statements.specs.Forms as spec;
ghost use Rattle.resolve_statements.specs.Tables as tables;

use crate::entries::push_inner_entries;
use crate::form::KeptForm;
use crate::place::Place;
use crate::sizes::block_form;
use crate::statements::own_form;
use check_rules::CheckEnd;
use core_tree::CoreBlock;
use dice_base::Name;
use pascal_tree::StmtKind;
use resolve_expr::Context;
use sqlite_items::Items;
use std::alloc::Global;

/// Adds the block of a statement of this name and own form, at which the statements directly in it begin: or tells the
/// first limit that it does not keep.
pub fn push_block(
    name: Name,
    place: Place,
    entries: Items<Name>,
    kept: KeptForm,
    out: &mut Items<CoreBlock>,
) -> Result<(), CheckEnd>
    ensures { (f : StatementForm) → kept ≡ spec.kept_form f → tables.PushedOver result out.old out.new (tables.own_rows name place entries (Some f)) }
{
    let form = block_form(name, kept)?;
    let block = CoreBlock {
        name,
        routine: place.routine,
        around: place.around,
        next: Some(place.after),
        entries,
        form,
    };
    let Ok(()) = out.push(block) else {
        return Err(CheckEnd::NoMemory);
    };
    Ok(())
}

/// Adds the block of a statement of this kind by itself; a compound has none.
pub fn push_head(
    alloc: Global,
    context: &mut Context,
    name: Name,
    kind: &StmtKind,
    place: Place,
    out: &mut Items<CoreBlock>,
) -> Result<(), CheckEnd>
    ensures rows { tables.PushedOver result out.old out.new (tables.head_rows kind.now context.old name place) }
    ensures kept { OnOk result (context.new ≡ context.old) }
{
    let Ok(form) = own_form(alloc, context, kind) else {
        return Err(CheckEnd::NoMemory);
    };
    let Some(kept) = form else {
        return Ok(());
    };
    let mut entries = Items::new(alloc);
    let Ok(()) = push_inner_entries(kind, &mut entries) else {
        return Err(CheckEnd::NoMemory);
    };
    push_block(name, place, entries, kept, out)
}
