//! What stands around the bodies of a program, from one block to those of the routines in it and back.
ghost use Rattle.std.specs.Prelude.{◌≡◌, IfOk};
ghost use Rattle.check_decl.specs.BlockRules as rules;
ghost use Rattle.check_decl.specs.declared.place.At.{At};
ghost use Rattle.check_rules.specs.declared.entity.RoutineEntity.{RoutineEntity};
ghost use Rattle.resolve_expr.specs.declared.context.Context.{Context};
ghost use Rattle.resolve_types.specs.Programs as spec;

use crate::copies::{copy_changed, copy_domains, copy_region, copy_table};
use crate::programs::{owner_words, region_of};
use check_decl::At;
use check_rules::RoutineEntity;
use dice_base::{Name, NoMemory};
use expression_rules::Env;
use predeclared::predeclared_region;
use resolve_expr::Context;
use sqlite_items::Items;
use std::alloc::Global;

/// What stands around the body of the program. Takes memory for a copy of what the program declares and of its types.
pub fn program_context(alloc: Global, end: &At) -> Result<Context, NoMemory>
    ensures { IfOk result (λ c. c ≡ spec.context_of end.now rules.program_owner) }
{
    let mut owners = Items::new(alloc);
    owners.push(owner_words(end, Name(1)))?;
    let env = program_env(alloc, end)?;
    Ok(Context {
        env,
        level: 0,
        owners,
    })
}

fn program_env(alloc: Global, end: &At) -> Result<Env, NoMemory>
    ensures { IfOk result (λ e. e ≡ (spec.context_of end.now rules.program_owner).env) }
{
    let mut regions = Items::new(alloc);
    regions.push(predeclared_region(alloc)?)?;
    regions.push(copy_region(alloc, region_of(end, Name(1)))?)?;
    let table = copy_table(alloc, end.known.table.as_slice())?;
    let domains = copy_domains(alloc, end.known.domains.as_slice())?;
    let changed = copy_changed(alloc, end.known.changed.as_slice())?;
    Ok(Env {
        table,
        domains,
        regions,
        opened: Items::new(alloc),
        holds: 0,
        owner: Name(1),
        functions: Items::new(alloc),
        changed,
    })
}

/// What stands around the body of a routine, from what stands around that of the block that declares it. Takes memory for
/// a copy of what the routine declares.
pub fn entered(
    alloc: Global,
    end: &At,
    routine: &RoutineEntity,
    context: Context,
) -> Result<Context, NoMemory>
    ensures { IfOk result (λ c. c ≡ spec.entered end.now routine.now context) }
{
    let Context {
        env,
        level: _,
        mut owners,
    } = context;
    owners.push(owner_words(end, routine.name))?;
    let env = entered_env(alloc, end, routine.name, env)?;
    Ok(Context {
        env,
        level: routine.level,
        owners,
    })
}

fn entered_env(alloc: Global, end: &At, name: Name, env: Env) -> Result<Env, NoMemory>
    ensures { IfOk result (λ e. e ≡ spec.entered_env end.now name env) }
{
    let region = copy_region(alloc, region_of(end, name))?;
    let Env {
        table,
        domains,
        mut regions,
        opened,
        holds,
        owner: _,
        mut functions,
        changed,
    } = env;
    regions.push(region)?;
    functions.push(name)?;
    Ok(Env {
        table,
        domains,
        regions,
        opened,
        holds,
        owner: name,
        functions,
        changed,
    })
}

/// What stood around the body of the block of this owner and level, from what stands around that of a routine in it.
#[tactic(auto, using(std::proofs::lemmas::List::append_cancel_right))]
pub fn left(context: Context, owner: Name, level: u32) -> Result<Context, NoMemory>
    ensures { (end : At) (routine : RoutineEntity) (c : Context) → context ≡ spec.entered end routine c
        → c.env.owner ≡ owner → c.level ≡ level → IfOk result (λ back. back ≡ c) }
{
    let Context {
        env,
        level: _,
        mut owners,
    } = context;
    let Some(_) = owners.pop() else {
        return Err(NoMemory);
    };
    let env = left_env(env, owner)?;
    Ok(Context { env, level, owners })
}

#[tactic(auto, using(std::proofs::lemmas::List::append_cancel_right))]
fn left_env(env: Env, owner: Name) -> Result<Env, NoMemory>
    ensures { (end : At) (name : Name) (e : Env) → env ≡ spec.entered_env end name e → e.owner ≡ owner
        → IfOk result (λ back. back ≡ e) }
{
    let Env {
        table,
        domains,
        mut regions,
        opened,
        holds,
        owner: _,
        mut functions,
        changed,
    } = env;
    let Some(_) = regions.pop() else {
        return Err(NoMemory);
    };
    let Some(_) = functions.pop() else {
        return Err(NoMemory);
    };
    Ok(Env {
        table,
        domains,
        regions,
        opened,
        holds,
        owner,
        functions,
        changed,
    })
}
