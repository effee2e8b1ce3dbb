//! A program with each form of the tree, put together by hand. It need not mean anything.
//!
//! Lists and boxes are made first and large values last, so that no step that may fail has a large value to let go of.
use dice_base::{Name, NoMemory, Text};
use pascal_tree::{
    Access, AccessPart, AddOp, AddPart, Arg, Arm, Block, Constant, Decl, DeclKind, Expr, Factor,
    FieldText, Heading, MulOp, MulPart, Prefix, RelOp, RelPart, Routine, Section, SetMember, Stmt,
    StmtKind, SumExpr, Term, Tree, TypeText,
};
use sqlite_items::{Boxed, Items};
use std::alloc::Global;

fn text(alloc: Global, bytes: &[u8]) -> Result<Text, NoMemory> {
    Text::from_slice(alloc, bytes)
}

fn one<T: Drop>(alloc: Global, item: T) -> Result<Items<T>, NoMemory> {
    let mut all = Items::new(alloc);
    all.push(item)?;
    Ok(all)
}

fn idents(alloc: Global) -> Result<Items<Text>, NoMemory> {
    let mut all = one(alloc, text(alloc, b"a")?)?;
    all.push(text(alloc, b"b")?)?;
    Ok(all)
}

fn sum(alloc: Global, n: u16) -> SumExpr {
    SumExpr {
        prefix: Prefix::Without,
        first: Term {
            first: Factor::Number(n),
            rest: Items::new(alloc),
        },
        rest: Items::new(alloc),
    }
}

fn number(alloc: Global, n: u16) -> Expr {
    Expr {
        first: sum(alloc, n),
        rest: None,
    }
}

// `a [ 1 ] . f ^`
fn component(alloc: Global) -> Result<Access, NoMemory> {
    let mut parts = Items::new(alloc);
    parts.push(AccessPart::Index(one(alloc, number(alloc, 1))?))?;
    parts.push(AccessPart::Field(text(alloc, b"f")?))?;
    parts.push(AccessPart::Dereference)?;
    let ident = text(alloc, b"a")?;
    Ok(Access { ident, parts })
}

// `( 1 : 2 )`
fn args(alloc: Global) -> Result<Items<Arg>, NoMemory> {
    one(
        alloc,
        Arg {
            value: number(alloc, 1),
            width: Some(number(alloc, 2)),
        },
    )
}

// `[ 1 .. 2 , 3 ]`
fn members(alloc: Global) -> Result<Items<SetMember>, NoMemory> {
    let mut all = one(
        alloc,
        SetMember {
            first: number(alloc, 1),
            last: Some(number(alloc, 2)),
        },
    )?;
    all.push(SetMember {
        first: number(alloc, 3),
        last: None,
    })?;
    Ok(all)
}

fn multiply(rest: &mut Items<MulPart>, op: MulOp, right: Factor) -> Result<(), NoMemory> {
    rest.push(MulPart { op, right })?;
    Ok(())
}

fn factors(alloc: Global) -> Result<Items<MulPart>, NoMemory> {
    let mut rest = Items::new(alloc);
    multiply(&mut rest, MulOp::Times, Factor::Access(component(alloc)?))?;
    multiply(&mut rest, MulOp::Div, Factor::Str(text(alloc, b"it's")?))?;
    multiply(&mut rest, MulOp::Mod, Factor::Nil)?;
    let ident = text(alloc, b"f")?;
    multiply(&mut rest, MulOp::And, Factor::Call(ident, args(alloc)?))?;
    multiply(&mut rest, MulOp::And, Factor::Members(members(alloc)?))?;
    let inner = Boxed::new(alloc, number(alloc, 4))?;
    multiply(&mut rest, MulOp::And, Factor::Paren(inner))?;
    let operand = Boxed::new(alloc, Factor::Number(5))?;
    multiply(&mut rest, MulOp::And, Factor::Not(operand))?;
    Ok(rest)
}

// `- 1 * .. or 2 in 3`
fn expression(alloc: Global) -> Result<Expr, NoMemory> {
    let factors = factors(alloc)?;
    let term = Term {
        first: Factor::Number(2),
        rest: Items::new(alloc),
    };
    let terms = one(
        alloc,
        AddPart {
            op: AddOp::Or,
            right: term,
        },
    )?;
    Ok(Expr {
        first: SumExpr {
            prefix: Prefix::Minus,
            first: Term {
                first: Factor::Number(1),
                rest: factors,
            },
            rest: terms,
        },
        rest: Some(RelPart {
            op: RelOp::Member,
            right: sum(alloc, 3),
        }),
    })
}

fn stmt(label: Option<u16>, kind: StmtKind) -> Stmt {
    Stmt {
        name: Name(0),
        label,
        kind,
    }
}

fn empty(alloc: Global) -> Result<Boxed<Stmt>, NoMemory> {
    let inner = Boxed::new(alloc, stmt(None, StmtKind::Empty))?;
    Ok(inner)
}

fn assignment(alloc: Global) -> Result<StmtKind, NoMemory> {
    let access = component(alloc)?;
    let value = expression(alloc)?;
    Ok(StmtKind::Assign(access, value))
}

fn call(alloc: Global) -> Result<StmtKind, NoMemory> {
    let ident = text(alloc, b"p")?;
    let args = args(alloc)?;
    Ok(StmtKind::Call(ident, args))
}

fn choice(alloc: Global) -> Result<StmtKind, NoMemory> {
    let yes = empty(alloc)?;
    let no = empty(alloc)?;
    Ok(StmtKind::If(number(alloc, 1), yes, Some(no)))
}

fn selection(alloc: Global) -> Result<StmtKind, NoMemory> {
    let mut constants = one(alloc, Constant::Named(Prefix::Plus, text(alloc, b"c")?))?;
    constants.push(Constant::Str(text(alloc, b"x")?))?;
    let body = stmt(None, StmtKind::Empty);
    let arms = one(alloc, Arm { constants, body })?;
    Ok(StmtKind::Case(number(alloc, 1), arms))
}

fn repetition(alloc: Global) -> Result<StmtKind, NoMemory> {
    let stmts = one(alloc, stmt(None, StmtKind::Empty))?;
    Ok(StmtKind::Repeat(stmts, number(alloc, 1)))
}

fn downward(alloc: Global) -> Result<StmtKind, NoMemory> {
    let ident = text(alloc, b"i")?;
    let body = empty(alloc)?;
    let first = number(alloc, 2);
    let last = number(alloc, 1);
    Ok(StmtKind::For(ident, first, true, last, body))
}

fn records(alloc: Global) -> Result<StmtKind, NoMemory> {
    let records = one(alloc, component(alloc)?)?;
    let body = empty(alloc)?;
    Ok(StmtKind::With(records, body))
}

fn add(stmts: &mut Items<Stmt>, label: Option<u16>, kind: StmtKind) -> Result<(), NoMemory> {
    stmts.push(stmt(label, kind))?;
    Ok(())
}

/// A compound statement with each kind of statement.
pub fn compound(alloc: Global) -> Result<Stmt, NoMemory> {
    let mut stmts = Items::new(alloc);
    add(&mut stmts, Some(7), assignment(alloc)?)?;
    add(&mut stmts, None, call(alloc)?)?;
    add(&mut stmts, None, StmtKind::Goto(7))?;
    add(&mut stmts, None, choice(alloc)?)?;
    add(
        &mut stmts,
        None,
        StmtKind::If(number(alloc, 1), empty(alloc)?, None),
    )?;
    add(&mut stmts, None, selection(alloc)?)?;
    add(
        &mut stmts,
        None,
        StmtKind::While(number(alloc, 1), empty(alloc)?),
    )?;
    add(&mut stmts, None, repetition(alloc)?)?;
    add(&mut stmts, None, downward(alloc)?)?;
    add(&mut stmts, None, records(alloc)?)?;
    Ok(stmt(None, StmtKind::Compound(stmts)))
}

fn decl(kind: DeclKind) -> Decl {
    Decl {
        name: Name(0),
        kind,
    }
}

fn constant(alloc: Global) -> Result<Items<Decl>, NoMemory> {
    let ident = text(alloc, b"c")?;
    let kind = DeclKind::ConstDecl(ident, Constant::Number(Prefix::Minus, 1));
    one(alloc, decl(kind))
}

// `t , ( a , b ) , 1 .. 9 , ^ t`
fn index_types(alloc: Global) -> Result<Items<TypeText>, NoMemory> {
    let mut all = one(alloc, TypeText::Named(text(alloc, b"t")?))?;
    all.push(TypeText::Enumeration(idents(alloc)?))?;
    let first = Constant::Number(Prefix::Without, 1);
    let last = Constant::Number(Prefix::Without, 9);
    all.push(TypeText::Range(first, last))?;
    all.push(TypeText::Pointer(text(alloc, b"t")?))?;
    Ok(all)
}

// `set of record a , b : t end`
fn component_type(alloc: Global) -> Result<TypeText, NoMemory> {
    let idents = idents(alloc)?;
    let shape = TypeText::Named(text(alloc, b"t")?);
    let fields = one(alloc, FieldText { idents, shape })?;
    let base = Boxed::new(alloc, TypeText::RecordOf(false, fields))?;
    Ok(TypeText::SetOf(false, base))
}

fn array(alloc: Global) -> Result<Items<Decl>, NoMemory> {
    let ident = text(alloc, b"t")?;
    let indexes = index_types(alloc)?;
    let component = Boxed::new(alloc, component_type(alloc)?)?;
    let shape = TypeText::Array(true, indexes, component);
    one(alloc, decl(DeclKind::TypeDecl(ident, shape)))
}

fn variables(alloc: Global) -> Result<Items<Decl>, NoMemory> {
    let idents = idents(alloc)?;
    let shape = TypeText::Named(text(alloc, b"t")?);
    one(alloc, decl(DeclKind::VarDecl(idents, shape)))
}

fn section(alloc: Global, by_place: bool) -> Result<Section, NoMemory> {
    let idents = idents(alloc)?;
    let shape = text(alloc, b"t")?;
    Ok(Section {
        by_place,
        idents,
        shape,
    })
}

fn function(alloc: Global) -> Result<Heading, NoMemory> {
    let ident = text(alloc, b"f")?;
    let mut sections = one(alloc, section(alloc, true)?)?;
    sections.push(section(alloc, false)?)?;
    let result = Some(text(alloc, b"t")?);
    Ok(Heading {
        function: true,
        ident,
        sections,
        result,
    })
}

fn procedure(alloc: Global) -> Result<Heading, NoMemory> {
    let ident = text(alloc, b"p")?;
    Ok(Heading {
        function: false,
        ident,
        sections: Items::new(alloc),
        result: None,
    })
}

fn bare_block(alloc: Global) -> Block {
    Block {
        labels: None,
        consts: Items::new(alloc),
        types: Items::new(alloc),
        vars: Items::new(alloc),
        routines: Items::new(alloc),
        body: stmt(None, StmtKind::Compound(Items::new(alloc))),
    }
}

fn routines(alloc: Global) -> Result<Items<Routine>, NoMemory> {
    let mut all = one(
        alloc,
        Routine {
            name: Name(0),
            heading: function(alloc)?,
            block: None,
        },
    )?;
    let heading = procedure(alloc)?;
    all.push(Routine {
        name: Name(0),
        heading,
        block: Some(bare_block(alloc)),
    })?;
    Ok(all)
}

/// A program with each kind of declaration and of statement.
pub fn program(alloc: Global) -> Result<Tree, NoMemory> {
    let ident = text(alloc, b"all")?;
    let files = one(alloc, text(alloc, b"output")?)?;
    let labels = one(alloc, 7)?;
    let consts = constant(alloc)?;
    let types = array(alloc)?;
    let vars = variables(alloc)?;
    let routines = routines(alloc)?;
    let body = compound(alloc)?;
    Ok(Tree {
        ident,
        files,
        block: Block {
            labels: Some(decl(DeclKind::LabelDecl(labels))),
            consts,
            types,
            vars,
            routines,
            body,
        },
        next: 0,
    })
}
