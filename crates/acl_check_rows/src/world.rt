//! A small world: st and st2 are congruent, with a scalar field each; other is another object; par holds one kid.

ghost use Rattle.std.specs.Prelude.{IfOk};
ghost use Rattle.acl_terms.specs.Definitions.{FitsTable};

use acl_base::{LayoutId, SymId, Word};
use acl_terms::{
    Definition, Descriptor, FieldDescriptor, GeneratedFunction, Out, Role, Shape, Signature,
};
use acl_worlds::World;
use sqlite_items::Items;
use std::alloc::{AllocError, Global};

pub const ST: u32 = 1;

pub const ST2: u32 = 2;

pub const OTHER: u32 = 3;

pub const KID: u32 = 4;

pub const PAR: u32 = 5;

pub const GET: u32 = 21;

pub const UPDATE: u32 = 22;

pub const KID_OF: u32 = 23;

pub const BOTH: u32 = 24;

pub const POP: u32 = 25;

pub const PAIR: u32 = 26;

pub const NOTED: u32 = 27;

pub const V: u32 = 61;

pub const X: u32 = 62;

fn put(world: &mut World, d: Definition) -> Result<(), AllocError>
    requires { FitsTable d }
{
    match world.find(d.name()) {
        Some(_) => Ok(()),
        None => {
            world.add(d)?;
            Ok(())
        }
    }
}

fn stobj(alloc: Global, name: u32, class: u32, shape: Shape) -> Result<Definition, AllocError>
    ensures { IfOk result (λ d. FitsTable d) }
{
    let mut fields = Items::new(alloc);
    fields.push(FieldDescriptor {
        name: SymId(0),
        shape,
        made: Items::new(alloc),
    })?;
    Ok(Definition::Object {
        descriptor: Descriptor {
            name: SymId(name),
            recognizer: SymId(0),
            creator: SymId(0),
            fields,
            congruent_to: None,
        },
        layout: LayoutId(0),
        class: SymId(class),
    })
}

fn signature(alloc: Global, ins: &[Out], outs: &[Out]) -> Result<Signature, AllocError> {
    Ok(Signature {
        ins: Items::from_slice(alloc, ins)?,
        outs: Items::from_slice(alloc, outs)?,
    })
}

fn of_field(
    alloc: Global,
    name: u32,
    stobj: u32,
    role: Role,
    ins: &[Out],
    outs: &[Out],
) -> Result<Definition, AllocError>
    ensures { IfOk result (λ d. FitsTable d) }
{
    Ok(Definition::Generated(GeneratedFunction {
        name: SymId(name),
        stobj: SymId(stobj),
        field: Some(0),
        role,
        signature: signature(alloc, ins, outs)?,
    }))
}

fn function(
    alloc: Global,
    name: u32,
    ins: &[Out],
    outs: &[Out],
    executable: bool,
) -> Result<Definition, AllocError>
    ensures { IfOk result (λ d. FitsTable d) }
{
    Ok(Definition::Signed {
        name: SymId(name),
        formals: Items::new(alloc),
        signature: signature(alloc, ins, outs)?,
        executable,
    })
}

fn put_objects(alloc: Global, world: &mut World) -> Result<(), AllocError> {
    let scalar = Shape::Scalar {
        spec: Word::Small(1),
        initial: Word::Small(0),
    };
    put(world, stobj(alloc, ST, ST, scalar)?)?;
    put(world, stobj(alloc, ST2, ST, scalar)?)?;
    put(world, stobj(alloc, OTHER, OTHER, scalar)?)?;
    put(world, stobj(alloc, KID, KID, scalar)?)?;
    put(world, stobj(alloc, PAR, PAR, Shape::Child(SymId(KID)))?)?;
    Ok(())
}

fn put_functions(alloc: Global, world: &mut World) -> Result<(), AllocError> {
    let o = Out::Ordinary;
    let st = Out::Object(SymId(ST));
    let st2 = Out::Object(SymId(ST2));
    let kid = Out::Object(SymId(KID));
    let par = Out::Object(SymId(PAR));
    put(world, of_field(alloc, GET, ST, Role::Access, &[st], &[o])?)?;
    put(
        world,
        of_field(alloc, UPDATE, ST, Role::Update, &[o, st], &[st])?,
    )?;
    put(
        world,
        of_field(alloc, KID_OF, PAR, Role::Access, &[par], &[kid])?,
    )?;
    put(world, function(alloc, BOTH, &[st, st2], &[o], true)?)?;
    put(world, function(alloc, POP, &[st], &[o, st], true)?)?;
    put(world, function(alloc, PAIR, &[o, o], &[o], true)?)?;
    put(world, function(alloc, NOTED, &[o], &[o], false)?)?;
    Ok(())
}

/// The small world, put into an empty one.
pub fn put_all(alloc: Global, world: &mut World) -> Result<(), AllocError> {
    put_objects(alloc, world)?;
    put_functions(alloc, world)?;
    Ok(())
}
