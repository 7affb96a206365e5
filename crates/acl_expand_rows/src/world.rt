//! A small world: some functions, a constant, and macros whose body is one of their formals.

ghost use Rattle.std.specs.Prelude.{◌≡◌, ℕ, ◌≤◌, [], ◌∷◌, length, pos, None, IfOk};
ghost use Rattle.model_expansion_parts.specs.Known.{KnowsFormals, KnowsSupplies};
ghost use Rattle.model_symbols.specs.Growth.{Extends};
ghost use Rattle.acl_terms.specs.Definitions.{definition_reach, formals_reach, seen_definition, seen_formals, FitsTable};
ghost use Rattle.acl_terms.specs.Forms.{core_reach};
ghost use Rattle.acl_worlds.specs.Contents.{seen_world, WorldLies};
ghost use Rattle.acl_expand_rows.specs.Supplies.{Supplied};

use acl_base::{SymId, TermId, Word};
use acl_heap::Heap;
use acl_syms::{SymFault, Symbols};
use acl_terms::{Core, Definition, Macro, MacroFormals, OptionalFormal};
use acl_worlds::World;
use sqlite_items::Items;
use std::alloc::{AllocError, Global};

/// `NOT`.
const NOT: SymId = SymId(13);

/// `EQL`.
const EQL: SymId = SymId(15);

/// `INTEGERP`.
const INTEGERP: SymId = SymId(19);

/// `<`.
const BELOW: SymId = SymId(20);

/// `MEMBER-EQUAL`.
const MEMBER_EQUAL: SymId = SymId(146);

/// The names of what is no macro, and of formals.
#[derive(Clone, Copy)]
struct Names {
    two: SymId,
    constant: SymId,
    x: SymId,
    y: SymId,
    supplied: SymId,
}

/// The names of macros of which no formal may be left out.
#[derive(Clone, Copy)]
struct MacroNames {
    same: SymId,
    all: SymId,
    seven: SymId,
    refused: SymId,
}

/// The names of macros whose formals may be left out.
#[derive(Clone, Copy)]
struct FreeNames {
    maybe: SymId,
    given: SymId,
    keyed: SymId,
}

fn made_names(syms: &mut Symbols) -> Result<Names, SymFault>
    ensures { Extends syms.old syms.new }
{
    let two = syms.intern(b"ACL2", b"TWO")?;
    let constant = syms.intern(b"ACL2", b"*C*")?;
    let x = syms.intern(b"ACL2", b"X")?;
    let y = syms.intern(b"ACL2", b"Y")?;
    let supplied = syms.intern(b"ACL2", b"SUPPLIED")?;
    Ok(Names {
        two,
        constant,
        x,
        y,
        supplied,
    })
}

fn made_macro_names(syms: &mut Symbols) -> Result<MacroNames, SymFault>
    ensures { Extends syms.old syms.new }
{
    let same = syms.intern(b"ACL2", b"SAME")?;
    let all = syms.intern(b"ACL2", b"ALL")?;
    let seven = syms.intern(b"ACL2", b"SEVEN")?;
    let refused = syms.intern(b"ACL2", b"REFUSED")?;
    Ok(MacroNames {
        same,
        all,
        seven,
        refused,
    })
}

fn made_free_names(syms: &mut Symbols) -> Result<FreeNames, SymFault>
    ensures { Extends syms.old syms.new }
{
    let maybe = syms.intern(b"ACL2", b"MAYBE")?;
    let given = syms.intern(b"ACL2", b"GIVEN")?;
    let keyed = syms.intern(b"ACL2", b"KEYED")?;
    Ok(FreeNames {
        maybe,
        given,
        keyed,
    })
}

/// Puts a definition last, where its name is new.
#[tactic(auto, using(crate::proofs::SupplyLemmas::supplies_with, crate::proofs::SupplyLemmas::lies_with))]
fn put(world: &mut World, _heap: &Heap, _syms: &Symbols, d: Definition) -> Result<(), AllocError>
    requires lies { WorldLies _heap.now world.old }
    requires supplies { KnowsSupplies (length _syms.now.symbols) (seen_world _heap.now world.old) }
    requires reach { definition_reach d ≤ length _heap.now }
    requires supplied { Supplied (length _syms.now.symbols) (seen_definition _heap.now d) }
    requires fits { FitsTable d }
    ensures lies { WorldLies _heap.now world.new }
    ensures supplies { KnowsSupplies (length _syms.now.symbols) (seen_world _heap.now world.new) }
{
    match world.find(d.name()) {
        Some(_) => Ok(()),
        None => {
            world.add(d)?;
            Ok(())
        }
    }
}

/// Puts a function of these formals last, where its name is new.
fn put_function(
    alloc: Global,
    world: &mut World,
    heap: &Heap,
    syms: &Symbols,
    name: SymId,
    formals: &[SymId],
) -> Result<(), AllocError>
    requires lies { WorldLies heap.now world.old }
    requires supplies { KnowsSupplies (length syms.now.symbols) (seen_world heap.now world.old) }
    ensures lies { WorldLies heap.now world.new }
    ensures supplies { KnowsSupplies (length syms.now.symbols) (seen_world heap.now world.new) }
{
    let formals = Items::from_slice(alloc, formals)?;
    put(world, heap, syms, Definition::Named { name, formals })
}

/// TWO, and the functions that tests of types and keys call.
fn put_functions(
    alloc: Global,
    world: &mut World,
    heap: &Heap,
    syms: &Symbols,
    names: &Names,
) -> Result<(), AllocError>
    requires lies { WorldLies heap.now world.old }
    requires supplies { KnowsSupplies (length syms.now.symbols) (seen_world heap.now world.old) }
    ensures lies { WorldLies heap.now world.new }
    ensures supplies { KnowsSupplies (length syms.now.symbols) (seen_world heap.now world.new) }
{
    put_function(alloc, world, heap, syms, names.two, &[names.x, names.y])?;
    put_function(alloc, world, heap, syms, EQL, &[names.x, names.y])?;
    put_function(alloc, world, heap, syms, MEMBER_EQUAL, &[names.x, names.y])?;
    put_function(alloc, world, heap, syms, BELOW, &[names.x, names.y])?;
    put_function(alloc, world, heap, syms, NOT, &[names.x])?;
    put_function(alloc, world, heap, syms, INTEGERP, &[names.x])
}

/// Formals of which none may be left out.
fn formals(
    alloc: Global,
    required: &[SymId],
    rest: Option<SymId>,
) -> Result<MacroFormals, AllocError>
    ensures { IfOk result (λ f. (f.optional ≡ []) × (f.keys ≡ None)) }
{
    Ok(MacroFormals {
        required: Items::from_slice(alloc, required)?,
        optional: Items::new(alloc),
        rest,
        keys: None,
    })
}

/// A formal that is 5 where it is left out.
fn five(
    alloc: Global,
    name: SymId,
    supplied: Option<SymId>,
) -> Result<Items<OptionalFormal>, AllocError>
    ensures { IfOk result (λ fs. fs ≡ record { name = name; default = Word.Small (pos 5); supplied = supplied } ∷ []) }
{
    let mut formals = Items::new(alloc);
    formals.push(OptionalFormal {
        name,
        default: Word::Small(5),
        supplied,
    })?;
    Ok(formals)
}

/// Formals that may be left out, by place or by key.
fn free_formals(
    alloc: Global,
    optional: Items<OptionalFormal>,
    keys: Option<Items<OptionalFormal>>,
) -> MacroFormals
    ensures optional { result.optional ≡ optional }
    ensures keys { result.keys ≡ keys }
{
    MacroFormals {
        required: Items::new(alloc),
        optional,
        rest: None,
        keys,
    }
}

/// Puts a macro last whose body has no cells, where its name is new.
fn put_macro(
    world: &mut World,
    heap: &Heap,
    syms: &Symbols,
    name: SymId,
    formals: MacroFormals,
    body: Core,
) -> Result<(), AllocError>
    requires lies { WorldLies heap.now world.old }
    requires supplies { KnowsSupplies (length syms.now.symbols) (seen_world heap.now world.old) }
    requires formals { formals_reach formals ≤ length heap.now }
    requires body { core_reach body ≡ 0 }
    requires supplied { KnowsFormals (length syms.now.symbols) (seen_formals heap.now formals) }
    ensures lies { WorldLies heap.now world.new }
    ensures supplies { KnowsSupplies (length syms.now.symbols) (seen_world heap.now world.new) }
{
    let definition = Macro {
        name,
        formals,
        body,
        body_term: TermId(0),
    };
    put(world, heap, syms, Definition::Macro(definition))
}

/// A world of these definitions:
/// - functions: TWO, EQL, MEMBER-EQUAL and < of X and Y; NOT and INTEGERP of X;
/// - a constant: *C*, which is 3;
/// - macros: SAME of X, ALL of &REST X, MAYBE of &OPTIONAL (X '5) and KEYED of &KEY (X '5) give X; GIVEN of &OPTIONAL (X '5 SUPPLIED)
///   gives SUPPLIED; SEVEN gives 7; REFUSED has a body that `LeafEngine` refuses.
#[tactic(auto, using(acl_worlds::proofs::PrimitiveLemmas::no_primitives, crate::proofs::SupplyLemmas::no_supplies))]
pub fn row_world(alloc: Global, heap: &Heap, syms: &mut Symbols) -> Result<World, SymFault>
    requires { 2 ≤ length syms.old.symbols }
    ensures grows { Extends syms.old syms.new }
    ensures lies { IfOk result (λ w. WorldLies heap.now w) }
    ensures supplies { IfOk result (λ w. KnowsSupplies (length syms.new.symbols) (seen_world heap.now w)) }
{
    let names = made_names(syms)?;
    let macros = made_macro_names(syms)?;
    let free = made_free_names(syms)?;
    let mut world = World::new(alloc, &[])?;
    put_functions(alloc, &mut world, heap, syms, &names)?;
    put(
        &mut world,
        heap,
        syms,
        Definition::Constant {
            name: names.constant,
            value: Word::Small(3),
        },
    )?;
    put_macros(alloc, &mut world, heap, syms, &names, &macros)?;
    put_free_macros(alloc, &mut world, heap, syms, &names, &free)?;
    Ok(world)
}

fn put_macros(
    alloc: Global,
    world: &mut World,
    heap: &Heap,
    syms: &Symbols,
    names: &Names,
    macros: &MacroNames,
) -> Result<(), AllocError>
    requires lies { WorldLies heap.now world.old }
    requires supplies { KnowsSupplies (length syms.now.symbols) (seen_world heap.now world.old) }
    ensures lies { WorldLies heap.now world.new }
    ensures supplies { KnowsSupplies (length syms.now.symbols) (seen_world heap.now world.new) }
{
    let same = formals(alloc, &[names.x], None)?;
    put_macro(world, heap, syms, macros.same, same, Core::Var(names.x))?;
    let all = formals(alloc, &[], Some(names.x))?;
    put_macro(world, heap, syms, macros.all, all, Core::Var(names.x))?;
    let seven = formals(alloc, &[], None)?;
    put_macro(
        world,
        heap,
        syms,
        macros.seven,
        seven,
        Core::Const(Word::Small(7)),
    )?;
    let refused = formals(alloc, &[], None)?;
    put_macro(
        world,
        heap,
        syms,
        macros.refused,
        refused,
        Core::Var(names.x),
    )?;
    Ok(())
}

/// Puts the macros last whose formals may be left out.
fn put_free_macros(
    alloc: Global,
    world: &mut World,
    heap: &Heap,
    syms: &Symbols,
    names: &Names,
    free: &FreeNames,
) -> Result<(), AllocError>
    requires lies { WorldLies heap.now world.old }
    requires supplies { KnowsSupplies (length syms.now.symbols) (seen_world heap.now world.old) }
    ensures lies { WorldLies heap.now world.new }
    ensures supplies { KnowsSupplies (length syms.now.symbols) (seen_world heap.now world.new) }
{
    let maybe = free_formals(alloc, five(alloc, names.x, None)?, None);
    put_macro(world, heap, syms, free.maybe, maybe, Core::Var(names.x))?;
    let supplied = Some(names.supplied);
    let given = free_formals(alloc, five(alloc, names.x, supplied)?, None);
    put_macro(
        world,
        heap,
        syms,
        free.given,
        given,
        Core::Var(names.supplied),
    )?;
    let keys = Some(five(alloc, names.x, None)?);
    let keyed = free_formals(alloc, Items::new(alloc), keys);
    put_macro(world, heap, syms, free.keyed, keyed, Core::Var(names.x))
}
