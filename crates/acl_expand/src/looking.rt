//! A look at a form.

ghost use Rattle.std.specs.Prelude.{◌≡◌, ◌≤◌, length, Some, None, IfOk, IfSome, option_map, option_and_then};
ghost use Rattle.std.specs.Option.{option_copied};
ghost use Rattle.std.specs.List.{Contains};
ghost use Rattle.model_terms.specs.Worlds as worlds;
ghost use Rattle.model_expansion.specs.Forms.{elements};
ghost use Rattle.model_expansion.specs.Layers as layers;
ghost use Rattle.model_expansion.specs.Expansion as expansion;
ghost use Rattle.acl_heap.specs.Objects.{object_of, Lies};
ghost use Rattle.acl_terms.specs.Definitions.{seen_definition, definition_reach, FitsTable};
ghost use Rattle.acl_worlds.specs.Contents.{seen_world, WorldLies};
ghost use Rattle.acl_layers.specs.Rows.{seen_row};
ghost use Rattle.acl_layers.specs.Layers.{IsWhole, seen_ready, ready_reach};
ghost use Rattle.acl_expand.specs.Looks.{StandsLook, SeenMacro, setting_at, seen_fault};

use crate::looked::Looked;
use acl_base::{Limits, SymId, Word};
use acl_heap::{Heap, Seen};
use acl_layers::{
    Found, Kind, Made, Ready, Row, core_row, elements, forms, is_self_evaluating, macro_row,
    made_of,
};
use acl_syms::Symbols;
use acl_terms::{Definition, ExpandFault, Macro};
use acl_worlds::World;
use std::alloc::{AllocError, Global};

/// `NIL`.
const NIL: SymId = SymId(1);

/// How many arguments a function takes. None where the definition is none of a function.
fn arity_of(_heap: &Heap, definition: &Definition) -> Option<usize>
    requires { FitsTable definition.now }
    ensures { result ≡ expansion.arity_of (Some (seen_definition _heap.now definition.now)) }
{
    match definition {
        Definition::Primitive { arity, .. } => Some(*arity as usize),
        Definition::Function(function) => Some(function.formals.len()),
        Definition::Macro(_) => None,
        Definition::Constant { .. } => None,
        Definition::Object { .. } => None,
        Definition::Generated(function) => Some(function.signature.ins.len()),
        Definition::Abstract(_) => None,
        Definition::OfAbstract(function) => Some(function.formals.len()),
        Definition::Named { formals, .. } => Some(formals.len()),
        Definition::Signed { formals, .. } => Some(formals.len()),
    }
}

/// The definition of a name.
#[tactic(auto, using(crate::proofs::LookLemmas::found_none, crate::proofs::LookLemmas::found_some, crate::proofs::LookLemmas::lies_at, crate::proofs::LookLemmas::contains_at, crate::proofs::LookLemmas::fits_at))]
fn definition_of<'a>(world: &'a World, heap: &Heap, name: SymId) -> Option<&'a Definition>
    requires { WorldLies heap.now world.now }
    ensures found { option_map (seen_definition heap.now) (option_copied result) ≡ worlds.definition (seen_world heap.now world.now) name.0 }
    ensures lies { IfSome result (λ d. definition_reach d.now ≤ length heap.now) }
    ensures fits { IfSome result (λ d. FitsTable d.now) }
    ensures there { IfSome result (λ d. Contains world.now.definitions d.now) }
{
    world.is_world();
    match world.find(name) {
        Some(f) => Some(world.at(f)),
        None => None,
    }
}

/// What is wrong with a call of a name with so many actuals.
pub fn head_fault(
    heap: &Heap,
    _syms: &Symbols,
    world: &World,
    _limits: Limits,
    name: SymId,
    count: usize,
) -> Option<ExpandFault>
    requires { WorldLies heap.now world.now }
    ensures { option_map (seen_fault heap.now None) result ≡ expansion.head_fault (setting_at heap.now world.now _syms.now _limits.steps _limits.depth) name.0 count (expansion.arity_of (worlds.definition (seen_world heap.now world.now) name.0)) }
{
    match definition_of(world, heap, name) {
        None => Some(ExpandFault::UnknownFunction { name }),
        Some(definition) => match arity_of(heap, definition) {
            None => Some(ExpandFault::UnknownFunction { name }),
            Some(arity) => {
                if count == arity {
                    None
                } else {
                    Some(ExpandFault::Arity { name })
                }
            }
        },
    }
}

/// A call of a function that takes so many arguments.
#[tactic(auto, using(crate::proofs::LookLemmas::parts_count))]
fn look_call<'a>(
    alloc: Global,
    heap: &Heap,
    _world: &'a World,
    head: SymId,
    arity: usize,
    d: Word,
) -> Result<Looked<'a>, AllocError>
    requires { Lies heap.now d }
    ensures { IfOk result (λ l. StandsLook heap.now _world.now l (expansion.call_look head.0 arity (elements (object_of heap.now d)))) }
{
    match elements(heap, d) {
        None => Ok(Looked::Bad(ExpandFault::BadShape { head })),
        Some(left) => {
            let parts = forms(alloc, heap, left)?;
            if parts.len() == arity {
                Ok(Looked::Stands(Found::Node(Kind::Call(head), parts)))
            } else {
                Ok(Looked::Bad(ExpandFault::Arity { name: head }))
            }
        }
    }
}

fn look_function<'a>(
    alloc: Global,
    heap: &Heap,
    world: &'a World,
    head: SymId,
    definition: &Definition,
    d: Word,
) -> Result<Looked<'a>, AllocError>
    requires fits { FitsTable definition.now }
    requires word { Lies heap.now d }
    ensures { IfOk result (λ l. StandsLook heap.now world.now l (expansion.function_look head.0 (object_of heap.now d) (expansion.arity_of (Some (seen_definition heap.now definition.now))))) }
{
    match arity_of(heap, definition) {
        None => Ok(Looked::Bad(ExpandFault::UnknownFunction { name: head })),
        Some(arity) => {
            let looked = look_call(alloc, heap, world, head, arity, d)?;
            Ok(looked)
        }
    }
}

/// The macro that a definition is.
fn macro_in<'a>(
    _heap: &Heap,
    definition: &'a Definition,
    _head: SymId,
    _d: Word,
) -> Option<&'a Macro>
    ensures { SeenMacro _heap.now (option_copied result) definition.now _head.0 (object_of _heap.now _d) }
{
    match definition {
        Definition::Macro(definition) => Some(definition),
        Definition::Primitive { .. } => None,
        Definition::Function(_) => None,
        Definition::Constant { .. } => None,
        Definition::Object { .. } => None,
        Definition::Generated(_) => None,
        Definition::Abstract(_) => None,
        Definition::OfAbstract(_) => None,
        Definition::Named { .. } => None,
        Definition::Signed { .. } => None,
    }
}

/// A form whose head is neither that of a core form nor that of a built-in macro.
fn look_defined<'a>(
    alloc: Global,
    heap: &Heap,
    world: &'a World,
    head: SymId,
    d: Word,
) -> Result<Looked<'a>, AllocError>
    requires world { WorldLies heap.now world.now }
    requires word { Lies heap.now d }
    ensures { IfOk result (λ l. StandsLook heap.now world.now l (expansion.defined_look head.0 (object_of heap.now d) (worlds.definition (seen_world heap.now world.now) head.0))) }
{
    match definition_of(world, heap, head) {
        None => Ok(Looked::Bad(ExpandFault::UnknownFunction { name: head })),
        Some(definition) => match macro_in(heap, definition, head, d) {
            Some(used) => Ok(Looked::UserUse(head, used, d)),
            None => {
                let looked = look_function(alloc, heap, world, head, definition, d)?;
                Ok(looked)
            }
        },
    }
}

/// A form whose head is that of a core form.
#[tactic(auto, using(crate::proofs::LookLemmas::whole_fits))]
fn look_core<'a>(
    alloc: Global,
    heap: &Heap,
    syms: &Symbols,
    _world: &'a World,
    head: SymId,
    row: Row,
    d: Word,
) -> Result<Looked<'a>, AllocError>
    requires whole { IsWhole row }
    requires word { Lies heap.now d }
    ensures { IfOk result (λ l. StandsLook heap.now _world.now l (expansion.core_look head.0 (option_and_then (layers.made_of syms.now.symbols (seen_row row)) (elements (object_of heap.now d))))) }
{
    match elements(heap, d) {
        None => Ok(Looked::Bad(ExpandFault::BadShape { head })),
        Some(left) => match made_of(alloc, heap, syms, row, left)? {
            None => Ok(Looked::Bad(ExpandFault::BadShape { head })),
            Some(made) => match made {
                Made::Stays(found) => Ok(Looked::Stands(found)),
                Made::Again(_) => Ok(Looked::Bad(ExpandFault::BadShape { head })),
            },
        },
    }
}

/// A form whose head is a symbol.
fn look_headed<'a>(
    alloc: Global,
    heap: &Heap,
    syms: &Symbols,
    world: &'a World,
    limits: Limits,
    head: SymId,
    d: Word,
) -> Result<Looked<'a>, AllocError>
    requires world { WorldLies heap.now world.now }
    requires word { Lies heap.now d }
    ensures { IfOk result (λ l. StandsLook heap.now world.now l (expansion.headed_look (setting_at heap.now world.now syms.now limits.steps limits.depth) syms.now.symbols head.0 (object_of heap.now d) (layers.core_row head.0))) }
{
    match core_row(head) {
        Some(row) => {
            let looked = look_core(alloc, heap, syms, world, head, row, d)?;
            Ok(looked)
        }
        None => match macro_row(head) {
            Some(row) => Ok(Looked::Use(head, row, d)),
            None => {
                let looked = look_defined(alloc, heap, world, head, d)?;
                Ok(looked)
            }
        },
    }
}

/// The value of a constant's name, else the variable.
fn variable_or(
    _heap: &Heap,
    _syms: &Symbols,
    _world: &World,
    _limits: Limits,
    s: SymId,
    definition: &Definition,
) -> Ready
    ensures is { seen_ready _heap.now result ≡ expansion.variable_or (setting_at _heap.now _world.now _syms.now _limits.steps _limits.depth) s.0 (Some (seen_definition _heap.now definition.now)) }
    ensures reach { ready_reach result ≤ definition_reach definition.now }
{
    match definition {
        Definition::Constant { value, .. } => Ready::Constant(*value),
        Definition::Macro(_) => Ready::Variable(s),
        Definition::Primitive { .. } => Ready::Variable(s),
        Definition::Function(_) => Ready::Variable(s),
        Definition::Object { .. } => Ready::Variable(s),
        Definition::Generated(_) => Ready::Variable(s),
        Definition::Abstract(_) => Ready::Variable(s),
        Definition::OfAbstract(_) => Ready::Variable(s),
        Definition::Named { .. } => Ready::Variable(s),
        Definition::Signed { .. } => Ready::Variable(s),
    }
}

/// What a symbol stands for as a form.
fn look_symbol(heap: &Heap, syms: &Symbols, world: &World, limits: Limits, s: SymId) -> Ready
    requires { WorldLies heap.now world.now }
    ensures is { seen_ready heap.now result ≡ expansion.symbol_look (setting_at heap.now world.now syms.now limits.steps limits.depth) syms.now.symbols s.0 }
    ensures reach { ready_reach result ≤ length heap.now }
{
    if is_self_evaluating(syms, s) {
        return Ready::Constant(Word::Sym(s));
    }
    match definition_of(world, heap, s) {
        None => Ready::Variable(s),
        Some(definition) => variable_or(heap, syms, world, limits, s, definition),
    }
}

/// A pair.
fn look_pair<'a>(
    alloc: Global,
    heap: &Heap,
    syms: &Symbols,
    world: &'a World,
    limits: Limits,
    a: Word,
    d: Word,
) -> Result<Looked<'a>, AllocError>
    requires world { WorldLies heap.now world.now }
    requires head { Lies heap.now a }
    requires word { Lies heap.now d }
    ensures { IfOk result (λ l. StandsLook heap.now world.now l (expansion.list_look (setting_at heap.now world.now syms.now limits.steps limits.depth) syms.now.symbols (object_of heap.now a) (object_of heap.now d))) }
{
    match heap.look(a) {
        Seen::Symbol(head) => {
            let looked = look_headed(alloc, heap, syms, world, limits, head, d)?;
            Ok(looked)
        }
        Seen::Integer(_) => Ok(Looked::Bad(ExpandFault::BadShape { head: NIL })),
        Seen::Text(_) => Ok(Looked::Bad(ExpandFault::BadShape { head: NIL })),
        Seen::Pair(_, _) => Ok(Looked::Bad(ExpandFault::BadShape { head: NIL })),
    }
}

/// What is seen at the place of a form.
#[tactic(auto, unfolding(model_expansion::specs::Expansion::look_at))]
pub fn look_at<'a>(
    alloc: Global,
    heap: &Heap,
    syms: &Symbols,
    world: &'a World,
    limits: Limits,
    form: Word,
) -> Result<Looked<'a>, AllocError>
    requires world { WorldLies heap.now world.now }
    requires word { Lies heap.now form }
    ensures { IfOk result (λ l. StandsLook heap.now world.now l (expansion.look_at (setting_at heap.now world.now syms.now limits.steps limits.depth) syms.now.symbols (object_of heap.now form))) }
{
    match heap.look(form) {
        Seen::Pair(a, d) => {
            let looked = look_pair(alloc, heap, syms, world, limits, a, d)?;
            Ok(looked)
        }
        Seen::Symbol(s) => {
            let found = Found::Leaf(look_symbol(heap, syms, world, limits, s));
            Ok(Looked::Stands(found))
        }
        Seen::Integer(_) => Ok(Looked::Stands(Found::Leaf(Ready::Constant(form)))),
        Seen::Text(_) => Ok(Looked::Stands(Found::Leaf(Ready::Constant(form)))),
    }
}
