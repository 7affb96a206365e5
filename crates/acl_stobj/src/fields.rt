//! The names of the functions of fields.

ghost use Rattle.std.specs.Prelude.{◌≡◌, ◌≤◌, ◌<◌, ◌∷◌, [], ◌++◌, length, map, IfOk, IfErr, OnOk};
ghost use Rattle.model_symbols.specs.Growth.{Extends};
ghost use Rattle.model_stobjs.specs.Descriptors.{field_makings, made_count};
ghost use Rattle.acl_terms.specs.Definitions.{seen_shape, shape_reach};
ghost use Rattle.acl_terms.specs.Forms.{numbers};
ghost use Rattle.acl_stobj_read.specs.Written.{seen_renaming};
ghost use Rattle.acl_stobj_written.specs.Fields.{seen_shaped, shapes_reach};
ghost use Rattle.acl_stobj.specs.Texts.{makings_in, purposes_of};
ghost use Rattle.acl_stobj.specs.Renames.{Renames};
ghost use Rattle.acl_stobj.specs.Making.{AreMade, UnmadeBy};
ghost use Rattle.acl_stobj.specs.MadeFields.{made_reach, unnamed, names_in, AreCounted};
ghost use Rattle.acl_stobj.specs.Fields.{AreNamed};

use crate::making::{Unmade, make_names};
use crate::texts::Purpose;
use acl_base::SymId;
use acl_heap::Heap;
use acl_stobj_written::ShapedField;
use acl_syms::Symbols;
use acl_terms::{FieldDescriptor, Shape};
use indexmap::IndexMap;
use sqlite_items::Items;
use std::alloc::{AllocError, Global};

static ONE_VALUE: [Purpose; 3] = [Purpose::Recognizer, Purpose::Access, Purpose::Update];

static MANY_VALUES: [Purpose; 5] = [
    Purpose::Recognizer,
    Purpose::Length,
    Purpose::Resize,
    Purpose::Element,
    Purpose::UpdateElement,
];

static HASH_VALUES: [Purpose; 8] = [
    Purpose::Recognizer,
    Purpose::Get,
    Purpose::IsBound,
    Purpose::GetBound,
    Purpose::Put,
    Purpose::Remove,
    Purpose::Count,
    Purpose::Clear,
];

/// What the functions of a field are for, in their order.
fn purposes(_heap: &Heap, shape: Shape) -> &'static [Purpose]
    ensures { result.now ≡ purposes_of (seen_shape _heap.now shape) }
{
    match shape {
        Shape::Scalar { .. } => &ONE_VALUE,
        Shape::Array { .. } => &MANY_VALUES,
        Shape::Hash(_) => &HASH_VALUES,
        Shape::Child(_) => &ONE_VALUE,
        Shape::Children { .. } => &MANY_VALUES,
    }
}

/// A field with the names of its functions.
#[tactic(auto, using(crate::proofs::FieldLemmas::field_made, crate::proofs::FieldLemmas::field_unmade, crate::proofs::FieldLemmas::field_counted))]
fn make_field(
    alloc: Global,
    syms: &mut Symbols,
    heap: &Heap,
    renaming: &[(SymId, SymId)],
    first: &IndexMap<u32, u32>,
    field: &ShapedField,
) -> Result<FieldDescriptor, Unmade>
    requires known { field.now.written.name.0 < length syms.old.symbols }
    requires renames { Renames (length syms.old.symbols) (seen_renaming renaming.now) first.now }
    ensures grows { Extends syms.old syms.new }
    ensures packages { syms.new.packages ≡ syms.old.packages }
    ensures ok { IfOk result (λ d. AreMade syms.old.packages (seen_renaming renaming.now) (makings_in syms.old.symbols (field.now.written.name.0, seen_shape heap.now field.now.shape)) syms.old.symbols (numbers d.made) syms.new.symbols) }
    ensures field { IfOk result (λ d. unnamed heap.now d ≡ (field.now.written.name.0, seen_shape heap.now field.now.shape)) }
    ensures counted { IfOk result (λ d. length (numbers d.made) ≡ made_count (seen_shape heap.now d.shape)) }
    ensures reach { IfOk result (λ d. shape_reach d.shape ≡ shape_reach field.now.shape) }
    ensures err { IfErr result (UnmadeBy syms.old.packages (seen_renaming renaming.now) (makings_in syms.old.symbols (field.now.written.name.0, seen_shape heap.now field.now.shape)) syms.old.symbols syms.new.symbols) }
{
    let name = field.written.name;
    let made = make_names(
        alloc,
        syms,
        renaming,
        first,
        name,
        purposes(heap, field.shape),
    )?;
    Ok(FieldDescriptor {
        name,
        shape: field.shape,
        made,
    })
}

fn push_field(
    _heap: &Heap,
    all: &mut Items<FieldDescriptor>,
    field: FieldDescriptor,
) -> Result<(), AllocError>
    ensures { OnOk result (all.new ≡ all.old ++ field ∷ []) }
{
    all.push(field)?;
    Ok(())
}

/// Fields with the names of their functions, made one after another.
#[tactic(auto, using(crate::proofs::FieldLemmas::fields_start, crate::proofs::FieldLemmas::fields_more, crate::proofs::FieldLemmas::fields_fail, crate::proofs::FieldLemmas::fields_refused, crate::proofs::FieldLemmas::fields_end, crate::proofs::FieldLemmas::fields_named, crate::proofs::RenameLemmas::later, model_symbols::proofs::TableLemmas::table_growth))]
pub fn make_fields(
    alloc: Global,
    syms: &mut Symbols,
    heap: &Heap,
    renaming: &[(SymId, SymId)],
    first: &IndexMap<u32, u32>,
    fields: &[ShapedField],
) -> Result<Items<FieldDescriptor>, Unmade>
    requires known { AreNamed (length syms.old.symbols) fields.now }
    requires renames { Renames (length syms.old.symbols) (seen_renaming renaming.now) first.now }
    requires reach { shapes_reach fields.now ≤ length heap.now }
    ensures grows { Extends syms.old syms.new }
    ensures packages { syms.new.packages ≡ syms.old.packages }
    ensures ok { IfOk result (λ ds. AreMade syms.old.packages (seen_renaming renaming.now) (field_makings syms.old.symbols (seen_shaped heap.now fields.now)) syms.old.symbols (names_in ds) syms.new.symbols) }
    ensures fields { IfOk result (λ ds. map (unnamed heap.now) ds ≡ seen_shaped heap.now fields.now) }
    ensures counted { IfOk result (λ ds. AreCounted heap.now ds) }
    ensures reach { IfOk result (λ ds. made_reach ds ≤ length heap.now) }
    ensures err { IfErr result (UnmadeBy syms.old.packages (seen_renaming renaming.now) (field_makings syms.old.symbols (seen_shaped heap.now fields.now)) syms.old.symbols syms.new.symbols) }
{
    let mut made = Items::new(alloc);
    let mut rest = fields;
    'fields: while let Some((field, others)) = rest.split_first() {
        match make_field(alloc, syms, heap, renaming, first, field) {
            Err(unmade) => return Err(unmade),
            Ok(descriptor) => push_field(heap, &mut made, descriptor)?,
        }
        rest = others;
    }
    Ok(made)
}
