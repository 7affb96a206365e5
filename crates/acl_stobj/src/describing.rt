//! The descriptor of a stobj whose definition was read: its names, in the order in which they are made.

ghost use Rattle.std.specs.Prelude.{◌≡◌, ◌≤◌, ◌<◌, ◌∷◌, [], length, map, IfOk, IfErr};
ghost use Rattle.model_symbols.specs.Growth.{Extends};
ghost use Rattle.model_stobjs.specs.Descriptors.{stobj_makings};
ghost use Rattle.acl_terms.specs.Definitions.{descriptor_reach};
ghost use Rattle.acl_terms.specs.Signatures.{seen_name};
ghost use Rattle.acl_stobj_read.specs.Written.{seen_renaming};
ghost use Rattle.acl_stobj_written.specs.Fields.{seen_shaped, shapes_reach};
ghost use Rattle.acl_stobj.specs.Texts.{own_makings};
ghost use Rattle.acl_stobj.specs.Renames.{AreOld, Renames};
ghost use Rattle.acl_stobj.specs.Making.{AreMade, UnmadeBy};
ghost use Rattle.acl_stobj.specs.Fields.{AreNamed};
ghost use Rattle.acl_stobj.specs.Described.{Describes};

use crate::fields::make_fields;
use crate::making::{Unmade, make_name};
use crate::renames::first_renamed;
use crate::texts::Purpose;
use acl_base::SymId;
use acl_heap::Heap;
use acl_stobj_written::ShapedField;
use acl_syms::Symbols;
use acl_terms::Descriptor;
use indexmap::IndexMap;
use std::alloc::Global;

/// The names of a stobj's recognizer and of its creator.
#[tactic(auto, using(crate::proofs::OwnLemmas::own_made, crate::proofs::OwnLemmas::own_first, crate::proofs::OwnLemmas::own_second, crate::proofs::RenameLemmas::later, model_symbols::proofs::TableLemmas::table_growth))]
fn make_own(
    alloc: Global,
    syms: &mut Symbols,
    renaming: &[(SymId, SymId)],
    first: &IndexMap<u32, u32>,
    name: SymId,
) -> Result<(SymId, SymId), Unmade>
    requires known { name.0 < length syms.old.symbols }
    requires renames { Renames (length syms.old.symbols) (seen_renaming renaming.now) first.now }
    ensures grows { Extends syms.old syms.new }
    ensures packages { syms.new.packages ≡ syms.old.packages }
    ensures ok { IfOk result (λ r. AreMade syms.old.packages (seen_renaming renaming.now) (own_makings syms.old.symbols name.0) syms.old.symbols (r.0.0 ∷ (r.1.0 ∷ [])) syms.new.symbols) }
    ensures err { IfErr result (UnmadeBy syms.old.packages (seen_renaming renaming.now) (own_makings syms.old.symbols name.0) syms.old.symbols syms.new.symbols) }
{
    match make_name(alloc, syms, renaming, first, name, Purpose::Recognizer) {
        Err(unmade) => Err(unmade),
        Ok(recognizer) => match make_name(alloc, syms, renaming, first, name, Purpose::Creator) {
            Err(unmade) => Err(unmade),
            Ok(creator) => Ok((recognizer, creator)),
        },
    }
}

/// The descriptor of a stobj of this name and of these fields, its names made one after another.
#[tactic(auto, using(crate::proofs::OwnLemmas::all_made_of, crate::proofs::OwnLemmas::all_first, crate::proofs::OwnLemmas::all_second, crate::proofs::OwnLemmas::none_yet, crate::proofs::OwnLemmas::still_named, crate::proofs::RenameLemmas::later, model_symbols::proofs::TableLemmas::table_growth))]
pub fn describe(
    alloc: Global,
    syms: &mut Symbols,
    heap: &Heap,
    renaming: &[(SymId, SymId)],
    name: SymId,
    fields: &[ShapedField],
    congruent_to: Option<SymId>,
) -> Result<Descriptor, Unmade>
    requires known { name.0 < length syms.old.symbols }
    requires renaming { AreOld (length syms.old.symbols) (seen_renaming renaming.now) }
    requires named { AreNamed (length syms.old.symbols) fields.now }
    requires reach { shapes_reach fields.now ≤ length heap.now }
    ensures grows { Extends syms.old syms.new }
    ensures packages { syms.new.packages ≡ syms.old.packages }
    ensures ok { IfOk result (λ d. Describes syms.old syms.new heap.now (seen_renaming renaming.now) name.0 (seen_shaped heap.now fields.now) (seen_name congruent_to) d) }
    ensures reach { IfOk result (λ d. descriptor_reach d ≤ length heap.now) }
    ensures err { IfErr result (UnmadeBy syms.old.packages (seen_renaming renaming.now) (stobj_makings syms.old.symbols name.0 (seen_shaped heap.now fields.now)) syms.old.symbols syms.new.symbols) }
{
    let first = first_renamed(alloc, renaming, syms)?;
    let own = make_own(alloc, syms, renaming, &first, name)?;
    match make_fields(alloc, syms, heap, renaming, &first, fields) {
        Err(unmade) => Err(unmade),
        Ok(fields) => Ok(Descriptor {
            name,
            recognizer: own.0,
            creator: own.1,
            fields,
            congruent_to,
        }),
    }
}
