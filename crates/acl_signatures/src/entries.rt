//! How functions stand in a world before they are defined there.

ghost use Rattle.std.specs.Prelude.{◌≡◌, ◌++◌, ◌∷◌, [], length, map, IfOk, OnOk};
ghost use Rattle.model_events.specs.Functions.{before_rounds, ordinary_signature, signed};
ghost use Rattle.acl_terms.specs.Definitions.{seen_definition, seen_definitions};
ghost use Rattle.acl_terms.specs.Forms.{numbers};
ghost use Rattle.acl_terms.specs.Signatures.{seen_outs, seen_signature};
ghost use Rattle.acl_outputs.specs.Known.{seen_known};
ghost use Rattle.acl_signatures.specs.Candidates.{seen_candidate, seen_candidates, ordinary_kinds, signature_by};

use acl_base::SymId;
use acl_check::Member;
use acl_heap::Heap;
use acl_outputs::known_signature;
use acl_terms::{Definition, Out, Signature};
use sqlite_items::Items;
use std::alloc::{AllocError, Global};

/// As many ordinary kinds as there are names.
#[tactic(auto, using(crate::proofs::EntryLemmas::kinds_step, crate::proofs::EntryLemmas::kinds_end, acl_outputs::proofs::ListLemmas::outs_push))]
fn ordinary_kinds(alloc: Global, formals: &[SymId]) -> Result<Items<Out>, AllocError>
    ensures { IfOk result (λ ks. seen_outs ks ≡ ordinary_kinds (numbers formals.now)) }
{
    let mut kinds = Items::new(alloc);
    for _formal in formals {
        kinds.push(Out::Ordinary)?;
    }
    Ok(kinds)
}

/// The signature of a function of which all is ordinary.
fn ordinary_signature(alloc: Global, formals: &[SymId]) -> Result<Signature, AllocError>
    ensures { IfOk result (λ s. seen_signature s ≡ ordinary_signature (numbers formals.now)) }
{
    let ins = ordinary_kinds(alloc, formals)?;
    let outs = Items::from_slice(alloc, &[Out::Ordinary])?;
    Ok(Signature { ins, outs })
}

/// The signature that is known of a name, else one of which all is ordinary.
#[tactic(auto, using(crate::proofs::EntryLemmas::by_known, crate::proofs::EntryLemmas::by_none))]
pub fn signature_by(
    alloc: Global,
    known: &[(SymId, Signature)],
    name: SymId,
    formals: &[SymId],
) -> Result<Signature, AllocError>
    ensures { IfOk result (λ s. seen_signature s ≡ signature_by (seen_known known.now) name.0 (numbers formals.now)) }
{
    match known_signature(known, name) {
        Some(signature) => {
            let ins = Items::from_slice(alloc, signature.ins.as_slice())?;
            let outs = Items::from_slice(alloc, signature.outs.as_slice())?;
            Ok(Signature { ins, outs })
        }
        None => {
            let signature = ordinary_signature(alloc, formals)?;
            Ok(signature)
        }
    }
}

/// A function as it stands before the rounds: by its name where it runs, else with a signature of which all is ordinary.
fn entry_before(
    alloc: Global,
    _heap: &Heap,
    member: &Member,
    executable: bool,
) -> Result<Definition, AllocError>
    ensures { IfOk result (λ d. seen_definition _heap.now d ≡ before_rounds (seen_candidate _heap.now member.now executable)) }
{
    let name = member.name;
    let formals = Items::from_slice(alloc, member.formals.as_slice())?;
    if executable {
        Ok(Definition::Named { name, formals })
    } else {
        let signature = ordinary_signature(alloc, member.formals.as_slice())?;
        Ok(Definition::Signed {
            name,
            formals,
            signature,
            executable,
        })
    }
}

/// A function as it stands with its signature.
fn entry_signed(
    alloc: Global,
    _heap: &Heap,
    known: &[(SymId, Signature)],
    member: &Member,
    executable: bool,
) -> Result<Definition, AllocError>
    ensures { IfOk result (λ d. seen_definition _heap.now d ≡ signed (seen_known known.now) (seen_candidate _heap.now member.now executable)) }
{
    let name = member.name;
    let formals = Items::from_slice(alloc, member.formals.as_slice())?;
    let signature = signature_by(alloc, known, name, member.formals.as_slice())?;
    Ok(Definition::Signed {
        name,
        formals,
        signature,
        executable,
    })
}

/// Puts a definition last.
#[tactic(auto, using(crate::proofs::EntryLemmas::entries_push))]
fn add_entry(
    _heap: &Heap,
    entries: &mut Vec<Definition>,
    entry: Definition,
) -> Result<(), AllocError>
    ensures { OnOk result (seen_definitions _heap.now entries.new.items ≡ seen_definitions _heap.now entries.old.items ++ seen_definition _heap.now entry ∷ []) }
{
    entries.push(entry)?;
    Ok(())
}

/// Functions as they stand before the rounds, in their order. An answer other than Ok is want of memory.
pub fn entries_before(
    alloc: Global,
    heap: &Heap,
    members: &[Member],
    executable: &[bool],
) -> Result<Vec<Definition>, AllocError>
    requires { length executable.now ≡ length members.now }
    ensures { IfOk result (λ ds. seen_definitions heap.now ds.items ≡ map before_rounds (seen_candidates heap.now members.now executable.now)) }
{
    let mut entries = Vec::new(alloc);
    for (n, member) in members.iter().enumerate() {
        let entry = entry_before(alloc, heap, member, executable[n])?;
        add_entry(heap, &mut entries, entry)?;
    }
    Ok(entries)
}

/// Functions as they stand with their signatures, in their order. An answer other than Ok is want of memory.
pub fn entries_signed(
    alloc: Global,
    heap: &Heap,
    known: &[(SymId, Signature)],
    members: &[Member],
    executable: &[bool],
) -> Result<Vec<Definition>, AllocError>
    requires { length executable.now ≡ length members.now }
    ensures { IfOk result (λ ds. seen_definitions heap.now ds.items ≡ map (signed (seen_known known.now)) (seen_candidates heap.now members.now executable.now)) }
{
    let mut entries = Vec::new(alloc);
    for (n, member) in members.iter().enumerate() {
        let entry = entry_signed(alloc, heap, known, member, executable[n])?;
        add_entry(heap, &mut entries, entry)?;
    }
    Ok(entries)
}
