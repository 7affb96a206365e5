//! The definitions of functions.

ghost use Rattle.std.specs.Prelude.{◌≡◌, ◌++◌, ◌∷◌, [], length, Some, IfOk, OnOk};
ghost use Rattle.model_events.specs.Functions.{defined};
ghost use Rattle.acl_terms.specs.Definitions.{seen_definition, definition_reach};
ghost use Rattle.acl_outputs.specs.Known.{seen_known};
ghost use Rattle.acl_signatures.specs.Candidates.{seen_candidate, seen_candidates};
ghost use Rattle.acl_cliques.specs.Entered.{terms_in, member_reach, AreDefined};

use acl_base::SymId;
use acl_check::Member;
use acl_heap::Heap;
use acl_signatures::signature_by;
use acl_terms::{Definition, Function, Signature};
use acl_translate::FunctionTerms;
use std::alloc::{AllocError, Global};

/// The definition of a function.
fn definition_of(
    alloc: Global,
    _heap: &Heap,
    known: &[(SymId, Signature)],
    member: Member,
    executable: bool,
    terms: FunctionTerms,
) -> Result<Definition, AllocError>
    ensures seen { IfOk result (λ d. seen_definition _heap.now d ≡ defined (seen_known known.now) (seen_candidate _heap.now member executable)) }
    ensures terms { IfOk result (λ d. terms_in d ≡ Some terms) }
    ensures reach { IfOk result (λ d. definition_reach d ≡ member_reach member) }
{
    let signature = signature_by(alloc, known, member.name, member.formals.as_slice())?;
    Ok(Definition::Function(Function {
        name: member.name,
        formals: member.formals,
        signature,
        guard: member.guard,
        body: member.body,
        guard_term: terms.guard,
        body_term: terms.body,
        executable,
    }))
}

/// Puts a definition last.
fn add_definition(
    definitions: &mut Vec<Definition>,
    definition: Definition,
) -> Result<(), AllocError>
    ensures { OnOk result (definitions.new.items ≡ definitions.old.items ++ definition ∷ []) }
{
    definitions.push(definition)?;
    Ok(())
}

/// The definitions of functions with these signatures and terms, in their order.
#[tactic(auto, using(crate::proofs::DefineLemmas::so_far_start))]
pub fn definitions_of(
    alloc: Global,
    heap: &Heap,
    known: &[(SymId, Signature)],
    members: Vec<Member>,
    executable: &[bool],
    terms: &[FunctionTerms],
) -> Result<Vec<Definition>, AllocError>
    requires same { length executable.now ≡ length members.items }
    requires terms { length terms.now ≡ length members.items }
    ensures { IfOk result (λ ds. AreDefined heap.now (seen_known known.now) (seen_candidates heap.now members.items executable.now) members.items terms.now ds.items) }
{
    let mut definitions = Vec::new(alloc);
    let mut n = 0usize;
    'members: for member in members {
        let definition = definition_of(alloc, heap, known, member, executable[n], terms[n])?;
        add_definition(&mut definitions, definition)?;
        n += 1;
    }
    Ok(definitions)
}
