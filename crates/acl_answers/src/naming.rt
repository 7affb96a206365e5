//! The names of an object's functions.

ghost use Rattle.std.specs.Prelude.{◌≡◌, ◌<◌, ◌++◌, ◌∷◌, [], length, map, IfOk, IfSome, OnErr, IsErrOf, Some, None, codes, ◌||◌, if◌then◌else◌};
ghost use Rattle.std.specs.Option.{option_map};
ghost use Rattle.model_symbols.specs.Symbols.{Table, symbol_at};
ghost use Rattle.model_symbols.specs.Growth.{Extends};
ghost use Rattle.model_output_so_far.specs.Events as events;
ghost use Rattle.acl_commands.specs.Views.{field_views};
ghost use Rattle.acl_commands.specs.Whole as commands;
ghost use Rattle.acl_answers.specs.Views.{name_of, names_of, fields_view};
ghost use Rattle.acl_answers.specs.Whole.{IsKnown, AreKnown, AreKnownFields};
ghost use Rattle.acl_answers.specs.Making.{Makes, IsFull, HasFields};
ghost use Rattle.std.specs.Str.{bytes_eq};
ghost use Rattle.model_symbols.specs.Opening.{common_lisp, keyword, hidden};

use crate::reserved::is_reserved;
use crate::stobj::Field;
use acl_base::SymId;
use acl_commands::{NewField, home};
use acl_syms::{SymFault, Symbols};
use std::alloc::{AllocError, AllocFailed, Global};

/// Why a name was not made.
#[derive(Clone, Copy, Debug, PartialEq, Eq)]
pub enum Unmade {
    /// There are as many symbols as there may be.
    Full,
    Memory,
}

impl From<AllocError> for Unmade {
    ghost use Rattle.acl_answers.specs.declared.naming.Unmade.TheVariants.{Memory};

    ghost from_gives = { λ _ e. e ≡ Memory };

    fn from(_: AllocError) -> Self {
        Unmade::Memory
    }
}

impl<T: Drop> From<AllocFailed<T>> for Unmade {
    ghost use Rattle.acl_answers.specs.declared.naming.Unmade.TheVariants.{Memory};

    ghost from_gives = { λ _ e. e ≡ Memory };

    fn from(_: AllocFailed<T>) -> Self {
        Unmade::Memory
    }
}

/// The new names of an object's functions in their order, and its fields.
#[derive(Debug, Drop)]
pub struct Made {
    pub names: Vec<SymId>,
    pub fields: Vec<Field>,
}

/// A symbol's name between two texts.
fn name_between(
    alloc: Global,
    syms: &Symbols,
    before: &[u8],
    s: SymId,
    behind: &[u8],
) -> Result<Vec<u8>, AllocError>
    requires { IsKnown syms.now s }
    ensures { IfOk result (λ name. name.items ≡ before.now ++ ((name_of syms.now s).name ++ behind.now)) }
{
    let mut name = Vec::from_slice(alloc, before)?;
    name.extend_from_slice(syms.name(s))?;
    name.extend_from_slice(behind)?;
    Ok(name)
}

/// The symbol of a name in the package of another symbol, which becomes known.
#[tactic(auto, using(crate::proofs::MakingLemmas::made_one, crate::proofs::MakingLemmas::full_one))]
fn intern_beside(syms: &mut Symbols, s: SymId, name: &[u8]) -> Result<SymId, Unmade>
    requires known { IsKnown syms.old s }
    ensures ok { IfOk result (λ id. Makes syms.old syms.new (events.beside syms.old.packages (name_of syms.old s) name.now ∷ []) (id ∷ [])) }
    ensures full { IsErrOf result Unmade.Full → IsFull syms.old syms.new (events.beside syms.old.packages (name_of syms.old s) name.now ∷ []) }
    ensures err { OnErr result (syms.new ≡ syms.old) }
{
    let p = syms.package(s);
    match syms.intern_in(p, name) {
        Ok(id) => Ok(id),
        Err(SymFault::TooMany) => Err(Unmade::Full),
        Err(SymFault::Memory) => Err(Unmade::Memory),
        Err(SymFault::UnknownPackage) => unreachable!(),
        Err(SymFault::PackageExists) => unreachable!(),
        Err(
            SymFault::ImportClash {
                first: _,
                second: _,
            },
        ) => unreachable!(),
    }
}

/// The functions of a field, beside the one that reads it: its recognizer, and the one that updates it.
#[tactic(auto, using(crate::proofs::MakingLemmas::field_full, crate::proofs::MakingLemmas::updater_full))]
fn make_field(alloc: Global, syms: &mut Symbols, f: SymId) -> Result<(SymId, SymId), Unmade>
    requires known { IsKnown syms.old f }
    ensures ok { IfOk result (λ made. Makes syms.old syms.new (events.field_names syms.old.packages (name_of syms.old f)) (made.0 ∷ f ∷ made.1 ∷ [])) }
    ensures full { IsErrOf result Unmade.Full → IsFull syms.old syms.new (events.field_names syms.old.packages (name_of syms.old f)) }
    ensures grows { Extends syms.old syms.new }
    ensures packages { syms.new.packages ≡ syms.old.packages }
{
    let recognizer_name = name_between(alloc, syms, b"", f, b"P")?;
    let updater_name = name_between(alloc, syms, b"UPDATE-", f, b"")?;
    let recognizer = intern_beside(syms, f, recognizer_name.as_slice())?;
    syms.is_table();
    let updater = intern_beside(syms, f, updater_name.as_slice())?;
    Ok((recognizer, updater))
}

/// The functions of an object: its recognizer, and its creator.
#[tactic(auto, using(crate::proofs::MakingLemmas::object_full, crate::proofs::MakingLemmas::creator_full))]
fn make_object(alloc: Global, syms: &mut Symbols, s: SymId) -> Result<(SymId, SymId), Unmade>
    requires known { IsKnown syms.old s }
    ensures ok { IfOk result (λ made. Makes syms.old syms.new (name_of syms.old s ∷ events.recognizer syms.old.packages (name_of syms.old s) ∷ events.creator syms.old.packages (name_of syms.old s) ∷ []) (s ∷ made.0 ∷ made.1 ∷ [])) }
    ensures full { IsErrOf result Unmade.Full → IsFull syms.old syms.new (name_of syms.old s ∷ events.recognizer syms.old.packages (name_of syms.old s) ∷ events.creator syms.old.packages (name_of syms.old s) ∷ []) }
    ensures grows { Extends syms.old syms.new }
    ensures packages { syms.new.packages ≡ syms.old.packages }
{
    syms.is_table();
    let recognizer_name = name_between(alloc, syms, b"", s, b"P")?;
    let creator_name = name_between(alloc, syms, b"CREATE-", s, b"")?;
    let recognizer = intern_beside(syms, s, recognizer_name.as_slice())?;
    let creator = intern_beside(syms, s, creator_name.as_slice())?;
    Ok((recognizer, creator))
}

// ---- which names may be taken

/// Whether a name has the shape of a constant's: at least three bytes that begin and end with `*`.
fn has_constant_shape(name: &[u8]) -> bool
    ensures { result ≡ events.has_constant_shape name.now }
{
    name.len() >= 3 && (name[0] == b'*' && name[name.len() - 1] == b'*')
}

/// Whether nobody may define the symbols of a package of this name.
fn is_closed(home: &[u8]) -> bool
    ensures { result ≡ (bytes_eq home.now common_lisp || (bytes_eq home.now keyword || bytes_eq home.now hidden)) }
{
    home == b"COMMON-LISP".as_slice() || (home == b"KEYWORD".as_slice() || home == b"%".as_slice())
}

/// Whether a symbol may name an object or a field.
fn may_name(syms: &Symbols, s: SymId) -> bool
    requires { IsKnown syms.now s }
    ensures { result ≡ events.may_name (name_of syms.now s) }
{
    !is_closed(home(syms, s)) && !has_constant_shape(syms.name(s))
}

fn first_bad_field(fields: &[NewField], syms: &Symbols) -> Option<SymId>
    requires { commands.AreKnownFields syms.now fields.now }
    ensures is { option_map (name_of syms.now) result ≡ events.first_bad (events.names_of (field_views syms.now fields.now)) }
    ensures known { IfSome result (IsKnown syms.now) }
{
    for field in fields {
        if !may_name(syms, field.name) {
            return Some(field.name);
        }
    }
    None
}

/// The first of the names of an object and its fields that they cannot have.
pub fn first_bad(object: SymId, fields: &[NewField], syms: &Symbols) -> Option<SymId>
    requires object { IsKnown syms.now object }
    requires fields { commands.AreKnownFields syms.now fields.now }
    ensures is { option_map (name_of syms.now) result ≡ events.first_bad (name_of syms.now object ∷ events.names_of (field_views syms.now fields.now)) }
    ensures known { IfSome result (IsKnown syms.now) }
{
    if may_name(syms, object) {
        first_bad_field(fields, syms)
    } else {
        Some(object)
    }
}

/// The name, where it is in use, before another that is.
fn before(name: SymId, is_in_use: bool, later: Option<SymId>) -> Option<SymId>
    ensures { result ≡ (if is_in_use then Some name else later) }
{
    if is_in_use { Some(name) } else { later }
}

/// The first name that is taken, or that comes again.
pub fn first_in_use(
    alloc: Global,
    names: &[SymId],
    syms: &Symbols,
) -> Result<Option<SymId>, AllocError>
    requires { AreKnown syms.now names.now }
    ensures is { IfOk result (λ found. option_map (name_of syms.now) found ≡ events.first_in_use (names_of syms.now names.now)) }
    ensures known { IfOk result (λ found. IfSome found (IsKnown syms.now)) }
{
    syms.is_table();
    let mut comes_later = vec![in alloc; false; syms.count() as usize]?;
    let mut found = None;
    let mut left = names.len();
    while left > 0 {
        left -= 1;
        let name = names[left];
        let is_in_use = is_reserved(syms, name) | comes_later[name.0 as usize];
        found = before(name, is_in_use, found);
        comes_later[name.0 as usize] = true;
    }
    Ok(found)
}

// ---- all names of a definition

/// The names of an object's functions and of its fields', all of which become known.
pub fn new_names(
    alloc: Global,
    syms: &mut Symbols,
    object: SymId,
    fields: &[NewField],
) -> Result<Made, Unmade>
    requires object { IsKnown syms.old object }
    requires fields { commands.AreKnownFields syms.old fields.now }
    ensures ok { IfOk result (λ made. Makes syms.old syms.new (events.new_names syms.old.packages (name_of syms.old object) (events.names_of (field_views syms.old fields.now))) made.names.items) }
    ensures fields { IfOk result (λ made. HasFields syms.new (field_views syms.new fields.now) made.fields.items) }
    ensures full { IsErrOf result Unmade.Full → IsFull syms.old syms.new (events.new_names syms.old.packages (name_of syms.old object) (events.names_of (field_views syms.old fields.now))) }
    ensures grows { Extends syms.old syms.new }
    ensures packages { syms.new.packages ≡ syms.old.packages }
{
    let (recognizer, creator) = make_object(alloc, syms, object)?;
    let mut names = Vec::new(alloc);
    names.push(object)?;
    names.push(recognizer)?;
    names.push(creator)?;
    let mut made = Vec::new(alloc);
    for field in fields {
        let (recognizer, updater) = make_field(alloc, syms, field.name)?;
        names.push(recognizer)?;
        names.push(field.name)?;
        names.push(updater)?;
        made.push(Field {
            name: field.name,
            updater,
        })?;
    }
    Ok(Made {
        names,
        fields: made,
    })
}
