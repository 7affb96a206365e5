//! Places by their keys.
ghost use Rattle.std.specs.Prelude.{◌≡◌, ◌<◌, ◌^◌, length, Some, None, IsSome, IfOk, OnOk, OnErr};
ghost use Rattle.std.specs.Option.{option_map};
ghost use Rattle.acl_maps.specs.Cells.{place_at, Changes};

use crate::entry::OwnedEntry;
use acl_hash::Key;
use std::alloc::AllocError;
use std::collections::HashMap;
use std::mem::replace;

pub(crate) type Places = HashMap<Key, Option<OwnedEntry>>;

/// Puts an entry at the key, and hands out its place.
pub(crate) fn put_at(
    places: &mut Places,
    k: Key,
    e: OwnedEntry,
) -> Result<Option<Option<OwnedEntry>>, AllocError>
    ensures was { IfOk result (λ p. p ≡ place_at places.old.entries k) }
    ensures changes { OnOk result (Changes places.old.entries places.new.entries k (Some (Some e))) }
    ensures refused { OnErr result (places.new.entries ≡ places.old.entries) }
    ensures few { length places.old.entries < 2 ^ 63 }
{
    let _count = places.len();
    match places.insert(k, Some(e)) {
        Ok(old) => Ok(old),
        Err(_) => Err(AllocError),
    }
}

/// Leaves a hole in the place of the key, if it has one, and hands out what stood there.
#[tactic(auto, using(crate::proofs::CellLemmas::empties_nothing))]
pub(crate) fn empty_at(places: &mut Places, k: &Key) -> Option<Option<OwnedEntry>>
    ensures was { result ≡ place_at places.old.entries k.now }
    ensures changes { Changes places.old.entries places.new.entries k.now (option_map (λ p. None) (place_at places.old.entries k.now)) }
{
    match places.get_mut(k) {
        Some(place) => Some(replace(place, None)),
        None => None,
    }
}

/// Puts something into the place of the key.
pub(crate) fn set_at(
    places: &mut Places,
    k: &Key,
    e: Option<OwnedEntry>,
) -> Option<Option<OwnedEntry>>
    requires { IsSome (place_at places.old.entries k.now) }
    ensures was { result ≡ place_at places.old.entries k.now }
    ensures changes { Changes places.old.entries places.new.entries k.now (Some e) }
    ensures few { length places.old.entries < 2 ^ 63 }
{
    let _count = places.len();
    match places.get_mut(k) {
        Some(place) => Some(replace(place, e)),
        None => unreachable!(),
    }
}

/// Takes the place of the key away.
pub(crate) fn remove_at(places: &mut Places, k: &Key) -> Option<Option<OwnedEntry>>
    ensures was { result ≡ place_at places.old.entries k.now }
    ensures changes { Changes places.old.entries places.new.entries k.now None }
    ensures few { length places.old.entries < 2 ^ 63 }
{
    let _count = places.len();
    places.remove(k)
}
