//! Places by their keys.

ghost use Rattle.std.specs.Prelude.{◌≡◌, ◌+◌, ◌<◌, ◌^◌, Some, None, IsSome, OnOk, OnErr};
ghost use Rattle.std.specs.HashMap.{spare};
ghost use Rattle.acl_hash.specs.Places.{place_at, entry_at, entry_count, Changes, AreSame, tidied, is_hole};

use crate::{Entry, Key};
use std::alloc::AllocError;
use std::collections::HashMap;
use std::mem::replace;

pub(crate) type Places = HashMap<Key, Option<Entry>>;

/// Makes room for one more place.
pub(crate) fn make_room(places: &mut Places) -> Result<(), AllocError>
    ensures same { AreSame places.old.entries places.new.entries }
    ensures room { OnOk result (0 < spare places.new) }
{
    places.reserve(1)
}

/// Puts an entry at the key, for which there is room.
pub(crate) fn put_at(places: &mut Places, k: Key, e: Entry) -> Option<Entry>
    requires { 0 < spare places.old }
    ensures was { result ≡ entry_at places.old.entries k }
    ensures changes { Changes places.old.entries places.new.entries k (Some (Some e)) }
    ensures few { entry_count places.old.entries < 2 ^ 63 }
{
    let _count = places.len();
    match places.insert(k, Some(e)) {
        Ok(old) => old.flatten(),
        Err(_) => unreachable!(),
    }
}

/// Takes the place of the key away.
pub(crate) fn take_at(places: &mut Places, k: &Key) -> Option<Entry>
    ensures was { result ≡ entry_at places.old.entries k.now }
    ensures changes { Changes places.old.entries places.new.entries k.now None }
{
    places.remove(k).flatten()
}

/// Makes a place for the key, where it has none.
pub(crate) fn make_at(places: &mut Places, k: Key) -> Result<(), AllocError>
    ensures ok { OnOk result (Changes places.old.entries places.new.entries k (Some (entry_at places.old.entries k))) }
    ensures err { OnErr result (places.new.entries ≡ places.old.entries) }
{
    if !places.contains_key(&k) {
        places.insert(k, None)?;
    }
    Ok(())
}

/// Puts something else into the place of the key.
pub(crate) fn swap_at(places: &mut Places, k: &Key, e: Option<Entry>) -> Option<Entry>
    requires { IsSome (place_at places.old.entries k.now) }
    ensures was { result ≡ entry_at places.old.entries k.now }
    ensures changes { Changes places.old.entries places.new.entries k.now (Some e) }
    ensures few { entry_count places.old.entries < 2 ^ 63 }
{
    let _count = places.len();
    match places.get_mut(k) {
        Some(place) => replace(place, e),
        None => unreachable!(),
    }
}

fn is_empty_at(places: &Places, k: &Key) -> bool
    ensures { result ≡ is_hole (place_at places.now.entries k.now) }
{
    match places.get(k) {
        Some(Some(_)) => false,
        Some(None) => true,
        None => false,
    }
}

/// Takes the place of the key away, if it is empty.
pub(crate) fn tidy_at(places: &mut Places, k: &Key)
    ensures { Changes places.old.entries places.new.entries k.now (tidied (place_at places.old.entries k.now)) }
{
    if is_empty_at(places, k) {
        places.remove(k);
    }
}
