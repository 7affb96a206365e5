//! How many cells places take.
ghost use Rattle.std.specs.Prelude.{◌≡◌, ◌+◌, Some};
ghost use Rattle.std.specs.List.{IsDistinct};
ghost use Rattle.std.specs.Map.{keys_of};
ghost use Rattle.model_lists.specs.Normal.{pair_cells};
ghost use Rattle.acl_hash.specs.Same.{same_key};
ghost use Rattle.acl_owned.specs.Owned.{IsSum};
ghost use Rattle.acl_maps.specs.Held.{own_cells};
ghost use Rattle.acl_maps.specs.Listing.{listed};

use crate::entry::OwnedEntry;
use crate::places::Places;

/// The cells of a place.
pub(crate) fn cells_of(place: &Option<Option<OwnedEntry>>) -> u64
    ensures { result ≡ own_cells place.now }
{
    match place {
        Some(Some(e)) => e.cells(),
        Some(None) => 0,
        None => 0,
    }
}

// The cells of an entry, if there is one.
fn entry_cells(place: &Option<OwnedEntry>) -> u64
    ensures { result ≡ own_cells (Some place.now) }
{
    match place {
        Some(e) => e.cells(),
        None => 0,
    }
}

/// The cells of all places, beside so many others.
#[tactic(auto, using(crate::proofs::HeldLemmas::count_over, crate::proofs::HeldLemmas::count_ends))]
pub(crate) fn count_entries(places: &Places, start: u64) -> Option<u64>
    ensures distinct { IsDistinct same_key (keys_of places.now.entries) }
    ensures sum { IsSum result (start + pair_cells (listed places.now.entries)) }
{
    let mut total = start;
    for (_key, place) in places.iter() {
        match total.checked_add(entry_cells(place)) {
            Some(sum) => total = sum,
            None => return None,
        }
    }
    Some(total)
}
