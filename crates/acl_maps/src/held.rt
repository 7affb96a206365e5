//! What stood at a key.
ghost use Rattle.std.specs.Prelude.{◌≡◌};
ghost use Rattle.acl_maps.specs.Held.{place_cells};

use crate::counting::cells_of;
use crate::entry::OwnedEntry;
use acl_hash::Key;
use std::marker::Model;

/// What stood at a key: no place, a place without a value, or a place with one.
///
/// Contracts see the key, and the cell of the place if there was one.
#[derive(Drop)]
pub struct HeldPlace {
    pub(crate) key: Key,
    pub(crate) place: Option<Option<OwnedEntry>>,
}

impl Model for HeldPlace {
    ghost use Rattle.std.specs.Prelude.{ℕ, Option};
    ghost use Rattle.std.specs.Option.{option_map};
    ghost use Rattle.std.specs.Coded.{coded×, coded_option};
    ghost use Rattle.model_objects.specs.Object.{Object};
    ghost use Rattle.model_objects.specs.Stored.{object_code};
    ghost use Rattle.acl_maps.specs.Cells.{cell, HasKey};

    ghost Value = { Object ℕ × Option (Object ℕ) };

    ghost coded = { coded× object_code (coded_option object_code) };

    ghost view = { λ h. (h.key, option_map cell h.place) };

    ghost invariant = { λ h. HasKey h.key h.place };
}

impl HeldPlace {
    /// How many cells the key and its value take, where it had one.
    #[tactic(auto, using(crate::proofs::HeldLemmas::place_held))]
    pub fn cells(&self) -> u64
        ensures { result ≡ place_cells self.now }
    {
        cells_of(&self.place)
    }
}
