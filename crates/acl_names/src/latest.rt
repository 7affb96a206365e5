//! The last place of each name.

ghost use Rattle.std.specs.Prelude.{◌≡◌, nat_eq, Some, IsSome, OnOk, OnErr};
ghost use Rattle.std.specs.Map.{lookup};
ghost use Rattle.acl_names.specs.Fields.{Sets};

use std::alloc::AllocError;
use std::collections::HashMap;
use std::mem::replace;

pub type Latest = HashMap<u32, Option<usize>>;

/// A name has this place.
#[tactic(auto, using(crate::proofs::FieldLemmas::sets_put))]
pub fn put(latest: &mut Latest, name: u32, place: usize) -> Result<(), AllocError>
    ensures ok { OnOk result (Sets latest.old.entries latest.new.entries name (Some place)) }
    ensures err { OnErr result (latest.new.entries ≡ latest.old.entries) }
{
    latest.insert(name, Some(place))?;
    Ok(())
}

/// A name that had a place has another one, or none. It takes no memory.
pub fn put_back(latest: &mut Latest, name: u32, place: Option<usize>)
    requires { IsSome (lookup (nat_eq name) latest.old.entries) }
    ensures { Sets latest.old.entries latest.new.entries name place }
{
    match latest.get_mut(&name) {
        Some(old) => {
            replace(old, place);
        }
        None => unreachable!(),
    }
}
