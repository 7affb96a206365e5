// The limit on the bytes of a form.

ghost use Rattle.std.specs.Prelude.{◌≡◌, ℕ, ◌+◌, ◌-◌, ◌<◌, ◌≤◌, [], ◌∷◌, ◌++◌, length, true, false, IfErr, OnOk};
ghost use Rattle.model_text.specs.Next.{is_free, is_comment, first_of, has_room, goes_on};
ghost use Rattle.model_text.specs.declared.TextCause.TheVariants.{FormTooLong};
ghost use Rattle.acl_read_scan.specs.Built.{inside_of, least_at, state_at, IsBuilt};
ghost use Rattle.acl_read_scan.specs.Scanning.{Does};

use crate::{Built, Inside, Progress, TextCause, TextFault};
use acl_syms::Symbols;

const MOST_BYTES: u64 = 1_048_576;

fn is_free(inside: Inside) -> bool
    ensures { result ≡ is_free (inside_of inside) }
{
    match inside {
        Inside::Free => true,
        _ => false,
    }
}

fn is_comment(inside: Inside) -> bool
    ensures { result ≡ is_comment (inside_of inside) }
{
    match inside {
        Inside::Line | Inside::Block(_) | Inside::BlockHash(_) | Inside::BlockBar(_) => true,
        _ => false,
    }
}

/// Where the outermost form begins, if the next byte belongs to it, and whether it has room for the byte.
#[derive(Clone, Copy)]
pub struct Room {
    pub first: u64,
    pub is_there: bool,
}

/// The room for the byte at this offset.
#[tactic(auto, using(crate::proofs::BuiltLemmas::open_count))]
pub fn room_at(built: &Built, syms: &Symbols, at: u64) -> Room
    requires { IsBuilt syms.now built.now }
    ensures first { result.first ≡ first_of (state_at syms.now built.now) }
    ensures there { result.is_there ≡ has_room (state_at syms.now built.now) at }
{
    let _ = syms;
    let outside = built.frames.is_empty();
    let idle = outside && built.token.is_empty() && is_free(built.inside);
    let first = if idle { built.at } else { built.first };
    let loose = outside && is_comment(built.inside);
    Room {
        first,
        is_there: loose || at.saturating_sub(first) < MOST_BYTES,
    }
}

/// The byte at this offset is taken, if there is room for it.
pub fn count(built: &mut Built, room: Room, inside: Inside, at: u64) -> Result<(), TextFault>
    requires { at < 67108864 }
    ensures ok { OnOk result ((room.is_there ≡ true) × (built.new ≡ record built.old { inside = inside; at = at + 1; first = room.first })) }
    ensures fault { IfErr result (λ e. (e.cause ≡ FormTooLong) × (e.offset ≡ at) × (room.is_there ≡ false)) }
{
    if !room.is_there {
        return Err(TextFault {
            cause: TextCause::FormTooLong,
            offset: at,
        });
    }
    built.inside = inside;
    built.at = at + 1;
    built.first = room.first;
    Ok(())
}

/// The byte only goes on with what has begun.
pub fn go_on(built: &mut Built, syms: &Symbols, inside: Inside) -> Result<Progress, TextFault>
    requires built { IsBuilt syms.now built.old }
    requires within { built.old.at < 67108864 }
    requires deep { least_at inside ≤ built.old.at + 1 }
    ensures does { Does syms.now built.new (goes_on (inside_of inside) built.old.token.items (state_at syms.now built.old)) result }
    ensures at { OnOk result (built.new.at ≡ built.old.at + 1) }
{
    let at = built.at;
    let room = room_at(built, syms, at);
    count(built, room, inside, at)?;
    Ok(Progress::Going)
}

/// The byte only goes on, and no token has begun behind it.
pub fn go_on_bare(built: &mut Built, syms: &Symbols, inside: Inside) -> Result<Progress, TextFault>
    requires built { IsBuilt syms.now built.old }
    requires within { built.old.at < 67108864 }
    requires deep { least_at inside ≤ built.old.at + 1 }
    ensures does { Does syms.now built.new (goes_on (inside_of inside) [] (state_at syms.now built.old)) result }
    ensures at { OnOk result (built.new.at ≡ built.old.at + 1) }
{
    let at = built.at;
    let room = room_at(built, syms, at);
    count(built, room, inside, at)?;
    built.token.clear();
    Ok(Progress::Going)
}

/// The byte goes on with the token, which takes it.
pub fn go_on_with(
    built: &mut Built,
    syms: &Symbols,
    inside: Inside,
    byte: u8,
) -> Result<Progress, TextFault>
    requires built { IsBuilt syms.now built.old }
    requires within { built.old.at < 67108864 }
    requires deep { least_at inside ≤ built.old.at + 1 }
    ensures does { Does syms.now built.new (goes_on (inside_of inside) (built.old.token.items ++ byte ∷ []) (state_at syms.now built.old)) result }
    ensures at { OnOk result (built.new.at ≡ built.old.at + 1) }
{
    let at = built.at;
    let room = room_at(built, syms, at);
    count(built, room, inside, at)?;
    built.token.push(byte)?;
    Ok(Progress::Going)
}
