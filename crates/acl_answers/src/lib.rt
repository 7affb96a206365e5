//! What a command gives in a session: its line, its calls, and the session after it.
#![tactic(auto)]

ghost use Rattle.std.specs.Prelude.{◌≡◌, ◌<◌, length, IfOk, OnOk, OnErr};
ghost use Rattle.model_symbols.specs.Growth.{Extends};
ghost use Rattle.model_symbols.specs.Opening.{opening};
ghost use Rattle.model_output_so_far.specs.Running as running;
ghost use Rattle.acl_forms.specs.Forms.{Grown};
ghost use Rattle.acl_commands.specs.Views.{command_view};
ghost use Rattle.acl_commands.specs.Whole.{IsWholeCommand};
ghost use Rattle.acl_answers.specs.Views.{session_view};
ghost use Rattle.acl_answers.specs.Whole.{IsSession};
ghost use Rattle.acl_answers.specs.Answers.{Answers};

mod calls;
mod events;
mod lines;
mod naming;
mod primitives;
mod reserved;
mod stobj;

use acl_base::PkgId;
use acl_commands::Command;
use acl_heap::Heap;
use acl_syms::Symbols;
use calls::call;
use events::{define, enter};
use lines::{Refusal, refused};
use std::alloc::{AllocError, Global};
pub use stobj::{Field, Stobj};

/// What is kept between commands, beside heap and symbols: the current package, and the object, once there is one.
#[derive(Debug, Drop)]
pub struct Session {
    pub current: PkgId,
    pub object: Option<Stobj>,
}

/// What a command gives: its line, without the byte that ends it, its calls, and whether it was refused or stopped.
#[derive(Debug, Drop)]
pub struct Answer {
    pub line: Vec<u8>,
    pub calls: u64,
    pub is_error: bool,
}

/// What a command gives in a session whose table of symbols has grown from the opening one.
#[tactic(auto, using(acl_forms::specs::Growth::growing), unfolding(model_output_so_far::specs::Running::run))]
pub fn run_command(
    alloc: Global,
    command: &Command,
    heap: &mut Heap,
    syms: &mut Symbols,
    session: &mut Session,
) -> Result<Answer, AllocError>
    requires opening { Extends opening syms.old }
    requires command { IsWholeCommand syms.old heap.old command.now }
    requires session { IsSession syms.old session.old }
    ensures answers { IfOk result (Answers (running.run (session_view syms.old session.old) (command_view syms.old heap.old command.now)) (session_view syms.new session.new)) }
    ensures session { IfOk result (λ _. IsSession syms.new session.new) }
    ensures grows { Grown syms.old syms.new heap.old heap.new }
    ensures packages { syms.new.packages ≡ syms.old.packages }
{
    match command {
        Command::Define(name, fields) => {
            let answer = define(alloc, *name, fields.as_slice(), heap, syms, session)?;
            Ok(answer)
        }
        Command::Enter(name) => {
            let answer = enter(alloc, *name, heap, syms, session)?;
            Ok(answer)
        }
        Command::Misshapen(head) => {
            let answer = refused(alloc, Refusal::BadShape(*head), heap, syms, session.current)?;
            Ok(answer)
        }
        Command::Call(f, actuals) => {
            let answer = call(alloc, *f, actuals.as_slice(), heap, syms, session)?;
            Ok(answer)
        }
        Command::Other => {
            let answer = refused(alloc, Refusal::NotYet, heap, syms, session.current)?;
            Ok(answer)
        }
    }
}
