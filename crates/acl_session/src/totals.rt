//! How many commands, calls and errors there were.

ghost use Rattle.std.specs.Prelude.{◌≡◌, ◌<◌, ◌+◌, ◌^◌, IfOk};
ghost use Rattle.model_output_so_far.specs.Output as output;
ghost use Rattle.acl_session.specs.Runs.{totals_view, counted_by};

use acl_answers::Answer;
use std::alloc::{AllocError, Global};

/// How many commands, calls and errors there were.
#[derive(Clone, Copy, Debug, PartialEq, Eq)]
pub struct Totals {
    pub commands: u64,
    pub calls: u64,
    pub errors: u64,
}

impl Totals {
    pub fn new() -> Totals
        ensures { totals_view result ≡ output.no_totals }
    {
        Totals {
            commands: 0,
            calls: 0,
            errors: 0,
        }
    }

    /// Counts a command.
    pub fn count(&mut self, answer: &Answer)
        requires commands { self.old.commands + 1 < 2 ^ 64 }
        requires calls { self.old.calls + answer.now.calls < 2 ^ 64 }
        requires errors { self.old.errors + 1 < 2 ^ 64 }
        ensures { totals_view self.new ≡ counted_by (totals_view self.old) answer.now }
    {
        self.commands += 1;
        self.calls += answer.calls;
        if answer.is_error {
            self.errors += 1;
        }
    }

    /// The summary line, without the byte that ends it.
    #[tactic(auto, unfolding(model_output_so_far::specs::Output::summary_text))]
    pub fn summary(&self, alloc: Global) -> Result<Vec<u8>, AllocError>
        ensures { IfOk result (λ line. line.items ≡ output.summary_text (totals_view self.now)) }
    {
        let commands = self.commands.to_string(alloc)?;
        let calls = self.calls.to_string(alloc)?;
        let errors = self.errors.to_string(alloc)?;
        let mut line = Vec::from_slice(alloc, b"; ")?;
        line.extend_from_slice(commands.as_bytes())?;
        line.extend_from_slice(b" commands, ")?;
        line.extend_from_slice(calls.as_bytes())?;
        line.extend_from_slice(b" calls, ")?;
        line.extend_from_slice(errors.as_bytes())?;
        line.extend_from_slice(b" errors")?;
        Ok(line)
    }
}
