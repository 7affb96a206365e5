//! The open forms.

ghost use Rattle.std.specs.Prelude.{◌≡◌, ◌≢◌, ◌≤◌, ◌<◌, ◌^◌, true, false, ◌∷◌, [], length, reverse, OnOk, OnErr, MatchOption};
ghost use Rattle.acl_machine.specs.Turns.{IsFirst, with_step, with_frame};

use crate::frame::{Frame, Step};
use std::alloc::{AllocError, Global};
use std::marker::Model;

/// The last frame waits for something else; no memory is asked for.
#[tactic(auto, using(crate::proofs::StackLemmas::again_reversed, crate::proofs::StackLemmas::none_reversed))]
fn set_last(frames: &mut Vec<Frame>, step: Step)
    ensures { reverse frames.new.items ≡ with_step step (reverse frames.old.items) }
{
    let n = frames.len();
    if n == 0 {
        return;
    }
    let frame = frames[n - 1];
    frames[n - 1] = Frame {
        step,
        base: frame.base,
    };
}

/// Another frame in place of the last one; no memory is asked for.
#[tactic(auto, using(crate::proofs::StackLemmas::replaced_reversed, crate::proofs::StackLemmas::none_replaced))]
fn set_frame(frames: &mut Vec<Frame>, frame: Frame)
    ensures { reverse frames.new.items ≡ with_frame frame (reverse frames.old.items) }
{
    let n = frames.len();
    if n == 0 {
        return;
    }
    frames[n - 1] = frame;
}

/// The last frame.
#[tactic(auto, using(crate::proofs::StackLemmas::first_reversed, crate::proofs::StackLemmas::none_first))]
fn last(frames: &Vec<Frame>) -> Option<Frame>
    ensures { MatchOption result (reverse frames.now.items ≡ []) (λ frame. IsFirst frame (reverse frames.now.items)) }
{
    let n = frames.len();
    if n == 0 {
        return None;
    }
    Some(frames[n - 1])
}

/// The open forms, which contracts see from the innermost outwards.
#[derive(Drop)]
pub struct Stack {
    frames: Vec<Frame>,
}

impl Model for Stack {
    ghost use Rattle.std.specs.Prelude.{List, reverse};
    ghost use Rattle.acl_machine.specs.declared.frame.Frame.{Frame};

    ghost Value = { List Frame };

    ghost view = { λ s. reverse s.frames.items };
}

impl Stack {
    /// No open forms. It takes no memory.
    pub fn new(alloc: Global) -> Stack
        ensures { result ≡ [] }
    {
        Stack {
            frames: Vec::new(alloc),
        }
    }

    /// Opens a form.
    pub fn push(&mut self, frame: Frame) -> Result<(), AllocError>
        ensures ok { OnOk result (self.new ≡ frame ∷ self.old) }
        ensures err { OnErr result (self.new ≡ self.old) }
    {
        self.frames.push(frame)?;
        Ok(())
    }

    /// Whether no form is open.
    #[tactic(auto, using(crate::proofs::StackLemmas::none_first, crate::proofs::StackLemmas::some_first))]
    pub fn is_empty(&self) -> bool
        ensures empty { result ≡ true → self.now ≡ [] }
        ensures open { result ≡ false → self.now ≢ [] }
    {
        self.frames.len() == 0
    }

    /// Whether so few forms are open that twice their number is one of 64 bits.
    #[tactic(auto, using(crate::proofs::StackLemmas::few_reversed))]
    pub fn is_shallow(&self) -> bool
        ensures few { result ≡ true → length self.now < 2 ^ 63 }
        ensures many { result ≡ false → 2 ^ 63 ≤ length self.now }
    {
        self.frames.len() < 0x8000_0000_0000_0000
    }

    /// The innermost frame.
    pub fn first(&self) -> Option<Frame>
        ensures { MatchOption result (self.now ≡ []) (λ frame. IsFirst frame self.now) }
    {
        last(&self.frames)
    }

    /// The innermost form waits for something else. It takes no memory.
    pub fn again(&mut self, step: Step)
        ensures { self.new ≡ with_step step self.old }
    {
        set_last(&mut self.frames, step);
    }

    /// Another frame in place of the innermost one. It takes no memory.
    pub fn replace(&mut self, frame: Frame)
        ensures { self.new ≡ with_frame frame self.old }
    {
        set_frame(&mut self.frames, frame);
    }

    /// Closes the innermost form.
    pub fn pop(&mut self) -> Option<Frame>
        ensures { MatchOption result ((self.old ≡ []) × (self.new ≡ [])) (λ frame. self.old ≡ frame ∷ self.new) }
    {
        self.frames.pop()
    }
}
