// The calls of a reader.

ghost use Rattle.std.specs.Prelude.{◌≡◌, ◌≢◌, ℕ, List, [], ◌+◌, ◌-◌, ◌<◌, ◌≤◌, ◌++◌, drop, length, vec_len, IfErr, IfOk, IfSome, OnOk, OnErr, Some, None, true, false};
ghost use Rattle.model_symbols.specs.Symbols.{QualifiedName, Table};
ghost use Rattle.model_symbols.specs.Growth.{Extends};
ghost use Rattle.model_symbols.specs.Opening.{opening};
ghost use Rattle.acl_base.specs.declared.PkgId.{PkgId};
ghost use Rattle.acl_read_scan.specs.Built.{IsBuilt};
ghost use Rattle.model_text.specs.declared.TextCause.TheVariants.{Memory};
ghost use Rattle.acl_forms.specs.Forms.{Grown, IsWhole};
ghost use Rattle.acl_read.specs.Reading.{IsFresh, unread, offset_of, has_ended, fault_of, Fits, HasBuiltNothing, IsReady, Takes, FeedFault};

use crate::answering::next_word;
use crate::{Reader, TextCause, TextFault};
use acl_base::{PkgId, Word};
use acl_heap::Heap;
use acl_read_scan::{Built, Inside};
use acl_syms::Symbols;
use std::alloc::Global;

// Gives up the first bytes.
fn give_up(bytes: &mut Vec<u8>, count: usize)
    requires { count ≤ vec_len bytes.old }
    ensures { bytes.new.items ≡ drop count bytes.old.items }
{
    let rest = bytes.len() - count;
    bytes.rotate_left(count);
    bytes.truncate(rest);
}

// Want of memory is charged to no byte.
fn placed(fault: TextFault) -> TextFault
    ensures cause { result.cause ≡ fault.cause }
    ensures offset { fault.cause ≢ Memory → result.offset ≡ fault.offset }
    ensures memory { fault.cause ≡ Memory → result.offset ≡ 0 }
{
    match fault.cause {
        TextCause::Memory => TextFault {
            cause: TextCause::Memory,
            offset: 0,
        },
        _ => fault,
    }
}

// Nothing has been read of the next form.
fn start_anew(built: &mut Built)
    ensures at { built.new.at ≡ built.old.at }
    ensures fresh { IsFresh built.new }
{
    built.frames.clear();
    built.lexemes.clear();
    built.inside = Inside::Free;
    built.token.clear();
    built.first = built.at;
}

impl Reader {
    /// A reader of an input of which nothing has come.
    pub fn new(alloc: Global) -> Reader
        ensures unread { unread result ≡ [] }
        ensures offset { offset_of result ≡ 0 }
        ensures ended { has_ended result ≡ false }
        ensures fault { fault_of result ≡ None }
        ensures fits { HasBuiltNothing result }
    {
        Reader {
            alloc,
            bytes: Vec::new(alloc),
            from: 0,
            scanned: 0,
            taken: 0,
            built: Built {
                frames: Vec::new(alloc),
                lexemes: Vec::new(alloc),
                inside: Inside::Free,
                token: Vec::new(alloc),
                at: 0,
                first: 0,
            },
            ended: false,
            fault: None,
        }
    }

    /// The next piece of the input. An `Err` changes nothing.
    #[tactic(auto, using(crate::proofs::ReaderLemmas::ready_still))]
    pub fn feed(&mut self, piece: &[u8]) -> Result<(), TextFault>
        requires open { has_ended self.old ≡ false }
        ensures ok { OnOk result (unread self.new ≡ unread self.old ++ piece.now) }
        ensures sound { OnOk result (fault_of self.old ≡ None) }
        ensures refused { IfErr result (FeedFault (fault_of self.old)) }
        ensures err { OnErr result (unread self.new ≡ unread self.old) }
        ensures offset { offset_of self.new ≡ offset_of self.old }
        ensures ended { has_ended self.new ≡ has_ended self.old }
        ensures fault { fault_of self.new ≡ fault_of self.old }
        ensures fits { (start : List QualifiedName) (t : Table) (current : PkgId) → Fits start t current self.old → Fits start t current self.new }
        ensures ready { (t : Table) (current : PkgId) → IsReady t current self.old → IsReady t current self.new }
    {
        if let Some(fault) = self.fault {
            return Err(fault);
        }
        self.give_up_taken();
        self.bytes.extend_from_slice(piece)?;
        Ok(())
    }

    // Gives up the bytes that were taken, once they are more than those that were not: so the bytes that are moved are
    // fewer than those given up.
    fn give_up_taken(&mut self)
        ensures unread { unread self.new ≡ unread self.old }
        ensures scanned { self.new.scanned - self.new.from ≡ self.old.scanned - self.old.from }
        ensures taken { self.new.taken ≡ self.old.taken }
        ensures built { self.new.built ≡ self.old.built }
        ensures ended { self.new.ended ≡ self.old.ended }
        ensures fault { self.new.fault ≡ self.old.fault }
    {
        let from = self.from;
        if from > self.bytes.len() / 2 {
            give_up(&mut self.bytes, from);
            self.scanned -= from;
            self.from = 0;
        }
    }

    /// The input has ended.
    #[tactic(auto, using(crate::proofs::ReaderLemmas::ready_still))]
    pub fn finish(&mut self)
        ensures unread { unread self.new ≡ unread self.old }
        ensures offset { offset_of self.new ≡ offset_of self.old }
        ensures ended { has_ended self.new ≡ true }
        ensures fault { fault_of self.new ≡ fault_of self.old }
        ensures fits { (start : List QualifiedName) (t : Table) (current : PkgId) → Fits start t current self.old → Fits start t current self.new }
        ensures ready { (t : Table) (current : PkgId) → IsReady t current self.old → IsReady t current self.new }
    {
        self.ended = true;
    }

    /// The next form; None where none has come whole, or where the input has ended and holds no further one. A fault is
    /// kept, and given again.
    #[tactic(auto, using(crate::proofs::ReaderLemmas::ready_taken))]
    pub fn take(
        &mut self,
        heap: &mut Heap,
        syms: &mut Symbols,
        current: PkgId,
    ) -> Result<Option<Word>, TextFault>
        requires fits { IsReady syms.old current self.old }
        requires package { current.0 < length syms.old.packages }
        requires opening { Extends opening syms.old }
        ensures grows { Grown syms.old syms.new heap.old heap.new }
        ensures packages { syms.new.packages ≡ syms.old.packages }
        ensures takes { fault_of self.old ≡ None → (start : List QualifiedName) → Fits start syms.old current self.old → Takes start syms.new heap.new current self.old self.new result }
        ensures ready { IsReady syms.new current self.new }
        ensures whole { IfOk result (λ found. IfSome found (IsWhole syms.new heap.new)) }
        ensures memory { fault_of self.old ≡ None → IfErr result (λ e. e.cause ≡ Memory → e.offset ≡ 0) }
        ensures again { IfSome (fault_of self.old) (λ e. (result ≡ Err e) × (self.new ≡ self.old) × (syms.new ≡ syms.old) × (heap.new ≡ heap.old)) }
        ensures kept { IfErr result (λ e. fault_of self.new ≡ Some e) }
        ensures sound { OnOk result (fault_of self.new ≡ None) }
        ensures ended { has_ended self.new ≡ has_ended self.old }
    {
        if let Some(fault) = self.fault {
            return Err(fault);
        }
        match self.resume(heap, syms, current) {
            Ok(found) => Ok(found),
            Err(refused) => {
                let fault = placed(refused);
                self.fault = Some(fault);
                Err(fault)
            }
        }
    }

    fn resume(
        &mut self,
        heap: &mut Heap,
        syms: &mut Symbols,
        current: PkgId,
    ) -> Result<Option<Word>, TextFault>
        requires built { IsBuilt syms.old self.old.built }
        requires place { self.old.built.at ≡ offset_of self.old + (self.old.scanned - self.old.from) }
        requires package { current.0 < length syms.old.packages }
        requires opening { Extends opening syms.old }
        ensures grows { Grown syms.old syms.new heap.old heap.new }
        ensures packages { syms.new.packages ≡ syms.old.packages }
        ensures takes { (start : List QualifiedName) → Fits start syms.old current self.old → Takes start syms.new heap.new current self.old self.new result }
        ensures whole { IfOk result (λ found. IfSome found (IsWhole syms.new heap.new)) }
        ensures ended { has_ended self.new ≡ has_ended self.old }
        ensures fault { fault_of self.new ≡ fault_of self.old }
    {
        let answer = next_word(
            self.alloc,
            &self.bytes.as_slice()[self.scanned..],
            self.ended,
            &mut self.built,
            heap,
            syms,
            current,
        );
        match answer {
            Err(fault) => Err(fault),
            Ok(found) => match found {
                Some(w) => {
                    let at = self.built.at;
                    let from = self.from + (at - self.taken) as usize;
                    start_anew(&mut self.built);
                    self.scanned = from;
                    self.from = from;
                    self.taken = at;
                    Ok(Some(w))
                }
                None => {
                    self.scanned = self.bytes.len();
                    Ok(None)
                }
            },
        }
    }
}
