//! Constants (JVM Specification 6.5: ldc, ldc_w, ldc2_w), by what is kept of their entries: ints and longs.

ghost use Rattle.std.specs.Prelude.{◌≡◌, IsSome, IfSome, OnErr};
ghost use Rattle.mvm_isolate.specs.Numbered.{look_of, named};
ghost use Rattle.mvm_isolate.specs.Sound.{Grows};
ghost use Rattle.mvm_current.specs.Entries.{entry_at};
ghost use Rattle.mvm_current.specs.Keys.{top_named, AreKeys, RunsMethod};
ghost use Rattle.mvm_object.specs.Coming.{point_of, GoesOn};
ghost use Rattle.mvm_object.specs.Fields.{load_constant};
ghost use Rattle.mvm_object.specs.Going.{Context};
ghost use Rattle.mvm_kept.specs.Kept.{AreKept, IsNumber};

use crate::entry::{Asked, Entry, Meaning};
use crate::kept::Kept;
use mvm_base::{Steps, Word};
use mvm_current::entry_at;
use mvm_frame::Stack;
use mvm_isolate::{Isolate, Stop};
use mvm_object::pushing;
use mvm_table::{Resolved, Table};
use std::sync::ledger::Ledger;

/// The number that the entry of an index of the constant pool of the current frame's class is, if that is kept.
#[tactic(auto, using(crate::proofs::Growing::number_found))]
fn number_found(isolate: &Isolate, kept: &Kept, stack: &Stack, index: u16) -> Option<Word>
    requires frame { IsSome stack.now.rest.below.key }
    requires method { RunsMethod stack.now }
    requires keys { AreKeys isolate.now stack.now }
    requires kept { AreKept isolate.now kept.now }
    ensures { IfSome result (λ word. IsNumber word (entry_at (look_of isolate.now) index (top_named isolate.now stack.now))) }
{
    match stack.top() {
        Some(key) => match kept.get(key.mirror, index, Asked::Number) {
            Some(Meaning::Number(word)) => Some(*word),
            _ => None,
        },
        None => unreachable!(),
    }
}

/// The same by names.
fn number_of<L: Ledger>(
    isolate: &Isolate,
    table: &Table,
    stack: &Stack,
    index: u16,
    steps: &mut Steps<L>,
) -> Option<Word>
    requires files { table.now.files ≡ isolate.now.files }
    requires frame { IsSome stack.now.rest.below.key }
    requires keys { AreKeys isolate.now stack.now }
    ensures { IfSome result (λ word. IsNumber word (entry_at (look_of isolate.now) index (top_named isolate.now stack.now))) }
{
    match entry_at(isolate, table, stack, index, steps) {
        Ok(Resolved::Int(value)) => Some(Word::Int(value)),
        Ok(Resolved::Long(value)) => Some(Word::Long(value)),
        _ => None,
    }
}

/// Keeps the number that the entry of an index of the constant pool of the current frame's class is.
fn keep_number(isolate: &Isolate, kept: &mut Kept, stack: &Stack, word: Word, index: u16)
    requires frame { IsSome stack.now.rest.below.key }
    requires method { RunsMethod stack.now }
    requires keys { AreKeys isolate.now stack.now }
    requires kept { AreKept isolate.now kept.old }
    requires number { IsNumber word (entry_at (look_of isolate.now) index (top_named isolate.now stack.now)) }
    ensures { AreKept isolate.now kept.new }
{
    if let Some(key) = stack.top() {
        kept.keep(Entry {
            home: key.mirror,
            index,
            meaning: Meaning::Number(word),
        });
    }
}

/// A number that is kept is pushed.
#[tactic(auto, unfolding(mvm_object::specs::Fields::load_constant, mvm_object::specs::Fields::loaded_constant))]
fn number_pushed(
    isolate: &Isolate,
    stack: &mut Stack,
    word: Word,
    index: u16,
    next: u32,
) -> Result<(), Stop>
    requires frame { IsSome stack.old.rest.below.key }
    requires method { RunsMethod stack.old }
    requires number { IsNumber word (entry_at (look_of isolate.now) index (top_named isolate.now stack.old)) }
    ensures does { (c : Context) → c.look ≡ look_of isolate.now → GoesOn result (load_constant c index next (point_of isolate.now stack.old)) isolate.now stack.new c.object }
    ensures below { stack.new.rest.below ≡ stack.old.rest.below }
    ensures stack { OnErr result (stack.new ≡ stack.old) }
{
    pushing(stack, word, next)
}

/// `ldc`, `ldc_w` and `ldc2_w`, by what is kept of the entry; an int or a long is kept from now on.
///
/// # Errors
///
/// Those of `ldc` by names.
#[tactic(auto, using(mvm_isolate::proofs::Keeping::grows_same, crate::proofs::Growing::kept_grows))]
pub fn load_constant<L: Ledger>(
    isolate: &mut Isolate,
    table: &Table,
    kept: &mut Kept,
    stack: &mut Stack,
    index: u16,
    next: u32,
    steps: &mut Steps<L>,
) -> Result<(), Stop>
    requires files { table.now.files ≡ isolate.old.files }
    requires frame { IsSome stack.old.rest.below.key }
    requires method { RunsMethod stack.old }
    requires keys { AreKeys isolate.old stack.old }
    requires kept { AreKept isolate.old kept.old }
    ensures does { (c : Context) → c.look ≡ look_of isolate.old → GoesOn result (load_constant c index next (point_of isolate.old stack.old)) isolate.new stack.new c.object }
    ensures below { stack.new.rest.below ≡ stack.old.rest.below }
    ensures stack { OnErr result (stack.new ≡ stack.old) }
    ensures err { OnErr result (named isolate.new ≡ named isolate.old) }
    ensures links { isolate.new.env.links ≡ isolate.old.env.links }
    ensures kept { AreKept isolate.new kept.new }
    ensures grows { Grows isolate.old isolate.new }
{
    if let Some(word) = number_found(isolate, kept, stack, index) {
        return number_pushed(isolate, stack, word, index, next);
    }
    if let Some(word) = number_of(isolate, table, stack, index, steps) {
        keep_number(isolate, kept, stack, word, index);
        return number_pushed(isolate, stack, word, index, next);
    }
    mvm_object::load_constant(isolate, table, stack, index, next, steps)
}
