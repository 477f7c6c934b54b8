//! Items of arrays (JVM Specification 6.5: iaload to saload, iastore to sastore).

ghost use Rattle.std.specs.Prelude.{◌≡◌, Err, IsSome, OnErr};
ghost use Rattle.mvm_current.specs.Keys.{AreKeys, RunsMethod};
ghost use Rattle.mvm_isolate.specs.Numbered.{look_of, named};
ghost use Rattle.mvm_isolate.specs.Sound.{Grows};
ghost use Rattle.mvm_isolate.specs.declared.stop.Stop.TheVariants.{OutOfMemory};
ghost use Rattle.mvm_object.specs.Arrays.{store_item};
ghost use Rattle.mvm_object.specs.Coming.{point_of, GoesOn};
ghost use Rattle.mvm_object.specs.Going.{Context};
ghost use Rattle.mvm_thread.specs.Groups.{IsArrayAccess};
ghost use Rattle.mvm_thread.specs.Instructions.{plain};

use crate::action::Action;
use mvm_base::Steps;
use mvm_frame::Stack;
use mvm_heap::ItemKind;
use mvm_isolate::{Isolate, Stop};
use mvm_object::{array_length, load_item, store_number, store_reference};
use mvm_table::Table;
use std::sync::ledger::Ledger;

/// A value is popped into an item of an array of these.
fn store_item<L: Ledger>(
    isolate: &mut Isolate,
    table: &Table,
    stack: &mut Stack,
    items: ItemKind,
    next: u32,
    steps: &mut Steps<L>,
) -> Result<(), Stop>
    requires files { table.now.files ≡ isolate.old.files }
    requires frame { IsSome stack.old.rest.below.key }
    requires method { RunsMethod stack.old }
    requires keys { AreKeys isolate.old stack.old }
    ensures does { (c : Context) → c.look ≡ look_of isolate.old → GoesOn result (store_item c items next (point_of isolate.old stack.old)) isolate.new stack.new c.object }
    ensures below { stack.new.rest.below ≡ stack.old.rest.below }
    ensures err { OnErr result (named isolate.new ≡ named isolate.old) }
    ensures rest { OnErr result (stack.new.rest ≡ stack.old.rest) }
    ensures depth { OnErr result (stack.new.operands.depth ≡ stack.old.operands.depth) }
    // Where memory ran out the stack is as before.
    ensures memory { result ≡ Err OutOfMemory → stack.new ≡ stack.old }
    ensures grows { Grows isolate.old isolate.new }
    ensures links { isolate.new.env.links ≡ isolate.old.env.links }
{
    match items {
        ItemKind::Ref => store_reference(isolate, table, stack, next, steps),
        _ => store_number(isolate, stack, items, next),
    }
}

/// An instruction on an item of an array, or on its length.
///
/// # Errors
///
/// What the instruction throws.
#[tactic(auto, unfolding(crate::specs::Instructions::plain), using(mvm_isolate::proofs::Keeping::grows_same))]
pub(crate) fn array_access<L: Ledger>(
    isolate: &mut Isolate,
    table: &Table,
    stack: &mut Stack,
    action: Action,
    next: u32,
    steps: &mut Steps<L>,
) -> Result<(), Stop>
    requires files { table.now.files ≡ isolate.old.files }
    requires frame { IsSome stack.old.rest.below.key }
    requires method { RunsMethod stack.old }
    requires keys { AreKeys isolate.old stack.old }
    requires group { IsArrayAccess action }
    ensures does { (c : Context) → c.look ≡ look_of isolate.old → GoesOn result (plain c action next (point_of isolate.old stack.old)) isolate.new stack.new c.object }
    ensures below { stack.new.rest.below ≡ stack.old.rest.below }
    ensures err { OnErr result (named isolate.new ≡ named isolate.old) }
    ensures rest { OnErr result (stack.new.rest ≡ stack.old.rest) }
    ensures depth { OnErr result (stack.new.operands.depth ≡ stack.old.operands.depth) }
    // Where memory ran out the stack is as before.
    ensures memory { result ≡ Err OutOfMemory → stack.new ≡ stack.old }
    ensures grows { Grows isolate.old isolate.new }
    ensures links { isolate.new.env.links ≡ isolate.old.env.links }
{
    match action {
        Action::LoadItem(items) => load_item(isolate, stack, items, next),
        Action::StoreItem(items) => store_item(isolate, table, stack, items, next, steps),
        Action::ArrayLength => array_length(isolate, stack, next),
        _ => unreachable!(),
    }
}
