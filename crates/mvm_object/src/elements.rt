//! References that are stored in arrays (JVM Specification 6.5, aastore).

ghost use Rattle.std.specs.Prelude.{◌≡◌, ◌≢◌, ◌<◌, length, Err, IsSome, OnErr, Ok};
ghost use Rattle.mvm_base.specs.Answers.{AnswersUnless};
ghost use Rattle.mvm_heap.specs.Heap.{object_at};
ghost use Rattle.mvm_heap.specs.Sorts.{bits_of};
ghost use Rattle.mvm_heap.specs.declared.kind.ItemKind.TheVariants.{Ref};
ghost use Rattle.mvm_heap.specs.declared.kind.ObjectKind.TheVariants.{Text};
ghost use Rattle.mvm_isolate.specs.Isolate.{with_number};
ghost use Rattle.mvm_isolate.specs.Numbered.{look_of, named};
ghost use Rattle.mvm_isolate.specs.Sound.{Grows};
ghost use Rattle.mvm_isolate.specs.declared.stop.Stop.TheVariants.{OutOfMemory};
ghost use Rattle.mvm_current.specs.Keys.{top_named, AreKeys, RunsMethod};
ghost use Rattle.mvm_object.specs.Arrays.{store_item};
ghost use Rattle.mvm_object.specs.Coming.{point_of, went_of, GoesOn};
ghost use Rattle.mvm_object.specs.Elements.{held_on};
ghost use Rattle.mvm_object.specs.Going.{going_on, in_isolate, ready, Context};

use crate::arrays::{Item, item_of_array};
use mvm_base::{Kind, Steps, Word};
use mvm_current::{pop, pop_int, set_place};
use mvm_frame::{Slot, Stack};
use mvm_heap::{ItemKind, bits_of};
use mvm_instance::is_element;
use mvm_isolate::{Isolate, Stop};
use mvm_native::Thrown;
use mvm_table::Table;
use std::sync::ledger::Ledger;

/// Whether the array on the operands may hold the reference on top of them, which stay there. What is no array or no reference is refused elsewhere.
#[tactic(auto, using(std::proofs::lemmas::Option::slice_get_past))]
fn is_held<L: Ledger>(
    isolate: &Isolate,
    table: &Table,
    stack: &Stack,
    steps: &mut Steps<L>,
) -> Result<bool, Stop>
    requires files { table.now.files ≡ isolate.now.files }
    ensures { AnswersUnless Stop.OutOfMemory result (Ok (held_on (look_of isolate.now) (named isolate.now) stack.now.operands.slots)) }
{
    if stack.depth() < 3 {
        return Ok(true);
    }
    match stack.peek(2) {
        Slot::Ref(array) => match stack.peek(0) {
            Slot::Ref(object) => is_element(isolate, table, array, object, steps),
            _ => Ok(true),
        },
        _ => Ok(true),
    }
}

/// A value stands in its place in an array, and the method goes on. It takes no memory.
#[tactic(auto, unfolding(mvm_current::specs::Keys::callers_named), using(mvm_current::proofs::Growth::top_grows, mvm_current::proofs::Growth::callers_grow))]
fn store_in(isolate: &mut Isolate, stack: &mut Stack, item: Item, value: Word, next: u32)
    requires frame { IsSome stack.old.rest.below.key }
    requires method { RunsMethod stack.old }
    requires keys { AreKeys isolate.old stack.old }
    requires place { item.place < length (object_at (named isolate.old).heap.objects item.array).contents }
    requires sort { (object_at (named isolate.old).heap.objects item.array).sort ≢ Text }
    ensures does { (c : Context) → went_of isolate.new stack.new c.object ready ≡ going_on c next (top_named isolate.old stack.old) (in_isolate (with_number item.array item.place (bits_of value) (named isolate.old)) (point_of isolate.old stack.old)) }
    ensures below { stack.new.rest.below ≡ stack.old.rest.below }
    ensures links { isolate.new.env.links ≡ isolate.old.env.links }
    ensures grows { Grows isolate.old isolate.new }
{
    isolate.set_number(item.array, item.place, bits_of(value));
    set_place(stack, next);
}

/// `aastore` where it is known whether the array may hold the reference. It takes no memory.
#[tactic(auto, unfolding(crate::specs::Arrays::store_item))]
fn store_held(isolate: &mut Isolate, stack: &mut Stack, held: bool, next: u32) -> Result<(), Stop>
    requires frame { IsSome stack.old.rest.below.key }
    requires method { RunsMethod stack.old }
    requires keys { AreKeys isolate.old stack.old }
    requires held { held ≡ held_on (look_of isolate.old) (named isolate.old) stack.old.operands.slots }
    ensures does { (c : Context) → c.look ≡ look_of isolate.old → GoesOn result (store_item c Ref next (point_of isolate.old stack.old)) isolate.new stack.new c.object }
    ensures below { stack.new.rest.below ≡ stack.old.rest.below }
    ensures rest { OnErr result (stack.new.rest ≡ stack.old.rest) }
    ensures depth { OnErr result (stack.new.operands.depth ≡ stack.old.operands.depth) }
    ensures memory { result ≡ Err OutOfMemory → stack.new ≡ stack.old }
    ensures err { OnErr result (named isolate.new ≡ named isolate.old) }
    ensures links { isolate.new.env.links ≡ isolate.old.env.links }
    ensures grows { Grows isolate.old isolate.new }
{
    let value = pop(stack, Kind::Ref)?;
    let index = pop_int(stack)?;
    let array = pop(stack, Kind::Ref)?;
    let item = item_of_array(isolate, ItemKind::Ref, array, index)?;
    if !held {
        return Err(Stop::Throw(Thrown::ArrayStoreException));
    }
    store_in(isolate, stack, item, value, next);
    Ok(())
}

/// `aastore`.
///
/// # Errors
///
/// A `NullPointerException`, an `ArrayIndexOutOfBoundsException`, an `ArrayStoreException` where the array may not hold the reference, or a
/// `VerifyError` for what linked code has not.
pub fn store_reference<L: Ledger>(
    isolate: &mut Isolate,
    table: &Table,
    stack: &mut Stack,
    next: u32,
    steps: &mut Steps<L>,
) -> Result<(), Stop>
    requires files { table.now.files ≡ isolate.old.files }
    requires frame { IsSome stack.old.rest.below.key }
    requires method { RunsMethod stack.old }
    requires keys { AreKeys isolate.old stack.old }
    ensures does { (c : Context) → c.look ≡ look_of isolate.old → GoesOn result (store_item c Ref next (point_of isolate.old stack.old)) isolate.new stack.new c.object }
    ensures below { stack.new.rest.below ≡ stack.old.rest.below }
    ensures rest { OnErr result (stack.new.rest ≡ stack.old.rest) }
    ensures depth { OnErr result (stack.new.operands.depth ≡ stack.old.operands.depth) }
    // Where memory ran out the stack is as before.
    ensures memory { result ≡ Err OutOfMemory → stack.new ≡ stack.old }
    ensures err { OnErr result (named isolate.new ≡ named isolate.old) }
    ensures links { isolate.new.env.links ≡ isolate.old.env.links }
    ensures grows { Grows isolate.old isolate.new }
{
    let held = is_held(isolate, table, stack, steps)?;
    store_held(isolate, stack, held, next)
}
