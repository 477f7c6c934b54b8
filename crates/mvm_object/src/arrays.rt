//! The items and the length of an array (JVM Specification 6.5).

ghost use Rattle.std.specs.Prelude.{◌≡◌, ◌≢◌, ◌<◌, length, Err, IfErr, IfOk, IsSome, OnErr};
ghost use Rattle.mvm_heap.specs.Heap.{object_at};
ghost use Rattle.mvm_heap.specs.declared.kind.ItemKind.TheVariants.{Ref};
ghost use Rattle.mvm_heap.specs.declared.kind.ObjectKind.TheVariants.{Text};
ghost use Rattle.mvm_isolate.specs.Numbered.{named};
ghost use Rattle.mvm_isolate.specs.Sound.{Grows};
ghost use Rattle.mvm_isolate.specs.declared.stop.Stop.TheVariants.{OutOfMemory};
ghost use Rattle.mvm_current.specs.Keys.{AreKeys, RunsMethod};
ghost use Rattle.mvm_object.specs.Arrays.{array_length, index_in, item_of_array, items_in, load_item, serves, store_item};
ghost use Rattle.mvm_object.specs.Coming.{point_of, GoesOn};
ghost use Rattle.mvm_object.specs.Going.{Context};

use crate::going::{kind_of_items, pushing};
use mvm_base::{Kind, Word};
use mvm_current::{not_null, pop, pop_int, set_place};
use mvm_frame::Stack;
use mvm_heap::{ItemKind, ObjectKind, bits_of, item_of};
use mvm_isolate::{Isolate, Stop};
use mvm_native::Thrown;

/// What the items of an array are.
fn items_in(isolate: &Isolate, object: u32) -> Result<ItemKind, Stop>
    ensures is { result ≡ items_in (object_at (named isolate.now).heap.objects object).sort }
    ensures there { IfOk result (λ kind. object < length (named isolate.now).heap.objects) }
    ensures sort { IfOk result (λ kind. (object_at (named isolate.now).heap.objects object).sort ≢ Text) }
    ensures memory { IfErr result (λ stop. stop ≢ Stop.OutOfMemory) }
{
    if object >= isolate.count() {
        return Err(Stop::Throw(Thrown::VerifyError));
    }
    match isolate.kind_of(object) {
        ObjectKind::Array(kind) => Ok(kind),
        ObjectKind::Object | ObjectKind::Text => Err(Stop::Throw(Thrown::VerifyError)),
    }
}

/// An index of an array of this length.
fn index_in(index: i32, count: u32) -> Result<u32, Stop>
    ensures is { result ≡ index_in index count }
    ensures within { IfOk result (λ place. place < count) }
    ensures memory { IfErr result (λ stop. stop ≢ Stop.OutOfMemory) }
{
    if index >= 0 && (index as u32) < count {
        Ok(index as u32)
    } else {
        Err(Stop::Throw(Thrown::ArrayIndexOutOfBoundsException))
    }
}

/// Whether an instruction for items of the one kind serves arrays of the other.
fn serves(wanted: ItemKind, kind: ItemKind) -> bool
    ensures { result ≡ serves wanted kind }
{
    match wanted {
        ItemKind::Byte => matches!(kind, ItemKind::Byte | ItemKind::Boolean),
        ItemKind::Char => matches!(kind, ItemKind::Char),
        ItemKind::Short => matches!(kind, ItemKind::Short),
        ItemKind::Int => matches!(kind, ItemKind::Int),
        ItemKind::Long => matches!(kind, ItemKind::Long),
        ItemKind::Ref => matches!(kind, ItemKind::Ref),
        ItemKind::Boolean => false,
    }
}

/// An item of an array: the array, the place there, and what the array holds.
#[derive(Clone, Copy)]
pub(crate) struct Item {
    pub(crate) array: u32,
    pub(crate) place: u32,
    pub(crate) kind: ItemKind,
}

/// The item of an index: null first, then no array, then the index, then an array of other items.
#[tactic(auto, unfolding(crate::specs::Arrays::item_of_array))]
pub(crate) fn item_of_array(
    isolate: &Isolate,
    wanted: ItemKind,
    array: Word,
    index: i32,
) -> Result<Item, Stop>
    ensures is { result ≡ item_of_array wanted array index (named isolate.now).heap.objects }
    ensures within { IfOk result (λ item. item.place < length (object_at (named isolate.now).heap.objects item.array).contents) }
    ensures sort { IfOk result (λ item. (object_at (named isolate.now).heap.objects item.array).sort ≢ Text) }
    ensures memory { IfErr result (λ stop. stop ≢ Stop.OutOfMemory) }
{
    let object = not_null(array)?;
    let kind = items_in(isolate, object)?;
    let place = index_in(index, isolate.length(object))?;
    if serves(wanted, kind) {
        Ok(Item {
            array: object,
            place,
            kind,
        })
    } else {
        Err(Stop::Throw(Thrown::VerifyError))
    }
}

/// `iaload`, `laload`, `aaload`, `baload`, `caload` and `saload`.
///
/// # Errors
///
/// A `NullPointerException`, an `ArrayIndexOutOfBoundsException`, or a `VerifyError` for what linked code has not.
#[tactic(auto, unfolding(crate::specs::Arrays::load_item, mvm_current::specs::Keys::callers_named))]
pub fn load_item(
    isolate: &Isolate,
    stack: &mut Stack,
    wanted: ItemKind,
    next: u32,
) -> Result<(), Stop>
    requires frame { IsSome stack.old.rest.below.key }
    requires method { RunsMethod stack.old }
    ensures does { (c : Context) → GoesOn result (load_item c wanted next (point_of isolate.now stack.old)) isolate.now stack.new c.object }
    ensures below { stack.new.rest.below ≡ stack.old.rest.below }
    ensures rest { OnErr result (stack.new.rest ≡ stack.old.rest) }
    ensures depth { OnErr result (stack.new.operands.depth ≡ stack.old.operands.depth) }
    // Where memory ran out the stack is as before.
    ensures memory { result ≡ Err OutOfMemory → stack.new ≡ stack.old }
{
    let index = pop_int(stack)?;
    let array = pop(stack, Kind::Ref)?;
    let item = item_of_array(isolate, wanted, array, index)?;
    let number = isolate.number(item.array, item.place);
    pushing(stack, item_of(item.kind, number), next)
}

/// `arraylength`.
///
/// # Errors
///
/// A `NullPointerException`, or a `VerifyError` for what linked code has not.
#[tactic(auto, unfolding(crate::specs::Arrays::array_length, mvm_current::specs::Keys::callers_named))]
pub fn array_length(isolate: &Isolate, stack: &mut Stack, next: u32) -> Result<(), Stop>
    requires frame { IsSome stack.old.rest.below.key }
    requires method { RunsMethod stack.old }
    ensures does { (c : Context) → GoesOn result (array_length c next (point_of isolate.now stack.old)) isolate.now stack.new c.object }
    ensures below { stack.new.rest.below ≡ stack.old.rest.below }
    ensures rest { OnErr result (stack.new.rest ≡ stack.old.rest) }
    ensures depth { OnErr result (stack.new.operands.depth ≡ stack.old.operands.depth) }
    // Where memory ran out the stack is as before.
    ensures memory { result ≡ Err OutOfMemory → stack.new ≡ stack.old }
{
    let array = pop(stack, Kind::Ref)?;
    let object = not_null(array)?;
    let _kind = items_in(isolate, object)?;
    let length = isolate.length(object);
    pushing(stack, Word::Int(length as i32), next)
}

/// `iastore`, `lastore`, `bastore`, `castore` and `sastore`: of a small number the low bits are kept, of a boolean the lowest.
///
/// # Errors
///
/// A `NullPointerException`, an `ArrayIndexOutOfBoundsException`, or a `VerifyError` for what linked code has not.
#[tactic(auto, unfolding(crate::specs::Arrays::store_item, mvm_current::specs::Keys::callers_named), using(crate::proofs::Storing::number_held, mvm_current::proofs::Growth::top_grows, mvm_current::proofs::Growth::callers_grow))]
pub fn store_number(
    isolate: &mut Isolate,
    stack: &mut Stack,
    wanted: ItemKind,
    next: u32,
) -> Result<(), Stop>
    requires frame { IsSome stack.old.rest.below.key }
    requires method { RunsMethod stack.old }
    requires keys { AreKeys isolate.old stack.old }
    requires wanted { wanted ≢ Ref }
    ensures does { (c : Context) → GoesOn result (store_item c wanted next (point_of isolate.old stack.old)) isolate.new stack.new c.object }
    ensures below { stack.new.rest.below ≡ stack.old.rest.below }
    ensures rest { OnErr result (stack.new.rest ≡ stack.old.rest) }
    ensures depth { OnErr result (stack.new.operands.depth ≡ stack.old.operands.depth) }
    // Where memory ran out the stack is as before.
    ensures memory { result ≡ Err OutOfMemory → stack.new ≡ stack.old }
    ensures err { OnErr result (named isolate.new ≡ named isolate.old) }
    ensures links { isolate.new.env.links ≡ isolate.old.env.links }
    ensures grows { Grows isolate.old isolate.new }
{
    let value = pop(stack, kind_of_items(wanted))?;
    let index = pop_int(stack)?;
    let array = pop(stack, Kind::Ref)?;
    let item = item_of_array(isolate, wanted, array, index)?;
    isolate.set_number(item.array, item.place, bits_of(value));
    set_place(stack, next);
    Ok(())
}
