//! Instance fields (JVM Specification 6.5: getfield, putfield), by what is kept of their entries.

ghost use Rattle.std.specs.Prelude.{◌≡◌, true, false, Err, Some, IsSome, IfSome, OnErr, Result};
ghost use Rattle.mvm_isolate.specs.Numbered.{class_at, look_of, name_at, named, IsClass};
ghost use Rattle.mvm_isolate.specs.Sound.{Grows};
ghost use Rattle.mvm_isolate.specs.Types.{of_class, suits};
ghost use Rattle.mvm_isolate.specs.declared.stop.Stop.{Stop as StopOf};
ghost use Rattle.mvm_isolate.specs.declared.stop.Stop.TheVariants.{OutOfMemory};
ghost use Rattle.mvm_current.specs.Entries.{field_entry};
ghost use Rattle.mvm_current.specs.Found.{HasField};
ghost use Rattle.mvm_current.specs.Keys.{top_named, AreKeys, RunsMethod};
ghost use Rattle.mvm_member.specs.Members.{field_named, MemberName as MemberNameOf};
ghost use Rattle.mvm_object.specs.Coming.{point_of, GoesOn};
ghost use Rattle.mvm_object.specs.Fields.{field_loaded, field_stored, get_field, put_field};
ghost use Rattle.mvm_object.specs.Going.{Context};
ghost use Rattle.mvm_object.specs.Slots.{IsPlacedAt};
ghost use Rattle.mvm_kept.specs.Kept.{AreKept, HasInstance};

use crate::entry::{Asked, Entry, InstanceAt, Meaning};
use crate::kept::Kept;
use mvm_base::{Name, Steps};
use mvm_current::{field_entry, may_store};
use mvm_frame::{Slot, Stack};
use mvm_isolate::{Isolate, Stop, TypeAt};
use mvm_member::{MemberName, field_named, place_of};
use mvm_object::{PlacedAt, field_popped_at, field_pushed_at};
use mvm_set::is_subclass;
use mvm_table::{FieldAt, Table};
use std::sync::ledger::Ledger;

/// The instance field that the entry of an index of the constant pool of the current frame's class names, if that is kept.
#[tactic(auto, using(crate::proofs::Growing::field_found))]
fn instance_found<'a>(
    isolate: &Isolate,
    kept: &'a Kept,
    stack: &Stack,
    index: u16,
) -> Option<&'a InstanceAt>
    requires frame { IsSome stack.now.rest.below.key }
    requires method { RunsMethod stack.now }
    requires keys { AreKeys isolate.now stack.now }
    requires kept { AreKept isolate.now kept.now }
    ensures { IfSome result (λ at. HasInstance isolate.now at.now (field_entry (look_of isolate.now) false index (top_named isolate.now stack.now))) }
{
    match stack.top() {
        Some(key) => match kept.get(key.mirror, index, Asked::Instance) {
            Some(Meaning::Instance(at)) => Some(at),
            _ => None,
        },
        None => unreachable!(),
    }
}

/// Whether objects of the class of a number are of the class of a name.
#[tactic(auto, unfolding(mvm_isolate::specs::Types::suits, mvm_isolate::specs::Look::is_sub), using(mvm_instance::proofs::Sets::found))]
pub(crate) fn are_of(isolate: &Isolate, mirror: u32, name: &Name) -> bool
    requires { IsClass isolate.now mirror }
    ensures { result ≡ suits (look_of isolate.now) (of_class (name_at isolate.now mirror)) (of_class name.now) }
{
    is_subclass(isolate.class(mirror).get(), name)
}

/// How many slots of operands the value on top has.
fn slots_on_top(stack: &Stack) -> usize {
    if stack.depth() == 0 {
        return 0;
    }
    match stack.peek(0) {
        Slot::Half => 2,
        _ => 1,
    }
}

/// The number of the class of the object on which so many slots of operands stand, if one is there.
fn class_beneath(isolate: &Isolate, stack: &Stack, above: usize) -> Option<u32>
    ensures { IfSome result (IsClass isolate.now) }
{
    if above >= stack.depth() {
        return None;
    }
    match stack.peek(above) {
        Slot::Ref(object) => match isolate.type_at(object) {
            Some(TypeAt::Class(mirror)) => Some(mirror),
            _ => None,
        },
        _ => None,
    }
}

/// A class of two whose objects are of the class of a name, if one is there: the first, or else the second.
fn suited(isolate: &Isolate, name: &Name, receiver: Option<u32>, mirror: u32) -> Option<u32>
    requires receives { IfSome receiver (IsClass isolate.now) }
    requires class { IsClass isolate.now mirror }
    ensures there { IfSome result (λ receiver. IsClass isolate.now receiver) }
    ensures suited { IfSome result (λ receiver. suits (look_of isolate.now) (of_class (name_at isolate.now receiver)) (of_class name.now) ≡ true) }
{
    if let Some(receiver) = receiver {
        if are_of(isolate, receiver, name) {
            return Some(receiver);
        }
    }
    if are_of(isolate, mirror, name) {
        Some(mirror)
    } else {
        None
    }
}

/// The number of a class whose objects have the field: that of the object on which so many slots of operands stand, or that of the class that
/// declares it.
fn receiver_of(
    isolate: &Isolate,
    stack: &Stack,
    above: usize,
    name: &Name,
    mirror: u32,
) -> Option<u32>
    requires { IsClass isolate.now mirror }
    ensures there { IfSome result (λ receiver. IsClass isolate.now receiver) }
    ensures suited { IfSome result (λ receiver. suits (look_of isolate.now) (of_class (name_at isolate.now receiver)) (of_class name.now) ≡ true) }
{
    let receiver = class_beneath(isolate, stack, above);
    suited(isolate, name, receiver, mirror)
}

/// Where objects have the value of a field that the class of a number declares.
fn placed(
    isolate: &Isolate,
    stack: &Stack,
    above: usize,
    member: &MemberName<'_>,
    mirror: u32,
) -> Option<PlacedAt>
    requires { IsClass isolate.now mirror }
    ensures there { IfSome result (λ at. IsClass isolate.now at.receiver) }
    ensures placed { IfSome result (λ at. IsPlacedAt isolate.now mirror member.now at.place at.receiver) }
{
    let place = place_of(isolate.class(mirror).get(), member.name(), member.desc());
    match place {
        Some(place) => match receiver_of(isolate, stack, above, member.class(), mirror) {
            Some(receiver) => Some(PlacedAt { place, receiver }),
            None => None,
        },
        None => None,
    }
}

/// The number of the class that declares a field, and where objects have its value.
#[derive(Clone, Copy)]
struct Place {
    /// The number of the class.
    mirror: u32,
    /// Where objects have the value.
    placed: PlacedAt,
}

/// The same by names, where the class can be loaded.
fn place_found<L: Ledger>(
    isolate: &mut Isolate,
    table: &Table,
    stack: &Stack,
    above: usize,
    member: &MemberName<'_>,
    steps: &mut Steps<L>,
) -> Option<Place>
    requires files { table.now.files ≡ isolate.old.files }
    ensures class { IfSome result (λ place. IsClass isolate.new place.mirror) }
    ensures name { IfSome result (λ place. name_at isolate.new place.mirror ≡ member.now.class) }
    ensures there { IfSome result (λ place. IsClass isolate.new place.placed.receiver) }
    ensures placed { IfSome result (λ place. IsPlacedAt isolate.new place.mirror member.now place.placed.place place.placed.receiver) }
    ensures same { named isolate.new ≡ named isolate.old }
    ensures links { isolate.new.env.links ≡ isolate.old.env.links }
    ensures grows { Grows isolate.old isolate.new }
{
    match isolate.load(table, member.class(), steps) {
        Ok(mirror) => match placed(isolate, stack, above, member, mirror) {
            Some(placed) => Some(Place { mirror, placed }),
            None => None,
        },
        Err(_) => None,
    }
}

/// The same of a field that was resolved.
fn instance_at<L: Ledger>(
    isolate: &mut Isolate,
    table: &Table,
    stack: &Stack,
    above: usize,
    field: FieldAt,
    steps: &mut Steps<L>,
) -> Option<InstanceAt>
    requires files { table.now.files ≡ isolate.old.files }
    ensures at { (definition : Result MemberNameOf StopOf) → HasField field definition → IfSome result (λ at. HasInstance isolate.new at definition) }
    ensures same { named isolate.new ≡ named isolate.old }
    ensures links { isolate.new.env.links ≡ isolate.old.env.links }
    ensures grows { Grows isolate.old isolate.new }
{
    let place = match field_named(&field) {
        Some(member) => place_found(isolate, table, stack, above, &member, steps),
        None => None,
    };
    match place {
        Some(place) => Some(InstanceAt {
            field,
            mirror: place.mirror,
            placed: place.placed,
        }),
        None => None,
    }
}

/// Keeps the instance field that the entry of an index of the constant pool of the current frame's class names, where that is to be found.
#[tactic(auto, using(crate::proofs::Growing::instance_kept, crate::proofs::Growing::kept_grows))]
fn keep_instance<L: Ledger>(
    isolate: &mut Isolate,
    table: &Table,
    kept: &mut Kept,
    stack: &Stack,
    above: usize,
    index: u16,
    steps: &mut Steps<L>,
)
    requires files { table.now.files ≡ isolate.old.files }
    requires frame { IsSome stack.now.rest.below.key }
    requires method { RunsMethod stack.now }
    requires keys { AreKeys isolate.old stack.now }
    requires kept { AreKept isolate.old kept.old }
    ensures kept { AreKept isolate.new kept.new }
    ensures same { named isolate.new ≡ named isolate.old }
    ensures links { isolate.new.env.links ≡ isolate.old.env.links }
    ensures grows { Grows isolate.old isolate.new }
{
    if let Some(key) = stack.top() {
        if let Ok(field) = field_entry(isolate, table, false, stack, index, steps) {
            if let Some(at) = instance_at(isolate, table, stack, above, field, steps) {
                kept.keep(Entry {
                    home: key.mirror,
                    index,
                    meaning: Meaning::Instance(at),
                });
            }
        }
    }
}

/// The same field for one more owner.
fn same_field(field: &FieldAt) -> Option<FieldAt>
    ensures { IfSome result (λ other. other ≡ field.now) }
{
    match field.class.share() {
        Ok(class) => Some(FieldAt {
            class,
            found: field.found,
            slot: field.slot,
        }),
        Err(_) => None,
    }
}

/// Whether objects of the class of a number have a field.
fn have_field(isolate: &Isolate, receiver: u32, field: &FieldAt) -> bool
    requires { IsClass isolate.now receiver }
    ensures { result ≡ true → (member : MemberNameOf) → field_named field.now ≡ Some member → suits (look_of isolate.now) (of_class (name_at isolate.now receiver)) (of_class member.class) ≡ true }
{
    match field_named(field) {
        Some(member) => are_of(isolate, receiver, member.class()),
        None => false,
    }
}

/// What is kept of a field, for objects of another class, if they have it.
#[tactic(auto, using(crate::proofs::Turning::turned))]
fn for_objects_of(isolate: &Isolate, at: &InstanceAt, receiver: u32) -> Option<InstanceAt>
    requires { IsClass isolate.now receiver }
    ensures { (definition : Result MemberNameOf StopOf) → HasInstance isolate.now at.now definition → IfSome result (λ at. HasInstance isolate.now at definition) }
{
    if !have_field(isolate, receiver, &at.field) {
        return None;
    }
    match same_field(&at.field) {
        Some(field) => Some(InstanceAt {
            field,
            mirror: at.mirror,
            placed: PlacedAt {
                place: at.placed.place,
                receiver,
            },
        }),
        None => None,
    }
}

/// The same for the object on which so many slots of operands stand, if its class is not the one that is kept.
fn turned(isolate: &Isolate, stack: &Stack, above: usize, at: &InstanceAt) -> Option<InstanceAt>
    ensures { (definition : Result MemberNameOf StopOf) → HasInstance isolate.now at.now definition → IfSome result (λ at. HasInstance isolate.now at definition) }
{
    match class_beneath(isolate, stack, above) {
        Some(receiver) => {
            if receiver == at.placed.receiver {
                None
            } else {
                for_objects_of(isolate, at, receiver)
            }
        }
        None => None,
    }
}

/// Keeps an instance field that the entry of an index of the constant pool of the current frame's class names.
fn keep_at(isolate: &Isolate, kept: &mut Kept, stack: &Stack, at: InstanceAt, index: u16)
    requires frame { IsSome stack.now.rest.below.key }
    requires method { RunsMethod stack.now }
    requires keys { AreKeys isolate.now stack.now }
    requires kept { AreKept isolate.now kept.old }
    requires at { HasInstance isolate.now at (field_entry (look_of isolate.now) false index (top_named isolate.now stack.now)) }
    ensures { AreKept isolate.now kept.new }
{
    if let Some(key) = stack.top() {
        kept.keep(Entry {
            home: key.mirror,
            index,
            meaning: Meaning::Instance(at),
        });
    }
}

/// Keeps the field, unless it is kept, for objects of the class of the object on which so many slots of operands stand.
#[tactic(auto, using(mvm_isolate::proofs::Keeping::grows_same))]
fn look_up<L: Ledger>(
    isolate: &mut Isolate,
    table: &Table,
    kept: &mut Kept,
    stack: &Stack,
    above: usize,
    index: u16,
    steps: &mut Steps<L>,
)
    requires files { table.now.files ≡ isolate.old.files }
    requires frame { IsSome stack.now.rest.below.key }
    requires method { RunsMethod stack.now }
    requires keys { AreKeys isolate.old stack.now }
    requires kept { AreKept isolate.old kept.old }
    ensures kept { AreKept isolate.new kept.new }
    ensures same { named isolate.new ≡ named isolate.old }
    ensures links { isolate.new.env.links ≡ isolate.old.env.links }
    ensures grows { Grows isolate.old isolate.new }
{
    match instance_found(isolate, kept, stack, index) {
        Some(at) => {
            if let Some(at) = turned(isolate, stack, above, at) {
                keep_at(isolate, kept, stack, at, index);
            }
        }
        None => keep_instance(isolate, table, kept, stack, above, index, steps),
    }
}

/// `getfield` by what is kept.
#[tactic(auto, unfolding(mvm_object::specs::Fields::get_field))]
fn get_kept(
    isolate: &Isolate,
    stack: &mut Stack,
    at: &InstanceAt,
    index: u16,
    next: u32,
) -> Result<(), Stop>
    requires frame { IsSome stack.old.rest.below.key }
    requires method { RunsMethod stack.old }
    requires at { HasInstance isolate.now at.now (field_entry (look_of isolate.now) false index (top_named isolate.now stack.old)) }
    ensures does { (c : Context) → c.look ≡ look_of isolate.now → GoesOn result (get_field c index next (point_of isolate.now stack.old)) isolate.now stack.new c.object }
    ensures below { stack.new.rest.below ≡ stack.old.rest.below }
    ensures rest { OnErr result (stack.new.rest ≡ stack.old.rest) }
    ensures depth { OnErr result (stack.new.operands.depth ≡ stack.old.operands.depth) }
    // Where memory ran out the stack is as before.
    ensures memory { result ≡ Err OutOfMemory → stack.new ≡ stack.old }
{
    let _class = isolate.class(at.mirror);
    match field_named(&at.field) {
        Some(member) => field_pushed_at(isolate, stack, &member, at.mirror, at.placed, next),
        None => unreachable!(),
    }
}

/// `getfield`, by what is kept of its entry if anything is.
#[tactic(auto, using(mvm_isolate::proofs::Keeping::grows_same))]
fn get_by<L: Ledger>(
    isolate: &mut Isolate,
    table: &Table,
    kept: &Kept,
    stack: &mut Stack,
    index: u16,
    next: u32,
    steps: &mut Steps<L>,
) -> Result<(), Stop>
    requires files { table.now.files ≡ isolate.old.files }
    requires frame { IsSome stack.old.rest.below.key }
    requires method { RunsMethod stack.old }
    requires keys { AreKeys isolate.old stack.old }
    requires kept { AreKept isolate.old kept.now }
    ensures does { (c : Context) → c.look ≡ look_of isolate.old → GoesOn result (get_field c index next (point_of isolate.old stack.old)) isolate.new stack.new c.object }
    ensures below { stack.new.rest.below ≡ stack.old.rest.below }
    ensures rest { OnErr result (stack.new.rest ≡ stack.old.rest) }
    ensures depth { OnErr result (stack.new.operands.depth ≡ stack.old.operands.depth) }
    // Where memory ran out the stack is as before.
    ensures memory { result ≡ Err OutOfMemory → stack.new ≡ stack.old }
    ensures same { named isolate.new ≡ named isolate.old }
    ensures links { isolate.new.env.links ≡ isolate.old.env.links }
    ensures grows { Grows isolate.old isolate.new }
{
    match instance_found(isolate, kept, stack, index) {
        Some(at) => get_kept(isolate, stack, at, index, next),
        None => mvm_object::get_field(isolate, table, stack, index, next, steps),
    }
}

/// `getfield`, by what is kept of its entry, which is kept from now on if it is to be found.
///
/// # Errors
///
/// Those of `getfield` by names.
pub fn get_field<L: Ledger>(
    isolate: &mut Isolate,
    table: &Table,
    kept: &mut Kept,
    stack: &mut Stack,
    index: u16,
    next: u32,
    steps: &mut Steps<L>,
) -> Result<(), Stop>
    requires files { table.now.files ≡ isolate.old.files }
    requires frame { IsSome stack.old.rest.below.key }
    requires method { RunsMethod stack.old }
    requires keys { AreKeys isolate.old stack.old }
    requires kept { AreKept isolate.old kept.old }
    ensures does { (c : Context) → c.look ≡ look_of isolate.old → GoesOn result (get_field c index next (point_of isolate.old stack.old)) isolate.new stack.new c.object }
    ensures below { stack.new.rest.below ≡ stack.old.rest.below }
    ensures rest { OnErr result (stack.new.rest ≡ stack.old.rest) }
    ensures depth { OnErr result (stack.new.operands.depth ≡ stack.old.operands.depth) }
    // Where memory ran out the stack is as before.
    ensures memory { result ≡ Err OutOfMemory → stack.new ≡ stack.old }
    ensures same { named isolate.new ≡ named isolate.old }
    ensures links { isolate.new.env.links ≡ isolate.old.env.links }
    ensures kept { AreKept isolate.new kept.new }
    ensures grows { Grows isolate.old isolate.new }
{
    look_up(isolate, table, kept, stack, 0, index, steps);
    get_by(isolate, table, kept, stack, index, next, steps)
}

/// `putfield` by what is kept.
#[tactic(auto, using(mvm_isolate::proofs::Keeping::grows_same), unfolding(mvm_object::specs::Fields::put_field))]
fn put_kept(
    isolate: &mut Isolate,
    stack: &mut Stack,
    at: &InstanceAt,
    index: u16,
    next: u32,
) -> Result<(), Stop>
    requires frame { IsSome stack.old.rest.below.key }
    requires method { RunsMethod stack.old }
    requires keys { AreKeys isolate.old stack.old }
    requires at { HasInstance isolate.old at.now (field_entry (look_of isolate.old) false index (top_named isolate.old stack.old)) }
    ensures does { (c : Context) → c.look ≡ look_of isolate.old → GoesOn result (put_field c index next (point_of isolate.old stack.old)) isolate.new stack.new c.object }
    ensures below { stack.new.rest.below ≡ stack.old.rest.below }
    ensures rest { OnErr result (stack.new.rest ≡ stack.old.rest) }
    ensures depth { OnErr result (stack.new.operands.depth ≡ stack.old.operands.depth) }
    // Where memory ran out the stack is as before.
    ensures memory { result ≡ Err OutOfMemory → stack.new ≡ stack.old }
    ensures err { OnErr result (named isolate.new ≡ named isolate.old) }
    ensures links { isolate.new.env.links ≡ isolate.old.env.links }
    ensures grows { Grows isolate.old isolate.new }
{
    let _class = isolate.class(at.mirror);
    match field_named(&at.field) {
        Some(member) => {
            may_store(isolate, stack, "<init>", &member)?;
            field_popped_at(isolate, stack, &member, at.mirror, at.placed, next)
        }
        None => unreachable!(),
    }
}

/// `putfield`, by what is kept of its entry if anything is.
fn put_by<L: Ledger>(
    isolate: &mut Isolate,
    table: &Table,
    kept: &Kept,
    stack: &mut Stack,
    index: u16,
    next: u32,
    steps: &mut Steps<L>,
) -> Result<(), Stop>
    requires files { table.now.files ≡ isolate.old.files }
    requires frame { IsSome stack.old.rest.below.key }
    requires method { RunsMethod stack.old }
    requires keys { AreKeys isolate.old stack.old }
    requires kept { AreKept isolate.old kept.now }
    ensures does { (c : Context) → c.look ≡ look_of isolate.old → GoesOn result (put_field c index next (point_of isolate.old stack.old)) isolate.new stack.new c.object }
    ensures below { stack.new.rest.below ≡ stack.old.rest.below }
    ensures rest { OnErr result (stack.new.rest ≡ stack.old.rest) }
    ensures depth { OnErr result (stack.new.operands.depth ≡ stack.old.operands.depth) }
    // Where memory ran out the stack is as before.
    ensures memory { result ≡ Err OutOfMemory → stack.new ≡ stack.old }
    ensures err { OnErr result (named isolate.new ≡ named isolate.old) }
    ensures links { isolate.new.env.links ≡ isolate.old.env.links }
    ensures grows { Grows isolate.old isolate.new }
{
    match instance_found(isolate, kept, stack, index) {
        Some(at) => put_kept(isolate, stack, at, index, next),
        None => mvm_object::put_field(isolate, table, stack, index, next, steps),
    }
}

/// `putfield`, by what is kept of its entry, which is kept from now on if it is to be found.
///
/// # Errors
///
/// Those of `putfield` by names.
pub fn put_field<L: Ledger>(
    isolate: &mut Isolate,
    table: &Table,
    kept: &mut Kept,
    stack: &mut Stack,
    index: u16,
    next: u32,
    steps: &mut Steps<L>,
) -> Result<(), Stop>
    requires files { table.now.files ≡ isolate.old.files }
    requires frame { IsSome stack.old.rest.below.key }
    requires method { RunsMethod stack.old }
    requires keys { AreKeys isolate.old stack.old }
    requires kept { AreKept isolate.old kept.old }
    ensures does { (c : Context) → c.look ≡ look_of isolate.old → GoesOn result (put_field c index next (point_of isolate.old stack.old)) isolate.new stack.new c.object }
    ensures below { stack.new.rest.below ≡ stack.old.rest.below }
    ensures rest { OnErr result (stack.new.rest ≡ stack.old.rest) }
    ensures depth { OnErr result (stack.new.operands.depth ≡ stack.old.operands.depth) }
    // Where memory ran out the stack is as before.
    ensures memory { result ≡ Err OutOfMemory → stack.new ≡ stack.old }
    ensures err { OnErr result (named isolate.new ≡ named isolate.old) }
    ensures links { isolate.new.env.links ≡ isolate.old.env.links }
    ensures kept { AreKept isolate.new kept.new }
    ensures grows { Grows isolate.old isolate.new }
{
    let above = slots_on_top(stack);
    look_up(isolate, table, kept, stack, above, index, steps);
    put_by(isolate, table, kept, stack, index, next, steps)
}
