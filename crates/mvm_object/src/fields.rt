//! Instance fields (JVM Specification 6.5: getfield, putfield).

ghost use Rattle.std.specs.Prelude.{◌≡◌, ◌≢◌, ◌<◌, ◌≤◌, ◌^◌, ℕ, true, Some, Err, length, IsSome, IfErr, IfOk, OnErr};
ghost use Rattle.mvm_set.specs.declared.class.Lineage.{Lineage};
ghost use Rattle.mvm_heap.specs.Heap.{object_at};
ghost use Rattle.mvm_heap.specs.declared.kind.ObjectKind.TheVariants.{Text};
ghost use Rattle.mvm_isolate.specs.Numbered.{class_at, look_of, name_at, named, IsClass};
ghost use Rattle.mvm_isolate.specs.Sound.{Grows};
ghost use Rattle.mvm_isolate.specs.Types.{of_class, suits};
ghost use Rattle.mvm_isolate.specs.declared.stop.Stop.TheVariants.{OutOfMemory};
ghost use Rattle.mvm_current.specs.Keys.{AreKeys, RunsMethod};
ghost use Rattle.mvm_object.specs.Coming.{point_of, GoesOn};
ghost use Rattle.mvm_object.specs.Fields.{field_loaded, field_place, field_popped, field_pushed, field_stored, get_field, must_be, place_in, put_field, within};
ghost use Rattle.mvm_object.specs.Going.{Context};
ghost use Rattle.mvm_object.specs.Slots.{IsPlacedAt};

use crate::going::{kind_by, pushing};
use mvm_base::{Kind, Name, Steps};
use mvm_current::{field_entry, may_store, not_null, pop, set_place};
use mvm_frame::Stack;
use mvm_heap::{ObjectKind, bits_of};
use mvm_instance::is_of_class;
use mvm_isolate::{Isolate, Stop, TypeAt, narrowed};
use mvm_member::{MemberName, field_named, place_of};
use mvm_native::Thrown;
use mvm_set::Class;
use mvm_table::Table;
use std::sync::ledger::Ledger;

/// Where objects have the value of a field that a class declares.
#[derive(Clone, Copy, Debug, PartialEq, Eq)]
pub struct PlacedAt {
    /// The place in an object.
    pub place: u32,
    /// The number of a class whose objects are of the class that declares the field.
    pub receiver: u32,
}

/// Whether an object is one of the class of a name.
#[tactic(auto, unfolding(crate::specs::Fields::must_be))]
pub(crate) fn must_be(isolate: &Isolate, name: &Name, object: u32) -> Result<(), Stop>
    ensures is { result ≡ must_be (look_of isolate.now) (of_class name.now) object (named isolate.now) }
    ensures memory { IfErr result (λ stop. stop ≢ Stop.OutOfMemory) }
{
    if is_of_class(isolate, name, object) {
        Ok(())
    } else {
        Err(Stop::Throw(Thrown::VerifyError))
    }
}

/// The same, of an object that most likely is one of the class of a number, whose objects are of the class of the name.
#[tactic(auto, unfolding(crate::specs::Fields::must_be, mvm_isolate::specs::Instances::is_instance, mvm_isolate::specs::Numbered::type_of))]
fn must_be_at(isolate: &Isolate, name: &Name, receiver: u32, object: u32) -> Result<(), Stop>
    requires { suits (look_of isolate.now) (of_class (name_at isolate.now receiver)) (of_class name.now) ≡ true }
    ensures is { result ≡ must_be (look_of isolate.now) (of_class name.now) object (named isolate.now) }
    ensures memory { IfErr result (λ stop. stop ≢ Stop.OutOfMemory) }
{
    match isolate.type_at(object) {
        Some(TypeAt::Class(mirror)) => {
            if mirror == receiver {
                Ok(())
            } else {
                must_be(isolate, name, object)
            }
        }
        _ => must_be(isolate, name, object),
    }
}

/// A place of an object with fields.
#[tactic(auto, unfolding(crate::specs::Fields::within))]
fn within(isolate: &Isolate, object: u32, place: u32) -> Result<u32, Stop>
    ensures is { result ≡ within (named isolate.now).heap.objects object place }
    ensures there { IfOk result (λ place. place < length (object_at (named isolate.now).heap.objects object).contents) }
    ensures sort { IfOk result (λ place. (object_at (named isolate.now).heap.objects object).sort ≢ Text) }
    ensures memory { IfErr result (λ stop. stop ≢ Stop.OutOfMemory) }
{
    if object >= isolate.count() {
        return Err(Stop::Throw(Thrown::VerifyError));
    }
    match isolate.kind_of(object) {
        ObjectKind::Object => {
            if place < isolate.length(object) {
                Ok(place)
            } else {
                Err(Stop::Throw(Thrown::VerifyError))
            }
        }
        ObjectKind::Array(_) | ObjectKind::Text => Err(Stop::Throw(Thrown::VerifyError)),
    }
}

/// Why no object has a place behind all that 32 bits count.
#[tactic(auto, unfolding(crate::specs::Fields::within))]
fn nowhere(isolate: &Isolate, object: u32) -> Stop
    ensures is { (place : ℕ) → 2 ^ 32 ≤ place → within (named isolate.now).heap.objects object place ≡ Err result }
    ensures stop { result ≡ Stop.Throw Thrown.VerifyError }
{
    if object < isolate.count() {
        let _few = isolate.length(object);
    }
    Stop::Throw(Thrown::VerifyError)
}

/// The place in an object of a field that a class declares.
fn place_in(
    isolate: &Isolate,
    class: &Class,
    member: &MemberName<'_>,
    object: u32,
) -> Result<u32, Stop>
    ensures is { result ≡ place_in member.now class.now object (named isolate.now) }
    ensures there { IfOk result (λ place. place < length (object_at (named isolate.now).heap.objects object).contents) }
    ensures sort { IfOk result (λ place. (object_at (named isolate.now).heap.objects object).sort ≢ Text) }
    ensures memory { IfErr result (λ stop. stop ≢ Stop.OutOfMemory) }
{
    match place_of(class, member.name(), member.desc()) {
        Some(place) => within(isolate, object, place),
        None => Err(nowhere(isolate, object)),
    }
}

/// Where an object has the value of a field that the class of a number declares.
#[tactic(auto, unfolding(crate::specs::Fields::field_place))]
fn field_place(
    isolate: &Isolate,
    member: &MemberName<'_>,
    mirror: u32,
    object: u32,
) -> Result<u32, Stop>
    requires { IsClass isolate.now mirror }
    ensures is { (class : Lineage) → class_at isolate.now mirror ≡ Some class → result ≡ field_place (look_of isolate.now) member.now class object (named isolate.now) }
    ensures there { IfOk result (λ place. place < length (object_at (named isolate.now).heap.objects object).contents) }
    ensures sort { IfOk result (λ place. (object_at (named isolate.now).heap.objects object).sort ≢ Text) }
    ensures memory { IfErr result (λ stop. stop ≢ Stop.OutOfMemory) }
{
    must_be(isolate, member.class(), object)?;
    place_in(isolate, isolate.class(mirror).get(), member, object)
}

/// The same of a field whose place is known, and of an object that most likely is one of the class of a number.
#[tactic(auto, unfolding(crate::specs::Fields::field_place))]
fn field_place_at(
    isolate: &Isolate,
    member: &MemberName<'_>,
    _mirror: u32,
    at: PlacedAt,
    object: u32,
) -> Result<u32, Stop>
    requires { IsPlacedAt isolate.now _mirror member.now at.place at.receiver }
    ensures is { (class : Lineage) → class_at isolate.now _mirror ≡ Some class → result ≡ field_place (look_of isolate.now) member.now class object (named isolate.now) }
    ensures there { IfOk result (λ place. place < length (object_at (named isolate.now).heap.objects object).contents) }
    ensures sort { IfOk result (λ place. (object_at (named isolate.now).heap.objects object).sort ≢ Text) }
    ensures memory { IfErr result (λ stop. stop ≢ Stop.OutOfMemory) }
{
    must_be_at(isolate, member.class(), at.receiver, object)?;
    within(isolate, object, at.place)
}

/// The value of the field of the object that is popped is pushed.
#[tactic(auto, unfolding(crate::specs::Fields::field_pushed, mvm_current::specs::Keys::callers_named))]
fn field_pushed(
    isolate: &Isolate,
    stack: &mut Stack,
    member: &MemberName<'_>,
    mirror: u32,
    next: u32,
) -> Result<(), Stop>
    requires frame { IsSome stack.old.rest.below.key }
    requires method { RunsMethod stack.old }
    requires class { IsClass isolate.now mirror }
    ensures does { (c : Context) (class : Lineage) → c.look ≡ look_of isolate.now → class_at isolate.now mirror ≡ Some class → GoesOn result (field_pushed c next member.now class (point_of isolate.now stack.old)) isolate.now stack.new c.object }
    ensures below { stack.new.rest.below ≡ stack.old.rest.below }
    ensures rest { OnErr result (stack.new.rest ≡ stack.old.rest) }
    ensures depth { OnErr result (stack.new.operands.depth ≡ stack.old.operands.depth) }
    // Where memory ran out the stack is as before.
    ensures memory { result ≡ Err OutOfMemory → stack.new ≡ stack.old }
{
    let word = pop(stack, Kind::Ref)?;
    let object = not_null(word)?;
    let place = field_place(isolate, member, mirror, object)?;
    let value = isolate.field(object, place, kind_by(member.desc()));
    pushing(stack, value, next)
}

/// The value of the field of the object that is popped is pushed, where the place of the field is known.
///
/// # Errors
///
/// A `NullPointerException`, or a `VerifyError` for what linked code has not.
#[tactic(auto, unfolding(crate::specs::Fields::field_pushed, mvm_current::specs::Keys::callers_named))]
pub fn field_pushed_at(
    isolate: &Isolate,
    stack: &mut Stack,
    member: &MemberName<'_>,
    mirror: u32,
    at: PlacedAt,
    next: u32,
) -> Result<(), Stop>
    requires frame { IsSome stack.old.rest.below.key }
    requires method { RunsMethod stack.old }
    requires class { IsClass isolate.now mirror }
    requires at { IsPlacedAt isolate.now mirror member.now at.place at.receiver }
    ensures does { (c : Context) (class : Lineage) → c.look ≡ look_of isolate.now → class_at isolate.now mirror ≡ Some class → GoesOn result (field_pushed c next member.now class (point_of isolate.now stack.old)) isolate.now stack.new c.object }
    ensures below { stack.new.rest.below ≡ stack.old.rest.below }
    ensures rest { OnErr result (stack.new.rest ≡ stack.old.rest) }
    ensures depth { OnErr result (stack.new.operands.depth ≡ stack.old.operands.depth) }
    // Where memory ran out the stack is as before.
    ensures memory { result ≡ Err OutOfMemory → stack.new ≡ stack.old }
{
    let word = pop(stack, Kind::Ref)?;
    let object = not_null(word)?;
    let place = field_place_at(isolate, member, mirror, at, object)?;
    let value = isolate.field(object, place, kind_by(member.desc()));
    pushing(stack, value, next)
}

/// `getfield` of a field. Its class is looked up before a value is popped.
fn field_loaded<L: Ledger>(
    isolate: &mut Isolate,
    table: &Table,
    stack: &mut Stack,
    member: &MemberName<'_>,
    next: u32,
    steps: &mut Steps<L>,
) -> Result<(), Stop>
    requires files { table.now.files ≡ isolate.old.files }
    requires frame { IsSome stack.old.rest.below.key }
    requires method { RunsMethod stack.old }
    requires keys { AreKeys isolate.old stack.old }
    ensures does { (c : Context) → c.look ≡ look_of isolate.old → GoesOn result (field_loaded c next member.now (point_of isolate.old stack.old)) isolate.new stack.new c.object }
    ensures below { stack.new.rest.below ≡ stack.old.rest.below }
    ensures rest { OnErr result (stack.new.rest ≡ stack.old.rest) }
    ensures depth { OnErr result (stack.new.operands.depth ≡ stack.old.operands.depth) }
    // Where memory ran out the stack is as before.
    ensures memory { result ≡ Err OutOfMemory → stack.new ≡ stack.old }
    ensures same { named isolate.new ≡ named isolate.old }
    ensures links { isolate.new.env.links ≡ isolate.old.env.links }
    ensures grows { Grows isolate.old isolate.new }
{
    let mirror = isolate.load(table, member.class(), steps)?;
    let _class = isolate.class(mirror);
    field_pushed(isolate, stack, member, mirror, next)
}

/// `getfield`.
///
/// # Errors
///
/// What is thrown for the first fault of the resolution, an `IncompatibleClassChangeError` where the field is static, a `NullPointerException`, or a
/// `VerifyError` for what linked code has not.
#[tactic(auto, unfolding(crate::specs::Fields::get_field))]
pub fn get_field<L: Ledger>(
    isolate: &mut Isolate,
    table: &Table,
    stack: &mut Stack,
    index: u16,
    next: u32,
    steps: &mut Steps<L>,
) -> Result<(), Stop>
    requires files { table.now.files ≡ isolate.old.files }
    requires frame { IsSome stack.old.rest.below.key }
    requires method { RunsMethod stack.old }
    requires keys { AreKeys isolate.old stack.old }
    ensures does { (c : Context) → c.look ≡ look_of isolate.old → GoesOn result (get_field c index next (point_of isolate.old stack.old)) isolate.new stack.new c.object }
    ensures below { stack.new.rest.below ≡ stack.old.rest.below }
    ensures rest { OnErr result (stack.new.rest ≡ stack.old.rest) }
    ensures depth { OnErr result (stack.new.operands.depth ≡ stack.old.operands.depth) }
    // Where memory ran out the stack is as before.
    ensures memory { result ≡ Err OutOfMemory → stack.new ≡ stack.old }
    ensures same { named isolate.new ≡ named isolate.old }
    ensures links { isolate.new.env.links ≡ isolate.old.env.links }
    ensures grows { Grows isolate.old isolate.new }
{
    let field = field_entry(isolate, table, false, stack, index, steps)?;
    match field_named(&field) {
        Some(member) => field_loaded(isolate, table, stack, &member, next, steps),
        None => unreachable!(),
    }
}

/// The field of the object that is popped has from now on the value that is popped first.
#[tactic(auto, unfolding(crate::specs::Fields::field_popped, mvm_current::specs::Keys::callers_named), using(mvm_current::proofs::Growth::top_grows, mvm_current::proofs::Growth::callers_grow))]
fn field_popped(
    isolate: &mut Isolate,
    stack: &mut Stack,
    member: &MemberName<'_>,
    mirror: u32,
    next: u32,
) -> Result<(), Stop>
    requires frame { IsSome stack.old.rest.below.key }
    requires method { RunsMethod stack.old }
    requires keys { AreKeys isolate.old stack.old }
    requires class { IsClass isolate.old mirror }
    ensures does { (c : Context) (class : Lineage) → c.look ≡ look_of isolate.old → class_at isolate.old mirror ≡ Some class → GoesOn result (field_popped c next member.now class (point_of isolate.old stack.old)) isolate.new stack.new c.object }
    ensures below { stack.new.rest.below ≡ stack.old.rest.below }
    ensures rest { OnErr result (stack.new.rest ≡ stack.old.rest) }
    ensures depth { OnErr result (stack.new.operands.depth ≡ stack.old.operands.depth) }
    // Where memory ran out the stack is as before.
    ensures memory { result ≡ Err OutOfMemory → stack.new ≡ stack.old }
    ensures err { OnErr result (named isolate.new ≡ named isolate.old) }
    ensures links { isolate.new.env.links ≡ isolate.old.env.links }
    ensures grows { Grows isolate.old isolate.new }
{
    let value = pop(stack, kind_by(member.desc()))?;
    let word = pop(stack, Kind::Ref)?;
    let object = not_null(word)?;
    let place = field_place(isolate, member, mirror, object)?;
    isolate.set_number(object, place, bits_of(narrowed(member.desc(), value)));
    set_place(stack, next);
    Ok(())
}

/// The field of the object that is popped has from now on the value that is popped first, where the place of the field is known.
///
/// # Errors
///
/// A `NullPointerException`, or a `VerifyError` for what linked code has not.
#[tactic(auto, unfolding(crate::specs::Fields::field_popped, mvm_current::specs::Keys::callers_named), using(mvm_current::proofs::Growth::top_grows, mvm_current::proofs::Growth::callers_grow))]
pub fn field_popped_at(
    isolate: &mut Isolate,
    stack: &mut Stack,
    member: &MemberName<'_>,
    mirror: u32,
    at: PlacedAt,
    next: u32,
) -> Result<(), Stop>
    requires frame { IsSome stack.old.rest.below.key }
    requires method { RunsMethod stack.old }
    requires keys { AreKeys isolate.old stack.old }
    requires class { IsClass isolate.old mirror }
    requires at { IsPlacedAt isolate.old mirror member.now at.place at.receiver }
    ensures does { (c : Context) (class : Lineage) → c.look ≡ look_of isolate.old → class_at isolate.old mirror ≡ Some class → GoesOn result (field_popped c next member.now class (point_of isolate.old stack.old)) isolate.new stack.new c.object }
    ensures below { stack.new.rest.below ≡ stack.old.rest.below }
    ensures rest { OnErr result (stack.new.rest ≡ stack.old.rest) }
    ensures depth { OnErr result (stack.new.operands.depth ≡ stack.old.operands.depth) }
    // Where memory ran out the stack is as before.
    ensures memory { result ≡ Err OutOfMemory → stack.new ≡ stack.old }
    ensures err { OnErr result (named isolate.new ≡ named isolate.old) }
    ensures links { isolate.new.env.links ≡ isolate.old.env.links }
    ensures grows { Grows isolate.old isolate.new }
{
    let value = pop(stack, kind_by(member.desc()))?;
    let word = pop(stack, Kind::Ref)?;
    let object = not_null(word)?;
    let place = field_place_at(isolate, member, mirror, at, object)?;
    isolate.set_number(object, place, bits_of(narrowed(member.desc(), value)));
    set_place(stack, next);
    Ok(())
}

/// `putfield` of a field. Its class is looked up before a value is popped.
#[tactic(auto, using(mvm_current::proofs::Growth::keys_grow, mvm_isolate::proofs::Keeping::grows_then))]
fn field_stored<L: Ledger>(
    isolate: &mut Isolate,
    table: &Table,
    stack: &mut Stack,
    member: &MemberName<'_>,
    next: u32,
    steps: &mut Steps<L>,
) -> Result<(), Stop>
    requires files { table.now.files ≡ isolate.old.files }
    requires frame { IsSome stack.old.rest.below.key }
    requires method { RunsMethod stack.old }
    requires keys { AreKeys isolate.old stack.old }
    ensures does { (c : Context) → c.look ≡ look_of isolate.old → GoesOn result (field_stored c next member.now (point_of isolate.old stack.old)) isolate.new stack.new c.object }
    ensures below { stack.new.rest.below ≡ stack.old.rest.below }
    ensures rest { OnErr result (stack.new.rest ≡ stack.old.rest) }
    ensures depth { OnErr result (stack.new.operands.depth ≡ stack.old.operands.depth) }
    // Where memory ran out the stack is as before.
    ensures memory { result ≡ Err OutOfMemory → stack.new ≡ stack.old }
    ensures err { OnErr result (named isolate.new ≡ named isolate.old) }
    ensures links { isolate.new.env.links ≡ isolate.old.env.links }
    ensures grows { Grows isolate.old isolate.new }
{
    let mirror = isolate.load(table, member.class(), steps)?;
    let _class = isolate.class(mirror);
    field_popped(isolate, stack, member, mirror, next)
}

/// `putfield`.
///
/// # Errors
///
/// What is thrown for the first fault of the resolution, an `IncompatibleClassChangeError` where the field is static, an `IllegalAccessError` where it is
/// final and its class's `<init>` does not run, a `NullPointerException`, or a `VerifyError` for what linked code has not.
#[tactic(auto, unfolding(crate::specs::Fields::put_field))]
pub fn put_field<L: Ledger>(
    isolate: &mut Isolate,
    table: &Table,
    stack: &mut Stack,
    index: u16,
    next: u32,
    steps: &mut Steps<L>,
) -> Result<(), Stop>
    requires files { table.now.files ≡ isolate.old.files }
    requires frame { IsSome stack.old.rest.below.key }
    requires method { RunsMethod stack.old }
    requires keys { AreKeys isolate.old stack.old }
    ensures does { (c : Context) → c.look ≡ look_of isolate.old → GoesOn result (put_field c index next (point_of isolate.old stack.old)) isolate.new stack.new c.object }
    ensures below { stack.new.rest.below ≡ stack.old.rest.below }
    ensures rest { OnErr result (stack.new.rest ≡ stack.old.rest) }
    ensures depth { OnErr result (stack.new.operands.depth ≡ stack.old.operands.depth) }
    // Where memory ran out the stack is as before.
    ensures memory { result ≡ Err OutOfMemory → stack.new ≡ stack.old }
    ensures err { OnErr result (named isolate.new ≡ named isolate.old) }
    ensures links { isolate.new.env.links ≡ isolate.old.env.links }
    ensures grows { Grows isolate.old isolate.new }
{
    let field = field_entry(isolate, table, false, stack, index, steps)?;
    match field_named(&field) {
        Some(member) => {
            may_store(isolate, stack, "<init>", &member)?;
            field_stored(isolate, table, stack, &member, next, steps)
        }
        None => unreachable!(),
    }
}
