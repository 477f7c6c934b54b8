//! Static fields (JVM Specification 6.5: getstatic, putstatic), by what is kept of their entries.

ghost use Rattle.std.specs.Prelude.{◌≡◌, true, Err, IsSome, IfErr, IfOk, IfSome, OnErr, Result};
ghost use Rattle.mvm_isolate.specs.Numbered.{look_of, name_at, named, IsClass};
ghost use Rattle.mvm_isolate.specs.Sound.{Grows};
ghost use Rattle.mvm_isolate.specs.declared.stop.Stop.{Stop as StopOf};
ghost use Rattle.mvm_isolate.specs.declared.stop.Stop.TheVariants.{OutOfMemory};
ghost use Rattle.mvm_current.specs.Entries.{field_entry};
ghost use Rattle.mvm_current.specs.Found.{HasField};
ghost use Rattle.mvm_current.specs.Keys.{top_named, AreKeys, IsStackOf, RunsMethod};
ghost use Rattle.mvm_member.specs.Members.{MemberName as MemberNameOf};
ghost use Rattle.mvm_mirror.specs.States.{begun};
ghost use Rattle.mvm_object.specs.Coming.{point_of, Comes, IsFor, IsState};
ghost use Rattle.mvm_object.specs.Entries.{once_initialised};
ghost use Rattle.mvm_object.specs.Fields.{get_static, put_static, static_popped, static_pushed};
ghost use Rattle.mvm_object.specs.Going.{Context};
ghost use Rattle.mvm_object.specs.Slots.{IsSlotOf};
ghost use Rattle.mvm_kept.specs.Kept.{AreKept, HasStatic};

use crate::entry::{Asked, Entry, Meaning, StaticAt};
use crate::initialised::goes;
use crate::kept::Kept;
use mvm_base::Steps;
use mvm_current::{field_entry, may_store};
use mvm_frame::Stack;
use mvm_isolate::{Isolate, Stop};
use mvm_member::{MemberName, field_named, static_place};
use mvm_mirror::{Begin, slot_law};
use mvm_object::{ThreadState, static_popped_at, static_pushed_at};
use mvm_table::{FieldAt, Table};
use std::sync::ledger::Ledger;

/// Where the value of a static field stands.
#[derive(Clone, Copy)]
struct Place {
    /// The number of the class that declares it.
    mirror: u32,
    /// Its slot among the static fields of that class.
    slot: u32,
}

/// The static field that the entry of an index of the constant pool of the current frame's class names, if that is kept.
#[tactic(auto, using(crate::proofs::Growing::field_found))]
fn static_found<'a>(
    isolate: &Isolate,
    kept: &'a Kept,
    stack: &Stack,
    index: u16,
) -> Option<&'a StaticAt>
    requires frame { IsSome stack.now.rest.below.key }
    requires method { RunsMethod stack.now }
    requires keys { AreKeys isolate.now stack.now }
    requires kept { AreKept isolate.now kept.now }
    ensures { IfSome result (λ at. HasStatic isolate.now at.now (field_entry (look_of isolate.now) true index (top_named isolate.now stack.now))) }
{
    match stack.top() {
        Some(key) => match kept.get(key.mirror, index, Asked::Static) {
            Some(Meaning::Static(at)) => Some(at),
            _ => None,
        },
        None => unreachable!(),
    }
}

/// The slot of the static field that the class of a number declares, if it declares it.
fn slot_of(isolate: &Isolate, member: &MemberName<'_>, mirror: u32) -> Option<u32>
    requires { IsClass isolate.now mirror }
    ensures { IfSome result (λ slot. IsSlotOf isolate.now mirror member.now slot) }
{
    slot_law();
    static_place(isolate.class(mirror).get(), member.name(), member.desc())
}

/// The number of the class that declares a static field, and its slot there, where the class can be loaded.
fn place_of<L: Ledger>(
    isolate: &mut Isolate,
    table: &Table,
    member: &MemberName<'_>,
    steps: &mut Steps<L>,
) -> Option<Place>
    requires files { table.now.files ≡ isolate.old.files }
    ensures class { IfSome result (λ place. IsClass isolate.new place.mirror) }
    ensures name { IfSome result (λ place. name_at isolate.new place.mirror ≡ member.now.class) }
    ensures slot { IfSome result (λ place. IsSlotOf isolate.new place.mirror member.now place.slot) }
    ensures same { named isolate.new ≡ named isolate.old }
    ensures links { isolate.new.env.links ≡ isolate.old.env.links }
    ensures grows { Grows isolate.old isolate.new }
{
    match isolate.load(table, member.class(), steps) {
        Ok(mirror) => match slot_of(isolate, member, mirror) {
            Some(slot) => Some(Place { mirror, slot }),
            None => None,
        },
        Err(_) => None,
    }
}

/// The same of a field that was resolved.
fn static_at<L: Ledger>(
    isolate: &mut Isolate,
    table: &Table,
    field: FieldAt,
    steps: &mut Steps<L>,
) -> Option<StaticAt>
    requires files { table.now.files ≡ isolate.old.files }
    ensures at { (definition : Result MemberNameOf StopOf) → HasField field definition → IfSome result (λ at. HasStatic isolate.new at definition) }
    ensures same { named isolate.new ≡ named isolate.old }
    ensures links { isolate.new.env.links ≡ isolate.old.env.links }
    ensures grows { Grows isolate.old isolate.new }
{
    let place = match field_named(&field) {
        Some(member) => place_of(isolate, table, &member, steps),
        None => None,
    };
    match place {
        Some(place) => Some(StaticAt {
            field,
            mirror: place.mirror,
            slot: place.slot,
        }),
        None => None,
    }
}

/// Keeps the static field that the entry of an index of the constant pool of the current frame's class names, where that is to be found.
#[tactic(auto, using(crate::proofs::Growing::static_kept, crate::proofs::Growing::kept_grows))]
fn keep_static<L: Ledger>(
    isolate: &mut Isolate,
    table: &Table,
    kept: &mut Kept,
    stack: &Stack,
    index: u16,
    steps: &mut Steps<L>,
)
    requires files { table.now.files ≡ isolate.old.files }
    requires frame { IsSome stack.now.rest.below.key }
    requires method { RunsMethod stack.now }
    requires keys { AreKeys isolate.old stack.now }
    requires kept { AreKept isolate.old kept.old }
    ensures kept { AreKept isolate.new kept.new }
    ensures same { named isolate.new ≡ named isolate.old }
    ensures links { isolate.new.env.links ≡ isolate.old.env.links }
    ensures grows { Grows isolate.old isolate.new }
{
    if let Some(key) = stack.top() {
        if let Ok(field) = field_entry(isolate, table, true, stack, index, steps) {
            if let Some(at) = static_at(isolate, table, field, steps) {
                kept.keep(Entry {
                    home: key.mirror,
                    index,
                    meaning: Meaning::Static(at),
                });
            }
        }
    }
}

/// The same, unless it is kept.
#[tactic(auto, using(mvm_isolate::proofs::Keeping::grows_same))]
fn look_up<L: Ledger>(
    isolate: &mut Isolate,
    table: &Table,
    kept: &mut Kept,
    stack: &Stack,
    index: u16,
    steps: &mut Steps<L>,
)
    requires files { table.now.files ≡ isolate.old.files }
    requires frame { IsSome stack.now.rest.below.key }
    requires method { RunsMethod stack.now }
    requires keys { AreKeys isolate.old stack.now }
    requires kept { AreKept isolate.old kept.old }
    ensures kept { AreKept isolate.new kept.new }
    ensures same { named isolate.new ≡ named isolate.old }
    ensures links { isolate.new.env.links ≡ isolate.old.env.links }
    ensures grows { Grows isolate.old isolate.new }
{
    if static_found(isolate, kept, stack, index).is_none() {
        keep_static(isolate, table, kept, stack, index, steps);
    }
}

/// `getstatic` of a field whose class is initialised.
#[tactic(auto, using(crate::proofs::AtOnce::once_done))]
fn get_done(
    isolate: &mut Isolate,
    stack: &mut Stack,
    thread: u32,
    member: &MemberName<'_>,
    place: Place,
    next: u32,
) -> Result<ThreadState, Stop>
    requires frame { IsSome stack.old.rest.below.key }
    requires method { RunsMethod stack.old }
    requires keys { AreKeys isolate.old stack.old }
    requires class { IsClass isolate.old place.mirror }
    requires name { name_at isolate.old place.mirror ≡ member.now.class }
    requires slot { IsSlotOf isolate.old place.mirror member.now place.slot }
    requires done { begun thread ((named isolate.old).classes.states (name_at isolate.old place.mirror)) ≡ Begin.Done }
    ensures does { (c : Context) → IsFor c isolate.old thread → Comes result (once_initialised c member.now.class (point_of isolate.old stack.old) (static_pushed c next member.now)) isolate.new stack.new c.object }
    ensures state { IfOk result (IsState isolate.new) }
    ensures below { stack.new.rest.below ≡ stack.old.rest.below }
    ensures stack { OnErr result (stack.new ≡ stack.old) }
    ensures err { OnErr result (named isolate.new ≡ named isolate.old) }
    ensures links { isolate.new.env.links ≡ isolate.old.env.links }
    ensures grows { Grows isolate.old isolate.new }
{
    let _class = isolate.class(place.mirror);
    static_pushed_at(isolate, stack, member, place.mirror, place.slot, next)?;
    Ok(ThreadState::Ready)
}

/// `getstatic` by what is kept, of a field whose class is initialised.
#[tactic(auto, unfolding(mvm_object::specs::Fields::get_static))]
fn get_kept(
    isolate: &mut Isolate,
    stack: &mut Stack,
    thread: u32,
    at: &StaticAt,
    index: u16,
    next: u32,
) -> Result<ThreadState, Stop>
    requires frame { IsSome stack.old.rest.below.key }
    requires method { RunsMethod stack.old }
    requires keys { AreKeys isolate.old stack.old }
    requires at { HasStatic isolate.old at.now (field_entry (look_of isolate.old) true index (top_named isolate.old stack.old)) }
    requires done { begun thread ((named isolate.old).classes.states (name_at isolate.old at.now.mirror)) ≡ Begin.Done }
    ensures does { (c : Context) → IsFor c isolate.old thread → Comes result (get_static c index next (point_of isolate.old stack.old)) isolate.new stack.new c.object }
    ensures state { IfOk result (IsState isolate.new) }
    ensures below { stack.new.rest.below ≡ stack.old.rest.below }
    ensures stack { OnErr result (stack.new ≡ stack.old) }
    ensures err { OnErr result (named isolate.new ≡ named isolate.old) }
    ensures links { isolate.new.env.links ≡ isolate.old.env.links }
    ensures grows { Grows isolate.old isolate.new }
{
    let place = Place {
        mirror: at.mirror,
        slot: at.slot,
    };
    match field_named(&at.field) {
        Some(member) => get_done(isolate, stack, thread, &member, place, next),
        None => unreachable!(),
    }
}

/// `getstatic`, by what is kept of its entry if anything is.
fn get_by<L: Ledger>(
    isolate: &mut Isolate,
    table: &Table,
    kept: &Kept,
    stack: &mut Stack,
    thread: u32,
    index: u16,
    next: u32,
    steps: &mut Steps<L>,
) -> Result<ThreadState, Stop>
    requires files { table.now.files ≡ isolate.old.files }
    requires frame { IsSome stack.old.rest.below.key }
    requires method { RunsMethod stack.old }
    requires keys { AreKeys isolate.old stack.old }
    requires limits { IsStackOf isolate.old.env.launch.limits stack.old }
    requires kept { AreKept isolate.old kept.now }
    ensures does { (c : Context) → IsFor c isolate.old thread → Comes result (get_static c index next (point_of isolate.old stack.old)) isolate.new stack.new c.object }
    ensures state { IfOk result (IsState isolate.new) }
    ensures frame { IsSome stack.new.rest.below.key }
    ensures keys { AreKeys isolate.new stack.new }
    ensures limits { IsStackOf isolate.new.env.launch.limits stack.new }
    ensures stack { OnErr result (stack.new ≡ stack.old) }
    ensures err { OnErr result (named isolate.new ≡ named isolate.old) }
    ensures links { isolate.new.env.links ≡ isolate.old.env.links }
    ensures grows { Grows isolate.old isolate.new }
{
    if let Some(at) = static_found(isolate, kept, stack, index) {
        if goes(isolate, thread, at.mirror) {
            return get_kept(isolate, stack, thread, at, index, next);
        }
    }
    mvm_object::get_static(isolate, table, stack, thread, index, next, steps)
}

/// `getstatic`, by what is kept of its entry, which is kept from now on if it is to be found.
///
/// # Errors
///
/// Those of `getstatic` by names.
pub fn get_static<L: Ledger>(
    isolate: &mut Isolate,
    table: &Table,
    kept: &mut Kept,
    stack: &mut Stack,
    thread: u32,
    index: u16,
    next: u32,
    steps: &mut Steps<L>,
) -> Result<ThreadState, Stop>
    requires files { table.now.files ≡ isolate.old.files }
    requires frame { IsSome stack.old.rest.below.key }
    requires method { RunsMethod stack.old }
    requires keys { AreKeys isolate.old stack.old }
    requires limits { IsStackOf isolate.old.env.launch.limits stack.old }
    requires kept { AreKept isolate.old kept.old }
    ensures does { (c : Context) → IsFor c isolate.old thread → Comes result (get_static c index next (point_of isolate.old stack.old)) isolate.new stack.new c.object }
    ensures state { IfOk result (IsState isolate.new) }
    ensures frame { IsSome stack.new.rest.below.key }
    ensures keys { AreKeys isolate.new stack.new }
    ensures limits { IsStackOf isolate.new.env.launch.limits stack.new }
    ensures stack { OnErr result (stack.new ≡ stack.old) }
    ensures err { OnErr result (named isolate.new ≡ named isolate.old) }
    ensures links { isolate.new.env.links ≡ isolate.old.env.links }
    ensures kept { AreKept isolate.new kept.new }
    ensures grows { Grows isolate.old isolate.new }
{
    look_up(isolate, table, kept, stack, index, steps);
    get_by(isolate, table, kept, stack, thread, index, next, steps)
}

/// `putstatic` of a field whose class is initialised.
#[tactic(auto, using(crate::proofs::AtOnce::once_done))]
fn put_done(
    isolate: &mut Isolate,
    stack: &mut Stack,
    thread: u32,
    member: &MemberName<'_>,
    place: Place,
    next: u32,
) -> Result<ThreadState, Stop>
    requires frame { IsSome stack.old.rest.below.key }
    requires method { RunsMethod stack.old }
    requires keys { AreKeys isolate.old stack.old }
    requires class { IsClass isolate.old place.mirror }
    requires name { name_at isolate.old place.mirror ≡ member.now.class }
    requires slot { IsSlotOf isolate.old place.mirror member.now place.slot }
    requires done { begun thread ((named isolate.old).classes.states (name_at isolate.old place.mirror)) ≡ Begin.Done }
    ensures does { (c : Context) → IsFor c isolate.old thread → Comes result (once_initialised c member.now.class (point_of isolate.old stack.old) (static_popped c next member.now)) isolate.new stack.new c.object }
    ensures state { IfOk result (IsState isolate.new) }
    ensures below { stack.new.rest.below ≡ stack.old.rest.below }
    ensures rest { OnErr result (stack.new.rest ≡ stack.old.rest) }
    ensures depth { OnErr result (stack.new.operands.depth ≡ stack.old.operands.depth) }
    // Where memory ran out the stack is as before.
    ensures memory { result ≡ Err OutOfMemory → stack.new ≡ stack.old }
    ensures err { OnErr result (named isolate.new ≡ named isolate.old) }
    ensures links { isolate.new.env.links ≡ isolate.old.env.links }
    ensures grows { Grows isolate.old isolate.new }
{
    let _class = isolate.class(place.mirror);
    static_popped_at(isolate, stack, member, place.mirror, place.slot, next)?;
    Ok(ThreadState::Ready)
}

/// `putstatic` by what is kept, of a field whose class is initialised.
#[tactic(auto, unfolding(mvm_object::specs::Fields::put_static))]
fn put_kept(
    isolate: &mut Isolate,
    stack: &mut Stack,
    thread: u32,
    at: &StaticAt,
    index: u16,
    next: u32,
) -> Result<ThreadState, Stop>
    requires frame { IsSome stack.old.rest.below.key }
    requires method { RunsMethod stack.old }
    requires keys { AreKeys isolate.old stack.old }
    requires at { HasStatic isolate.old at.now (field_entry (look_of isolate.old) true index (top_named isolate.old stack.old)) }
    requires done { begun thread ((named isolate.old).classes.states (name_at isolate.old at.now.mirror)) ≡ Begin.Done }
    ensures does { (c : Context) → IsFor c isolate.old thread → Comes result (put_static c index next (point_of isolate.old stack.old)) isolate.new stack.new c.object }
    ensures state { IfOk result (IsState isolate.new) }
    ensures below { stack.new.rest.below ≡ stack.old.rest.below }
    ensures rest { OnErr result (stack.new.rest ≡ stack.old.rest) }
    ensures depth { OnErr result (stack.new.operands.depth ≡ stack.old.operands.depth) }
    // Where memory ran out the stack is as before.
    ensures memory { result ≡ Err OutOfMemory → stack.new ≡ stack.old }
    ensures err { OnErr result (named isolate.new ≡ named isolate.old) }
    ensures links { isolate.new.env.links ≡ isolate.old.env.links }
    ensures grows { Grows isolate.old isolate.new }
{
    let place = Place {
        mirror: at.mirror,
        slot: at.slot,
    };
    match field_named(&at.field) {
        Some(member) => {
            may_store(isolate, stack, "<clinit>", &member)?;
            put_done(isolate, stack, thread, &member, place, next)
        }
        None => unreachable!(),
    }
}

/// `putstatic`, by what is kept of its entry if anything is.
fn put_by<L: Ledger>(
    isolate: &mut Isolate,
    table: &Table,
    kept: &Kept,
    stack: &mut Stack,
    thread: u32,
    index: u16,
    next: u32,
    steps: &mut Steps<L>,
) -> Result<ThreadState, Stop>
    requires files { table.now.files ≡ isolate.old.files }
    requires frame { IsSome stack.old.rest.below.key }
    requires method { RunsMethod stack.old }
    requires keys { AreKeys isolate.old stack.old }
    requires limits { IsStackOf isolate.old.env.launch.limits stack.old }
    requires kept { AreKept isolate.old kept.now }
    ensures does { (c : Context) → IsFor c isolate.old thread → Comes result (put_static c index next (point_of isolate.old stack.old)) isolate.new stack.new c.object }
    ensures state { IfOk result (IsState isolate.new) }
    ensures frame { IsSome stack.new.rest.below.key }
    ensures keys { AreKeys isolate.new stack.new }
    ensures limits { IsStackOf isolate.new.env.launch.limits stack.new }
    ensures rest { OnErr result (stack.new.rest ≡ stack.old.rest) }
    ensures depth { OnErr result (stack.new.operands.depth ≡ stack.old.operands.depth) }
    // Where memory ran out the stack is as before.
    ensures memory { result ≡ Err OutOfMemory → stack.new ≡ stack.old }
    ensures err { OnErr result (named isolate.new ≡ named isolate.old) }
    ensures links { isolate.new.env.links ≡ isolate.old.env.links }
    ensures grows { Grows isolate.old isolate.new }
{
    if let Some(at) = static_found(isolate, kept, stack, index) {
        if goes(isolate, thread, at.mirror) {
            return put_kept(isolate, stack, thread, at, index, next);
        }
    }
    mvm_object::put_static(isolate, table, stack, thread, index, next, steps)
}

/// `putstatic`, by what is kept of its entry, which is kept from now on if it is to be found.
///
/// # Errors
///
/// Those of `putstatic` by names.
pub fn put_static<L: Ledger>(
    isolate: &mut Isolate,
    table: &Table,
    kept: &mut Kept,
    stack: &mut Stack,
    thread: u32,
    index: u16,
    next: u32,
    steps: &mut Steps<L>,
) -> Result<ThreadState, Stop>
    requires files { table.now.files ≡ isolate.old.files }
    requires frame { IsSome stack.old.rest.below.key }
    requires method { RunsMethod stack.old }
    requires keys { AreKeys isolate.old stack.old }
    requires limits { IsStackOf isolate.old.env.launch.limits stack.old }
    requires kept { AreKept isolate.old kept.old }
    ensures does { (c : Context) → IsFor c isolate.old thread → Comes result (put_static c index next (point_of isolate.old stack.old)) isolate.new stack.new c.object }
    ensures state { IfOk result (IsState isolate.new) }
    ensures frame { IsSome stack.new.rest.below.key }
    ensures keys { AreKeys isolate.new stack.new }
    ensures limits { IsStackOf isolate.new.env.launch.limits stack.new }
    ensures rest { OnErr result (stack.new.rest ≡ stack.old.rest) }
    ensures depth { OnErr result (stack.new.operands.depth ≡ stack.old.operands.depth) }
    // Where memory ran out the stack is as before.
    ensures memory { result ≡ Err OutOfMemory → stack.new ≡ stack.old }
    ensures err { OnErr result (named isolate.new ≡ named isolate.old) }
    ensures links { isolate.new.env.links ≡ isolate.old.env.links }
    ensures kept { AreKept isolate.new kept.new }
    ensures grows { Grows isolate.old isolate.new }
{
    look_up(isolate, table, kept, stack, index, steps);
    put_by(isolate, table, kept, stack, thread, index, next, steps)
}
