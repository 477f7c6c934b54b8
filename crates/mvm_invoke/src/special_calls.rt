//! Calls of constructors, of private methods and of those of superclasses (JVM Specification 6.5: invokespecial).

ghost use Rattle.std.specs.Prelude.{◌≡◌, ◌<◌, ℕ, List, Some, Ok, IsSome, IfOk, IfErr, OnErr};
ghost use Rattle.mvm_base.specs.Answers.{Fails, AnswersUnless};
ghost use Rattle.mvm_member.specs.Members.{method_named, MemberName as MemberNameOf};
ghost use Rattle.std.specs.Option.{option_copied};
ghost use Rattle.mvm_isolate.specs.Numbered.{look_of, name_at, named, IsClass};
ghost use Rattle.mvm_isolate.specs.Sound.{Grows};
ghost use Rattle.mvm_current.specs.Keys.{top_named, AreKeys, IsStackOf, RunsMethod};
ghost use Rattle.mvm_object.specs.Coming.{point_of};
ghost use Rattle.mvm_object.specs.Going.{Context};
ghost use Rattle.mvm_invoke.specs.Calls.{current_class, first_or, has_super, invoke_special, or_else, special_method, special_selected, started, super_of};
ghost use Rattle.mvm_set.specs.Names.{superclass};
ghost use Rattle.mvm_invoke.specs.Found.{HasMember};
ghost use Rattle.mvm_invoke.specs.Leaving.{IsAfter, IsTold, Leaves, MayBegin};

use crate::caller::Caller;
use crate::calls::called_at;
use crate::left::{Left, Told};
use crate::receivers::{received_at, selected_in, shared};
use crate::targets::{call_target, is_constructor, referred};
use mvm_base::{Name, Steps};
use mvm_frame::Stack;
use mvm_isolate::{Isolate, Stop};
use mvm_layout::pool::class_name;
use mvm_member::method_named;
use mvm_native::Thrown;
use mvm_select::select_from;
use mvm_set::{Class, MethodAt, Shared, is_interface, is_subclass};
use mvm_table::Table;
use std::sync::ledger::Ledger;

/// The number of the class of the method that the current frame runs.
#[tactic(auto, using(crate::proofs::Referring::current_at))]
fn current_class(isolate: &Isolate, stack: &Stack) -> u32
    requires frame { IsSome stack.now.rest.below.key }
    requires method { RunsMethod stack.now }
    requires keys { AreKeys isolate.now stack.now }
    ensures there { IsClass isolate.now result }
    ensures name { current_class (top_named isolate.now stack.now).runs ≡ Ok (name_at isolate.now result) }
{
    match stack.top() {
        Some(key) => key.mirror,
        None => unreachable!(),
    }
}

/// Whether the class of a number inherits from another one of this name.
#[tactic(auto, unfolding(mvm_isolate::specs::Look::is_sub), using(mvm_instance::proofs::Sets::found))]
fn has_super(isolate: &Isolate, mirror: u32, name: &Name) -> bool
    requires { IsClass isolate.now mirror }
    ensures { result ≡ has_super (look_of isolate.now) name.now (name_at isolate.now mirror) }
{
    let class = isolate.class(mirror).get();
    is_subclass(class, name) && !isolate.class_name(mirror).same(name)
}

/// The name of the superclass of a class, if it has one.
fn superclass(class: &Class) -> Option<&Name>
    ensures { (name : List ℕ) → first_or name (superclass class.now.file) ≡ or_else name (option_copied result) }
{
    let parts = class.file().parts();
    class_name(&parts.pool, parts.super_class)
}

/// The direct superclass of the class of a number.
#[tactic(auto, unfolding(crate::specs::Calls::super_of), using(crate::proofs::Telling::look_grows, mvm_isolate::proofs::Keeping::grows_same))]
fn super_of<L: Ledger>(
    isolate: &mut Isolate,
    table: &Table,
    mirror: u32,
    steps: &mut Steps<L>,
) -> Result<Shared<Class>, Stop>
    requires files { table.now.files ≡ isolate.old.files }
    requires class { IsClass isolate.old mirror }
    ensures answer { AnswersUnless Stop.OutOfMemory result (super_of (look_of isolate.old) (name_at isolate.old mirror)) }
    ensures same { named isolate.new ≡ named isolate.old }
    ensures links { isolate.new.env.links ≡ isolate.old.env.links }
    ensures grows { Grows isolate.old isolate.new }
{
    let class = shared(isolate.class(mirror))?;
    match superclass(class.get()) {
        Some(name) => {
            let above = isolate.load(table, name, steps)?;
            shared(isolate.class(above))
        }
        None => Ok(class),
    }
}

/// Where a selection begins.
#[tactic(auto, unfolding(crate::specs::Calls::started, crate::specs::Calls::special_start), using(mvm_isolate::proofs::Keeping::grows_same))]
fn special_start<L: Ledger>(
    isolate: &mut Isolate,
    table: &Table,
    stack: &Stack,
    index: u16,
    method: &MethodAt,
    steps: &mut Steps<L>,
) -> Result<Shared<Class>, Stop>
    requires files { table.now.files ≡ isolate.old.files }
    requires frame { IsSome stack.now.rest.below.key }
    requires method { RunsMethod stack.now }
    requires keys { AreKeys isolate.old stack.now }
    ensures answer { (member : MemberNameOf) → AnswersUnless Stop.OutOfMemory result (started (look_of isolate.old) index (method.now, member) (top_named isolate.old stack.now)) }
    ensures same { named isolate.new ≡ named isolate.old }
    ensures links { isolate.new.env.links ≡ isolate.old.env.links }
    ensures grows { Grows isolate.old isolate.new }
{
    let name = referred(isolate, stack, index)?;
    let mirror = current_class(isolate, stack);
    if has_super(isolate, mirror, name) && !is_interface(method.class.get().file()) {
        super_of(isolate, table, mirror, steps)
    } else {
        shared(&method.class)
    }
}

/// The method that is selected from there.
#[tactic(auto, unfolding(crate::specs::Calls::special_selected))]
fn special_selected<L: Ledger>(
    isolate: &mut Isolate,
    table: &Table,
    stack: &Stack,
    index: u16,
    method: &MethodAt,
    steps: &mut Steps<L>,
) -> Result<MethodAt, Stop>
    requires files { table.now.files ≡ isolate.old.files }
    requires frame { IsSome stack.now.rest.below.key }
    requires method { RunsMethod stack.now }
    requires keys { AreKeys isolate.old stack.now }
    ensures ok { (member : MemberNameOf) → IfOk result (λ selected. HasMember selected (special_selected (look_of isolate.old) index (method.now, member) (top_named isolate.old stack.now))) }
    ensures err { (member : MemberNameOf) → IfErr result (λ stop. Fails Stop.OutOfMemory stop (special_selected (look_of isolate.old) index (method.now, member) (top_named isolate.old stack.now))) }
    ensures same { named isolate.new ≡ named isolate.old }
    ensures links { isolate.new.env.links ≡ isolate.old.env.links }
    ensures grows { Grows isolate.old isolate.new }
{
    match special_start(isolate, table, stack, index, method, steps) {
        Ok(start) => {
            let found = select_from(start.get(), method);
            selected_in(start, found)
        }
        Err(stop) => Err(stop),
    }
}

/// One more owner of the class of a method.
fn same_method(method: &MethodAt) -> Result<MethodAt, Stop>
    ensures ok { IfOk result (λ same. same ≡ method.now) }
    ensures err { IfErr result (λ stop. stop ≡ Stop.OutOfMemory) }
{
    match shared(&method.class) {
        Ok(class) => {
            let found = method.found;
            Ok(MethodAt { class, found })
        }
        Err(stop) => Err(stop),
    }
}

/// The method that `invokespecial` selects. A constructor is taken as it was resolved.
#[tactic(auto, unfolding(crate::specs::Calls::special_method), using(mvm_isolate::proofs::Keeping::grows_same))]
pub fn special_method<L: Ledger>(
    isolate: &mut Isolate,
    table: &Table,
    stack: &Stack,
    index: u16,
    method: &MethodAt,
    steps: &mut Steps<L>,
) -> Result<MethodAt, Stop>
    requires files { table.now.files ≡ isolate.old.files }
    requires frame { IsSome stack.now.rest.below.key }
    requires method { RunsMethod stack.now }
    requires keys { AreKeys isolate.old stack.now }
    requires named { IsSome (method_named method.now) }
    ensures ok { (member : MemberNameOf) → method_named method.now ≡ Some member → IfOk result (λ selected. HasMember selected (special_method (look_of isolate.old) index (method.now, member) (top_named isolate.old stack.now))) }
    ensures err { (member : MemberNameOf) → method_named method.now ≡ Some member → IfErr result (λ stop. Fails Stop.OutOfMemory stop (special_method (look_of isolate.old) index (method.now, member) (top_named isolate.old stack.now))) }
    ensures same { named isolate.new ≡ named isolate.old }
    ensures links { isolate.new.env.links ≡ isolate.old.env.links }
    ensures grows { Grows isolate.old isolate.new }
{
    match method_named(method) {
        Some(member) => {
            if is_constructor(&member) {
                same_method(method)
            } else {
                special_selected(isolate, table, stack, index, method, steps)
            }
        }
        None => unreachable!(),
    }
}

/// `invokespecial`. What may fail comes before anything changes.
///
/// # Errors
///
/// What is thrown for the first fault of the resolution, where no method is selected, or by a native method; a `NullPointerException`, an
/// `IncompatibleClassChangeError`, an `UnsatisfiedLinkError`, a `StackOverflowError`, an `OutOfMemoryError`, or a `VerifyError` for what linked code has
/// not.
#[tactic(auto, unfolding(crate::specs::Calls::invoke_special), using(crate::proofs::Telling::told_grows, crate::proofs::Telling::point_stays, mvm_current::proofs::Growth::keys_grow, mvm_isolate::proofs::Keeping::grows_same, mvm_isolate::proofs::Keeping::grows_then))]
pub fn invoke_special<L: Ledger>(
    isolate: &mut Isolate,
    table: &Table,
    stack: &mut Stack,
    told: Told,
    index: u16,
    next: u32,
    steps: &mut Steps<L>,
) -> Result<Left, Stop>
    requires files { table.now.files ≡ isolate.old.files }
    requires frame { IsSome stack.old.rest.below.key }
    requires method { RunsMethod stack.old }
    requires keys { AreKeys isolate.old stack.old }
    requires limits { IsStackOf isolate.old.env.launch.limits stack.old }
    requires thread { told.thread < 64 }
    ensures does { (c : Context) → IsTold c isolate.old told → Leaves result (invoke_special c index next (point_of isolate.old stack.old)) isolate.new stack.new }
    ensures grows { Grows isolate.old isolate.new }
    ensures links { isolate.new.env.links ≡ isolate.old.env.links }
    ensures keys { AreKeys isolate.new stack.new }
    ensures limits { IsStackOf isolate.new.env.launch.limits stack.new }
    ensures after { IfOk result (λ left. IsAfter isolate.new left.after) }
    ensures begins { IfOk result (λ left. MayBegin told.threads isolate.new.env.launch.limits.threads left.after) }
    ensures err { OnErr result (named isolate.new ≡ named isolate.old) }
    ensures stack { OnErr result (stack.new ≡ stack.old) }
{
    let method = call_target(isolate, table, stack, false, index, steps)?;
    let received = received_at(isolate, stack, Thrown::VerifyError, &method)?;
    let selected = special_method(isolate, table, stack, index, &method, steps)?;
    let caller = Caller { told, next };
    let passed = &received.passes;
    called_at(isolate, table, stack, caller, &selected, passed, steps)
}
