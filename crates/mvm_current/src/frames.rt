//! The frames of a thread by what they run (JVM Specification 2.6).

ghost use Rattle.std.specs.Prelude.{◌≡◌, ◌≢◌, ◌≤◌, ◌∷◌, ℕ, length, max, true, Ok, IsOk, IsSome, OnOk, OnErr, IfSome};
ghost use Rattle.mvm_base.specs.Answers.{Does};
ghost use Rattle.mvm_frame.specs.Calls.{fits};
ghost use Rattle.mvm_history.specs.declared.limits.Limits.{Limits as LimitsOf};
ghost use Rattle.mvm_isolate.specs.Numbered.{name_at, Numbered, IsClass};
ghost use Rattle.mvm_current.specs.Frames.{at_place, bare_frame, called_frame, has_room, if_room, without, LAST};
ghost use Rattle.mvm_current.specs.Keys.{callers_named, frames_named, runs_bare, runs_of, top_named, AreKeys, IsKey, IsStackOf, RunsMethod};
ghost use Rattle.mvm_current.specs.Running.{IsRunning};

use crate::key::NO_METHOD;
use mvm_frame::{FrameKey, Stack};
use mvm_isolate::Stop;
use mvm_native::Thrown;

/// What the current frame is for.
#[derive(Clone, Copy, Debug, PartialEq, Eq)]
pub enum Running {
    /// A method.
    Method,
    /// The start of the thread.
    Start,
    /// The initialisation of the class of this number (JVM Specification 5.5).
    Initialiser(u32),
}

/// What the current frame is for.
pub fn current_run(stack: &Stack) -> Running
    requires { IsSome stack.now.rest.below.key }
    ensures does { (n : Numbered) → AreKeys n stack.now → IsRunning n (top_named n stack.now).runs result }
    ensures method { result ≡ Running.Method → RunsMethod stack.now }
    ensures stage { (mirror : ℕ) → result ≡ Running.Initialiser mirror → stack.now.rest.pc ≢ 0 }
{
    match stack.top() {
        Some(key) => {
            if key.method != NO_METHOD {
                Running::Method
            } else if stack.pc() == 0 {
                Running::Start
            } else {
                Running::Initialiser(key.mirror)
            }
        }
        None => unreachable!(),
    }
}

/// The current frame, which runs a method, goes on at this place.
#[inline]
pub fn set_place(stack: &mut Stack, pc: u32)
    requires frame { IsSome stack.old.rest.below.key }
    requires method { RunsMethod stack.old }
    ensures does { (n : Numbered) → top_named n stack.new ≡ at_place pc (top_named n stack.old) }
    ensures below { stack.new.rest.below ≡ stack.old.rest.below }
{
    stack.set_pc(pc);
}

/// The current frame, in which a class is initialised, goes on with its last stage.
pub fn set_last_stage(stack: &mut Stack)
    requires frame { IsSome stack.old.rest.below.key }
    requires stage { stack.old.rest.pc ≢ 0 }
    ensures does { (n : Numbered) → top_named n stack.new ≡ at_place LAST (top_named n stack.old) }
    ensures below { stack.new.rest.below ≡ stack.old.rest.below }
{
    stack.set_pc(2);
}

/// Takes the current frame off.
pub fn leave(stack: &mut Stack)
    requires { IsSome stack.old.rest.below.key }
    ensures does { (n : Numbered) → frames_named n stack.new ≡ callers_named n stack.old }
    ensures keys { (n : Numbered) → AreKeys n stack.old → AreKeys n stack.new }
    ensures limits { (limits : LimitsOf) → IsStackOf limits stack.old → IsStackOf limits stack.new }
{
    match stack.leave() {
        Some(_) => {}
        None => unreachable!(),
    }
}

/// Whether a frame of so many local variables and so deep an operand stack fits (JVM Specification 2.5.2).
#[inline]
pub fn room(stack: &Stack, locals: u16, depth: u16) -> bool
    ensures is { (n : Numbered) (limits : LimitsOf) → IsStackOf limits stack.now → result ≡ has_room limits locals depth (frames_named n stack.now) }
    // So `enter_bare` asks for it.
    ensures fits { result ≡ fits locals depth stack.now }
{
    stack.fits(locals, depth)
}

/// The frame of a method, whose first local variables are so many slots of operands of the current frame, which go from there (JVM
/// Specification 2.6.1). No long is cut by that.
///
/// # Errors
///
/// A `StackOverflowError` where there is no room for it.
pub fn enter_method(
    stack: &mut Stack,
    key: FrameKey,
    locals: u16,
    depth: u16,
    slots: u16,
) -> Result<(), Stop>
    requires frame { IsSome stack.old.rest.below.key }
    requires method { key.method ≢ NO_METHOD }
    requires slots { slots ≤ length stack.old.operands.slots }
    ensures does { (n : Numbered) (limits : LimitsOf) → IsStackOf limits stack.old → Does result (if_room limits (called_frame (runs_of n key 0) key.lock locals depth slots stack.old.operands.slots) (without slots (top_named n stack.old) ∷ callers_named n stack.old)) (frames_named n stack.new) }
    ensures keys { (n : Numbered) → IsKey n key → AreKeys n stack.old → OnOk result (AreKeys n stack.new) }
    ensures limits { (limits : LimitsOf) → IsStackOf limits stack.old → IsStackOf limits stack.new }
    // What has room is entered.
    ensures room { fits (max locals slots) depth stack.old ≡ true → IsOk result }
    ensures err { OnErr result (stack.new ≡ stack.old) }
{
    match stack.enter_with(key, locals.max(slots), depth, slots) {
        Ok(()) => Ok(()),
        Err(_) => Err(Stop::Throw(Thrown::StackOverflowError)),
    }
}

/// A frame without local variables and operands: the start of a thread in stage 0, else the initialisation of the class of a number
/// (JVM Specification 5.5). There is room for it.
pub fn enter_bare(stack: &mut Stack, mirror: u32, stage: u32)
    requires room { fits 0 0 stack.old ≡ true }
    ensures does { (n : Numbered) → frames_named n stack.new ≡ bare_frame (runs_bare (name_at n mirror) stage) stage ∷ frames_named n stack.old }
    ensures keys { (n : Numbered) → IsClass n mirror → AreKeys n stack.old → AreKeys n stack.new }
    ensures limits { (limits : LimitsOf) → IsStackOf limits stack.old → IsStackOf limits stack.new }
{
    let key = FrameKey {
        mirror,
        method: NO_METHOD,
        lock: None,
    };
    match stack.enter(key, 0, 0) {
        Ok(()) => stack.set_pc(stage),
        Err(_) => unreachable!(),
    }
}
