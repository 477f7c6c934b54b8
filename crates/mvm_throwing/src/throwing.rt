//! Throwing (JVM Specification 2.10, 6.5 under athrow): the frames are left from the current one until one has a handler.

ghost use Rattle.std.specs.Prelude.{◌≡◌, ◌≢◌, ◌<◌, [], ℕ, Ok, Some, IsOk, IsSome, OnErr};
ghost use Rattle.std.specs.Result.{is_ok};
ghost use Rattle.mvm_current.specs.Keys.{callers_named, frames_named, runs_of, top_named, AreKeys, IsKey, IsStackOf, RunsMethod};
ghost use Rattle.mvm_history.specs.declared.limits.Limits.{Limits as LimitsOf};
ghost use Rattle.mvm_throwing.specs.Unwinding.{throwing_new};
ghost use Rattle.mvm_isolate.specs.Numbered.{look_of, named, Numbered};
ghost use Rattle.mvm_isolate.specs.Sound.{Grows};
ghost use Rattle.mvm_throwing.specs.Throwing.{alone, caught, frame_left, set_aside, through_frame, through_initialiser, throw, throwing, thrown_object, unwound, wrapped};

use crate::handlers::handler_for;
use crate::unwinding::{suffice, throwable_words, wraps};
use mvm_base::Word;
use mvm_current::{NO_METHOD, frames_law, leave};
use mvm_frame::{FrameKey, Stack};
use mvm_heap::bits_of;
use mvm_isolate::{Isolate, Stop, TypeAt};
use mvm_locking::released;
use mvm_native::Thrown;

/// A new `ExceptionInInitializerError` with this object as its cause (JVM Specification 5.5, step 11); its words are there.
fn wrapped(isolate: &mut Isolate, object: u32) -> u32
    requires words { IsOk (wrapped (object, named isolate.old)) }
    ensures does { wrapped (object, named isolate.old) ≡ Ok (result, named isolate.new) }
    ensures links { isolate.new.env.links ≡ isolate.old.env.links }
    ensures grows { Grows isolate.old isolate.new }
{
    let class = isolate.thrown_class(Thrown::ExceptionInInitializerError);
    match isolate.new_object(class, 2) {
        Ok(error) => {
            isolate.set_number(error, 1, bits_of(Word::Ref(object)));
            error
        }
        Err(_) => unreachable!(),
    }
}

/// What goes on in the frame of an initialisation where an object is thrown through it: from the stage of `<clinit>` what is no `Error` goes on as
/// the cause of one. The words for it are there.
fn through_initialiser(isolate: &mut Isolate, key: FrameKey, pc: u32, object: u32) -> u32
    requires key { IsKey isolate.old key }
    requires method { key.method ≡ NO_METHOD }
    requires stage { pc ≢ 0 }
    requires words { IsOk (through_initialiser (look_of isolate.old) pc (object, named isolate.old)) }
    ensures does { through_initialiser (look_of isolate.old) pc (object, named isolate.old) ≡ Ok (result, named isolate.new) }
    ensures links { isolate.new.env.links ≡ isolate.old.env.links }
    ensures grows { Grows isolate.old isolate.new }
{
    if wraps(isolate, key, pc, isolate.type_at(object)) {
        return wrapped(isolate, object);
    }
    object
}

/// What goes on where an object is thrown through the frame of a key; the initialisation of the class of the frame has failed then, if it is one
/// (JVM Specification 5.5, step 11). The words for it are there.
fn through_frame(isolate: &mut Isolate, key: FrameKey, pc: u32, object: u32) -> u32
    requires key { IsKey isolate.old key }
    requires words { IsOk (through_frame (look_of isolate.old) (runs_of isolate.old key pc) pc (object, named isolate.old)) }
    ensures does { through_frame (look_of isolate.old) (runs_of isolate.old key pc) pc (object, named isolate.old) ≡ Ok (result, named isolate.new) }
    ensures links { isolate.new.env.links ≡ isolate.old.env.links }
    ensures grows { Grows isolate.old isolate.new }
{
    if key.method != NO_METHOD {
        return object;
    }
    if pc == 0 {
        return object;
    }
    let passed = through_initialiser(isolate, key, pc, object);
    isolate.fail(key.mirror);
    passed
}

/// An object is thrown through the current frame, of this key, which is left with its monitor. The words for it are there.
fn leave_frame(
    isolate: &mut Isolate,
    stack: &mut Stack,
    thread: u32,
    key: FrameKey,
    object: u32,
) -> u32
    requires key { stack.old.rest.below.key ≡ Some key }
    requires keys { AreKeys isolate.old stack.old }
    requires thread { thread < 64 }
    requires words { IsOk (frame_left (look_of isolate.old) thread (top_named isolate.old stack.old) (object, named isolate.old)) }
    ensures does { frame_left (look_of isolate.old) thread (top_named isolate.old stack.old) (object, named isolate.old) ≡ Ok (result, named isolate.new) }
    ensures frames { frames_named isolate.new stack.new ≡ callers_named isolate.old stack.old }
    ensures keys { AreKeys isolate.new stack.new }
    ensures limits { (limits : LimitsOf) → IsStackOf limits stack.old → IsStackOf limits stack.new }
    ensures links { isolate.new.env.links ≡ isolate.old.env.links }
    ensures grows { Grows isolate.old isolate.new }
{
    released(isolate, thread, key.lock);
    let passed = through_frame(isolate, key, stack.pc(), object);
    leave(stack);
    frames_law();
    passed
}

/// The operands of the current frame are this object alone, if they have room for it.
#[tactic(auto, unfolding(mvm_frame::specs::Calls::push), using(mvm_current::proofs::Framing::framing))]
fn put_alone(stack: &mut Stack, object: u32)
    requires frame { IsSome stack.old.rest.below.key }
    ensures operands { stack.new.operands ≡ record stack.old.operands { slots = alone stack.old.operands.depth object } }
    ensures rest { stack.new.rest ≡ stack.old.rest }
{
    stack.clear();
    if stack.room() == 0 {
        return;
    }
    match stack.push(Word::Ref(object)) {
        Ok(()) => {}
        Err(_) => unreachable!(),
    }
}

/// The current frame, which runs a method, goes on at its handler, with this object alone on its operands.
fn catch(stack: &mut Stack, handler: u32, object: u32)
    requires frame { IsSome stack.old.rest.below.key }
    requires method { RunsMethod stack.old }
    ensures does { (n : Numbered) → top_named n stack.new ≡ caught handler object (top_named n stack.old) }
    ensures below { stack.new.rest.below ≡ stack.old.rest.below }
{
    put_alone(stack, object);
    stack.set_pc(handler);
}

/// Leaves frames until one catches this object, or none is left. The words for what replaces it on its way are there. It answers what is thrown
/// then.
fn unwound(isolate: &mut Isolate, stack: &mut Stack, thread: u32, object: u32) -> u32
    requires keys { AreKeys isolate.old stack.old }
    requires thread { thread < 64 }
    requires words { IsOk (unwound (look_of isolate.old) thread (frames_named isolate.old stack.old) (object, named isolate.old)) }
    ensures does { unwound (look_of isolate.old) thread (frames_named isolate.old stack.old) (object, named isolate.old) ≡ Ok (record { isolate = named isolate.new; object = result; frames = frames_named isolate.new stack.new }) }
    ensures keys { AreKeys isolate.new stack.new }
    ensures limits { (limits : LimitsOf) → IsStackOf limits stack.old → IsStackOf limits stack.new }
    ensures links { isolate.new.env.links ≡ isolate.old.env.links }
    ensures grows { Grows isolate.old isolate.new }
{
    let mut passing = object;
    while let Some(key) = stack.top() {
        match handler_for(isolate, key, stack.pc(), isolate.type_at(passing)) {
            Some(handler) => {
                catch(stack, handler, passing);
                return passing;
            }
            None => passing = leave_frame(isolate, stack, thread, key, passing),
        }
    }
    passing
}

/// The object that is set aside for want of words, or of frames, at the start of an isolate.
#[tactic(auto, unfolding(crate::specs::Throwing::set_aside))]
fn set_aside(thrown: Thrown) -> Option<u32>
    ensures { result ≡ set_aside thrown }
{
    match thrown {
        Thrown::OutOfMemoryError => Some(0),
        Thrown::StackOverflowError => Some(1),
        _ => None,
    }
}

/// The object that is thrown, whose words are there where it is a new one.
#[tactic(auto, unfolding(crate::specs::Throwing::thrown_object))]
fn thrown_object(isolate: &mut Isolate, why: Stop) -> u32
    requires words { IsOk (thrown_object why (named isolate.old)) }
    ensures does { thrown_object why (named isolate.old) ≡ Ok (result, named isolate.new) }
    ensures links { isolate.new.env.links ≡ isolate.old.env.links }
    ensures grows { Grows isolate.old isolate.new }
{
    match why {
        Stop::Object(object) => object,
        Stop::Throw(thrown) => match set_aside(thrown) {
            Some(object) => object,
            None => {
                let class = isolate.thrown_class(thrown);
                match isolate.new_object(class, 2) {
                    Ok(object) => object,
                    Err(_) => unreachable!(),
                }
            }
        },
        Stop::OutOfMemory => unreachable!(),
    }
}

/// Whether a new throwable finds its words, and what replaces it on its way too.
#[tactic(auto, unfolding(mvm_isolate::specs::Numbered::type_of), using(crate::proofs::Sufficing::new_suffices, crate::proofs::Sufficing::new_misses))]
fn can_throw_new(isolate: &Isolate, stack: &Stack, thrown: Thrown) -> bool
    requires keys { AreKeys isolate.now stack.now }
    ensures { (thread : ℕ) → result ≡ is_ok (throwing_new (look_of isolate.now) thread thrown (named isolate.now) (frames_named isolate.now stack.now)) }
{
    let left = u64::from(isolate.words_left());
    if left < throwable_words() {
        return false;
    }
    let class = TypeAt::Class(isolate.thrown_class(thrown));
    suffice(isolate, stack, left - throwable_words(), Some(class))
}

/// Whether what replaces an object that is thrown finds its words.
#[tactic(auto, using(crate::proofs::Sufficing::object_suffices))]
fn can_throw_object(isolate: &Isolate, stack: &Stack, object: u32) -> bool
    requires keys { AreKeys isolate.now stack.now }
    ensures { (thread : ℕ) → result ≡ is_ok (unwound (look_of isolate.now) thread (frames_named isolate.now stack.now) (object, named isolate.now)) }
{
    let left = u64::from(isolate.words_left());
    suffice(isolate, stack, left, isolate.type_at(object))
}

/// Whether a throw finds all the words that it needs.
#[tactic(auto, unfolding(crate::specs::Throwing::throwing, crate::specs::Throwing::thrown_object))]
fn can_throw(isolate: &Isolate, stack: &Stack, why: Stop) -> bool
    requires keys { AreKeys isolate.now stack.now }
    ensures { (thread : ℕ) → result ≡ is_ok (throwing (look_of isolate.now) thread why (named isolate.now) (frames_named isolate.now stack.now)) }
{
    match why {
        Stop::Object(object) => can_throw_object(isolate, stack, object),
        Stop::Throw(thrown) => match set_aside(thrown) {
            Some(object) => can_throw_object(isolate, stack, object),
            None => can_throw_new(isolate, stack, thrown),
        },
        Stop::OutOfMemory => false,
    }
}

/// A throw that finds all the words that it needs. It answers what is thrown in the end.
#[tactic(auto, unfolding(crate::specs::Throwing::throwing))]
fn thrown(isolate: &mut Isolate, stack: &mut Stack, thread: u32, why: Stop) -> u32
    requires keys { AreKeys isolate.old stack.old }
    requires thread { thread < 64 }
    requires words { IsOk (throwing (look_of isolate.old) thread why (named isolate.old) (frames_named isolate.old stack.old)) }
    ensures does { throwing (look_of isolate.old) thread why (named isolate.old) (frames_named isolate.old stack.old) ≡ Ok (record { isolate = named isolate.new; object = result; frames = frames_named isolate.new stack.new }) }
    ensures keys { AreKeys isolate.new stack.new }
    ensures limits { (limits : LimitsOf) → IsStackOf limits stack.old → IsStackOf limits stack.new }
    ensures links { isolate.new.env.links ≡ isolate.old.env.links }
    ensures grows { Grows isolate.old isolate.new }
{
    let object = thrown_object(isolate, why);
    frames_law();
    unwound(isolate, stack, thread, object)
}

/// All frames are left, and the thread ends by object 0: words are missing for what replaces it.
fn abandoned(_isolate: &Isolate, stack: &mut Stack) -> u32
    requires keys { AreKeys _isolate.now stack.old }
    ensures object { result ≡ 0 }
    ensures frames { frames_named _isolate.now stack.new ≡ [] }
    ensures keys { AreKeys _isolate.now stack.new }
    ensures limits { (limits : LimitsOf) → IsStackOf limits stack.old → IsStackOf limits stack.new }
{
    while let Some(key) = stack.top() {
        let _left = key;
        leave(stack);
    }
    0
}

/// Something is thrown in a thread, one of 64, with these frames, or object 0 where words are missing for it (JVM Specification 2.10). It answers
/// what is thrown in the end; it takes no memory of the machine's own.
pub fn throw(isolate: &mut Isolate, stack: &mut Stack, thread: u32, why: Stop) -> u32
    requires keys { AreKeys isolate.old stack.old }
    requires thread { thread < 64 }
    ensures does { throw (look_of isolate.old) thread why (named isolate.old) (frames_named isolate.old stack.old) ≡ Ok (record { isolate = named isolate.new; object = result; frames = frames_named isolate.new stack.new }) }
    ensures keys { AreKeys isolate.new stack.new }
    ensures limits { (limits : LimitsOf) → IsStackOf limits stack.old → IsStackOf limits stack.new }
    ensures links { isolate.new.env.links ≡ isolate.old.env.links }
    ensures grows { Grows isolate.old isolate.new }
{
    if can_throw(isolate, stack, why) {
        return thrown(isolate, stack, thread, why);
    }
    let missing = Stop::Throw(Thrown::OutOfMemoryError);
    if can_throw(isolate, stack, missing) {
        return thrown(isolate, stack, thread, missing);
    }
    abandoned(isolate, stack)
}
