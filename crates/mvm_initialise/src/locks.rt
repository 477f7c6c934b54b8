ghost use Rattle.std.specs.Prelude.{◌≡◌, ◌<◌, length, true, None, IfOk, OnErr, OnOk};
ghost use Rattle.mvm_base.specs.Answers.{AnswersUnless, GivesUnless};
ghost use Rattle.mvm_initialise.specs.Locks.{class_locked, known_locked, lock_object, monitor_entered, IsEntry, IsOwned};
ghost use Rattle.mvm_isolate.specs.Numbered.{name_at, named, IsClass};
ghost use Rattle.mvm_isolate.specs.Sound.{Grows};
ghost use Rattle.mvm_isolate.specs.declared.stop.Stop.TheVariants as stop;

use crate::words::has_words;
use mvm_heap::{Monitor, ObjectKind, words_needed};
use mvm_isolate::{Isolate, Stop};
use mvm_native::Thrown;

/// The most entries of a monitor: 2^32.
const MOST_ENTRIES: u64 = 4_294_967_296;

/// What became of a thread that calls a synchronized static method.
#[derive(Clone, Copy, Debug, PartialEq, Eq)]
pub enum Lock {
    /// It entered the monitor of this object, the class object.
    Entered(u32),
    /// Another thread owns the monitor of this object, the class object.
    Waits(u32),
}

/// The monitor of an object with one entry more of a thread, or `None` where another thread owns it (Java Language Specification 17.1). Nothing
/// is entered yet.
///
/// # Errors
///
/// It throws `VerifyError` where there is no object of this number. `OutOfMemory` where the thread entered the monitor 2^32 times already.
#[tactic(auto, unfolding(crate::specs::Locks::monitor_entered))]
pub fn monitor_entered(isolate: &Isolate, thread: u32, object: u32) -> Result<Option<Monitor>, Stop>
    ensures does { AnswersUnless stop.OutOfMemory result (monitor_entered thread object (named isolate.now)) }
    // It can be put in its place.
    ensures entry { IfOk result (λ monitor. IsEntry thread monitor) }
    ensures there { OnOk result (object < length (named isolate.now).heap.objects) }
{
    if object >= isolate.count() {
        return Err(Stop::Throw(Thrown::VerifyError));
    }
    let monitor = isolate.monitor(object);
    if monitor.count >= MOST_ENTRIES {
        return Err(Stop::OutOfMemory);
    }
    match monitor.owner {
        Some(owner) if owner != thread => Ok(None),
        Some(_) | None => Ok(Some(Monitor {
            owner: Some(thread),
            count: monitor.count + 1,
        })),
    }
}

/// The lock of a call, by the class object of its class.
#[tactic(auto, unfolding(crate::specs::Locks::known_locked))]
fn lock_known(isolate: &mut Isolate, room: bool, thread: u32, object: u32) -> Result<Lock, Stop>
    requires monitors { length (named isolate.old).heap.monitors ≡ length (named isolate.old).heap.objects }
    requires thread { thread < 64 }
    ensures does { GivesUnless stop.OutOfMemory result (known_locked room thread object (named isolate.old)) (named isolate.new) }
    ensures there { IfOk result (λ lock. lock_object lock < length (named isolate.new).heap.objects) }
    ensures owned { IfOk result (λ lock. IsOwned thread (named isolate.new) lock) }
    ensures err { OnErr result (named isolate.new ≡ named isolate.old) }
    ensures links { isolate.new.env.links ≡ isolate.old.env.links }
    ensures grows { Grows isolate.old isolate.new }
{
    match monitor_entered(isolate, thread, object) {
        Ok(Some(monitor)) => {
            if !room {
                return Err(Stop::Throw(Thrown::StackOverflowError));
            }
            isolate.set_monitor(object, monitor);
            Ok(Lock::Entered(object))
        }
        Ok(None) => Ok(Lock::Waits(object)),
        Err(stop) => Err(stop),
    }
}

/// The lock of a call, of a class that has no class object yet, where there is room for the frame.
fn lock_new(isolate: &mut Isolate, thread: u32, mirror: u32) -> Result<Lock, Stop>
    requires there { IsClass isolate.old mirror }
    requires none { (named isolate.old).classes.objects (name_at isolate.old mirror) ≡ None }
    requires monitors { length (named isolate.old).heap.monitors ≡ length (named isolate.old).heap.objects }
    requires thread { thread < 64 }
    ensures does { GivesUnless stop.OutOfMemory result (class_locked true thread (name_at isolate.old mirror) (named isolate.old)) (named isolate.new) }
    ensures there { IfOk result (λ lock. lock_object lock < length (named isolate.new).heap.objects) }
    ensures owned { IfOk result (λ lock. IsOwned thread (named isolate.new) lock) }
    ensures err { OnErr result (named isolate.new ≡ named isolate.old) }
    ensures links { isolate.new.env.links ≡ isolate.old.env.links }
    ensures grows { Grows isolate.old isolate.new }
{
    match isolate.class_object(mirror) {
        Ok(object) => {
            isolate.set_monitor(
                object,
                Monitor {
                    owner: Some(thread),
                    count: 1,
                },
            );
            Ok(Lock::Entered(object))
        }
        Err(stop) => Err(stop),
    }
}

/// The lock of a call, of a class that has no class object yet.
fn lock_first(isolate: &mut Isolate, room: bool, thread: u32, mirror: u32) -> Result<Lock, Stop>
    requires there { IsClass isolate.old mirror }
    requires none { (named isolate.old).classes.objects (name_at isolate.old mirror) ≡ None }
    requires monitors { length (named isolate.old).heap.monitors ≡ length (named isolate.old).heap.objects }
    requires thread { thread < 64 }
    ensures does { GivesUnless stop.OutOfMemory result (class_locked room thread (name_at isolate.old mirror) (named isolate.old)) (named isolate.new) }
    ensures there { IfOk result (λ lock. lock_object lock < length (named isolate.new).heap.objects) }
    ensures owned { IfOk result (λ lock. IsOwned thread (named isolate.new) lock) }
    ensures err { OnErr result (named isolate.new ≡ named isolate.old) }
    ensures links { isolate.new.env.links ≡ isolate.old.env.links }
    ensures grows { Grows isolate.old isolate.new }
{
    match has_words(isolate, words_needed(ObjectKind::Object, 0)) {
        Ok(()) => {
            if !room {
                return Err(Stop::Throw(Thrown::StackOverflowError));
            }
            lock_new(isolate, thread, mirror)
        }
        Err(stop) => Err(stop),
    }
}

/// The lock of a call of a synchronized static method of the class of a number (JVM Specification 2.11.10): its class object, made where it was
/// never wanted before, of which the thread, one of 64, enters the monitor. `room` says whether the frame of the method fits.
///
/// # Errors
///
/// It throws `OutOfMemoryError` where words of the heap are missing, and then `StackOverflowError` where there is no room, unless the thread has
/// to wait.
pub fn locked_class(
    isolate: &mut Isolate,
    room: bool,
    thread: u32,
    mirror: u32,
) -> Result<Lock, Stop>
    requires there { IsClass isolate.old mirror }
    requires thread { thread < 64 }
    ensures does { GivesUnless stop.OutOfMemory result (class_locked room thread (name_at isolate.old mirror) (named isolate.old)) (named isolate.new) }
    ensures there { IfOk result (λ lock. lock_object lock < length (named isolate.new).heap.objects) }
    ensures owned { IfOk result (λ lock. IsOwned thread (named isolate.new) lock) }
    ensures err { OnErr result (named isolate.new ≡ named isolate.old) }
    ensures links { isolate.new.env.links ≡ isolate.old.env.links }
    ensures grows { Grows isolate.old isolate.new }
{
    // Each object has a monitor.
    let _count = isolate.count();
    match isolate.has_class_object(mirror) {
        Some(object) => lock_known(isolate, room, thread, object),
        None => lock_first(isolate, room, thread, mirror),
    }
}
