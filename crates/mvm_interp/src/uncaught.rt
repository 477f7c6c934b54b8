//! What nothing caught, read from its object (JVM Specification 2.10).

ghost use Rattle.std.specs.Prelude.{◌≡◌, ◌<◌, None, length, map, IfOk, IfSome, OnOk};
ghost use Rattle.std.specs.Option.{option_map};
ghost use Rattle.mvm_base.specs.declared.value.Kind.TheVariants as kind;
ghost use Rattle.mvm_heap.specs.Heap.{number_at, object_at};
ghost use Rattle.mvm_heap.specs.Sorts.{word_of};
ghost use Rattle.mvm_heap.specs.declared.kind.ObjectKind.TheVariants.{Text};
ghost use Rattle.mvm_isolate.specs.Isolate.{type_at};
ghost use Rattle.mvm_isolate.specs.Numbered.{named, type_of, IsType};
ghost use Rattle.mvm_thread.specs.Step.{class_name_of, message_in, text_in, uncaught_of};
ghost use Rattle.mvm_interp.specs.Names.{names, uncaught_named};

use crate::block::Uncaught;
use crate::task_state::TaskState;
use crate::unread::Unread;
use mvm_base::{Kind, List, Name, OutOfMemory, Word};
use mvm_heap::ObjectKind;
use mvm_isolate::{Isolate, TypeAt};

/// The units of a text.
fn units_of(isolate: &Isolate, text: u32) -> Result<Name, OutOfMemory>
    requires there { text < length (named isolate.now).heap.objects }
    requires sort { (object_at (named isolate.now).heap.objects text).sort ≡ Text }
    ensures { IfOk result (λ name. name ≡ (object_at (named isolate.now).heap.objects text).contents) }
{
    let mut units = Vec::new(isolate.alloc());
    for place in 0..isolate.length(text) {
        units.push(isolate.unit(text, place))?;
    }
    Ok(Name::from_vec(units))
}

/// The units of an object, if it is a text.
#[tactic(auto, using(crate::proofs::Dying::object_past))]
fn text_at(isolate: &Isolate, object: u32) -> Result<Option<Name>, OutOfMemory>
    ensures { IfOk result (λ text. text ≡ text_in (object_at (named isolate.now).heap.objects object)) }
{
    if object >= isolate.count() {
        return Ok(Some(Name::from_vec(Vec::new(isolate.alloc()))));
    }
    match isolate.kind_of(object) {
        ObjectKind::Text => Ok(Some(units_of(isolate, object)?)),
        ObjectKind::Object | ObjectKind::Array(_) => Ok(None),
    }
}

/// What the first field of an object refers to.
#[tactic(auto, using(crate::proofs::Dying::number_past, crate::proofs::Dying::number_none))]
fn first_field(isolate: &Isolate, object: u32) -> Word
    ensures { result ≡ word_of kind.Ref (number_at (named isolate.now).heap.objects object 0) }
{
    if object < isolate.count() && isolate.length(object) > 0 {
        isolate.field(object, 0, Kind::Ref)
    } else {
        Word::Null
    }
}

/// The message of a throwable, if it has one: its first field.
fn message_of(isolate: &Isolate, object: u32) -> Result<Option<Name>, OutOfMemory>
    ensures { IfOk result (λ message. message ≡ message_in (named isolate.now).heap.objects (word_of kind.Ref (number_at (named isolate.now).heap.objects object 0))) }
{
    match first_field(isolate, object) {
        Word::Ref(text) => text_at(isolate, text),
        Word::Int(_) | Word::Long(_) | Word::Null => Ok(None),
    }
}

/// The name of the class that an object is of; none of an array.
#[tactic(auto, unfolding(mvm_isolate::specs::Numbered::type_of))]
fn class_name_by(isolate: &Isolate, at: Option<TypeAt>) -> Result<Name, OutOfMemory>
    requires { IfSome at (λ type. IsType isolate.now type) }
    ensures { IfOk result (λ name. name ≡ class_name_of (option_map (type_of isolate.now) at)) }
{
    match at {
        Some(TypeAt::Class(mirror)) => Ok(isolate.class_name(mirror).copy()?),
        Some(TypeAt::Array(_) | TypeAt::Numbers(_)) | None => {
            Ok(Name::from_vec(Vec::new(isolate.alloc())))
        }
    }
}

/// The name of the class of an object.
fn class_name_of(isolate: &Isolate, object: u32) -> Result<Name, OutOfMemory>
    ensures { IfOk result (λ name. name ≡ class_name_of (type_at (named isolate.now) object)) }
{
    class_name_by(isolate, isolate.type_at(object))
}

/// What nothing caught in a thread.
fn uncaught_of(isolate: &Isolate, unread: Unread) -> Result<Uncaught, OutOfMemory>
    ensures { IfOk result (λ one. uncaught_named one ≡ uncaught_of unread.thread unread.object (named isolate.now)) }
{
    let class = class_name_of(isolate, unread.object)?;
    let message = message_of(isolate, unread.object)?;
    Ok(Uncaught {
        thread: unread.thread,
        class,
        message,
    })
}

impl TaskState {
    /// Reads what a thread ended by, where that was not done yet. It wants memory for that, and so it is not done in the step in
    /// which the thread ends: that step could not be taken back any more. By names nothing changes.
    ///
    /// # Errors
    ///
    /// `OutOfMemory` alone.
    #[tactic(auto, using(crate::proofs::Dying::read_more))]
    pub fn read_uncaught(&mut self) -> Result<(), OutOfMemory>
        ensures names { names self.new ≡ names self.old }
        ensures read { OnOk result (self.new.unread ≡ None) }
        ensures isolate { self.new.isolate ≡ self.old.isolate }
    {
        if let Some(unread) = self.unread {
            let one = uncaught_of(&self.isolate, unread)?;
            self.uncaught.push(one)?;
            self.unread = None;
        }
        Ok(())
    }

    /// What nothing caught, in the order in which it came; all of it was read.
    pub fn uncaught(&self) -> &List<Uncaught>
        requires { self.now.unread ≡ None }
        ensures { map uncaught_named result.now ≡ (names self.now).uncaught }
    {
        &self.uncaught
    }
}
