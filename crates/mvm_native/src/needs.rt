//! Whether arguments are what a native method takes them for.

ghost use Rattle.std.specs.Prelude.{◌≡◌, ◌≤◌, length, true};
ghost use Rattle.mvm_builtin.specs.Natives.{native_at};
ghost use Rattle.mvm_heap.specs.Heap.{object_at};
ghost use Rattle.mvm_native.specs.Calls.{FitsIn};
ghost use Rattle.mvm_native.specs.Machine.{machine_of};
ghost use Rattle.mvm_native.specs.Needs.{can_wait, fits, fits_in, has_array, has_two, is_builder, is_chars, is_object, is_object_or_null, is_sendable, is_sent, is_text_at, is_text_or_null, is_there, is_thread};

use crate::arguments::{ref_arg, word_arg};
use crate::env::Env;
use crate::link::Sendable;
use crate::string::is_text;
use mvm_base::{Kind, Word};
use mvm_builtin::{Native, native_at};
use mvm_heap::{Heap, ItemKind, ObjectKind};
use mvm_history::MOST_THREADS;

fn is_object(sort: ObjectKind) -> bool
    ensures { result ≡ is_object sort }
{
    matches!(sort, ObjectKind::Object)
}

fn is_chars(sort: ObjectKind) -> bool
    ensures { result ≡ is_chars sort }
{
    matches!(sort, ObjectKind::Array(ItemKind::Char))
}

/// The sort of what is sent.
fn is_sent(kind: Sendable, sort: ObjectKind) -> bool
    ensures { result ≡ is_sent kind sort }
{
    match (kind, sort) {
        (Sendable::Ints, ObjectKind::Array(ItemKind::Int)) => true,
        (Sendable::Longs, ObjectKind::Array(ItemKind::Long)) => true,
        (Sendable::Bytes, ObjectKind::Array(ItemKind::Byte)) => true,
        (Sendable::Units, ObjectKind::Text) => true,
        _ => false,
    }
}

/// Whether there is an object of this number.
fn is_there(heap: &Heap, object: u32) -> bool
    ensures { result ≡ is_there heap.now.state.objects object }
{
    object < heap.count()
}

fn is_text_at(heap: &Heap, object: u32) -> bool
    ensures { result ≡ is_text_at heap.now.state.objects object }
{
    is_there(heap, object) && is_text(heap, object)
}

fn is_object_or_null(heap: &Heap, word: Word) -> bool
    ensures { result ≡ is_object_or_null heap.now.state.objects word }
{
    match word {
        Word::Ref(object) => is_there(heap, object),
        Word::Int(_) | Word::Long(_) | Word::Null => true,
    }
}

fn is_text_or_null(heap: &Heap, word: Word) -> bool
    ensures { result ≡ is_text_or_null heap.now.state.objects word }
{
    match word {
        Word::Ref(object) => is_text_at(heap, object),
        Word::Int(_) | Word::Long(_) | Word::Null => true,
    }
}

/// An object with two fields of the machine's own.
fn has_two(heap: &Heap, object: u32) -> bool
    ensures fields { result ≡ true → 2 ≤ length (object_at heap.now.state.objects object).contents }
    ensures test { result ≡ has_two heap.now.state.objects object }
{
    is_there(heap, object) && is_object(heap.kind_of(object)) && 2 <= heap.length(object)
}

/// An array of so many chars or more, or no array and no char.
fn has_array(heap: &Heap, array: Word, count: u64) -> bool
    ensures { result ≡ has_array heap.now.state.objects array count }
{
    match array {
        Word::Ref(array) => {
            is_there(heap, array)
                && is_chars(heap.kind_of(array))
                && count <= u64::from(heap.length(array))
        }
        Word::Int(_) | Word::Long(_) | Word::Null => count == 0,
    }
}

fn is_builder(heap: &Heap, object: u32) -> bool
    ensures { result ≡ is_builder heap.now.state.objects object }
{
    has_two(heap, object)
        && has_array(
            heap,
            heap.get_field(object, 0, Kind::Ref),
            heap.number(object, 1),
        )
}

fn is_thread(heap: &Heap, object: u32) -> bool
    ensures { result ≡ is_thread heap.now.state.objects object }
{
    has_two(heap, object) && heap.number(object, 1) <= MOST_THREADS
}

fn is_sendable(heap: &Heap, kind: Sendable, word: Word) -> bool
    ensures { result ≡ is_sendable kind heap.now.state.objects word }
{
    match word {
        Word::Ref(object) => is_there(heap, object) && is_sent(kind, heap.kind_of(object)),
        Word::Int(_) | Word::Long(_) | Word::Null => true,
    }
}

fn can_wait(env: &Env, object: u32) -> bool
    ensures { result ≡ can_wait object (machine_of env.now) }
{
    is_there(&env.heap, object) && env.waits.may_wait(env.thread)
}

/// Whether the arguments are what a native method takes them for.
#[tactic(auto, unfolding(crate::specs::Needs::fits))]
fn fits_native(env: &Env, native: Native, args: &[Word]) -> bool
    ensures { result ≡ fits native args.now (machine_of env.now) }
{
    let heap = &env.heap;
    let object = ref_arg(args, 0);
    match native {
        Native::Wait => can_wait(env, object),
        Native::Notify | Native::NotifyAll => is_there(heap, object),
        Native::StringLength | Native::CharAt | Native::Substring | Native::HashCode => {
            is_text_at(heap, object)
        }
        Native::StringEquals => {
            is_text_at(heap, object) && is_object_or_null(heap, word_arg(args, 1))
        }
        Native::InitBuilder
        | Native::InitThread
        | Native::InitTarget
        | Native::InitThrowable
        | Native::InitMessage
        | Native::InitCause
        | Native::GetMessage
        | Native::GetCause => has_two(heap, object),
        Native::AppendInt
        | Native::AppendLong
        | Native::AppendChar
        | Native::AppendBoolean
        | Native::BuilderLength
        | Native::BuilderToString => is_builder(heap, object),
        Native::AppendText => is_builder(heap, object) && is_text_or_null(heap, word_arg(args, 1)),
        Native::PrintText | Native::PrintlnText => is_text_or_null(heap, word_arg(args, 1)),
        Native::ParseInt => is_text_or_null(heap, word_arg(args, 0)),
        Native::StartThread | Native::Join => is_thread(heap, object),
        Native::IsolateNumber => env.launch.number < 0x8000_0000,
        Native::SendInts => is_sendable(heap, Sendable::Ints, word_arg(args, 1)),
        Native::SendLongs => is_sendable(heap, Sendable::Longs, word_arg(args, 1)),
        Native::SendBytes => is_sendable(heap, Sendable::Bytes, word_arg(args, 1)),
        Native::SendText => is_sendable(heap, Sendable::Units, word_arg(args, 1)),
        _ => true,
    }
}

/// Whether the arguments are what the native method of a number takes them for, so that it may be called; false where there
/// is no such method. It takes no memory.
#[tactic(auto, using(crate::proofs::Tested::fits_in_means))]
pub fn fits(env: &Env, number: u16, args: &[Word]) -> bool
    ensures test { result ≡ fits_in (native_at number) args.now (machine_of env.now) }
    ensures allows { result ≡ true → FitsIn (native_at number) args.now (machine_of env.now) }
{
    match native_at(number) {
        Some(native) => fits_native(env, native, args),
        None => false,
    }
}
