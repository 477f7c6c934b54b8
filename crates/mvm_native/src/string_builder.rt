ghost use Rattle.std.specs.Prelude.{◌≡◌, ◌<◌, ◌≤◌, ◌+◌, ◌^◌, ◌++◌, ◌≢◌, length, take, IfOk, OnOk, Err};
ghost use Rattle.mvm_heap.specs.Heap.{object_at, placed, zeros, Allocates};
ghost use Rattle.mvm_heap.specs.declared.kind.AllocFault.TheVariants.{OutOfMemory as Refused};
ghost use Rattle.mvm_heap.specs.declared.kind.ItemKind.TheVariants.{Char};
ghost use Rattle.mvm_heap.specs.declared.kind.ObjectKind.TheVariants.{Array};
ghost use Rattle.mvm_native.specs.Builders.{append, array_of, begun, begun_in, builder_length, builder_to_string, built, chars_in, count_of, holding, init_builder, new_array, rebuilt, IsBuilder, HasArray};
ghost use Rattle.mvm_native.specs.Machine.{machine_of, Called};
ghost use Rattle.mvm_native.specs.Texts.{text_of, HasText};
ghost use Rattle.mvm_native.specs.Throwables.{HasTwo};

use crate::env::Env;
use crate::out::{Out, Thrown, gives};
use crate::string::new_text;
use crate::texts::{ValueKind, text_of as units_of};
use mvm_base::{Kind, OutOfMemory, Word};
use mvm_heap::{AllocFault, Heap, ItemKind};
use std::alloc::{AllocError, Global};

/// The array of a builder, or null.
fn array_of(heap: &Heap, builder: u32) -> Word
    requires { IsBuilder heap.now.state.objects builder }
    ensures array { result ≡ array_of heap.now.state.objects builder }
    ensures holds { HasArray heap.now.state.objects result (count_of heap.now.state.objects builder) }
{
    heap.get_field(builder, 0, Kind::Ref)
}

/// How many units there is room for in an array of chars.
fn room_of(heap: &Heap, array: Word, count: u32) -> u32
    requires { HasArray heap.now.state.objects array count }
    ensures room { result ≡ length (chars_in heap.now.state.objects array) }
    ensures few { result < 2 ^ 30 }
{
    match array {
        Word::Ref(array) => heap.length(array),
        Word::Null | Word::Int(_) | Word::Long(_) => 0,
    }
}

/// How many units a builder has.
fn count_of(heap: &Heap, builder: u32) -> u32
    requires { IsBuilder heap.now.state.objects builder }
    ensures count { result ≡ count_of heap.now.state.objects builder }
    ensures few { result < 2 ^ 30 }
{
    match array_of(heap, builder) {
        Word::Ref(array) => {
            let _room = heap.length(array);
            heap.number(builder, 1) as u32
        }
        Word::Null => 0,
        Word::Int(_) => 0,
        Word::Long(_) => 0,
    }
}

/// The units of a builder.
fn built(alloc: Global, heap: &Heap, builder: u32) -> Result<Vec<u16>, AllocError>
    requires { IsBuilder heap.now.state.objects builder }
    ensures units { IfOk result (λ units. units.items ≡ built heap.now.state.objects builder) }
    ensures few { IfOk result (λ units. length units.items < 2 ^ 30) }
{
    let count = count_of(heap, builder);
    match array_of(heap, builder) {
        Word::Ref(array) => chars_of(alloc, heap, array, count),
        Word::Null => Ok(Vec::new(alloc)),
        Word::Int(_) => Ok(Vec::new(alloc)),
        Word::Long(_) => Ok(Vec::new(alloc)),
    }
}

/// The first items of an array of chars.
fn chars_of(alloc: Global, heap: &Heap, array: u32, count: u32) -> Result<Vec<u16>, AllocError>
    requires chars { (object_at heap.now.state.objects array).sort ≡ Array Char }
    requires within { count ≤ length (object_at heap.now.state.objects array).contents }
    ensures { IfOk result (λ units. units.items ≡ take count (object_at heap.now.state.objects array).contents) }
{
    let mut units = Vec::new(alloc);
    for place in 0..count {
        units.push(heap.char_item(array, place))?;
    }
    Ok(units)
}

/// Puts these units in an array of chars, from a place on.
fn fill(heap: &mut Heap, array: u32, from: u32, units: &[u16])
    requires chars { (object_at heap.old.state.objects array).sort ≡ Array Char }
    requires within { from + length units.now ≤ length (object_at heap.old.state.objects array).contents }
    requires few { from + length units.now < 2 ^ 32 }
    ensures { heap.new.state ≡ record heap.old.state { objects = begun heap.old.state.objects array (take from (object_at heap.old.state.objects array).contents ++ units.now) } }
{
    for i in 0..units.len() {
        heap.put(array, from + i as u32, u64::from(units[i]));
    }
}

/// A new array of chars of this length; the builder is as it was.
fn new_array(heap: &mut Heap, builder: u32, size: u32) -> Result<u32, AllocFault>
    ensures does { Allocates result (placed (zeros (Array Char) 0 size) heap.old.state) heap.old.state heap.new.state }
    ensures always { result ≢ Err Refused }
    ensures chars { IfOk result (λ a. (object_at heap.new.state.objects a).sort ≡ Array Char) }
    ensures room { IfOk result (λ a. length (object_at heap.new.state.objects a).contents ≡ size) }
    ensures kept { OnOk result (HasTwo heap.old.state.objects builder → HasTwo heap.new.state.objects builder) }
{
    match heap.alloc_array(0, ItemKind::Char, size) {
        Ok(array) => Ok(array),
        Err(fault) => Err(fault),
    }
}

/// Puts these units in an array of chars, from a place on; where there is no array, there are no units.
fn add(heap: &mut Heap, array: Word, from: u32, units: &[u16])
    requires array { HasArray heap.old.state.objects array from }
    requires within { from + length units.now ≤ length (chars_in heap.old.state.objects array) }
    requires few { from + length units.now < 2 ^ 32 }
    ensures { heap.new.state ≡ record heap.old.state { objects = begun_in heap.old.state.objects array (take from (chars_in heap.old.state.objects array) ++ units.now) } }
{
    match array {
        Word::Ref(array) => fill(heap, array, from, units),
        Word::Null | Word::Int(_) | Word::Long(_) => {}
    }
}

/// Puts an array and a count in the fields of a builder.
fn hold(heap: &mut Heap, builder: u32, array: Word, count: u32)
    requires { HasTwo heap.old.state.objects builder }
    ensures { heap.new.state ≡ record heap.old.state { objects = holding builder array count heap.old.state.objects } }
{
    heap.set_field(builder, 0, array);
    heap.put(builder, 1, u64::from(count));
}

/// Gives a builder a new array of chars of this length, which begins with these units.
fn rebuilt(
    env: &mut Env,
    builder: u32,
    size: u32,
    units: &[u16],
    value: Option<Word>,
) -> Result<Out, OutOfMemory>
    requires builder { HasTwo env.old.heap.state.objects builder }
    requires within { length units.now ≤ size }
    ensures { Called result (rebuilt builder units.now value (new_array size env.old.heap.state) (machine_of env.old)) (machine_of env.old) (machine_of env.new) }
{
    match new_array(&mut env.heap, builder, size) {
        Ok(array) => {
            fill(&mut env.heap, array, 0, units);
            hold(&mut env.heap, builder, Word::Ref(array), units.len() as u32);
            Ok(Out::Value(value))
        }
        Err(AllocFault::Full) => Ok(Out::Throw(Thrown::OutOfMemoryError)),
        Err(AllocFault::OutOfMemory) => Err(OutOfMemory),
    }
}

/// The constructor of `StringBuilder`: an array of 16.
#[tactic(auto, unfolding(crate::specs::Builders::init_builder))]
pub fn init_builder(env: &mut Env, builder: u32) -> Result<Out, OutOfMemory>
    requires { HasTwo env.old.heap.state.objects builder }
    ensures { Called result (init_builder builder (machine_of env.old)) (machine_of env.old) (machine_of env.new) }
{
    rebuilt(env, builder, 16, &[], None)
}

/// A builder with these units behind its own.
#[tactic(auto, unfolding(crate::specs::Builders::append))]
fn appended(env: &mut Env, builder: u32, units: &[u16]) -> Result<Out, OutOfMemory>
    requires builder { IsBuilder env.old.heap.state.objects builder }
    requires few { length units.now < 2 ^ 30 }
    ensures { Called result (append builder units.now (machine_of env.old)) (machine_of env.old) (machine_of env.new) }
{
    let array = array_of(&env.heap, builder);
    let count = count_of(&env.heap, builder);
    let room = room_of(&env.heap, array, count);
    let whole = count + units.len() as u32;
    if whole <= room {
        add(&mut env.heap, array, count, units);
        hold(&mut env.heap, builder, array, whole);
        return Ok(gives(Word::Ref(builder)));
    }
    let mut all = built(env.alloc, &env.heap, builder)?;
    all.extend_from_slice(units)?;
    rebuilt(
        env,
        builder,
        (2 * room + 2).max(whole),
        &all,
        Some(Word::Ref(builder)),
    )
}

/// `StringBuilder.append` of a value.
pub fn append(env: &mut Env, builder: u32, kind: ValueKind, value: Word) -> Result<Out, OutOfMemory>
    requires builder { IsBuilder env.old.heap.state.objects builder }
    requires value { HasText env.old.heap.state.objects kind value }
    ensures { Called result (append builder (text_of env.old.heap.state.objects kind value) (machine_of env.old)) (machine_of env.old) (machine_of env.new) }
{
    let units = units_of(env.alloc, &env.heap, kind, value)?;
    appended(env, builder, &units)
}

/// `StringBuilder.length`.
#[tactic(auto, unfolding(crate::specs::Builders::builder_length))]
pub fn builder_length(env: &Env, builder: u32) -> Out
    requires { IsBuilder env.now.heap.state.objects builder }
    ensures { result ≡ builder_length builder (machine_of env.now) }
{
    gives(Word::Int(count_of(&env.heap, builder) as i32))
}

/// `StringBuilder.toString`: a new text.
#[tactic(auto, unfolding(crate::specs::Builders::builder_to_string))]
pub fn builder_to_string(env: &mut Env, builder: u32) -> Result<Out, OutOfMemory>
    requires { IsBuilder env.old.heap.state.objects builder }
    ensures { Called result (builder_to_string builder (machine_of env.old)) (machine_of env.old) (machine_of env.new) }
{
    let units = built(env.alloc, &env.heap, builder)?;
    new_text(env, &units)
}
