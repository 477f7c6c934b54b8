ghost use Rattle.std.specs.Prelude.{◌≡◌, ◌+◌, ◌<◌, ◌^◌, length};
ghost use Rattle.mvm_parts.specs.Times.{HasFields, HasItems};

use crate::appends::time_appends;
use mvm_base::{Kind, OutOfMemory, Word};
use mvm_frame::{FrameKey, Stack};
use mvm_heap::{Heap, ItemKind, ObjectKind};
use mvm_region::RegionPool;
use std::alloc::Global;

/// A part of a step that is timed.
#[derive(Clone, Copy, Debug, PartialEq, Eq)]
pub(crate) enum Part {
    /// The operands of the last of so many frames: pushes, then as many pops.
    Operands,
    /// Its local variables: stores, then as many loads.
    Locals,
    /// New objects of two fields, in a heap of so many words.
    Objects,
    /// The fields of an object behind so many others: writes, then as many reads.
    Fields,
    /// The last items of an array of so many ints: writes, then as many reads.
    Items,
    /// Appends of a char to a StringBuilder of so many.
    Appends,
}

impl Part {
    /// The part of a name.
    pub(crate) fn named(name: &str) -> Option<Part> {
        match name {
            "operands" => Some(Part::Operands),
            "locals" => Some(Part::Locals),
            "objects" => Some(Part::Objects),
            "fields" => Some(Part::Fields),
            "items" => Some(Part::Items),
            "appends" => Some(Part::Appends),
            _ => None,
        }
    }
}

/// How many operations of one kind are done in a round, before as many of the other: alone, a push and the pop behind it would be nothing to a
/// compiler.
const ROUND: u16 = 1_000;

/// The int at a place in a round.
fn value_at(round: u32, place: u16) -> Word {
    Word::Int(round.wrapping_add(u32::from(place)).cast_signed())
}

/// The key of a frame.
const KEY: FrameKey = FrameKey {
    mirror: 0,
    method: 0,
    lock: None,
};

/// A stack of so many small frames, and on top one with local variables and operands for a round.
fn framed(alloc: Global, frames: u32) -> Result<Stack, OutOfMemory> {
    let words = frames
        .saturating_mul(2)
        .saturating_add(2 * u32::from(ROUND));
    let mut stack = Stack::new(alloc, frames.saturating_add(1), words)?;
    for _ in 0..frames {
        let _ = stack.enter(KEY, 1, 1);
    }
    let _ = stack.enter(KEY, ROUND, ROUND);
    Ok(stack)
}

/// A push for each place. It answers whether all were done.
fn push_all(stack: &mut Stack, round: u32) -> bool {
    for place in 0..ROUND {
        if stack.push(value_at(round, place)).is_err() {
            return false;
        }
    }
    true
}

/// A pop for each place, from the last on. It answers whether each gave what was pushed there.
fn pop_all(stack: &mut Stack, round: u32) -> bool {
    for behind in 0..ROUND {
        if stack.pop(Kind::Int) != Ok(value_at(round, ROUND - 1 - behind)) {
            return false;
        }
    }
    true
}

/// A store for each place. It answers whether all were done.
fn store_all(stack: &mut Stack, round: u32) -> bool {
    for place in 0..ROUND {
        if stack.store(place, value_at(round, place)).is_err() {
            return false;
        }
    }
    true
}

/// A load for each place. It answers whether each gave what was stored there.
fn load_all(stack: &Stack, round: u32) -> bool {
    for place in 0..ROUND {
        if stack.load(place, Kind::Int) != Ok(value_at(round, place)) {
            return false;
        }
    }
    true
}

/// So many rounds of pushes and pops. It answers whether all were done.
fn push_and_pop(stack: &mut Stack, rounds: u32) -> bool {
    for round in 0..rounds {
        if !push_all(stack, round) || !pop_all(stack, round) {
            return false;
        }
    }
    true
}

/// So many rounds of stores and loads. It answers whether all were done.
fn store_and_load(stack: &mut Stack, rounds: u32) -> bool {
    for round in 0..rounds {
        if !store_all(stack, round) || !load_all(stack, round) {
            return false;
        }
    }
    true
}

/// The most words that a heap has here.
const MOST_WORDS: u32 = 100_000_000;

/// A heap of so many words, or of the most.
pub(crate) fn heap_of(alloc: Global, words: u32) -> Result<Heap, OutOfMemory> {
    let mut pool = RegionPool::new(alloc, 0)?;
    let region = pool.take(words.min(MOST_WORDS))?;
    Heap::new(alloc, region)
}

/// A heap with room for so many objects of two fields and one with fields for a round, if that is not too much.
fn heap_for(alloc: Global, objects: u32) -> Result<Heap, OutOfMemory> {
    let last = u32::from(ROUND) + 2;
    heap_of(alloc, objects.saturating_mul(4).saturating_add(last))
}

/// So many new objects, as long as there is room. It answers whether all were made.
fn make_objects(heap: &mut Heap, count: u32) -> bool {
    for _ in 0..count {
        if heap.alloc_object(0, 2).is_err() {
            return false;
        }
    }
    true
}

/// A write of each field of an object.
fn put_fields(heap: &mut Heap, object: u32, round: u32)
    requires { HasFields heap.old.state.objects object ROUND }
    ensures { HasFields heap.new.state.objects object ROUND }
{
    for place in 0..ROUND {
        heap.set_field(object, u32::from(place), value_at(round, place));
    }
}

/// A read of each field of an object. It answers whether each gave what was put there.
fn get_fields(heap: &Heap, object: u32, round: u32) -> bool
    requires { HasFields heap.now.state.objects object ROUND }
{
    for place in 0..ROUND {
        if heap.get_field(object, u32::from(place), Kind::Int) != value_at(round, place) {
            return false;
        }
    }
    true
}

/// So many rounds of both. It answers whether all were done.
fn write_and_read_fields(heap: &mut Heap, object: u32, rounds: u32) -> bool
    requires { HasFields heap.old.state.objects object ROUND }
{
    for round in 0..rounds {
        put_fields(heap, object, round);
        if !get_fields(heap, object, round) {
            return false;
        }
    }
    true
}

/// A write of each of the items of an array from a place on.
fn put_items(heap: &mut Heap, array: u32, from: u32, round: u32)
    requires place { from + ROUND < 2 ^ 32 }
    requires there { HasItems heap.old.state.objects array (from + ROUND) }
    ensures { HasItems heap.new.state.objects array (from + ROUND) }
{
    for place in 0..ROUND {
        heap.set_item(array, from + u32::from(place), value_at(round, place));
    }
}

/// A read of each of them. It answers whether each gave what was put there.
fn get_items(heap: &Heap, array: u32, from: u32, round: u32) -> bool
    requires place { from + ROUND < 2 ^ 32 }
    requires there { HasItems heap.now.state.objects array (from + ROUND) }
{
    for place in 0..ROUND {
        if heap.get_item(array, from + u32::from(place)) != value_at(round, place) {
            return false;
        }
    }
    true
}

/// So many rounds of both. It answers whether all were done.
fn write_and_read_items(heap: &mut Heap, array: u32, from: u32, rounds: u32) -> bool
    requires place { from + ROUND < 2 ^ 32 }
    requires there { HasItems heap.old.state.objects array (from + ROUND) }
{
    for round in 0..rounds {
        put_items(heap, array, from, round);
        if !get_items(heap, array, from, round) {
            return false;
        }
    }
    true
}

/// So many rounds of writes and reads of the fields of an object that stands behind so many others.
fn time_fields(heap: &mut Heap, size: u32, rounds: u32) -> bool {
    if !make_objects(heap, size) {
        return false;
    }
    match heap.alloc_object(0, u32::from(ROUND)) {
        Ok(object) => {
            heap.kind_of(object) == ObjectKind::Object
                && heap.length(object) >= u32::from(ROUND)
                && write_and_read_fields(heap, object, rounds)
        }
        Err(_) => false,
    }
}

/// So many rounds of writes and reads of the last items of an array of so many ints.
fn time_items(heap: &mut Heap, size: u32, rounds: u32) -> bool {
    match heap.alloc_array(0, ItemKind::Int, size) {
        Ok(array) => {
            heap.kind_of(array) == ObjectKind::Array(ItemKind::Int)
                && size > u32::from(ROUND)
                && heap.length(array) >= size
                && write_and_read_items(heap, array, size - u32::from(ROUND), rounds)
        }
        Err(_) => false,
    }
}

/// Does so many operations of each kind, or some more to fill the last round, on a part of so many things. It answers whether all were done.
pub(crate) fn repeat(
    alloc: Global,
    part: Part,
    count: u32,
    size: u32,
) -> Result<bool, OutOfMemory> {
    let rounds = count.div_ceil(u32::from(ROUND));
    match part {
        Part::Operands => Ok(push_and_pop(&mut framed(alloc, size)?, rounds)),
        Part::Locals => Ok(store_and_load(&mut framed(alloc, size)?, rounds)),
        Part::Objects => Ok(make_objects(&mut heap_of(alloc, size)?, count)),
        Part::Fields => Ok(time_fields(&mut heap_for(alloc, size)?, size, rounds)),
        Part::Items => Ok(time_items(&mut heap_for(alloc, size)?, size, rounds)),
        Part::Appends => time_appends(alloc, count, size),
    }
}
