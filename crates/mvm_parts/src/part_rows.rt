// Rows of the parts of a step, as they were worked by hand.
use mvm_base::{Kind, Word};
use mvm_frame::{FrameKey, Refused, Stack};
use mvm_heap::{AllocFault, Heap, ItemKind, ObjectKind};
use mvm_monitor::WaitList;
use mvm_region::{RegionPool, Span};
use std::test::Fail;

#[test]
fn a_full_stack_refuses(rt: HostRuntime) -> Result<(), Fail> {
    let key = FrameKey {
        mirror: 0,
        method: 0,
        lock: None,
    };
    let mut stack = Stack::new(rt.alloc(), 1, 8)?;
    assert_eq!(rt; stack.push(Word::Int(1)), Err(Refused::NoFrame));
    assert_eq!(rt; stack.enter(key, 1, 1), Ok(()));
    assert_eq!(rt; stack.enter(key, 1, 1), Err(Refused::Full));
    assert_eq!(rt; stack.push(Word::Int(1)), Ok(()));
    assert_eq!(rt; stack.push(Word::Int(1)), Err(Refused::Overflow));
    assert_eq!(rt; stack.pop(Kind::Ref), Err(Refused::Kind));
    assert_eq!(rt; stack.pop(Kind::Long), Err(Refused::Underflow));
    Ok(())
}

#[test]
fn threads_are_woken_in_the_order_in_which_they_wait(rt: HostRuntime) -> Result<(), Fail> {
    let mut waits = WaitList::new(rt.alloc(), 2)?;
    waits.add(5, 1);
    waits.add(5, 0);
    assert_eq!(rt; waits.notify(5), Some(1));
    assert_eq!(rt; waits.notify(5), Some(0));
    assert_eq!(rt; waits.notify(5), None);
    Ok(())
}

#[test]
fn a_region_is_carved(rt: HostRuntime) -> Result<(), Fail> {
    let mut pool = RegionPool::new(rt.alloc(), 1)?;
    let mut region = pool.take(10)?;
    assert_eq!(rt; region.carve(4), Some(Span { start: 0, len: 4 }));
    assert_eq!(rt; region.carve(7), None);
    assert_eq!(rt; region.carve(6), Some(Span { start: 4, len: 6 }));
    Ok(())
}

#[test]
fn a_region_is_handed_out_cleared(rt: HostRuntime) -> Result<(), Fail> {
    let mut pool = RegionPool::new(rt.alloc(), 1)?;
    let mut region = pool.take(4)?;
    region.set_word(0, 7);
    pool.give(region);
    let region = pool.take(4)?;
    assert_eq!(rt; region.word(0), 0);
    assert_eq!(rt; region.left(), 4);
    Ok(())
}

#[test]
fn a_heap_of_four_words(rt: HostRuntime) -> Result<(), Fail> {
    let mut pool = RegionPool::new(rt.alloc(), 0)?;
    let mut heap = Heap::new(rt.alloc(), pool.take(4)?)?;
    heap.reserve(2, 1, 4)?;
    let array = heap.alloc_array(0, ItemKind::Int, 3);
    assert_eq!(rt; array, Ok(0));
    if let Ok(array) = array {
        assert_eq!(rt; heap.kind_of(array), ObjectKind::Array(ItemKind::Int));
    }
    assert_eq!(rt; heap.alloc_object(0, 0), Err(AllocFault::Full));
    Ok(())
}

#[test]
fn a_heap_of_three_words(rt: HostRuntime) -> Result<(), Fail> {
    let mut pool = RegionPool::new(rt.alloc(), 0)?;
    let mut heap = Heap::new(rt.alloc(), pool.take(3)?)?;
    assert_eq!(rt; heap.intern(&[65]), Ok(0));
    assert_eq!(rt; heap.intern(&[65]), Ok(0));
    assert_eq!(rt; heap.alloc_text(&[]), Err(AllocFault::Full));
    Ok(())
}
