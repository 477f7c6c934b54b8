use mvm_base::{Kind, OutOfMemory, Word};
use mvm_frame::{FrameKey, Refused, Stack, shuffle_of};
use std::alloc::Global;

/// How many slots of operands the frame has in which a shuffle is tried.
const DEPTH: u16 = 32;

/// A frame of no locals.
fn framed(alloc: Global) -> Result<Stack, OutOfMemory> {
    let mut stack = Stack::new(alloc, 1, 64)?;
    let key = FrameKey {
        mirror: 0,
        method: 0,
        lock: None,
    };
    match stack.enter(key, 0, DEPTH) {
        Ok(()) => Ok(stack),
        Err(_) => Err(OutOfMemory),
    }
}

/// Takes the value off that stands on top, whatever its kind.
fn take(stack: &mut Stack) -> Result<Word, Refused> {
    match stack.pop(Kind::Int) {
        Err(Refused::Kind) => stack.pop(Kind::Long),
        answer => answer,
    }
}

/// Puts these values on the stack, the first of them lowest.
fn put(stack: &mut Stack, operands: &[Word]) -> Result<(), Refused> {
    for word in operands {
        stack.push(*word)?;
    }
    Ok(())
}

/// Takes all values off, the one on top first.
fn take_all(alloc: Global, mut stack: Stack) -> Result<Vec<Word>, OutOfMemory> {
    let mut words = Vec::new(alloc);
    for _ in 0..DEPTH {
        match take(&mut stack) {
            Ok(word) => words.push(word)?,
            Err(_) => break,
        }
    }
    Ok(words)
}

/// What stands on the stack, the value on top first, after an instruction from `pop` to `swap` over these operands; `None` for any other
/// instruction, and where it is refused.
pub(crate) fn shuffled(
    alloc: Global,
    op: u8,
    operands: &[Word],
) -> Result<Option<Vec<Word>>, OutOfMemory> {
    let mut stack = framed(alloc)?;
    if shuffle_of(op).is_none() {
        return Ok(None);
    }
    match put(&mut stack, operands) {
        Ok(()) => match stack.shuffle(op) {
            Ok(()) => Ok(Some(take_all(alloc, stack)?)),
            Err(_) => Ok(None),
        },
        Err(_) => Ok(None),
    }
}
