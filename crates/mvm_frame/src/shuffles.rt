ghost use Rattle.std.specs.Prelude.{◌≡◌, ◌+◌, ◌≤◌, length, OnErr};
ghost use Rattle.mvm_base.specs.Answers.{Does};
ghost use Rattle.mvm_frame.specs.Calls.{shuffled, grown, needed, whole};

use crate::refused::Refused;
use crate::shuffle_rows::Shuffle;
use crate::slot::Slot;
use crate::stack::Stack;

fn whole(slot: Slot) -> bool
    ensures { result ≡ whole slot }
{
    match slot {
        Slot::Half => false,
        Slot::Unset | Slot::Int(_) | Slot::Long(_) | Slot::Ref(_) | Slot::Null => true,
    }
}

fn pop(stack: &mut Stack) -> Result<(), Refused>
    requires has { 1 ≤ length stack.old.operands.slots }
    requires room { length stack.old.operands.slots ≤ stack.old.operands.depth }
    ensures does { Does result (shuffled Shuffle.Pop stack.old.operands.slots) stack.new.operands.slots }
    ensures depth { stack.new.operands.depth ≡ stack.old.operands.depth }
    ensures rest { stack.new.rest ≡ stack.old.rest }
    ensures err { OnErr result (stack.new ≡ stack.old) }
{
    if !whole(stack.peek(0)) {
        return Err(Refused::Kind);
    }
    stack.take();
    Ok(())
}

fn pop2(stack: &mut Stack) -> Result<(), Refused>
    requires has { 2 ≤ length stack.old.operands.slots }
    requires room { length stack.old.operands.slots ≤ stack.old.operands.depth }
    ensures does { Does result (shuffled Shuffle.Pop2 stack.old.operands.slots) stack.new.operands.slots }
    ensures depth { stack.new.operands.depth ≡ stack.old.operands.depth }
    ensures rest { stack.new.rest ≡ stack.old.rest }
    ensures err { OnErr result (stack.new ≡ stack.old) }
{
    if !whole(stack.peek(1)) {
        return Err(Refused::Kind);
    }
    stack.take();
    stack.take();
    Ok(())
}

fn dup(stack: &mut Stack) -> Result<(), Refused>
    requires has { 1 ≤ length stack.old.operands.slots }
    requires room { length stack.old.operands.slots + 1 ≤ stack.old.operands.depth }
    ensures does { Does result (shuffled Shuffle.Dup stack.old.operands.slots) stack.new.operands.slots }
    ensures depth { stack.new.operands.depth ≡ stack.old.operands.depth }
    ensures rest { stack.new.rest ≡ stack.old.rest }
    ensures err { OnErr result (stack.new ≡ stack.old) }
{
    if !whole(stack.peek(0)) {
        return Err(Refused::Kind);
    }
    let a = stack.take();
    stack.put(a);
    stack.put(a);
    Ok(())
}

fn dup_x1(stack: &mut Stack) -> Result<(), Refused>
    requires has { 2 ≤ length stack.old.operands.slots }
    requires room { length stack.old.operands.slots + 1 ≤ stack.old.operands.depth }
    ensures does { Does result (shuffled Shuffle.DupX1 stack.old.operands.slots) stack.new.operands.slots }
    ensures depth { stack.new.operands.depth ≡ stack.old.operands.depth }
    ensures rest { stack.new.rest ≡ stack.old.rest }
    ensures err { OnErr result (stack.new ≡ stack.old) }
{
    if !whole(stack.peek(0)) || !whole(stack.peek(1)) {
        return Err(Refused::Kind);
    }
    let a = stack.take();
    let b = stack.take();
    stack.put(a);
    stack.put(b);
    stack.put(a);
    Ok(())
}

fn dup_x2(stack: &mut Stack) -> Result<(), Refused>
    requires has { 3 ≤ length stack.old.operands.slots }
    requires room { length stack.old.operands.slots + 1 ≤ stack.old.operands.depth }
    ensures does { Does result (shuffled Shuffle.DupX2 stack.old.operands.slots) stack.new.operands.slots }
    ensures depth { stack.new.operands.depth ≡ stack.old.operands.depth }
    ensures rest { stack.new.rest ≡ stack.old.rest }
    ensures err { OnErr result (stack.new ≡ stack.old) }
{
    if !whole(stack.peek(0)) || !whole(stack.peek(2)) {
        return Err(Refused::Kind);
    }
    let a = stack.take();
    let b = stack.take();
    let c = stack.take();
    stack.put(a);
    stack.put(c);
    stack.put(b);
    stack.put(a);
    Ok(())
}

fn dup2(stack: &mut Stack) -> Result<(), Refused>
    requires has { 2 ≤ length stack.old.operands.slots }
    requires room { length stack.old.operands.slots + 2 ≤ stack.old.operands.depth }
    ensures does { Does result (shuffled Shuffle.Dup2 stack.old.operands.slots) stack.new.operands.slots }
    ensures depth { stack.new.operands.depth ≡ stack.old.operands.depth }
    ensures rest { stack.new.rest ≡ stack.old.rest }
    ensures err { OnErr result (stack.new ≡ stack.old) }
{
    if !whole(stack.peek(1)) {
        return Err(Refused::Kind);
    }
    let a = stack.take();
    let b = stack.take();
    stack.put(b);
    stack.put(a);
    stack.put(b);
    stack.put(a);
    Ok(())
}

fn dup2_x1(stack: &mut Stack) -> Result<(), Refused>
    requires has { 3 ≤ length stack.old.operands.slots }
    requires room { length stack.old.operands.slots + 2 ≤ stack.old.operands.depth }
    ensures does { Does result (shuffled Shuffle.Dup2X1 stack.old.operands.slots) stack.new.operands.slots }
    ensures depth { stack.new.operands.depth ≡ stack.old.operands.depth }
    ensures rest { stack.new.rest ≡ stack.old.rest }
    ensures err { OnErr result (stack.new ≡ stack.old) }
{
    if !whole(stack.peek(1)) || !whole(stack.peek(2)) {
        return Err(Refused::Kind);
    }
    let a = stack.take();
    let b = stack.take();
    let c = stack.take();
    stack.put(b);
    stack.put(a);
    stack.put(c);
    stack.put(b);
    stack.put(a);
    Ok(())
}

fn dup2_x2(stack: &mut Stack) -> Result<(), Refused>
    requires has { 4 ≤ length stack.old.operands.slots }
    requires room { length stack.old.operands.slots + 2 ≤ stack.old.operands.depth }
    ensures does { Does result (shuffled Shuffle.Dup2X2 stack.old.operands.slots) stack.new.operands.slots }
    ensures depth { stack.new.operands.depth ≡ stack.old.operands.depth }
    ensures rest { stack.new.rest ≡ stack.old.rest }
    ensures err { OnErr result (stack.new ≡ stack.old) }
{
    if !whole(stack.peek(1)) || !whole(stack.peek(3)) {
        return Err(Refused::Kind);
    }
    let a = stack.take();
    let b = stack.take();
    let c = stack.take();
    let d = stack.take();
    stack.put(b);
    stack.put(a);
    stack.put(d);
    stack.put(c);
    stack.put(b);
    stack.put(a);
    Ok(())
}

fn swap(stack: &mut Stack) -> Result<(), Refused>
    requires has { 2 ≤ length stack.old.operands.slots }
    requires room { length stack.old.operands.slots ≤ stack.old.operands.depth }
    ensures does { Does result (shuffled Shuffle.Swap stack.old.operands.slots) stack.new.operands.slots }
    ensures depth { stack.new.operands.depth ≡ stack.old.operands.depth }
    ensures rest { stack.new.rest ≡ stack.old.rest }
    ensures err { OnErr result (stack.new ≡ stack.old) }
{
    if !whole(stack.peek(0)) || !whole(stack.peek(1)) {
        return Err(Refused::Kind);
    }
    let a = stack.take();
    let b = stack.take();
    stack.put(a);
    stack.put(b);
    Ok(())
}

pub(crate) fn needed(op: Shuffle) -> usize
    ensures { result ≡ needed op }
{
    match op {
        Shuffle::Pop | Shuffle::Dup => 1,
        Shuffle::Pop2 | Shuffle::DupX1 | Shuffle::Dup2 | Shuffle::Swap => 2,
        Shuffle::DupX2 | Shuffle::Dup2X1 => 3,
        Shuffle::Dup2X2 => 4,
    }
}

pub(crate) fn grown(op: Shuffle) -> usize
    ensures { result ≡ grown op }
{
    match op {
        Shuffle::Pop | Shuffle::Pop2 | Shuffle::Swap => 0,
        Shuffle::Dup | Shuffle::DupX1 | Shuffle::DupX2 => 1,
        Shuffle::Dup2 | Shuffle::Dup2X1 | Shuffle::Dup2X2 => 2,
    }
}

pub(crate) fn moved(stack: &mut Stack, op: Shuffle) -> Result<(), Refused>
    requires has { needed op ≤ length stack.old.operands.slots }
    requires room { length stack.old.operands.slots + grown op ≤ stack.old.operands.depth }
    ensures does { Does result (shuffled op stack.old.operands.slots) stack.new.operands.slots }
    ensures depth { stack.new.operands.depth ≡ stack.old.operands.depth }
    ensures rest { stack.new.rest ≡ stack.old.rest }
    ensures err { OnErr result (stack.new ≡ stack.old) }
{
    match op {
        Shuffle::Pop => pop(stack),
        Shuffle::Pop2 => pop2(stack),
        Shuffle::Dup => dup(stack),
        Shuffle::DupX1 => dup_x1(stack),
        Shuffle::DupX2 => dup_x2(stack),
        Shuffle::Dup2 => dup2(stack),
        Shuffle::Dup2X1 => dup2_x1(stack),
        Shuffle::Dup2X2 => dup2_x2(stack),
        Shuffle::Swap => swap(stack),
    }
}
