ghost use Rattle.std.specs.Prelude.{◌≡◌, ◌<◌, ◌-◌, ◌^◌, length, false, IfOk};
ghost use Rattle.mvm_base.specs.Answers.{Gives, GivesUnless};
ghost use Rattle.mvm_layout.specs.Format.{Format};
ghost use Rattle.mvm_layout.specs.Text.{decoded_text};
ghost use Rattle.mvm_layout.specs.Entries.{text, constant, reference, tagged, item, takes_two, entry, items, pool};

use crate::fault::ClassFault;
use crate::numbers::{run, u1, u2, u4, u8};
use crate::parts::Item;
use mvm_base::{Cursor, List, Name, OutOfMemory, Utf8Fault, decode_mutf8};
use std::alloc::Global;

fn decoded_text(alloc: Global, bytes: &[u8]) -> Result<Option<Name>, OutOfMemory>
    requires { length bytes.now < 2 ^ 32 }
    ensures { IfOk result (λ x. x ≡ decoded_text bytes.now) }
{
    match decode_mutf8(alloc, bytes) {
        Ok(name) => Ok(Some(name)),
        Err(Utf8Fault::Bad(_)) => Ok(None),
        Err(Utf8Fault::OutOfMemory) => Err(OutOfMemory),
    }
}

#[tactic(auto, unfolding(crate::specs::Entries::text))]
fn text(alloc: Global, cursor: &mut Cursor, index: u16) -> Result<Name, ClassFault>
    ensures { GivesUnless ClassFault.OutOfMemory result ((text index).read cursor.old) cursor.new }
{
    let n = u2(cursor)?;
    let bytes = run(cursor, u32::from(n))?;
    match decoded_text(alloc, bytes)? {
        Some(name) => Ok(name),
        None => Err(ClassFault::Pool(index)),
    }
}

#[tactic(auto, unfolding(crate::specs::Entries::constant))]
fn constant(cursor: &mut Cursor, tag: u8) -> Result<Item, ClassFault>
    ensures { Gives result ((constant tag).read cursor.old) cursor.new }
{
    match tag {
        3 => {
            let n = u4(cursor)?;
            Ok(Item::Integer(n.cast_signed()))
        }
        4 => {
            let n = u4(cursor)?;
            Ok(Item::Float(n))
        }
        5 => {
            let n = u8(cursor)?;
            Ok(Item::Long(n.cast_signed()))
        }
        _ => {
            let n = u8(cursor)?;
            Ok(Item::Double(n))
        }
    }
}

#[tactic(auto, unfolding(crate::specs::Entries::reference))]
fn reference(cursor: &mut Cursor, index: u16, tag: u8) -> Result<Item, ClassFault>
    ensures { Gives result ((reference index tag).read cursor.old) cursor.new }
{
    match tag {
        7 => {
            let name = u2(cursor)?;
            Ok(Item::Class(name))
        }
        8 => {
            let text = u2(cursor)?;
            Ok(Item::Str(text))
        }
        9 => {
            let class = u2(cursor)?;
            let member = u2(cursor)?;
            Ok(Item::Fieldref(class, member))
        }
        10 => {
            let class = u2(cursor)?;
            let member = u2(cursor)?;
            Ok(Item::Methodref(class, member))
        }
        11 => {
            let class = u2(cursor)?;
            let member = u2(cursor)?;
            Ok(Item::InterfaceMethodref(class, member))
        }
        12 => {
            let name = u2(cursor)?;
            let desc = u2(cursor)?;
            Ok(Item::NameAndType(name, desc))
        }
        15 => {
            let kind = u1(cursor)?;
            let target = u2(cursor)?;
            Ok(Item::MethodHandle(kind, target))
        }
        16 => {
            let desc = u2(cursor)?;
            Ok(Item::MethodType(desc))
        }
        18 => {
            let bootstrap = u2(cursor)?;
            let member = u2(cursor)?;
            Ok(Item::InvokeDynamic(bootstrap, member))
        }
        _ => Err(ClassFault::Pool(index)),
    }
}

#[tactic(auto, unfolding(crate::specs::Entries::tagged))]
fn tagged(
    alloc: Global,
    cursor: &mut Cursor,
    index: u16,
    is_last: bool,
    tag: u8,
) -> Result<Item, ClassFault>
    ensures { GivesUnless ClassFault.OutOfMemory result ((tagged index is_last tag).read cursor.old) cursor.new }
{
    match tag {
        1 => {
            let text = text(alloc, cursor, index)?;
            Ok(Item::Utf8(text))
        }
        5 | 6 => {
            if is_last {
                return Err(ClassFault::Pool(index));
            }
            constant(cursor, tag)
        }
        3 | 4 => constant(cursor, tag),
        _ => reference(cursor, index, tag),
    }
}

#[tactic(auto, unfolding(crate::specs::Entries::item))]
fn item(alloc: Global, cursor: &mut Cursor, index: u16, is_last: bool) -> Result<Item, ClassFault>
    ensures { GivesUnless ClassFault.OutOfMemory result ((item index is_last).read cursor.old) cursor.new }
{
    let tag = u1(cursor)?;
    tagged(alloc, cursor, index, is_last, tag)
}

fn entry(
    alloc: Global,
    cursor: &mut Cursor,
    is_upper: bool,
    index: u16,
    is_last: bool,
) -> Result<Item, ClassFault>
    ensures { GivesUnless ClassFault.OutOfMemory result ((entry is_upper index is_last).read cursor.old) cursor.new }
{
    if is_upper {
        return Ok(Item::Upper);
    }
    item(alloc, cursor, index, is_last)
}

fn takes_two(item: &Item) -> bool
    ensures { result ≡ takes_two item.now }
{
    matches!(item, Item::Long(_) | Item::Double(_))
}

fn items(alloc: Global, cursor: &mut Cursor, count: u16) -> Result<List<Item>, ClassFault>
    ensures { GivesUnless ClassFault.OutOfMemory result ((items false 1 (count - 1)).read cursor.old) cursor.new }
{
    let mut all = List::new(alloc);
    let mut is_upper = false;
    for index in 1..count {
        let one = entry(alloc, cursor, is_upper, index, index == count - 1)?;
        is_upper = takes_two(&one);
        all.push(one)?;
    }
    Ok(all)
}

/// The constant pool that stands at the place of the cursor, which is left behind it.
#[tactic(auto, unfolding(crate::specs::Entries::pool))]
pub(crate) fn pool(alloc: Global, cursor: &mut Cursor) -> Result<List<Item>, ClassFault>
    ensures { GivesUnless ClassFault.OutOfMemory result (pool.read cursor.old) cursor.new }
{
    let count = u2(cursor)?;
    if count < 1 {
        return Err(ClassFault::Pool(0));
    }
    items(alloc, cursor, count)
}
