ghost use Rattle.std.specs.Prelude.{◌≡◌, ◌+◌, length, MatchResult, OnOk, IfOk, Ok, Err};
ghost use Rattle.mvm_base.specs.Answers.{Gives};
ghost use Rattle.mvm_base.specs.Answers.{GivesUnless};
ghost use Rattle.mvm_layout.specs.Format.{Format, number, times};
ghost use Rattle.mvm_layout.specs.Layout.{content, attribute, attributes, member, members, interfaces, magic, major, layout};

use crate::fault::ClassFault;
use crate::info::{AttributeInfo, ClassInfo, MemberInfo};
use crate::numbers::{run, u2, u4};
use crate::entries::pool;
use mvm_base::{Cursor, List};
use std::alloc::Global;

/// The bytes behind a length of four bytes.
pub(crate) fn content<'a>(cursor: &mut Cursor<'a>) -> Result<&'a [u8], ClassFault>
    ensures gives { MatchResult result (λ x. content.read cursor.old ≡ Ok (x.now, cursor.new)) (λ fault. content.read cursor.old ≡ Err fault) }
    ensures left { IfOk result (λ x. length cursor.old.rest ≡ 4 + length x.now + length cursor.new.rest) }
{
    let n = u4(cursor)?;
    run(cursor, n)
}

#[tactic(auto, unfolding(crate::specs::Layout::attribute))]
fn attribute<'a>(cursor: &mut Cursor<'a>) -> Result<AttributeInfo<'a>, ClassFault>
    ensures { Gives result (attribute.read cursor.old) cursor.new }
{
    let at = cursor.place();
    let name = u2(cursor)?;
    let content = content(cursor)?;
    Ok(AttributeInfo::new(at, name, content))
}

fn attribute_list<'a>(
    alloc: Global,
    cursor: &mut Cursor<'a>,
    count: u16,
) -> Result<List<AttributeInfo<'a>>, ClassFault>
    ensures { GivesUnless ClassFault.OutOfMemory result ((times count attribute).read cursor.old) cursor.new }
{
    let mut all = List::new(alloc);
    for i in 0..count {
        let one = attribute(cursor)?;
        all.push(one)?;
    }
    Ok(all)
}

/// The attributes that stand at the place of the cursor, which is left behind them.
#[tactic(auto, unfolding(crate::specs::Layout::attributes))]
pub(crate) fn attributes<'a>(
    alloc: Global,
    cursor: &mut Cursor<'a>,
) -> Result<List<AttributeInfo<'a>>, ClassFault>
    ensures { GivesUnless ClassFault.OutOfMemory result (attributes.read cursor.old) cursor.new }
{
    let count = u2(cursor)?;
    attribute_list(alloc, cursor, count)
}

#[tactic(auto, unfolding(crate::specs::Layout::member))]
fn member<'a>(alloc: Global, cursor: &mut Cursor<'a>) -> Result<MemberInfo<'a>, ClassFault>
    ensures { GivesUnless ClassFault.OutOfMemory result (member.read cursor.old) cursor.new }
{
    let at = cursor.place();
    let flags = u2(cursor)?;
    let name = u2(cursor)?;
    let desc = u2(cursor)?;
    let attributes = attributes(alloc, cursor)?;
    Ok(MemberInfo {
        at,
        flags,
        name,
        desc,
        attributes,
    })
}

fn member_list<'a>(
    alloc: Global,
    cursor: &mut Cursor<'a>,
    count: u16,
) -> Result<List<MemberInfo<'a>>, ClassFault>
    ensures { GivesUnless ClassFault.OutOfMemory result ((times count member).read cursor.old) cursor.new }
{
    let mut all = List::new(alloc);
    for i in 0..count {
        let one = member(alloc, cursor)?;
        all.push(one)?;
    }
    Ok(all)
}

#[tactic(auto, unfolding(crate::specs::Layout::members))]
fn members<'a>(alloc: Global, cursor: &mut Cursor<'a>) -> Result<List<MemberInfo<'a>>, ClassFault>
    ensures { GivesUnless ClassFault.OutOfMemory result (members.read cursor.old) cursor.new }
{
    let count = u2(cursor)?;
    member_list(alloc, cursor, count)
}

fn index_list(alloc: Global, cursor: &mut Cursor, count: u16) -> Result<List<u16>, ClassFault>
    ensures { GivesUnless ClassFault.OutOfMemory result ((times count (number 2)).read cursor.old) cursor.new }
{
    let mut all = List::new(alloc);
    for i in 0..count {
        let one = u2(cursor)?;
        all.push(one)?;
    }
    Ok(all)
}

#[tactic(auto, unfolding(crate::specs::Layout::interfaces))]
fn interfaces(alloc: Global, cursor: &mut Cursor) -> Result<List<u16>, ClassFault>
    ensures { GivesUnless ClassFault.OutOfMemory result (interfaces.read cursor.old) cursor.new }
{
    let count = u2(cursor)?;
    index_list(alloc, cursor, count)
}

#[tactic(auto, unfolding(crate::specs::Layout::magic))]
fn magic(cursor: &mut Cursor) -> Result<u32, ClassFault>
    ensures { Gives result (magic.read cursor.old) cursor.new }
{
    let n = u4(cursor)?;
    if n != 0xcafe_babe {
        return Err(ClassFault::Magic);
    }
    Ok(n)
}

#[tactic(auto, unfolding(crate::specs::Layout::major))]
fn major(cursor: &mut Cursor) -> Result<u16, ClassFault>
    ensures { Gives result (major.read cursor.old) cursor.new }
{
    let n = u2(cursor)?;
    if n < 45 || 52 < n {
        return Err(ClassFault::Version(n));
    }
    Ok(n)
}

/// What stands at the place of the cursor, which is left behind it.
#[tactic(auto, unfolding(crate::specs::Layout::layout, crate::specs::Layout::body))]
pub(crate) fn layout<'a>(
    alloc: Global,
    cursor: &mut Cursor<'a>,
) -> Result<ClassInfo<'a>, ClassFault>
    ensures { GivesUnless ClassFault.OutOfMemory result (layout.read cursor.old) cursor.new }
{
    magic(cursor)?;
    let minor = u2(cursor)?;
    let major = major(cursor)?;
    let pool = pool(alloc, cursor)?;
    let at = cursor.place();
    let flags = u2(cursor)?;
    let this_class = u2(cursor)?;
    let super_class = u2(cursor)?;
    let interfaces = interfaces(alloc, cursor)?;
    let fields = members(alloc, cursor)?;
    let methods = members(alloc, cursor)?;
    let attributes = attributes(alloc, cursor)?;
    Ok(ClassInfo {
        minor,
        major,
        pool,
        at,
        flags,
        this_class,
        super_class,
        interfaces,
        fields,
        methods,
        attributes,
    })
}
