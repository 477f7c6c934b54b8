ghost use Rattle.std.specs.Prelude.{◌≡◌, ◌&&◌, ◌||◌, codes, length, slice_index, IfOk};
ghost use Rattle.std.specs.List.{filter};
ghost use Rattle.std.specs.Option.{option_copied};
ghost use Rattle.mvm_base.specs.Endian.{big_number};
ghost use Rattle.mvm_base.specs.Answers.{AnswersUnless};
ghost use Rattle.mvm_layout.specs.Layout.{code_in};
ghost use Rattle.mvm_layout.specs.Pool.{entry, text, is_text};
ghost use Rattle.mvm_base.specs.Rules.{each};
ghost use Rattle.mvm_layout.specs.Flags.{is_static};
ghost use Rattle.mvm_shape.specs.Members.{is_named, is_int_text, is_constant_of, is_constant_value, field_attribute, named_attribute, code_attribute, method_attribute, first, index_in};

use mvm_base::List;
use mvm_layout::flags::is_static;
use mvm_layout::pool::{entry, is_text, is_utf8};
use mvm_layout::{AttributeInfo, ClassFault, Item, MemberInfo, read_code};
use std::alloc::Global;

fn is_named(pool: &List<Item>, name: &[u8], attribute: &AttributeInfo) -> bool
    ensures { result ≡ is_named pool.now name.now attribute.now }
{
    is_text(pool, attribute.name(), name)
}

/// How many attributes have this name.
pub(crate) fn count_named(pool: &List<Item>, name: &[u8], attributes: &List<AttributeInfo>) -> usize
    ensures { result ≡ length (filter (is_named pool.now name.now) attributes.now) }
{
    attributes
        .as_slice()
        .iter()
        .filter(|attribute| is_named(pool, name, attribute))
        .count()
}

/// The first attribute of this name.
pub(crate) fn first_named<'a, 'b>(
    pool: &List<Item>,
    name: &[u8],
    attributes: &'b List<AttributeInfo<'a>>,
) -> Option<&'b AttributeInfo<'a>>
    ensures { option_copied result ≡ first (filter (is_named pool.now name.now) attributes.now) }
{
    for attribute in attributes.as_slice() {
        if is_named(pool, name, attribute) {
            return Some(attribute);
        }
    }
    None
}

fn byte_at(content: &[u8], at: usize) -> u8
    ensures { result ≡ slice_index content.now at }
{
    match content.get(at) {
        Some(byte) => *byte,
        None => 0,
    }
}

/// The number in the first two bytes, the high byte first. A byte that is not there counts as 0.
pub(crate) fn index_in(attribute: &AttributeInfo) -> u16
    ensures { result ≡ index_in attribute.now }
{
    let content = attribute.content();
    u16::from(byte_at(content, 0)) * 256 + u16::from(byte_at(content, 1))
}

fn is_int_text(pool: &List<Item>, desc: u16) -> bool
    ensures { result ≡ is_int_text (text pool.now desc) }
{
    is_text(pool, desc, b"Z")
        || is_text(pool, desc, b"B")
        || is_text(pool, desc, b"C")
        || is_text(pool, desc, b"S")
        || is_text(pool, desc, b"I")
}

fn is_constant_of(pool: &List<Item>, desc: u16, index: u16) -> bool
    ensures { result ≡ is_constant_of (text pool.now desc) (entry pool.now index) }
{
    match entry(pool, index) {
        Some(Item::Integer(_)) => is_int_text(pool, desc),
        Some(Item::Long(_)) => is_text(pool, desc, b"J"),
        Some(Item::Str(_)) => is_text(pool, desc, b"Ljava/lang/String;"),
        _ => false,
    }
}

fn is_constant_value(pool: &List<Item>, desc: u16, attribute: &AttributeInfo) -> bool
    ensures { result ≡ is_constant_value pool.now desc attribute.now.content }
{
    attribute.content().len() == 2 && is_constant_of(pool, desc, index_in(attribute))
}

#[tactic(auto, unfolding(crate::specs::Members::field_attribute))]
fn test_field_attribute(
    pool: &List<Item>,
    member: &MemberInfo,
    attribute: &AttributeInfo,
) -> Result<(), ClassFault>
    ensures { result ≡ field_attribute pool.now member.now attribute.now }
{
    let tells = is_named(pool, b"ConstantValue", attribute) && is_static(member.flags);
    if is_utf8(pool, attribute.name())
        && (!tells || is_constant_value(pool, member.desc, attribute))
    {
        return Ok(());
    }
    Err(ClassFault::Shape(attribute.at()))
}

/// Whether each attribute of a field has a name, and a value that the field may have where it tells one.
pub(crate) fn test_field_attributes(
    pool: &List<Item>,
    member: &MemberInfo,
) -> Result<(), ClassFault>
    ensures { result ≡ each (field_attribute pool.now member.now) member.now.attributes }
{
    for attribute in member.attributes.as_slice() {
        test_field_attribute(pool, member, attribute)?;
    }
    Ok(())
}

#[tactic(auto, unfolding(crate::specs::Members::named_attribute))]
fn test_name(pool: &List<Item>, attribute: &AttributeInfo) -> Result<(), ClassFault>
    ensures { result ≡ named_attribute pool.now attribute.now }
{
    if is_utf8(pool, attribute.name()) {
        return Ok(());
    }
    Err(ClassFault::Shape(attribute.at()))
}

/// Whether each attribute has a name.
pub(crate) fn test_names(
    pool: &List<Item>,
    attributes: &List<AttributeInfo>,
) -> Result<(), ClassFault>
    ensures { result ≡ each (named_attribute pool.now) attributes.now }
{
    for attribute in attributes.as_slice() {
        test_name(pool, attribute)?;
    }
    Ok(())
}

fn test_code(alloc: Global, pool: &List<Item>, attribute: &AttributeInfo) -> Result<(), ClassFault>
    ensures { AnswersUnless ClassFault.OutOfMemory result (code_attribute pool.now attribute.now.at (code_in attribute.now)) }
{
    match read_code(alloc, attribute)? {
        Some(info) => test_names(pool, &info.attributes),
        None => Err(ClassFault::Shape(attribute.at())),
    }
}

#[tactic(auto, unfolding(crate::specs::Members::method_attribute))]
fn test_method_attribute(
    alloc: Global,
    pool: &List<Item>,
    attribute: &AttributeInfo,
) -> Result<(), ClassFault>
    ensures { AnswersUnless ClassFault.OutOfMemory result (method_attribute pool.now attribute.now) }
{
    test_name(pool, attribute)?;
    if is_named(pool, b"Code", attribute) {
        return test_code(alloc, pool, attribute);
    }
    Ok(())
}

/// Whether each attribute of a method has a name, and is code where it is named so.
pub(crate) fn test_method_attributes(
    alloc: Global,
    pool: &List<Item>,
    attributes: &List<AttributeInfo>,
) -> Result<(), ClassFault>
    ensures { AnswersUnless ClassFault.OutOfMemory result (each (method_attribute pool.now) attributes.now) }
{
    for attribute in attributes.as_slice() {
        test_method_attribute(alloc, pool, attribute)?;
    }
    Ok(())
}
