ghost use Rattle.std.specs.Prelude.{◌≡◌, map, IfOk};
ghost use Rattle.std.specs.Option.{option_map};
ghost use Rattle.mvm_layout.specs.Layout.{code_in};
ghost use Rattle.mvm_shape.specs.Members.{codes_among, constants_among, first, index_in, code_of_info, code_of, field_part, method_part};

use crate::attributes::{first_named, index_in};
use mvm_base::{List, OutOfMemory};
use mvm_layout::flags::is_static;
use mvm_layout::{AttributeInfo, Code, Item, Member, MemberInfo, read_code};
use std::alloc::Global;

fn constant_of(pool: &List<Item>, member: &MemberInfo) -> Option<u16>
    ensures { result ≡ option_map index_in (first (constants_among pool.now member.now.attributes)) }
{
    match first_named(pool, b"ConstantValue", &member.attributes) {
        Some(attribute) => Some(index_in(attribute)),
        None => None,
    }
}

#[tactic(auto, unfolding(crate::specs::Members::field_part))]
fn field_part(pool: &List<Item>, member: &MemberInfo) -> Member
    ensures { result ≡ field_part pool.now member.now }
{
    let constant = if is_static(member.flags) {
        constant_of(pool, member)
    } else {
        None
    };
    Member {
        flags: member.flags,
        name: member.name,
        desc: member.desc,
        constant,
        code: None,
    }
}

fn code_of_attribute(alloc: Global, attribute: &AttributeInfo) -> Result<Option<Code>, OutOfMemory>
    ensures { IfOk result (λ code. code ≡ code_of_info (code_in attribute.now)) }
{
    match read_code(alloc, attribute) {
        Ok(Some(info)) => Ok(Some(info.code)),
        Ok(None) => Ok(None),
        Err(_) => Err(OutOfMemory),
    }
}

fn code_of(
    alloc: Global,
    pool: &List<Item>,
    member: &MemberInfo,
) -> Result<Option<Code>, OutOfMemory>
    ensures { IfOk result (λ code. code ≡ code_of (first (codes_among pool.now member.now.attributes))) }
{
    match first_named(pool, b"Code", &member.attributes) {
        Some(attribute) => code_of_attribute(alloc, attribute),
        None => Ok(None),
    }
}

#[tactic(auto, unfolding(crate::specs::Members::method_part))]
fn method_part(alloc: Global, pool: &List<Item>, member: &MemberInfo) -> Result<Member, OutOfMemory>
    ensures { IfOk result (λ part. part ≡ method_part pool.now member.now) }
{
    let code = code_of(alloc, pool, member)?;
    Ok(Member {
        flags: member.flags,
        name: member.name,
        desc: member.desc,
        constant: None,
        code,
    })
}

/// What is kept of each field.
pub(crate) fn field_parts(
    alloc: Global,
    pool: &List<Item>,
    fields: &List<MemberInfo>,
) -> Result<List<Member>, OutOfMemory>
    ensures { IfOk result (λ parts. parts ≡ map (field_part pool.now) fields.now) }
{
    let mut parts = List::new(alloc);
    for field in fields.as_slice() {
        parts.push(field_part(pool, field))?;
    }
    Ok(parts)
}

/// What is kept of each method.
pub(crate) fn method_parts(
    alloc: Global,
    pool: &List<Item>,
    methods: &List<MemberInfo>,
) -> Result<List<Member>, OutOfMemory>
    ensures { IfOk result (λ parts. parts ≡ map (method_part pool.now) methods.now) }
{
    let mut parts = List::new(alloc);
    for method in methods.as_slice() {
        let part = method_part(alloc, pool, method)?;
        parts.push(part)?;
    }
    Ok(parts)
}
