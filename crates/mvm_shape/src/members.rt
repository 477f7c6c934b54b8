ghost use Rattle.std.specs.Prelude.{◌≡◌, ◌≤◌, ◌<◌, ◌+◌, ◌^◌, if◌then◌else◌};
ghost use Rattle.std.specs.List.{filter};
ghost use Rattle.std.specs.Option.{option_map};
ghost use Rattle.mvm_base.specs.Answers.{AnswersUnless};
ghost use Rattle.mvm_layout.specs.Bounds.{StandsWithin};
ghost use Rattle.mvm_layout.specs.declared.fault.ClassFault.TheVariants.{Unsupported};
ghost use Rattle.mvm_layout.specs.Pool.{text};
ghost use Rattle.mvm_base.specs.Rules.{expect};
ghost use Rattle.mvm_layout.specs.Flags.{is_static, is_interface, has_no_code};
ghost use Rattle.mvm_shape.specs.Members.{is_unqualified, is_method_name, holds, field_descriptor, method_descriptor, is_sound_field, tested_field, is_sound_method, is_interface_code, has_interface_code_flags, may_have_interface_code, keeps_interface_flags, keeps_interface_version, tested_method};
ghost use Rattle.mvm_shape.specs.TextFacts.{all_facts, facts_of, is_known_field, is_known_method, known_field, known_method, tested_as};

use crate::attributes::{count_named, test_field_attributes, test_method_attributes};
use crate::text_facts::{Descriptor, TextFacts, facts_at};
use crate::faults::{shape_fault, unsupported_fault};
use mvm_base::List;
use mvm_layout::flags::{
    FINAL, PRIVATE, PROTECTED, PUBLIC, SYNCHRONIZED, has_flag, has_no_code, is_interface, is_static,
};
use mvm_layout::pool::is_text;
use mvm_layout::{ClassFault, ClassInfo, Item, MemberInfo};
use std::alloc::Global;

/// The first major version of which an interface's methods may have code (JVM Specification 4.6).
pub const INTERFACE_CODE_MAJOR: u16 = 52;

#[tactic(auto, using(crate::proofs::TextFacts::field_name))]
fn is_field_name(pool: &List<Item>, rows: &[Option<TextFacts>], index: u16) -> bool
    requires { rows.now ≡ all_facts pool.now }
    ensures { result ≡ holds is_unqualified (text pool.now index) }
{
    match facts_at(pool, rows, index) {
        Some(facts) => facts.is_field_name,
        None => false,
    }
}

#[tactic(auto, using(crate::proofs::TextFacts::method_name))]
fn is_method_name(pool: &List<Item>, rows: &[Option<TextFacts>], index: u16) -> bool
    requires { rows.now ≡ all_facts pool.now }
    ensures { result ≡ holds is_method_name (text pool.now index) }
{
    match facts_at(pool, rows, index) {
        Some(facts) => facts.is_method_name,
        None => false,
    }
}

fn test_read(at: u32, beside: u64, read: Descriptor) -> Result<(), ClassFault>
    requires place { at + 4 < 2 ^ 32 }
    requires few { beside ≤ 255 }
    ensures { result ≡ tested_as (at + 4) beside read }
{
    match read {
        Descriptor::Whole(slots) => {
            if slots <= 255 && slots + beside <= 255 {
                return Ok(());
            }
            Err(shape_fault(at, 4))
        }
        Descriptor::Float => Err(unsupported_fault(at, 4)),
        Descriptor::Broken => Err(shape_fault(at, 4)),
    }
}

fn known_field(facts: Option<TextFacts>) -> Descriptor
    ensures { result ≡ known_field facts }
{
    match facts {
        Some(facts) => facts.field,
        None => Descriptor::Broken,
    }
}

fn known_method(facts: Option<TextFacts>) -> Descriptor
    ensures { result ≡ known_method facts }
{
    match facts {
        Some(facts) => facts.method,
        None => Descriptor::Broken,
    }
}

#[tactic(auto, using(crate::proofs::TextFacts::field_tested))]
fn test_field_descriptor(
    pool: &List<Item>,
    rows: &[Option<TextFacts>],
    member: &MemberInfo,
) -> Result<(), ClassFault>
    requires rows { rows.now ≡ all_facts pool.now }
    requires within { StandsWithin member.now }
    ensures { result ≡ field_descriptor (member.now.at + 4) (text pool.now member.now.desc) }
{
    let read = known_field(facts_at(pool, rows, member.desc));
    test_read(member.at, 0, read)
}

fn own_slots(flags: u16) -> u64
    ensures same { result ≡ (if is_static flags then 0 else 1) }
    ensures few { result ≤ 255 }
{
    if is_static(flags) { 0 } else { 1 }
}

#[tactic(auto, using(crate::proofs::TextFacts::method_tested))]
fn test_method_descriptor(
    pool: &List<Item>,
    rows: &[Option<TextFacts>],
    member: &MemberInfo,
) -> Result<(), ClassFault>
    requires rows { rows.now ≡ all_facts pool.now }
    requires within { StandsWithin member.now }
    ensures { result ≡ method_descriptor (member.now.at + 4) member.now.flags (text pool.now member.now.desc) }
{
    let read = known_method(facts_at(pool, rows, member.desc));
    test_read(member.at, own_slots(member.flags), read)
}

#[tactic(auto, unfolding(crate::specs::Members::is_sound_field))]
fn is_sound_field(info: &ClassInfo, is_repeated: bool, member: &MemberInfo) -> bool
    ensures { result ≡ is_sound_field info.now.pool (is_interface info.now.flags) is_repeated member.now }
{
    !is_repeated
        && count_named(&info.pool, b"ConstantValue", &member.attributes) <= 1
        && (!is_interface(info.flags) || is_static(member.flags))
}

/// Whether a field keeps the rules.
#[tactic(auto, unfolding(crate::specs::Members::tested_field))]
pub(crate) fn test_field(
    info: &ClassInfo,
    rows: &[Option<TextFacts>],
    is_repeated: bool,
    member: &MemberInfo,
) -> Result<(), ClassFault>
    requires rows { rows.now ≡ all_facts info.now.pool }
    requires within { StandsWithin member.now }
    ensures { result ≡ tested_field info.now.pool (is_interface info.now.flags) is_repeated member.now }
{
    let pool = &info.pool;
    if !is_sound_field(info, is_repeated, member) {
        return Err(ClassFault::Shape(member.at));
    }
    if !is_field_name(pool, rows, member.name) {
        return Err(shape_fault(member.at, 2));
    }
    test_field_descriptor(pool, rows, member)?;
    test_field_attributes(pool, member)
}

fn codes_wanted(flags: u16) -> usize
    ensures { result ≡ (if has_no_code flags then 0 else 1) }
{
    if has_no_code(flags) { 0 } else { 1 }
}

#[tactic(auto, unfolding(crate::specs::Members::is_sound_method))]
fn is_sound_method(pool: &List<Item>, is_repeated: bool, member: &MemberInfo) -> bool
    ensures { result ≡ is_sound_method pool.now is_repeated member.now }
{
    !is_repeated && count_named(pool, b"Code", &member.attributes) == codes_wanted(member.flags)
}

fn is_interface_code(info: &ClassInfo, member: &MemberInfo) -> bool
    ensures { result ≡ is_interface_code info.now.pool (is_interface info.now.flags) member.now }
{
    is_interface(info.flags)
        && !has_no_code(member.flags)
        && !is_text(&info.pool, member.name, b"<clinit>")
}

fn has_interface_code_flags(flags: u16) -> bool
    ensures { result ≡ has_interface_code_flags flags }
{
    let is_public = has_flag(PUBLIC, flags);
    let is_private = has_flag(PRIVATE, flags);
    (is_public || is_private)
        && !(is_public && is_private)
        && !has_flag(PROTECTED, flags)
        && !has_flag(FINAL, flags)
        && !has_flag(SYNCHRONIZED, flags)
}

fn may_have_interface_code(major: u16) -> bool
    ensures { result ≡ may_have_interface_code major }
{
    INTERFACE_CODE_MAJOR <= major
}

fn keeps_interface_flags(info: &ClassInfo, member: &MemberInfo) -> bool
    ensures { result ≡ keeps_interface_flags info.now.pool info.now.major (is_interface info.now.flags) member.now }
{
    !(is_interface_code(info, member) && may_have_interface_code(info.major))
        || has_interface_code_flags(member.flags)
}

fn keeps_interface_version(info: &ClassInfo, member: &MemberInfo) -> bool
    ensures { result ≡ keeps_interface_version info.now.pool info.now.major (is_interface info.now.flags) member.now }
{
    !is_interface_code(info, member) || may_have_interface_code(info.major)
}

/// Whether a method keeps the rules.
#[tactic(auto, unfolding(crate::specs::Members::tested_method))]
pub(crate) fn test_method(
    alloc: Global,
    info: &ClassInfo,
    rows: &[Option<TextFacts>],
    is_repeated: bool,
    member: &MemberInfo,
) -> Result<(), ClassFault>
    requires rows { rows.now ≡ all_facts info.now.pool }
    requires within { StandsWithin member.now }
    ensures { AnswersUnless ClassFault.OutOfMemory result (tested_method info.now.pool info.now.major (is_interface info.now.flags) is_repeated member.now) }
{
    let pool = &info.pool;
    if !is_sound_method(pool, is_repeated, member) {
        return Err(ClassFault::Shape(member.at));
    }
    if !keeps_interface_flags(info, member) {
        return Err(ClassFault::Shape(member.at));
    }
    if !keeps_interface_version(info, member) {
        return Err(ClassFault::Unsupported(member.at));
    }
    if !is_method_name(pool, rows, member.name) {
        return Err(shape_fault(member.at, 2));
    }
    test_method_descriptor(pool, rows, member)?;
    test_method_attributes(alloc, pool, &member.attributes)
}
