ghost use Rattle.std.specs.Prelude.{◌≡◌, ◌++◌, flat_map, length, IfOk, OnOk, Ok};
ghost use Rattle.mvm_base.specs.Answers.{AnswersUnless};
ghost use Rattle.mvm_classfile.specs.Reading.{Reads, IsClassFile};
ghost use Rattle.mvm_classfile.specs.Writing.{u2, u4, written, rebuilt};

use crate::class_file::ClassFile;
use crate::entries::{attribute_names, push_pool};
use crate::counts_fit::lists_fit;
use crate::members::push_members;
use crate::write_numbers::{push_count, push_u2, push_u4};
use crate::read::read_file;
use mvm_base::{List, OutOfMemory};
use mvm_layout::{ClassFault, Parts};
use std::alloc::{AllocError, Global};

/// Adds the count of interfaces, and their indices.
fn push_interfaces(bytes: &mut Vec<u8>, interfaces: &[u16]) -> Result<(), AllocError>
    ensures { OnOk result (bytes.new.items ≡ bytes.old.items ++ (u2 (length interfaces.now) ++ flat_map u2 interfaces.now)) }
{
    push_count(bytes, interfaces.len())?;
    for index in interfaces {
        push_u2(bytes, *index)?;
    }
    Ok(())
}

/// The written form of these parts.
#[tactic(auto, unfolding(crate::specs::Writing::written))]
fn write_parts(alloc: Global, parts: &Parts) -> Result<Vec<u8>, OutOfMemory>
    ensures { IfOk result (λ bytes. bytes.items ≡ written parts.now) }
{
    let mut bytes = Vec::new(alloc);
    push_u4(&mut bytes, 0xCAFEBABE)?;
    push_u2(&mut bytes, parts.minor)?;
    push_u2(&mut bytes, parts.major)?;
    push_pool(alloc, &mut bytes, parts.pool.as_slice())?;
    push_u2(&mut bytes, parts.flags)?;
    push_u2(&mut bytes, parts.this_class)?;
    push_u2(&mut bytes, parts.super_class)?;
    push_interfaces(&mut bytes, parts.interfaces.as_slice())?;
    let names = attribute_names(alloc, parts.pool.as_slice())?;
    push_members(alloc, &mut bytes, &names, parts.fields.as_slice())?;
    push_members(alloc, &mut bytes, &names, parts.methods.as_slice())?;
    push_u2(&mut bytes, 0)?;
    Ok(bytes)
}

/// The bytes of a class file, without the attributes that are passed over. Each attribute is named by the lowest entry of
/// its name.
pub fn write_class(alloc: Global, class: &ClassFile) -> Result<List<u8>, OutOfMemory>
    // The bytes, each of them.
    ensures exact { IfOk result (λ bytes. bytes ≡ written class.now) }
    // They read as the class again.
    ensures again { IfOk result (λ bytes. Reads bytes class.now) }
{
    let bytes = write_parts(alloc, class.parts())?;
    Ok(List::from_vec(bytes))
}

/// What reading the written form of these parts answers.
#[tactic(auto, unfolding(crate::specs::Writing::rebuilt, crate::specs::Writing::fits))]
fn rebuild(alloc: Global, parts: &Parts) -> Result<ClassFile, ClassFault>
    ensures { AnswersUnless ClassFault.OutOfMemory result (rebuilt parts.now) }
{
    if !lists_fit(alloc, parts)? {
        return Err(ClassFault::Shape(0));
    }
    let bytes = write_parts(alloc, parts)?;
    if bytes.len() >= 4294967296 {
        return Err(ClassFault::Shape(0));
    }
    read_file(alloc, bytes.as_slice())
}

impl ClassFile {
    /// The class file that the written form of these parts reads as.
    ///
    /// # Errors
    ///
    /// The first fault of the written form, as reading it would tell it. `Shape(0)` where a list is too long for its count or
    /// the written form has 2^32 bytes or more.
    pub fn from_parts(alloc: Global, parts: Parts) -> Result<ClassFile, ClassFault>
        // What reading the written form answers.
        ensures exact { AnswersUnless ClassFault.OutOfMemory result (rebuilt parts) }
        // The parts of a class file make it again, unless memory runs out.
        ensures again { IsClassFile parts → AnswersUnless ClassFault.OutOfMemory result (Ok parts) }
    {
        rebuild(alloc, &parts)
    }
}
