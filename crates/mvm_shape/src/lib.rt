//! Files: the rules of class files behind their layout (JVM Specification, chapter 4): what the indices of the constant pool
//! name, and what classes, fields, methods and their attributes have to be.
//!
//! To the layers above it promises: [`shape`] answers exactly what `shaped` of `specs/Shape.antt` says of a class file that
//! is laid out, unless memory ran out: its parts, or the first fault, which is that of the lowest entry of the constant pool
//! that is wrong, else of the first rule that is broken. [`shape_law`] promises that this rule has the lowest place: of all
//! that can be wrong behind the constant pool, which `specs/Lowest.antt` lists without an order, the fault that is told is one
//! that there is (`told`), no other is lower, where at one place Shape is lower than Unsupported (`lowest`), and there is none
//! where no fault is told (`none`).
#![tactic(auto)]

mod attributes;
mod faults;
mod header;
mod kept_parts;
mod laws;
mod links;
mod member_lists;
mod members;
mod text_facts;
mod text_numbers;

ghost use Rattle.std.specs.Prelude.{◌≡◌, IfOk};
ghost use Rattle.mvm_base.specs.Answers.{AnswersUnless};
ghost use Rattle.mvm_layout.specs.Bounds.{IsWithinFile};
ghost use Rattle.mvm_shape.specs.Shape.{shaped, rules, parts_of};

use crate::attributes::test_names;
use crate::header::test_header;
use crate::kept_parts::{field_parts, method_parts};
use crate::links::test_links;
use crate::member_lists::{test_fields, test_methods};
use crate::text_facts::all_facts;
use crate::text_numbers::numbers;
pub use laws::shape_law;
use mvm_base::OutOfMemory;
use mvm_layout::{ClassFault, ClassInfo, Parts};
use std::alloc::Global;

#[tactic(auto, unfolding(crate::specs::Shape::rules))]
fn test_rules(alloc: Global, info: &ClassInfo) -> Result<(), ClassFault>
    requires { IsWithinFile info.now }
    ensures { AnswersUnless ClassFault.OutOfMemory result (rules info.now) }
{
    test_header(info)?;
    let rows = all_facts(alloc, &info.pool)?;
    let numbers = numbers(alloc, &info.pool)?;
    test_fields(alloc, info, &rows, &numbers)?;
    test_methods(alloc, info, &rows, &numbers)?;
    test_names(&info.pool, &info.attributes)
}

#[tactic(auto, unfolding(crate::specs::Shape::parts_of))]
fn parts_of(alloc: Global, info: ClassInfo) -> Result<Parts, OutOfMemory>
    ensures { IfOk result (λ parts. parts ≡ parts_of info.entry) }
{
    let fields = field_parts(alloc, &info.pool, &info.fields)?;
    let methods = method_parts(alloc, &info.pool, &info.methods)?;
    Ok(Parts {
        minor: info.minor,
        major: info.major,
        pool: info.pool,
        flags: info.flags,
        this_class: info.this_class,
        super_class: info.super_class,
        interfaces: info.interfaces,
        fields,
        methods,
    })
}

/// The parts of a class file that is laid out, without the attributes that are passed over, or its first fault. Its places
/// and counts are those of a file, as `read_layout` promises. It is meant to take time in proportion to n log n for n bytes, and memory
/// in proportion to them; no clause says it.
#[tactic(auto, unfolding(crate::specs::Shape::shaped))]
pub fn shape<'a>(alloc: Global, info: ClassInfo<'a>) -> Result<Parts, ClassFault>
    requires { IsWithinFile info }
    ensures { AnswersUnless ClassFault.OutOfMemory result (shaped info.entry) }
{
    test_links(&info.pool)?;
    test_rules(alloc, &info)?;
    Ok(parts_of(alloc, info)?)
}
