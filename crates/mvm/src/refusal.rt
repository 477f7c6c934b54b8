ghost use Rattle.std.specs.Prelude.{◌≡◌, ◌++◌, codes, decimal, OnOk, IfOk};
ghost use Rattle.mvm.specs.Refusals.{class_fault_text, line_fault_text, assembly_fault_text, refusal_text_of};

use crate::texts::push_number;
use mvm_asm::AsmFault;
use mvm_base::{Line, OutOfMemory};
use mvm_classfile::ClassFault;
use mvm_statement::AsmKind;
use std::alloc::{AllocError, Global};

/// Why a call of [`launch`](crate::launch::launch) did not run to its end.
#[derive(Clone, Copy, Debug, PartialEq, Eq)]
pub enum Refusal {
    /// The words name no command.
    Usage,
    /// A read of the input failed.
    ReadFault,
    /// The input has more than 1,048,576 bytes.
    InputTooLong,
    /// The input is no class file, or is one that `run` can't run.
    Class(ClassFault),
    /// The input is not the text of a class file.
    Assembly(AsmFault),
    /// A write of the output failed, or took nothing, after so many bytes.
    WriteFault(u64),
}

/// What a refusal reads as, without an end of the line.
pub fn refusal_text(alloc: Global, refusal: &Refusal) -> Result<Line, OutOfMemory>
    ensures { IfOk result (λ text. text ≡ refusal_text_of refusal.now) }
{
    let mut text = Line::new(alloc);
    push_refusal(&mut text, refusal)?;
    Ok(text)
}

// Adds what a refusal reads as.
#[tactic(auto, unfolding(crate::specs::Refusals::refusal_text_of))]
fn push_refusal(text: &mut Line, refusal: &Refusal) -> Result<(), AllocError>
    ensures ok { OnOk result (text.new ≡ text.old ++ refusal_text_of refusal.now) }
{
    match refusal {
        Refusal::Usage => text.push_str(
            "usage: mvm run [--workers N] [--quantum Q] [--statics] | asm | dump | gen N",
        ),
        Refusal::ReadFault => text.push_str("read failed"),
        Refusal::InputTooLong => text.push_str("input too long"),
        Refusal::Class(fault) => push_class_fault(text, fault),
        Refusal::Assembly(fault) => push_assembly_fault(text, fault),
        Refusal::WriteFault(count) => {
            text.push_str("write failed after ")?;
            push_number(text, *count)?;
            text.push_str(" bytes")
        }
    }
}

// Adds why an input is not the text of a class file.
fn push_assembly_fault(text: &mut Line, fault: &AsmFault) -> Result<(), AllocError>
    ensures ok { OnOk result (text.new ≡ text.old ++ assembly_fault_text fault.now) }
{
    match fault {
        AsmFault::At(number, kind) => push_line_fault(text, *number, kind),
        AsmFault::Refused(fault) => push_class_fault(text, fault),
        AsmFault::OutOfMemory => text.push_str("out of memory"),
    }
}

// Adds the number of a line, and what is wrong there.
fn push_line_fault(text: &mut Line, number: u32, kind: &AsmKind) -> Result<(), AllocError>
    ensures ok { OnOk result (text.new ≡ text.old ++ (codes "line " ++ decimal number ++ codes ": " ++ line_fault_text kind.now)) }
{
    text.push_str("line ")?;
    push_number(text, u64::from(number))?;
    text.push_str(": ")?;
    text.push_str(line_fault_word(kind))
}

// What is wrong with a line, in a word.
fn line_fault_word(kind: &AsmKind) -> &'static str
    ensures { result.now ≡ line_fault_text kind.now }
{
    match kind {
        AsmKind::Word => "word",
        AsmKind::Operand => "operand",
        AsmKind::Range => "range",
        AsmKind::Label => "label",
        AsmKind::Order => "order",
        AsmKind::Pool => "pool",
    }
}

// Adds why an input is no class file, or none that is run.
fn push_class_fault(text: &mut Line, fault: &ClassFault) -> Result<(), AllocError>
    ensures ok { OnOk result (text.new ≡ text.old ++ class_fault_text fault.now) }
{
    match fault {
        ClassFault::Magic => text.push_str("class: magic"),
        ClassFault::Version(major) => push_fault(text, "class: version ", u32::from(*major)),
        ClassFault::Truncated(place) => push_fault(text, "class: truncated ", *place),
        ClassFault::Trailing(place) => push_fault(text, "class: trailing ", *place),
        ClassFault::Pool(index) => push_fault(text, "class: pool ", u32::from(*index)),
        ClassFault::Shape(place) => push_fault(text, "class: shape ", *place),
        ClassFault::Unsupported(place) => push_fault(text, "class: unsupported ", *place),
        ClassFault::OutOfMemory => text.push_str("out of memory"),
    }
}

// Adds a kind of fault, and its number.
fn push_fault(text: &mut Line, kind: &str, number: u32) -> Result<(), AllocError>
    ensures ok { OnOk result (text.new ≡ text.old ++ (kind.now ++ decimal number)) }
{
    text.push_str(kind)?;
    push_number(text, u64::from(number))
}
