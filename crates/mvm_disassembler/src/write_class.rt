//! A class file as text.

ghost use Rattle.std.specs.Prelude.{◌≡◌, ◌++◌, ◌∷◌, [], pos, IsTrue, IfOk, OnOk, Ok};
ghost use Rattle.std.specs.List.{flat_map, list_all};
ghost use Rattle.mvm_classfile.specs.Writing.{has_few_bytes};
ghost use Rattle.mvm_statement.specs.declared.statement.Statement.TheVariants.{Class};
ghost use Rattle.mvm_listing.specs.Assembly.{class_of};
ghost use Rattle.mvm_listing.specs.Disassembly.{value_of, entry_line, entries, numbered, class_shown, disassembly};
ghost use Rattle.mvm_disassembler.specs.Steps.{whole_line, lines_text, interface_text, field_text, method_text, head_text};

use crate::write_code::{class_shown, push_code};
use crate::write_lines::{push_empty, push_line};
use mvm_base::{Line, List, Name, OutOfMemory};
use mvm_classfile::ClassFile;
use mvm_layout::{Item, Member, Parts};
use mvm_statement::{
    IndexKind, Initial, MixedKind, NumberKind, PairKind, PoolValue, Reference, Statement,
};
use std::alloc::{AllocError, Global};

fn number(kind: NumberKind, number: i128) -> PoolValue
    ensures { result ≡ PoolValue.Number kind number }
{
    PoolValue::Number { kind, number }
}

fn index(kind: IndexKind, index: u16) -> PoolValue
    ensures { result ≡ PoolValue.Index kind (pos index) }
{
    let index = i128::from(index);
    PoolValue::Index { kind, index }
}

fn indices(kind: PairKind, first: u16, second: u16) -> PoolValue
    ensures { result ≡ PoolValue.Indices kind (pos first) (pos second) }
{
    PoolValue::Indices {
        kind,
        first: i128::from(first),
        second: i128::from(second),
    }
}

fn number_and_index(kind: MixedKind, number: u16, index: u16) -> PoolValue
    ensures { result ≡ PoolValue.NumberAndIndex kind (pos number) (pos index) }
{
    PoolValue::NumberAndIndex {
        kind,
        number: i128::from(number),
        index: i128::from(index),
    }
}

/// The value of an entry, or none for the upper one of a long or a double.
fn value_of(alloc: Global, item: &Item) -> Result<PoolValue, AllocError>
    ensures { IfOk result (λ value. value ≡ value_of item.now) }
{
    match item {
        Item::Utf8(text) => Ok(PoolValue::Text(text.copy()?)),
        Item::Upper => Ok(PoolValue::Text(Name::from_vec(Vec::new(alloc)))),
        Item::Integer(n) => Ok(number(NumberKind::Integer, i128::from(*n))),
        Item::Float(bits) => Ok(number(NumberKind::Float, i128::from(*bits))),
        Item::Long(n) => Ok(number(NumberKind::Long, i128::from(*n))),
        Item::Double(bits) => Ok(number(NumberKind::Double, i128::from(*bits))),
        Item::Class(n) => Ok(index(IndexKind::Class, *n)),
        Item::Str(n) => Ok(index(IndexKind::Str, *n)),
        Item::MethodType(n) => Ok(index(IndexKind::MethodType, *n)),
        Item::Fieldref(n, m) => Ok(indices(PairKind::Fieldref, *n, *m)),
        Item::Methodref(n, m) => Ok(indices(PairKind::Methodref, *n, *m)),
        Item::InterfaceMethodref(n, m) => Ok(indices(PairKind::InterfaceMethodref, *n, *m)),
        Item::NameAndType(n, m) => Ok(indices(PairKind::NameAndType, *n, *m)),
        Item::MethodHandle(kind, n) => {
            Ok(number_and_index(MixedKind::MethodHandle, u16::from(*kind), *n))
        }
        Item::InvokeDynamic(n, m) => Ok(number_and_index(MixedKind::InvokeDynamic, *n, *m)),
    }
}

/// Adds the line of an entry. The upper one of a long or a double has none.
#[tactic(auto, using(crate::proofs::Written::entry_line_is))]
fn push_entry(
    alloc: Global,
    out: &mut Line,
    pool: &List<Item>,
    index: usize,
    item: &Item,
) -> Result<(), OutOfMemory>
    ensures { OnOk result (out.new ≡ out.old ++ lines_text pool.now (entry_line index item.now)) }
{
    if matches!(item, Item::Upper) {
        return Ok(());
    }
    let line = Statement::Entry {
        index: index as i128,
        value: value_of(alloc, item)?,
    };
    push_line(alloc, out, pool, line)
}

/// Adds the lines of the constant pool.
#[tactic(auto, using(crate::proofs::Written::lines_joined))]
fn push_entries(alloc: Global, out: &mut Line, pool: &List<Item>) -> Result<(), OutOfMemory>
    ensures { OnOk result (out.new ≡ out.old ++ lines_text pool.now (entries 1 pool.now)) }
{
    let mut index = 1;
    for item in pool.as_slice() {
        push_entry(alloc, out, pool, index, item)?;
        index += 1;
    }
    Ok(())
}

/// An entry by its index.
fn numbered(index: u16) -> Reference
    ensures { result ≡ numbered index }
{
    Reference::Indexed(i128::from(index))
}

/// Adds the line of the class.
fn push_class(alloc: Global, out: &mut Line, parts: &Parts) -> Result<(), OutOfMemory>
    ensures { OnOk result (out.new ≡ out.old ++ whole_line parts.now.pool (Class (pos parts.now.flags) (numbered parts.now.this_class) (class_shown parts.now.super_class))) }
{
    let line = Statement::Class {
        flags: i128::from(parts.flags),
        this_class: numbered(parts.this_class),
        super_class: class_shown(parts.super_class),
    };
    push_line(alloc, out, &parts.pool, line)
}

/// Adds the line of a direct superinterface.
#[tactic(auto, unfolding(crate::specs::Steps::interface_text))]
fn push_interface(
    alloc: Global,
    out: &mut Line,
    pool: &List<Item>,
    index: u16,
) -> Result<(), OutOfMemory>
    ensures { OnOk result (out.new ≡ out.old ++ interface_text pool.now index) }
{
    let interface = numbered(index);
    push_line(alloc, out, pool, Statement::Implements { interface })
}

/// Adds the lines of the direct superinterfaces.
fn push_interfaces(
    alloc: Global,
    out: &mut Line,
    pool: &List<Item>,
    interfaces: &[u16],
) -> Result<(), OutOfMemory>
    ensures { OnOk result (out.new ≡ out.old ++ flat_map (interface_text pool.now) interfaces.now) }
{
    for index in interfaces {
        push_interface(alloc, out, pool, *index)?;
    }
    Ok(())
}

/// Adds the line of a field, behind an empty one.
#[tactic(auto, unfolding(crate::specs::Steps::field_text))]
fn push_field(
    alloc: Global,
    out: &mut Line,
    pool: &List<Item>,
    field: &Member,
) -> Result<(), OutOfMemory>
    ensures { OnOk result (out.new ≡ out.old ++ field_text pool.now field.now) }
{
    push_empty(out)?;
    let constant = match field.constant {
        Some(index) => Some(Initial::Indexed(i128::from(index))),
        None => None,
    };
    let line = Statement::Field {
        flags: i128::from(field.flags),
        name: numbered(field.name),
        desc: numbered(field.desc),
        constant,
    };
    push_line(alloc, out, pool, line)
}

/// Adds the lines of fields.
fn push_fields(
    alloc: Global,
    out: &mut Line,
    pool: &List<Item>,
    fields: &[Member],
) -> Result<(), OutOfMemory>
    ensures { OnOk result (out.new ≡ out.old ++ flat_map (field_text pool.now) fields.now) }
{
    for field in fields {
        push_field(alloc, out, pool, field)?;
    }
    Ok(())
}

/// Adds the lines of a method and its code, behind an empty one.
#[tactic(auto, unfolding(crate::specs::Steps::method_text))]
fn push_method(
    alloc: Global,
    out: &mut Line,
    pool: &List<Item>,
    method: &Member,
) -> Result<(), OutOfMemory>
    requires { IsTrue (has_few_bytes method.now.code) }
    ensures { OnOk result (out.new ≡ out.old ++ method_text pool.now method.now) }
{
    push_empty(out)?;
    let line = Statement::Method {
        flags: i128::from(method.flags),
        name: numbered(method.name),
        desc: numbered(method.desc),
    };
    push_line(alloc, out, pool, line)?;
    match &method.code {
        Some(code) => push_code(alloc, out, pool, code),
        None => Ok(()),
    }
}

/// Adds the lines of methods.
fn push_methods(
    alloc: Global,
    out: &mut Line,
    pool: &List<Item>,
    methods: &[Member],
) -> Result<(), OutOfMemory>
    requires { IsTrue (list_all (λ m. has_few_bytes m.code) methods.now) }
    ensures { OnOk result (out.new ≡ out.old ++ flat_map (method_text pool.now) methods.now) }
{
    for method in methods {
        push_method(alloc, out, pool, method)?;
    }
    Ok(())
}

/// Adds the lines of the version and of the constant pool, and behind an empty one those of the class and its superinterfaces.
fn push_head(alloc: Global, out: &mut Line, parts: &Parts) -> Result<(), OutOfMemory>
    ensures { OnOk result (out.new ≡ out.old ++ head_text parts.now) }
{
    let line = Statement::Version {
        minor: i128::from(parts.minor),
        major: i128::from(parts.major),
    };
    push_line(alloc, out, &parts.pool, line)?;
    push_entries(alloc, out, &parts.pool)?;
    push_empty(out)?;
    push_class(alloc, out, parts)?;
    push_interfaces(alloc, out, &parts.pool, parts.interfaces.as_slice())
}

/// The text of a class file: its version, its constant pool, the class and its superinterfaces, its fields, and its methods with
/// their codes, each line behind blanks by how deep it stands, and with a comment where it names an entry of the constant pool.
/// An instruction is written by its mnemonic exactly where that line is assembled to its bytes, and byte by byte where not.
///
/// It takes time in proportion to n log n for n bytes of the class file and of its text, which no clause says.
#[tactic(auto, using(crate::proofs::Written::few_bytes))]
pub fn disassemble(alloc: Global, class: &ClassFile) -> Result<Line, OutOfMemory>
    // The text, each of its bytes.
    ensures exact { IfOk result (λ text. text ≡ disassembly class.now) }
    // It is assembled to the class again.
    ensures again { IfOk result (λ text. class_of text ≡ Ok class.now) }
{
    let parts = class.parts();
    let mut out = Line::new(alloc);
    push_head(alloc, &mut out, parts)?;
    push_fields(alloc, &mut out, &parts.pool, parts.fields.as_slice())?;
    push_methods(alloc, &mut out, &parts.pool, parts.methods.as_slice())?;
    Ok(out)
}
