ghost use Rattle.std.specs.Prelude.{◌≡◌, ◌++◌, ◌∷◌, [], ◌+◌, length, IfOk, OnOk};
ghost use Rattle.std.specs.List.{list_any};
ghost use Rattle.mvm_builtin.specs.Table.{lines_of, of_part, is_part};
ghost use Rattle.mvm_builtin.specs.Rows.{row_of};
ghost use Rattle.mvm_builtin.specs.Classes.{flags_of, with_class, with_classes, classes_behind, first_or_zero, with_code, with_members, code_of, members_behind, header_pool, superclass_index, superinterface_indices, made};

use crate::parts::{Part, RUN, SUPER, is_part};
use crate::rows::TableRow;
use crate::table::Sort;
use mvm_base::{List, Name, OutOfMemory};
use mvm_layout::flags::{ABSTRACT, FINAL, INTERFACE, NATIVE, PRIVATE, PUBLIC, STATIC};
use mvm_layout::{Code, Item, Member, Parts};
use std::alloc::Global;

/// The access flags of what a line of this sort tells.
fn flags_of(sort: Sort) -> u16
    ensures { result ≡ flags_of sort }
{
    match sort {
        Sort::Class => PUBLIC | SUPER,
        Sort::Interface => PUBLIC | INTERFACE | ABSTRACT,
        Sort::Extends | Sort::Implements => 0,
        Sort::Private => PRIVATE,
        Sort::Constant => PUBLIC | STATIC | FINAL,
        Sort::Abstract => PUBLIC | ABSTRACT,
        Sort::Code => PUBLIC,
        Sort::Native(_) => PUBLIC | NATIVE,
        Sort::Static(_) => PUBLIC | STATIC | NATIVE,
    }
}

/// The index of the last entry of a pool (JVM Specification 4.1). No row has as many as would have none.
fn last_index(pool: &List<Item>) -> Result<u16, OutOfMemory>
    ensures { IfOk result (λ index. index ≡ length pool.now) }
{
    match u16::try_from(pool.len()) {
        Ok(index) => Ok(index),
        Err(_) => Err(OutOfMemory),
    }
}

/// Adds a text to the pool, and says its index.
fn push_text(alloc: Global, pool: &mut List<Item>, text: &str) -> Result<u16, OutOfMemory>
    ensures pool { OnOk result (pool.new ≡ pool.old ++ Item.Utf8 text.now ∷ []) }
    ensures index { IfOk result (λ index. index ≡ length pool.old + 1) }
{
    pool.push(Item::Utf8(Name::from_ascii(alloc, text)?))?;
    last_index(pool)
}

/// Adds a class to the pool, its name and the class of it, and says its index.
fn push_class(alloc: Global, pool: &mut List<Item>, name: &str) -> Result<u16, OutOfMemory>
    ensures pool { OnOk result (pool.new ≡ with_class pool.old name.now) }
    ensures index { IfOk result (λ index. index ≡ length pool.old + 2) }
{
    let index = push_text(alloc, pool, name)?;
    pool.push(Item::Class(index))?;
    last_index(pool)
}

/// Adds the classes that the lines of a part name, and gives their indices.
fn push_classes(
    alloc: Global,
    pool: &mut List<Item>,
    part: Part,
    lines: &[(Sort, &str, &str)],
) -> Result<List<u16>, OutOfMemory>
    ensures pool { OnOk result (pool.new ≡ with_classes pool.old (of_part part (lines_of lines.now))) }
    ensures indices { IfOk result (λ indices. indices ≡ classes_behind (length pool.old) (of_part part (lines_of lines.now))) }
{
    let mut indices = List::new(alloc);
    for i in 0..lines.len() {
        if is_part(part, lines[i].0) {
            let index = push_class(alloc, pool, lines[i].1)?;
            indices.push(index)?;
        }
    }
    Ok(indices)
}

/// The first index, or 0 where there is none.
fn first_or_zero(indices: &List<u16>) -> u16
    ensures { result ≡ first_or_zero indices.now }
{
    match indices.as_slice().first() {
        Some(index) => *index,
        None => 0,
    }
}

/// Whether a method among these lines has a body.
fn has_code(lines: &[(Sort, &str, &str)]) -> bool
    ensures { result ≡ list_any (λ line. is_part Part.Bytecode line.sort) (lines_of lines.now) }
{
    for i in 0..lines.len() {
        if is_part(Part::Bytecode, lines[i].0) {
            return true;
        }
    }
    false
}

/// Adds what the code among these lines names, if there is any.
#[tactic(auto, unfolding(crate::specs::Classes::with_code))]
fn push_code(
    alloc: Global,
    pool: &mut List<Item>,
    lines: &[(Sort, &str, &str)],
) -> Result<(), OutOfMemory>
    ensures { OnOk result (pool.new ≡ with_code pool.old (lines_of lines.now)) }
{
    if has_code(lines) {
        push_text(alloc, pool, "Code")?;
        push_text(alloc, pool, "target")?;
        push_text(alloc, pool, "Ljava/lang/Runnable;")?;
        pool.push(Item::NameAndType(8, 9))?;
        pool.push(Item::Fieldref(2, 10))?;
        push_text(alloc, pool, "run")?;
        push_text(alloc, pool, "()V")?;
        pool.push(Item::NameAndType(12, 13))?;
        pool.push(Item::InterfaceMethodref(6, 14))?;
    }
    Ok(())
}

/// The code of what a line of this sort tells, if it has a body.
fn code_of(alloc: Global, sort: Sort) -> Result<Option<Code>, OutOfMemory>
    ensures { IfOk result (λ code. code ≡ code_of sort) }
{
    if !is_part(Part::Bytecode, sort) {
        return Ok(None);
    }
    let bytes = List::from_slice(alloc, &RUN)?;
    Ok(Some(Code {
        max_stack: 1,
        max_locals: 1,
        bytes,
        rows: List::new(alloc),
    }))
}

/// Adds the names and the descriptors that the lines of a part have, and gives the fields or methods.
fn push_members(
    alloc: Global,
    pool: &mut List<Item>,
    part: Part,
    lines: &[(Sort, &str, &str)],
) -> Result<List<Member>, OutOfMemory>
    ensures pool { OnOk result (pool.new ≡ with_members pool.old (of_part part (lines_of lines.now))) }
    ensures members { IfOk result (λ members. members ≡ members_behind (length pool.old) (of_part part (lines_of lines.now))) }
{
    let mut members = List::new(alloc);
    for i in 0..lines.len() {
        if is_part(part, lines[i].0) {
            let name = push_text(alloc, pool, lines[i].1)?;
            let desc = push_text(alloc, pool, lines[i].2)?;
            let code = code_of(alloc, lines[i].0)?;
            members.push(Member {
                flags: flags_of(lines[i].0),
                name,
                desc,
                constant: None,
                code,
            })?;
        }
    }
    Ok(members)
}

/// The beginning of a class file: the pool with the class, its supers and what its code names, and the indices of these classes.
#[derive(Drop)]
struct Header {
    pool: List<Item>,
    this_class: u16,
    super_class: u16,
    interfaces: List<u16>,
}

/// The beginning of the class file of a row.
fn header_of(alloc: Global, row: &TableRow) -> Result<Header, OutOfMemory>
    ensures pool { IfOk result (λ header. header.pool ≡ header_pool (row_of row.now)) }
    ensures this { IfOk result (λ header. header.this_class ≡ 2) }
    ensures above { IfOk result (λ header. header.super_class ≡ superclass_index (row_of row.now)) }
    ensures across { IfOk result (λ header. header.interfaces ≡ superinterface_indices (row_of row.now)) }
{
    let mut pool = List::new(alloc);
    let this_class = push_class(alloc, &mut pool, row.head.1)?;
    let above = push_classes(alloc, &mut pool, Part::Superclass, row.lines)?;
    let interfaces = push_classes(alloc, &mut pool, Part::Superinterface, row.lines)?;
    push_code(alloc, &mut pool, row.lines)?;
    Ok(Header {
        pool,
        this_class,
        super_class: first_or_zero(&above),
        interfaces,
    })
}

/// The parts of the class file of a row.
#[tactic(auto, unfolding(crate::specs::Classes::made))]
pub(crate) fn made(alloc: Global, row: &TableRow) -> Result<Parts, OutOfMemory>
    ensures { IfOk result (λ parts. parts ≡ made (row_of row.now)) }
{
    let mut header = header_of(alloc, row)?;
    let fields = push_members(alloc, &mut header.pool, Part::Field, row.lines)?;
    let methods = push_members(alloc, &mut header.pool, Part::Method, row.lines)?;
    Ok(Parts {
        minor: 0,
        major: 52,
        pool: header.pool,
        flags: flags_of(row.head.0),
        this_class: header.this_class,
        super_class: header.super_class,
        interfaces: header.interfaces,
        fields,
        methods,
    })
}
