//! The line of a statement.
#![tactic(auto)]

ghost use Rattle.std.specs.Prelude.{◌≡◌, ◌++◌, ◌∷◌, [], OnOk};
ghost use Rattle.std.specs.List.{flat_map};
ghost use Rattle.mvm_statement.specs.Tokens.{behind_blank, spelled_word, spelled_tokens};
ghost use Rattle.mvm_statement.specs.Operands.{number, reference, place, or_word, spelled_number};
ghost use Rattle.mvm_statement.specs.Lines.{one, two, three, four};
ghost use Rattle.mvm_statement.specs.Words.{word_of};
ghost use Rattle.mvm_statement.specs.Values.{kind_of, kind_word, spelled_value};
ghost use Rattle.mvm_statement.specs.Statements.{led, super_class, caught, spelled_constant, spelled, text_of};
ghost use Rattle.mvm_statement.specs.declared.token.Token.TheVariants.{Bare};

use crate::operand::{Initial, Place, Reference};
use crate::pool_value::{EntryKind, PoolValue};
use crate::read_value::kind_word;
use crate::read_words::word_of;
use crate::statement::Statement;
use crate::words::Directive;
use crate::write_instruction::write_instruction;
use crate::write_operands::{
    write_index, write_initial, write_number, write_place, write_quoted, write_reference,
    write_text,
};
use crate::write_tokens::{push_text, push_word};
use mvm_base::{Line, Name, OutOfMemory};
use std::alloc::AllocError;

/// The kind of a value.
fn kind_of(value: &PoolValue) -> EntryKind
    ensures { result ≡ kind_of value.now }
{
    match value {
        PoolValue::Text(_) => EntryKind::Text,
        PoolValue::Number { kind, .. } => EntryKind::Number(*kind),
        PoolValue::Index { kind, .. } => EntryKind::Index(*kind),
        PoolValue::Indices { kind, .. } => EntryKind::Indices(*kind),
        PoolValue::NumberAndIndex { kind, .. } => EntryKind::NumberAndIndex(*kind),
    }
}

/// Adds the values of an entry.
fn write_value(out: &mut Line, value: &PoolValue) -> Result<(), AllocError>
    ensures ok { OnOk result (out.new ≡ out.old ++ flat_map behind_blank (spelled_value value.now)) }
{
    match value {
        PoolValue::Text(text) => write_quoted(out, text),
        PoolValue::Number { number, .. } => write_number(out, *number),
        PoolValue::Index { index, .. } => write_index(out, *index),
        PoolValue::Indices { first, second, .. } => {
            write_index(out, *first)?;
            write_index(out, *second)
        }
        PoolValue::NumberAndIndex { number, index, .. } => {
            write_number(out, *number)?;
            write_index(out, *index)
        }
    }
}

fn write_entry(out: &mut Line, index: i128, value: &PoolValue) -> Result<(), AllocError>
    ensures ok { OnOk result (out.new ≡ out.old ++ spelled_tokens (led Directive.Entry (spelled_number index ∷ Bare (kind_word (kind_of value.now)) ∷ spelled_value value.now))) }
{
    push_text(out, word_of(Directive::Entry))?;
    write_number(out, index)?;
    write_text(out, kind_word(kind_of(value)))?;
    write_value(out, value)
}

/// Adds a directive and two numbers.
fn write_numbers(
    out: &mut Line,
    directive: Directive,
    first: i128,
    second: i128,
) -> Result<(), AllocError>
    ensures ok { OnOk result (out.new ≡ out.old ++ spelled_tokens (led directive ((two number number).spelled (first, second)))) }
{
    push_text(out, word_of(directive))?;
    write_number(out, first)?;
    write_number(out, second)
}

/// Adds a reference, or the word that stands for none.
fn write_optional(out: &mut Line, word: &str, class: &Option<Reference>) -> Result<(), AllocError>
    ensures ok { OnOk result (out.new ≡ out.old ++ behind_blank ((or_word word.now reference).spelled class.now)) }
{
    match class {
        Some(class) => write_reference(out, class),
        None => write_text(out, word),
    }
}

fn write_class(
    out: &mut Line,
    flags: i128,
    this: &Reference,
    parent: &Option<Reference>,
) -> Result<(), AllocError>
    ensures ok { OnOk result (out.new ≡ out.old ++ spelled_tokens (led Directive.Class ((three number reference super_class).spelled (flags, (this.now, parent.now))))) }
{
    push_text(out, word_of(Directive::Class))?;
    write_number(out, flags)?;
    write_reference(out, this)?;
    write_optional(out, "none", parent)
}

fn write_implements(out: &mut Line, interface: &Reference) -> Result<(), AllocError>
    ensures ok { OnOk result (out.new ≡ out.old ++ spelled_tokens (led Directive.Implements ((one reference).spelled interface.now))) }
{
    push_text(out, word_of(Directive::Implements))?;
    write_reference(out, interface)
}

/// Adds a directive, flags, a name and a descriptor.
fn write_member(
    out: &mut Line,
    directive: Directive,
    flags: i128,
    name: &Reference,
    desc: &Reference,
) -> Result<(), AllocError>
    ensures ok { OnOk result (out.new ≡ out.old ++ spelled_tokens (led directive ((three number reference reference).spelled (flags, (name.now, desc.now))))) }
{
    push_text(out, word_of(directive))?;
    write_number(out, flags)?;
    write_reference(out, name)?;
    write_reference(out, desc)
}

/// Adds `constant` and the value that a field has at first, if it has one.
fn write_constant(out: &mut Line, constant: &Option<Initial>) -> Result<(), AllocError>
    ensures ok { OnOk result (out.new ≡ out.old ++ flat_map behind_blank (spelled_constant constant.now)) }
{
    let Some(value) = constant else {
        return Ok(());
    };
    write_text(out, "constant")?;
    write_initial(out, value)
}

#[tactic(auto, using(crate::proofs::Written::tokens_joined))]
fn write_field(
    out: &mut Line,
    flags: i128,
    name: &Reference,
    desc: &Reference,
    constant: &Option<Initial>,
) -> Result<(), AllocError>
    ensures ok { OnOk result (out.new ≡ out.old ++ spelled_tokens (led Directive.Field ((three number reference reference).spelled (flags, (name.now, desc.now)) ++ spelled_constant constant.now))) }
{
    write_member(out, Directive::Field, flags, name, desc)?;
    write_constant(out, constant)
}

fn write_label(out: &mut Line, name: &Name) -> Result<(), AllocError>
    ensures ok { OnOk result (out.new ≡ out.old ++ spelled_word name.now ++ 58 ∷ []) }
{
    push_word(out, name.units())?;
    out.push_str(":")
}

fn write_byte(out: &mut Line, value: i128) -> Result<(), AllocError>
    ensures ok { OnOk result (out.new ≡ out.old ++ spelled_tokens (led Directive.Byte ((one number).spelled value))) }
{
    push_text(out, word_of(Directive::Byte))?;
    write_number(out, value)
}

fn write_catch(
    out: &mut Line,
    start: &Place,
    end: &Place,
    handler: &Place,
    class: &Option<Reference>,
) -> Result<(), AllocError>
    ensures ok { OnOk result (out.new ≡ out.old ++ spelled_tokens (led Directive.Catch ((four place place place caught).spelled (start.now, (end.now, (handler.now, class.now)))))) }
{
    push_text(out, word_of(Directive::Catch))?;
    write_place(out, start)?;
    write_place(out, end)?;
    write_place(out, handler)?;
    write_optional(out, "any", class)
}

/// Adds the line of a statement, without its end.
#[tactic(auto, using(crate::proofs::Written::label_spelled), unfolding(crate::specs::Statements::spelled))]
fn write_statement(out: &mut Line, statement: &Statement) -> Result<(), AllocError>
    ensures ok { OnOk result (out.new ≡ out.old ++ text_of statement.now) }
{
    match statement {
        Statement::Version { minor, major } => {
            write_numbers(out, Directive::Version, *minor, *major)
        }
        Statement::Entry { index, value } => write_entry(out, *index, value),
        Statement::Class {
            flags,
            this_class,
            super_class,
        } => write_class(out, *flags, this_class, super_class),
        Statement::Implements { interface } => write_implements(out, interface),
        Statement::Field {
            flags,
            name,
            desc,
            constant,
        } => write_field(out, *flags, name, desc, constant),
        Statement::Method { flags, name, desc } => {
            write_member(out, Directive::Method, *flags, name, desc)
        }
        Statement::Code {
            max_stack,
            max_locals,
        } => write_numbers(out, Directive::Code, *max_stack, *max_locals),
        Statement::Label { name } => write_label(out, name),
        Statement::Instruction { line } => write_instruction(out, line),
        Statement::Byte { value } => write_byte(out, *value),
        Statement::Catch {
            start,
            end,
            handler,
            class,
        } => write_catch(out, start, end, handler, class),
        Statement::End => push_text(out, word_of(Directive::End)),
    }
}

/// Adds the line of a statement at the end of a text: its tokens with a blank between each two, and no end of a line. A unit of
/// a name that is no printable ASCII character is written as a question mark; of a quoted text each unit is written.
///
/// It takes time and memory as the line has bytes. Refused, the text holds a part of the line.
pub fn write_line(out: &mut Line, statement: &Statement) -> Result<(), OutOfMemory>
    ensures ok { OnOk result (out.new ≡ out.old ++ text_of statement.now) }
{
    write_statement(out, statement)?;
    Ok(())
}
