//! What a line says.
#![tactic(auto)]

ghost use Rattle.std.specs.Prelude.{◌≡◌, option_map, IfOk};
ghost use Rattle.mvm_statement.specs.Reading.{Reads, Says};
ghost use Rattle.mvm_statement.specs.Lines.{read_nothing};
ghost use Rattle.mvm_statement.specs.Statements.{entry_in, constant_in, field_in, directed, statement_of, head_in, tokens_say, line_says};

use crate::fault::{LineFault, Unread};
use crate::operand::Initial;
use crate::read_instruction::instruction;
use crate::read_lines::{first_of, just_four, just_one, just_three, just_two, nothing};
use crate::read_operands::{initial, is_bare, number, place, reference, reference_or};
use crate::read_value::{kind, value};
use crate::read_words::head_of;
use crate::statement::Statement;
use crate::token::Token;
use crate::tokens::tokens;
use crate::words::{Directive, Head};
use std::alloc::{AllocError, Global};

fn version(operands: &[Token]) -> Result<Statement, Unread>
    ensures { Reads result (directed Directive.Version operands.now) }
{
    let (minor, major) = just_two(operands)?;
    Ok(Statement::Version {
        minor: number(minor)?,
        major: number(major)?,
    })
}

fn entry(alloc: Global, operands: &[Token]) -> Result<Statement, Unread>
    ensures { Reads result (entry_in operands.now) }
{
    let (index, rest) = first_of(operands)?;
    let (word, rest) = first_of(rest)?;
    let index = number(index)?;
    let kind = kind(word)?;
    let value = value(alloc, kind, rest)?;
    Ok(Statement::Entry { index, value })
}

fn class(alloc: Global, operands: &[Token]) -> Result<Statement, Unread>
    ensures { Reads result (directed Directive.Class operands.now) }
{
    let (flags, this_class, super_class) = just_three(operands)?;
    Ok(Statement::Class {
        flags: number(flags)?,
        this_class: reference(alloc, this_class)?,
        super_class: reference_or(alloc, "none", super_class)?,
    })
}

fn implements(alloc: Global, operands: &[Token]) -> Result<Statement, Unread>
    ensures { Reads result (directed Directive.Implements operands.now) }
{
    let interface = reference(alloc, just_one(operands)?)?;
    Ok(Statement::Implements { interface })
}

/// Nothing, or `constant VALUE`.
fn constant(alloc: Global, operands: &[Token]) -> Result<Option<Initial>, Unread>
    ensures { Reads result (constant_in operands.now) }
{
    if operands.is_empty() {
        return Ok(None);
    }
    let (word, value) = just_two(operands)?;
    if !is_bare("constant", word) {
        return Err(Unread::IllFormed);
    }
    Ok(Some(initial(alloc, value)?))
}

fn field(alloc: Global, operands: &[Token]) -> Result<Statement, Unread>
    ensures { Reads result (field_in operands.now) }
{
    let (flags, rest) = first_of(operands)?;
    let (name, rest) = first_of(rest)?;
    let (desc, rest) = first_of(rest)?;
    Ok(Statement::Field {
        flags: number(flags)?,
        name: reference(alloc, name)?,
        desc: reference(alloc, desc)?,
        constant: constant(alloc, rest)?,
    })
}

fn method(alloc: Global, operands: &[Token]) -> Result<Statement, Unread>
    ensures { Reads result (directed Directive.Method operands.now) }
{
    let (flags, name, desc) = just_three(operands)?;
    Ok(Statement::Method {
        flags: number(flags)?,
        name: reference(alloc, name)?,
        desc: reference(alloc, desc)?,
    })
}

fn code(operands: &[Token]) -> Result<Statement, Unread>
    ensures { Reads result (directed Directive.Code operands.now) }
{
    let (max_stack, max_locals) = just_two(operands)?;
    Ok(Statement::Code {
        max_stack: number(max_stack)?,
        max_locals: number(max_locals)?,
    })
}

fn byte(operands: &[Token]) -> Result<Statement, Unread>
    ensures { Reads result (directed Directive.Byte operands.now) }
{
    let value = number(just_one(operands)?)?;
    Ok(Statement::Byte { value })
}

fn catch(alloc: Global, operands: &[Token]) -> Result<Statement, Unread>
    ensures { Reads result (directed Directive.Catch operands.now) }
{
    let (start, end, handler, class) = just_four(operands)?;
    Ok(Statement::Catch {
        start: place(alloc, start)?,
        end: place(alloc, end)?,
        handler: place(alloc, handler)?,
        class: reference_or(alloc, "any", class)?,
    })
}

fn end(operands: &[Token]) -> Result<Statement, Unread>
    ensures { Reads result (directed Directive.End operands.now) }
{
    nothing(operands)?;
    Ok(Statement::End)
}

/// The statement of a directive and its operands.
fn directed(alloc: Global, directive: Directive, operands: &[Token]) -> Result<Statement, Unread>
    ensures { Reads result (directed directive operands.now) }
{
    match directive {
        Directive::Version => version(operands),
        Directive::Entry => entry(alloc, operands),
        Directive::Class => class(alloc, operands),
        Directive::Implements => implements(alloc, operands),
        Directive::Field => field(alloc, operands),
        Directive::Method => method(alloc, operands),
        Directive::Code => code(operands),
        Directive::Byte => byte(operands),
        Directive::Catch => catch(alloc, operands),
        Directive::End => end(operands),
    }
}

/// The statement of a first word and its operands.
fn statement_of(alloc: Global, head: Head, operands: &[Token]) -> Result<Statement, Unread>
    ensures { Reads result (statement_of head operands.now) }
{
    match head {
        Head::Directive(directive) => directed(alloc, directive, operands),
        Head::Label(name) => {
            nothing(operands)?;
            Ok(Statement::Label { name })
        }
        Head::Instruction(op) => {
            let line = instruction(alloc, op, operands)?;
            Ok(Statement::Instruction { line })
        }
    }
}

/// What the first token of a line tells, if anything.
fn head_in(alloc: Global, token: &Token) -> Result<Option<Head>, AllocError>
    ensures { IfOk result (λ head. head ≡ head_in token.now) }
{
    match token {
        Token::Bare(word) => head_of(alloc, word.as_slice()),
        _ => Ok(None),
    }
}

/// What the tokens of a line say.
#[tactic(auto, unfolding(crate::specs::Statements::tokens_say))]
fn tokens_say(alloc: Global, tokens: &[Token]) -> Result<Option<Statement>, LineFault>
    ensures { Says result (tokens_say tokens.now) }
{
    let Ok((first, operands)) = first_of(tokens) else {
        return Ok(None);
    };
    let Some(head) = head_in(alloc, first)? else {
        return Err(LineFault::Word);
    };
    match statement_of(alloc, head, operands) {
        Ok(statement) => Ok(Some(statement)),
        Err(Unread::IllFormed) => Err(LineFault::Operand),
        Err(Unread::OutOfMemory) => Err(LineFault::OutOfMemory),
    }
}

/// What a line says, without its end: a statement, or nothing where it has no token or none before a comment.
///
/// It takes time and memory as the line has bytes. `Word` where the line is not UTF-8 or its first token begins no line,
/// `Operand` where what stands behind is not what such a line has.
pub fn read_line(alloc: Global, line: &[u8]) -> Result<Option<Statement>, LineFault>
    ensures { Says result (line_says line.now) }
{
    let Ok(text) = str::from_utf8(line) else {
        return Err(LineFault::Word);
    };
    let tokens = tokens(alloc, text)?;
    tokens_say(alloc, tokens.as_slice())
}
