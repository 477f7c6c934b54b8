//! The first word of a line.
#![tactic(auto)]

ghost use Rattle.std.specs.Prelude.{◌≡◌, ℕ, ◌<◌, length, bytes_eq, find, position, option_map, Option, Some, None, IfOk, IfSome};
ghost use Rattle.mvm_statement.specs.Words.{word_of, directive_of, shape_of, shape_on_pool, opcode_of, label_of, head_of, is_unknown, instruction_head};

use crate::read_operands::copied;
use crate::words::{Directive, Head, Shape};
use mvm_insn::opcodes::{ANEWARRAY, CHECKCAST, INSTANCEOF, LDC_W, LDC2_W, NEW};
use mvm_insn::table::TABLE;
use mvm_insn::{Operands, operands_of};
use mvm_layout::pool::same_text;
use std::alloc::{AllocError, Global};

/// The word of a directive.
pub(crate) fn word_of(directive: Directive) -> &'static str
    ensures { result.now ≡ word_of directive }
{
    match directive {
        Directive::Version => "version",
        Directive::Entry => "pool",
        Directive::Class => "class",
        Directive::Implements => "implements",
        Directive::Field => "field",
        Directive::Method => "method",
        Directive::Code => "code",
        Directive::Byte => "byte",
        Directive::Catch => "catch",
        Directive::End => "end",
    }
}

/// The directives.
const DIRECTIVES: [Directive; 10] = [
    Directive::Version,
    Directive::Entry,
    Directive::Class,
    Directive::Implements,
    Directive::Field,
    Directive::Method,
    Directive::Code,
    Directive::Byte,
    Directive::Catch,
    Directive::End,
];

/// The first of some directives that has a word.
fn directive_in(directives: &[Directive], word: &[u16]) -> Option<Directive>
    ensures { result ≡ find (λ directive. bytes_eq word.now (word_of directive)) directives.now }
{
    directives.iter().copied().find(|directive| same_text(word, word_of(*directive).as_bytes()))
}

/// The directive of a word.
#[tactic(auto, unfolding(crate::specs::Words::directive_of))]
fn directive_of(word: &[u16]) -> Option<Directive>
    ensures { result ≡ directive_of word.now }
{
    directive_in(&DIRECTIVES, word)
}

/// What stands behind the mnemonic of an instruction on an entry of the constant pool, of two bytes.
fn shape_on_pool(op: u8) -> Shape
    ensures { result ≡ shape_on_pool op }
{
    match op {
        LDC_W => Shape::Load,
        LDC2_W => Shape::LoadLong,
        NEW | ANEWARRAY | CHECKCAST | INSTANCEOF => Shape::OfClass,
        _ => Shape::OfMember,
    }
}

/// What stands behind the mnemonic of an opcode.
#[tactic(auto, unfolding(crate::specs::Words::shape_of))]
pub(crate) fn shape_of(op: u8) -> Shape
    ensures { result ≡ shape_of op }
{
    match operands_of(op) {
        Operands::Alone => Shape::Plain,
        Operands::ByteNumber | Operands::ShortNumber => Shape::Push,
        Operands::BytePool => Shape::Load,
        Operands::ShortPool => shape_on_pool(op),
        Operands::ByteLocal => Shape::Local,
        Operands::Increment => Shape::Increment,
        Operands::ShortJump | Operands::LongJump => Shape::Jump,
        Operands::Table => Shape::Table,
        Operands::Lookup => Shape::Lookup,
        Operands::Invocation => Shape::Invocation,
        Operands::Items => Shape::Items,
        Operands::Dimensions => Shape::Dimensions,
        Operands::Widened => Shape::Wide,
        Operands::Foreign | Operands::Absent => Shape::Unknown,
    }
}

/// The place of the first row with a mnemonic.
fn row_of(rows: &[(&'static str, Operands)], word: &[u16]) -> Option<usize>
    ensures value { result ≡ position (λ row. bytes_eq word.now row.0.now) rows.now }
    ensures within { IfSome result (λ place. place < length rows.now) }
{
    rows.iter()
        .position(|row| same_text(word, row.0.as_bytes()))
}

/// The opcode of a mnemonic.
#[tactic(auto, unfolding(crate::specs::Words::opcode_of))]
pub(crate) fn opcode_of(word: &[u16]) -> Option<u8>
    ensures { result ≡ opcode_of word.now }
{
    let place = row_of(&TABLE, word)?;
    Some(place as u8)
}

/// What stands before the colon that a word ends in, if anything does.
fn label_of(word: &[u16]) -> Option<&[u16]>
    ensures { option_map (λ name. name.now) result ≡ label_of word.now }
{
    if word.len() <= 1 || word[word.len() - 1] != u16::from(b':') {
        return None;
    }
    let (name, _) = word.split_at(word.len() - 1);
    Some(name)
}

/// An instruction, if it is supported.
fn instruction_head(op: u8) -> Option<Head>
    ensures { result ≡ instruction_head op }
{
    if shape_of(op) == Shape::Unknown {
        return None;
    }
    Some(Head::Instruction(op))
}

/// What a word tells as the first of a line, if anything.
#[tactic(auto, unfolding(crate::specs::Words::head_of))]
pub(crate) fn head_of(alloc: Global, word: &[u16]) -> Result<Option<Head>, AllocError>
    ensures { IfOk result (λ head. head ≡ head_of word.now) }
{
    if let Some(name) = label_of(word) {
        return Ok(Some(Head::Label(copied(alloc, name)?)));
    }
    if let Some(directive) = directive_of(word) {
        return Ok(Some(Head::Directive(directive)));
    }
    match opcode_of(word) {
        Some(op) => Ok(instruction_head(op)),
        None => Ok(None),
    }
}
