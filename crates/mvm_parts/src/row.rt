use crate::instruction::{Left, left_by};
use crate::natives::tell_calls;
use crate::shuffle::shuffled;
use mvm_base::{OutOfMemory, Word};
use mvm_insn::opcode_named;
use std::alloc::{AllocError, Global};
use std::io;

/// The value that a text is: an int behind an I, a long behind a J.
pub(crate) fn word_of(text: &str) -> Option<Word> {
    match text.strip_prefix("I") {
        Some(digits) => match digits.parse::<i32>() {
            Ok(value) => Some(Word::Int(value)),
            Err(_) => None,
        },
        None => match text.strip_prefix("J") {
            Some(digits) => match digits.parse::<i64>() {
                Ok(value) => Some(Word::Long(value)),
                Err(_) => None,
            },
            None => None,
        },
    }
}

/// The values that these texts are, if each is one.
fn words_of(alloc: Global, texts: &[&str]) -> Result<Option<Vec<Word>>, AllocError> {
    let mut words = Vec::new(alloc);
    for text in texts {
        match word_of(text) {
            Some(word) => words.push(word)?,
            None => return Ok(None),
        }
    }
    Ok(Some(words))
}

/// Tells a value, with a blank before it where one stands before it.
pub(crate) fn tell_word(rt: &HostRuntime, is_first: bool, word: Word) -> io::Result<()> {
    if !is_first {
        print!(rt; " ")?;
    }
    match word {
        Word::Int(value) => print!(rt; "I{value}"),
        Word::Long(value) => print!(rt; "J{value}"),
        Word::Ref(object) => print!(rt; "A{object}"),
        Word::Null => print!(rt; "null"),
    }
}

/// Tells what stands on a stack, the lowest first, from what was taken off it.
fn tell_words(rt: &HostRuntime, words: &[Word]) -> io::Result<()> {
    let mut is_first = true;
    for word in words.iter().rev() {
        tell_word(rt, is_first, *word)?;
        is_first = false;
    }
    println!(rt; "")
}

/// Tells what an instruction leaves of these operands. It answers whether it leaves anything.
fn tell_left(rt: &HostRuntime, op: u8, operands: &[Word]) -> io::Result<bool> {
    match left_by(op, operands) {
        Left::Value(word) => {
            tell_word(rt, true, word)?;
            println!(rt; "")?;
            Ok(true)
        }
        Left::DivZero => {
            println!(rt; "java/lang/ArithmeticException")?;
            Ok(true)
        }
        Left::Unknown => match shuffled(rt.alloc(), op, operands) {
            Ok(Some(words)) => {
                tell_words(rt, words.as_slice())?;
                Ok(true)
            }
            Ok(None) => {
                println!(rt; "refused")?;
                Ok(false)
            }
            Err(OutOfMemory) => Err(io::Error::from(io::ErrorKind::OutOfMemory)),
        },
    }
}

/// Tells what a row leaves, which begins with an instruction, or else has values and native methods. It answers whether the row is one, and
/// leaves anything.
pub(crate) fn tell_row(rt: &HostRuntime, row: &str) -> io::Result<bool> {
    let alloc = rt.alloc();
    let texts: Vec<&str> = row.split_whitespace().collect(alloc)?;
    let Some((mnemonic, others)) = texts.as_slice().split_first() else {
        return Ok(false);
    };
    let Some(op) = opcode_named(mnemonic) else {
        return tell_calls(rt, texts.as_slice());
    };
    match words_of(alloc, others)? {
        Some(operands) => tell_left(rt, op, operands.as_slice()),
        None => Ok(false),
    }
}
