// Rows of native methods: values, and the methods that are called with them.
ghost use Rattle.std.specs.Prelude.{◌≡◌, true};
ghost use Rattle.mvm_native.specs.Texts.{IsText};

use crate::row::{tell_word, word_of};
use crate::times::heap_of;
use mvm_base::{Line, List, Name, OutOfMemory, Word};
use mvm_builtin::{Native, native_at, native_number};
use mvm_heap::Heap;
use mvm_history::{Launch, Limits, LinkRow};
use mvm_monitor::WaitList;
use mvm_native::{Env, Out, call, fits};
use std::alloc::Global;
use std::io;

/// How many words the heap of an isolate has in which a row is tried.
const WORDS: u32 = 65_536;

/// An isolate of one thread: the second of three, which sends to the third.
pub(crate) fn isolate(alloc: Global, words: u32) -> Result<Env, OutOfMemory> {
    let mut links = List::new(alloc);
    links.push(LinkRow { from: 1, to: 2 })?;
    let launch = Launch {
        number: 1,
        count: 3,
        set: 0,
        main: Name::from_ascii(alloc, "Main")?,
        args: List::new(alloc),
        start: true,
        limits: Limits::defaults(),
        quantum: 1,
        links,
    };
    Ok(Env {
        alloc,
        heap: heap_of(alloc, words)?,
        output: Line::new(alloc),
        waits: WaitList::new(alloc, 1)?,
        launch,
        thread: 0,
        links: List::new(alloc),
    })
}

/// A new object with two fields. `None` where the heap is full.
pub(crate) fn new_object(heap: &mut Heap) -> Option<u32> {
    match heap.alloc_object(0, 2) {
        Ok(object) => Some(object),
        Err(_) => None,
    }
}

/// The units that a text lists, with commas between them; none where it lists nothing else.
fn units_of(alloc: Global, listed: &str) -> Result<Option<Vec<u16>>, OutOfMemory> {
    let mut units = Vec::new(alloc);
    for digits in listed.split(',') {
        match digits.parse::<u16>() {
            Ok(unit) => units.push(unit)?,
            Err(_) => return Ok(None),
        }
    }
    Ok(Some(units))
}

/// A text of these units. `None` where the heap is full.
fn text(heap: &mut Heap, units: &[u16]) -> Option<Word> {
    if units.len() > 0xFFFF_FFFF {
        return None;
    }
    match heap.alloc_text(units) {
        Ok(object) => Some(Word::Ref(object)),
        Err(_) => None,
    }
}

/// The value that a part of a row is: null, a new object, a text of units, an int or a long. `None` where it is none of these.
fn value_of(env: &mut Env, part: &str) -> Result<Option<Word>, OutOfMemory> {
    match part {
        "null" => Ok(Some(Word::Null)),
        "object" => Ok(new_object(&mut env.heap).map(Word::Ref)),
        "T" => Ok(text(&mut env.heap, &[])),
        _ => match part.strip_prefix("T") {
            Some(listed) => match units_of(env.alloc, listed)? {
                Some(units) => Ok(text(&mut env.heap, units.as_slice())),
                None => Ok(None),
            },
            None => Ok(word_of(part)),
        },
    }
}

/// The number of the native method that a part of a row names by its class, its name and its descriptor, as `java/lang/Object.notify:()V`.
fn number_of(alloc: Global, part: &str) -> Result<Option<u16>, OutOfMemory> {
    let Some((method, desc)) = part.split_once(':') else {
        return Ok(None);
    };
    let Some((class, name)) = method.rsplit_once('.') else {
        return Ok(None);
    };
    let class = Name::from_ascii(alloc, class)?;
    let name = Name::from_ascii(alloc, name)?;
    let desc = Name::from_ascii(alloc, desc)?;
    Ok(native_number(&class, &name, &desc))
}

/// What a native method answers. `None` where the values are not what it takes them for.
pub(crate) fn answer_of(
    env: &mut Env,
    number: u16,
    values: &[Word],
) -> Result<Option<Out>, OutOfMemory> {
    if !fits(env, number, values) {
        return Ok(None);
    }
    Ok(Some(call(env, number, values)?))
}

/// What is left after a part of a row.
enum After {
    /// These values, for the next call.
    Values(Vec<Word>),
    /// An answer that is no value.
    Ends(Out),
    /// Nothing: the part is none, or a method does not take the values.
    Unknown,
}

/// What is left after a call: what it returns, and of a constructor, which returns nothing, its object.
fn after_call(
    env: &mut Env,
    mut values: Vec<Word>,
    number: u16,
    is_constructor: bool,
) -> Result<After, OutOfMemory> {
    match answer_of(env, number, values.as_slice())? {
        Some(Out::Value(Some(word))) => {
            values.clear();
            values.push(word)?;
            Ok(After::Values(values))
        }
        Some(Out::Value(None)) => {
            values.truncate(usize::from(is_constructor));
            Ok(After::Values(values))
        }
        Some(out) => Ok(After::Ends(out)),
        None => Ok(After::Unknown),
    }
}

/// What is left after a part of a row: a value stands behind those that were there, and a native method is called with all of them.
fn with_part(env: &mut Env, mut values: Vec<Word>, part: &str) -> Result<After, OutOfMemory> {
    match number_of(env.alloc, part)? {
        Some(number) => after_call(env, values, number, part.contains("<init>")),
        None => match value_of(env, part)? {
            Some(word) => {
                values.push(word)?;
                Ok(After::Values(values))
            }
            None => Ok(After::Unknown),
        },
    }
}

/// What is left after all parts of a row.
fn after_all(env: &mut Env, parts: &[&str]) -> Result<After, OutOfMemory> {
    let mut values = Vec::new(env.alloc);
    for part in parts {
        match with_part(env, values, part)? {
            After::Values(left) => values = left,
            last => return Ok(last),
        }
    }
    Ok(After::Values(values))
}

/// Tells numbers behind a letter, with commas between them.
fn tell_numbers(rt: &HostRuntime, letter: char, numbers: &[u16]) -> io::Result<()> {
    print!(rt; "{letter}")?;
    let mut is_first = true;
    for number in numbers {
        if !is_first {
            print!(rt; ",")?;
        }
        print!(rt; "{number}")?;
        is_first = false;
    }
    Ok(())
}

/// The units of a text.
fn units_in(alloc: Global, heap: &Heap, text: u32) -> Result<Vec<u16>, OutOfMemory>
    requires { IsText heap.now.state.objects text }
{
    let mut units = Vec::new(alloc);
    for place in 0..heap.length(text) {
        units.push(heap.unit(text, place))?;
    }
    Ok(units)
}

/// Whether an object is a text, so that it has the methods of String.
#[tactic(auto, unfolding(mvm_native::specs::Calls::Fits))]
fn is_text(env: &Env, object: u32) -> bool
    ensures { result ≡ true → IsText env.now.heap.state.objects object }
{
    let number = Native::StringLength.number();
    if native_at(number) != Some(Native::StringLength) {
        return false;
    }
    fits(env, number, &[Word::Ref(object)])
}

/// Tells a value: a text by its units, an int, a long, null, or that it is another object.
fn tell_value(rt: &HostRuntime, env: &Env, word: Word) -> io::Result<()> {
    let Word::Ref(object) = word else {
        return tell_word(rt, true, word);
    };
    if !is_text(env, object) {
        return print!(rt; "object");
    }
    let units = units_in(rt.alloc(), &env.heap, object).map_err(refused)?;
    tell_numbers(rt, 'T', units.as_slice())
}

/// The bytes of what an isolate printed.
fn printed(env: &Env) -> Result<Vec<u16>, OutOfMemory> {
    let mut bytes = Vec::new(env.alloc);
    for byte in env.output.as_bytes() {
        bytes.push(u16::from(*byte))?;
    }
    Ok(bytes)
}

/// Tells what is left of the values of a row, if anything, and what was printed.
fn tell_left(rt: &HostRuntime, env: &Env, values: &[Word]) -> io::Result<()> {
    for word in values {
        tell_value(rt, env, *word)?;
        print!(rt; " ")?;
    }
    let bytes = printed(env).map_err(refused)?;
    tell_numbers(rt, 'O', bytes.as_slice())?;
    println!(rt; "")
}

/// That memory ran out, as an error.
fn refused(_refused: OutOfMemory) -> io::Error {
    io::Error::from(io::ErrorKind::OutOfMemory)
}

/// Tells what the values and native methods of a row leave. It answers whether the row is one.
pub(crate) fn tell_calls(rt: &HostRuntime, parts: &[&str]) -> io::Result<bool> {
    let mut env = isolate(rt.alloc(), WORDS).map_err(refused)?;
    match after_all(&mut env, parts).map_err(refused)? {
        After::Values(values) => {
            tell_left(rt, &env, values.as_slice())?;
            Ok(true)
        }
        After::Ends(out) => {
            println!(rt; "{out:?}")?;
            Ok(true)
        }
        After::Unknown => {
            println!(rt; "refused")?;
            Ok(false)
        }
    }
}
