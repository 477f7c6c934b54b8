//! Which class files run alone, as the one isolate of a run.

ghost use Rattle.std.specs.Prelude.{◌≡◌, ◌<◌, ◌^◌, length, IsTrue};
ghost use Rattle.std.specs.List.{list_any, AllPass};
ghost use Rattle.mvm_classfile.specs.Writing.{has_few_bytes};
ghost use Rattle.mvm_layout.specs.Pool.{text};
ghost use Rattle.mvm.specs.Alone.{begins_with, has_monitors, is_monitor, is_of_threads, is_reserved, is_short_text, is_user_name, is_wait, locks, runs_alone};

use crate::texts::first_character;
use mvm_base::{List, Name, is_binary_name};
use mvm_classfile::{ClassFile, Item, Member};
use mvm_insn::opcodes::{MONITORENTER, MONITOREXIT};
use mvm_insn::{Insn, insn_at};
use mvm_layout::flags::{SYNCHRONIZED, has_flag};
use mvm_layout::pool::{class_name, is_text, same_text};

/// How many characters the name of a class may have.
const MOST_CHARACTERS: usize = 255;

/// Whether units are a text of at most 255 characters.
fn is_short_text(units: &[u16]) -> bool
    ensures { result ≡ is_short_text units.now }
{
    let mut rest = units;
    let mut count = 0;
    while !rest.is_empty() {
        let (character, taken) = first_character(rest);
        if character.is_none() || count == MOST_CHARACTERS {
            return false;
        }
        count += 1;
        let (_, after) = rest.split_at(taken);
        rest = after;
    }
    true
}

fn begins_with(beginning: &[u8], units: &[u16]) -> bool
    ensures { result ≡ begins_with beginning.now units.now }
{
    units.len() >= beginning.len() && same_text(&units[..beginning.len()], beginning)
}

/// Whether a class of this name is one of the machine's own packages.
fn is_reserved(units: &[u16]) -> bool
    ensures { result ≡ is_reserved units.now }
{
    begins_with(b"java/", units) || begins_with(b"javax/", units) || begins_with(b"mvm/", units)
}

/// Whether a user can have a class of this name (JVM Specification 4.2.1).
#[tactic(auto, unfolding(crate::specs::Alone::is_user_name))]
fn is_user_name(units: &[u16]) -> bool
    ensures { result ≡ is_user_name units.now }
{
    is_binary_name(units) && is_short_text(units) && !is_reserved(units)
}

/// Whether an instruction enters or exits a monitor (JVM Specification 2.11.10).
fn is_monitor(insn: &Insn<'_>) -> bool
    ensures { result ≡ is_monitor insn.now }
{
    match insn {
        Insn::Plain { op } => *op == MONITORENTER || *op == MONITOREXIT,
        _ => false,
    }
}

/// Whether an instruction of the code enters or exits a monitor.
#[tactic(auto, unfolding(crate::specs::Alone::has_monitors, mvm_check::specs::Starts::starts_of))]
fn has_monitors(code: &[u8]) -> bool
    requires { length code.now < 2 ^ 32 }
    ensures { result ≡ has_monitors code.now }
{
    let mut pc = 0;
    for i in 0..code.len() {
        if pc as usize >= code.len() {
            return false;
        }
        match insn_at(code, pc) {
            Ok(at) => {
                if is_monitor(&at.insn) {
                    return true;
                }
                pc = at.next;
            }
            Err(_) => return false,
        }
    }
    false
}

/// Whether a method is synchronized, or its code enters or exits a monitor.
fn locks(method: &Member) -> bool
    requires { IsTrue (has_few_bytes method.now.code) }
    ensures { result ≡ locks method.now }
{
    if has_flag(SYNCHRONIZED, method.flags) {
        return true;
    }
    match &method.code {
        Some(code) => has_monitors(code.bytes.as_slice()),
        None => false,
    }
}

fn any_locks(methods: &[Member]) -> bool
    requires { AllPass (λ member. has_few_bytes member.code) methods.now }
    ensures { result ≡ list_any locks methods.now }
{
    for i in 0..methods.len() {
        if locks(&methods[i]) {
            return true;
        }
    }
    false
}

fn is_wait(pool: &List<Item>, name: u16) -> bool
    ensures { result ≡ is_wait (text pool.now name) }
{
    is_text(pool, name, b"wait")
        || is_text(pool, name, b"notify")
        || is_text(pool, name, b"notifyAll")
}

/// Whether an entry of the constant pool names the class of threads, or a method by which threads wait.
fn is_of_threads(pool: &List<Item>, entry: &Item) -> bool
    ensures { result ≡ is_of_threads pool.now entry.now }
{
    match entry {
        Item::Class(name) => is_text(pool, *name, b"java/lang/Thread"),
        Item::NameAndType(name, _) => is_wait(pool, *name),
        _ => false,
    }
}

fn any_of_threads(pool: &List<Item>) -> bool
    ensures { result ≡ list_any (is_of_threads pool.now) pool.now }
{
    pool.as_slice()
        .iter()
        .any(|entry| is_of_threads(pool, entry))
}

/// Whether a class file runs alone.
#[tactic(auto, unfolding(crate::specs::Alone::runs_alone), using(mvm_check::proofs::Countable::countable))]
pub(crate) fn runs_alone(class: &ClassFile) -> bool
    ensures { result ≡ runs_alone class.now }
{
    let parts = class.parts();
    let has_user_name = match class_name(&parts.pool, parts.this_class) {
        Some(name) => is_user_name(name.units()),
        None => false,
    };
    has_user_name && !any_locks(parts.methods.as_slice()) && !any_of_threads(&parts.pool)
}
