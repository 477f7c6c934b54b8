ghost use Rattle.std.specs.Prelude.{◌≡◌, ◌<◌, length, Some, IfOk, slice_set, slice_get};
ghost use Rattle.std.specs.Option.{option_copied};
ghost use Rattle.mvm_layout.specs.Pool.{text};
ghost use Rattle.mvm_set.specs.Names.{own_name};
ghost use Rattle.mvm_mirror.specs.States.{first_state};
ghost use Rattle.mvm_mirror.specs.Statics.{zero_of, zero_or, zeros_in};
ghost use Rattle.mvm_mirror.specs.Kept.{fresh};

use crate::state::InitState;
use mvm_base::{List, Name, OutOfMemory, Word};
use mvm_builtin::builtin;
use mvm_classfile::{ClassFile, Item, Member};
use mvm_layout::flags::is_static;
use mvm_layout::pool::text;
use mvm_set::{Class, Shared, own_name};
use std::alloc::Global;

/// The letter of a long in a descriptor, `J` (JVM Specification 4.3.2).
const LONG: u16 = 74;
/// The first letter of a class, `L`.
const CLASS: u16 = 76;
/// The first letter of an array, `[`.
const ARRAY: u16 = 91;

/// What an isolate keeps of a class.
#[derive(Debug, Drop)]
pub(crate) struct Mirror {
    pub(crate) class: Shared<Class>,
    pub(crate) state: InitState,
    /// The values of its static fields, in their order.
    pub(crate) statics: List<Word>,
    /// The number of its class object, if it has one.
    pub(crate) object: Option<u32>,
}

/// What a variable of this descriptor begins with.
fn zero_of(desc: &Name) -> Word
    ensures { result ≡ zero_of desc.now }
{
    match desc.units().first() {
        Some(letter) => {
            if *letter == LONG {
                Word::Long(0)
            } else if *letter == CLASS || *letter == ARRAY {
                Word::Null
            } else {
                Word::Int(0)
            }
        }
        None => Word::Int(0),
    }
}

/// What a static field begins with, before its `ConstantValue` is set (JVM Specification 5.5).
fn zero(pool: &List<Item>, field: &Member) -> Word
    ensures { result ≡ zero_or (text pool.now field.now.desc) }
{
    match text(pool, field.desc) {
        Some(desc) => zero_of(desc),
        None => Word::Int(0),
    }
}

/// What the static fields among these begin with, in their order.
fn zeros_in(alloc: Global, pool: &List<Item>, fields: &[Member]) -> Result<List<Word>, OutOfMemory>
    ensures { IfOk result (λ words. words ≡ zeros_in pool.now fields.now) }
{
    let mut words = List::new(alloc);
    for i in 0..fields.len() {
        let field = &fields[i];
        if is_static(field.flags) {
            words.push(zero(pool, field))?;
        }
    }
    Ok(words)
}

/// The name of a class. Every class file has one.
pub(crate) fn name_of(file: &ClassFile) -> &Name
    ensures { own_name file.now ≡ Some result.now }
{
    let _parts = file.parts();
    match own_name(file) {
        Some(name) => name,
        None => unreachable!(),
    }
}

/// The state of a class that nobody looked at: a built-in class is ready.
#[tactic(auto, unfolding(crate::specs::States::first_state))]
fn first_state(alloc: Global, name: &Name) -> Result<InitState, OutOfMemory>
    ensures { IfOk result (λ state. state ≡ first_state name.now) }
{
    let found = builtin(alloc, name)?;
    if found.is_some() {
        Ok(InitState::Initialised)
    } else {
        Ok(InitState::NotBegun)
    }
}

impl Mirror {
    /// The mirror of a class that nobody looked at.
    pub(crate) fn fresh(alloc: Global, class: &Shared<Class>) -> Result<Mirror, OutOfMemory>
        ensures { IfOk result (λ mirror. mirror ≡ fresh class.now) }
    {
        let file = class.get().file();
        let state = first_state(alloc, name_of(file))?;
        let statics = zeros_in(alloc, &file.parts().pool, file.parts().fields.as_slice())?;
        Ok(Mirror {
            class: class.share()?,
            state,
            statics,
            object: None,
        })
    }

    /// The value of a static field, by its place.
    pub(crate) fn word(&self, slot: u32) -> Word
        requires { slot < length self.now.statics }
        ensures { slice_get self.now.statics slot ≡ Some result }
    {
        self.statics.as_slice()[slot as usize]
    }
}
