ghost use Rattle.std.specs.Prelude.{◌≡◌, ◌<◌, [], ℕ, List as Items, length, slice_get, Some, None, IfOk, OnOk, OnErr};
ghost use Rattle.mvm_set.specs.Names.{own_name};
ghost use Rattle.mvm_mirror.specs.Kept.{classes_of, fresh, objects, seen_of, states, statics};
ghost use Rattle.mvm_mirror.specs.Seen.{number_like, number_of, slots, with_class, with_object, with_state, with_static, IsNumbered, IsStatic};
ghost use Rattle.mvm_mirror.specs.States.{after, begun};
ghost use Rattle.mvm_mirror.specs.declared.state.InitState.TheVariants.{Erroneous, Initialised};

use crate::change::{at, set_object, set_state, set_static};
use crate::mirror::{Mirror, name_of};
use crate::state::{Begin, InitState, after, begun};
use mvm_base::{Name, OutOfMemory, Word};
use mvm_set::{Class, Shared};
use std::alloc::Global;
use std::collections::BTreeMap;
use std::marker::Model;

/// The most classes that can be added: 4,294,967,295.
const MOST_CLASSES: usize = 0xFFFF_FFFF;

/// What an isolate keeps of its classes, by their names and by numbers.
#[derive(Drop)]
pub struct Mirrors {
    alloc: Global,
    mirrors: Vec<Mirror>,
    numbers: BTreeMap<Vec<u16>, u32>,
}

impl Model for Mirrors {
    ghost use Rattle.std.specs.Prelude.{List};
    ghost use Rattle.mvm_set.specs.Set.{look};
    ghost use Rattle.mvm_mirror.specs.Kept.{IsKept};
    ghost use Rattle.mvm_mirror.specs.declared.mirror.Mirror.{Mirror as MirrorOf};

    ghost Value = { List MirrorOf };

    ghost view = { λ m. m.mirrors.items };

    ghost invariant = { λ m. IsKept (look m.numbers (λ key. key.items)) m.mirrors.items };
}

impl Mirrors {
    /// No class was added.
    pub fn new(alloc: Global) -> Mirrors
        ensures { result ≡ [] }
    {
        Mirrors {
            alloc,
            mirrors: Vec::new(alloc),
            numbers: BTreeMap::new(alloc),
        }
    }

    /// The number of the class of a name, or `None` where none of that name was added.
    pub fn number(&self, name: &Name) -> Option<u32>
        ensures { result ≡ number_of name.now (classes_of self.now) }
    {
        match self.numbers.get(name.units()) {
            Some(number) => Some(*number),
            None => None,
        }
    }

    /// How many classes were added. They are numbered from 0 in the order in which their names were first added.
    pub fn count(&self) -> u32
        ensures { result ≡ length (classes_of self.now) }
    {
        self.mirrors.len() as u32
    }

    /// The class that was first added under a number.
    pub fn class(&self, mirror: u32) -> &Shared<Class>
        requires { mirror < length (classes_of self.now) }
        ensures value { slice_get (classes_of self.now) mirror ≡ Some result.now }
        // The number is that of its name.
        ensures numbered { number_like result.now (classes_of self.now) ≡ Some mirror }
    {
        &at(&self.mirrors, mirror).class
    }

    /// Puts a mirror behind the others, under a name that is not there yet.
    fn put(&mut self, name: &Name, mirror: Mirror) -> Result<u32, OutOfMemory>
        requires named { own_name mirror.class.file ≡ Some name.now }
        requires fresh { mirror ≡ fresh mirror.class }
        requires new { number_of name.now (classes_of self.old) ≡ None }
        ensures number { IfOk result (λ number. number_of name.now (classes_of self.new) ≡ Some number) }
        ensures classes { OnOk result (classes_of self.new ≡ with_class mirror.class (classes_of self.old)) }
        ensures same { seen_of self.new ≡ seen_of self.old }
        ensures err { OnErr result (self.new ≡ self.old) }
    {
        let count = self.mirrors.len();
        if count >= MOST_CLASSES {
            return Err(OutOfMemory);
        }
        let number = count as u32;
        let key = Vec::from_slice(self.alloc, name.units())?;
        self.mirrors.reserve(1)?;
        self.numbers.insert(key, number)?;
        match self.mirrors.push(mirror) {
            Ok(()) => Ok(number),
            Err(_) => unreachable!(),
        }
    }

    /// The number of a class, which is added unless one of its name is there.
    ///
    /// # Errors
    ///
    /// `OutOfMemory`; nothing is added then. So it is where 4,294,967,295 classes are there already.
    pub fn add(&mut self, class: &Shared<Class>) -> Result<u32, OutOfMemory>
        ensures number { IfOk result (λ number. number_like class.now (classes_of self.new) ≡ Some number) }
        ensures classes { OnOk result (classes_of self.new ≡ with_class class.now (classes_of self.old)) }
        // The maps by name are as before: a class that was never added stands there with what it begins with.
        ensures same { seen_of self.new ≡ seen_of self.old }
        ensures err { OnErr result (self.new ≡ self.old) }
    {
        let name = name_of(class.get().file());
        match self.number(name) {
            Some(number) => Ok(number),
            None => {
                let mirror = Mirror::fresh(self.alloc, class)?;
                self.put(name, mirror)
            }
        }
    }

    /// The state of a class.
    pub fn state(&self, mirror: u32) -> InitState
        requires { mirror < length (classes_of self.now) }
        ensures { (name : Items ℕ) → IsNumbered (classes_of self.now) mirror name → result ≡ states self.now name }
    {
        at(&self.mirrors, mirror).state
    }

    fn set_state(&mut self, mirror: u32, state: InitState)
        requires { mirror < length (classes_of self.old) }
        ensures named { (name : Items ℕ) → IsNumbered (classes_of self.old) mirror name → seen_of self.new ≡ with_state name state (seen_of self.old) }
        ensures classes { classes_of self.new ≡ classes_of self.old }
    {
        set_state(&mut self.mirrors, mirror, state);
    }

    /// What a thread does that wants a class initialised, which from then on initialises it where nobody began that (JVM
    /// Specification 5.5).
    pub fn begin(&mut self, mirror: u32, thread: u32) -> Begin
        requires { mirror < length (classes_of self.old) }
        ensures answer { (name : Items ℕ) → IsNumbered (classes_of self.old) mirror name → result ≡ begun thread (states self.old name) }
        ensures named { (name : Items ℕ) → IsNumbered (classes_of self.old) mirror name → seen_of self.new ≡ with_state name (after thread (states self.old name)) (seen_of self.old) }
        ensures classes { classes_of self.new ≡ classes_of self.old }
    {
        let state = self.state(mirror);
        self.set_state(mirror, after(thread, state));
        begun(thread, state)
    }

    /// A class is initialised from now on (JVM Specification 5.5, step 10).
    pub fn finish(&mut self, mirror: u32)
        requires { mirror < length (classes_of self.old) }
        ensures named { (name : Items ℕ) → IsNumbered (classes_of self.old) mirror name → seen_of self.new ≡ with_state name Initialised (seen_of self.old) }
        ensures classes { classes_of self.new ≡ classes_of self.old }
    {
        self.set_state(mirror, InitState::Initialised);
    }

    /// The initialisation of a class failed (JVM Specification 5.5, steps 7 and 11).
    pub fn fail(&mut self, mirror: u32)
        requires { mirror < length (classes_of self.old) }
        ensures named { (name : Items ℕ) → IsNumbered (classes_of self.old) mirror name → seen_of self.new ≡ with_state name Erroneous (seen_of self.old) }
        ensures classes { classes_of self.new ≡ classes_of self.old }
    {
        self.set_state(mirror, InitState::Erroneous);
    }

    /// The value of a static field.
    pub fn get_static(&self, mirror: u32, slot: u32) -> Word
        requires { slot < slots (classes_of self.now) mirror }
        ensures { (name field desc : Items ℕ) → IsStatic (classes_of self.now) mirror slot name field desc → result ≡ statics self.now name field desc }
    {
        at(&self.mirrors, mirror).word(slot)
    }

    /// Gives a static field a value, which is of the kind of the field.
    pub fn put_static(&mut self, mirror: u32, slot: u32, value: Word)
        requires { slot < slots (classes_of self.old) mirror }
        ensures named { (name field desc : Items ℕ) → IsStatic (classes_of self.old) mirror slot name field desc → seen_of self.new ≡ with_static name field desc value (seen_of self.old) }
        ensures classes { classes_of self.new ≡ classes_of self.old }
    {
        set_static(&mut self.mirrors, mirror, slot, value);
    }

    /// The number of the class object of a class, if it has one.
    pub fn class_object(&self, mirror: u32) -> Option<u32>
        requires { mirror < length (classes_of self.now) }
        ensures { (name : Items ℕ) → IsNumbered (classes_of self.now) mirror name → result ≡ objects self.now name }
    {
        at(&self.mirrors, mirror).object
    }

    /// Gives a class this class object.
    pub fn set_class_object(&mut self, mirror: u32, object: u32)
        requires { mirror < length (classes_of self.old) }
        ensures named { (name : Items ℕ) → IsNumbered (classes_of self.old) mirror name → seen_of self.new ≡ with_object name object (seen_of self.old) }
        ensures classes { classes_of self.new ≡ classes_of self.old }
    {
        set_object(&mut self.mirrors, mirror, object);
    }
}
