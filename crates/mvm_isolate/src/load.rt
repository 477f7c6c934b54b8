ghost use Rattle.std.specs.Prelude.{◌≡◌, ◌<◌, length, IfOk, IfErr, Some, Ok};
ghost use Rattle.mvm_base.specs.Answers.{AnswersUnless, Fails};
ghost use Rattle.mvm_isolate.specs.Faults.{looked_up};
ghost use Rattle.mvm_isolate.specs.Numbered.{class_at, look_of, name_at, named, shape_at, IsArray, IsClass};
ghost use Rattle.mvm_isolate.specs.Sound.{Grows, Loads, AreKnownIn, AreOfSet, AreThrownIn};
ghost use Rattle.mvm_mirror.specs.Kept.{classes_of};
ghost use Rattle.mvm_mirror.specs.Seen.{IsNumbered};
ghost use Rattle.mvm_set.specs.Names.{own_name};
ghost use Rattle.mvm_table.specs.Loads.{class_in, IsLoaded};
ghost use Rattle.mvm_table.specs.Resolve.{HasLoaded};

use crate::isolate::Isolate;
use crate::known::{ALL_THROWN, Known, name_of_thrown};
use crate::stop::Stop;
use mvm_base::{FieldShape, List, Name, OutOfMemory, Steps};
use mvm_mirror::Mirrors;
use mvm_set::{Class, Shared, own_name};
use mvm_table::{LoadFault, Resolved, Table};
use std::alloc::Global;
use std::sync::ledger::Ledger;

/// The number of the class of a name, which is loaded unless it has one.
fn class_number<L: Ledger>(
    mirrors: &mut Mirrors,
    table: &Table,
    set: u32,
    name: &Name,
    steps: &mut Steps<L>,
) -> Result<u32, LoadFault>
    requires set { set < length table.now.files }
    requires loaded { AreOfSet table.now.files set (classes_of mirrors.old) }
    ensures number { IfOk result (λ mirror. IsNumbered (classes_of mirrors.new) mirror name.now) }
    ensures fault { IfErr result (λ fault. Fails LoadFault.OutOfMemory fault (class_in table.now.files set name.now)) }
    ensures loads { Loads table.now.files set mirrors.old mirrors.new }
{
    match mirrors.number(name) {
        Some(mirror) => Ok(mirror),
        None => match table.class(set, name, steps) {
            Ok(class) => Ok(mirrors.add(&class)?),
            Err(fault) => Err(fault),
        },
    }
}

/// The same, where a fault is told as why an attempt stops.
fn loaded<L: Ledger>(
    mirrors: &mut Mirrors,
    table: &Table,
    set: u32,
    name: &Name,
    steps: &mut Steps<L>,
) -> Result<u32, Stop>
    requires set { set < length table.now.files }
    requires loaded { AreOfSet table.now.files set (classes_of mirrors.old) }
    ensures number { IfOk result (λ mirror. IsNumbered (classes_of mirrors.new) mirror name.now) }
    ensures fault { IfErr result (λ stop. Fails Stop.OutOfMemory stop (looked_up (class_in table.now.files set name.now))) }
    ensures loads { Loads table.now.files set mirrors.old mirrors.new }
{
    match class_number(mirrors, table, set, name, steps) {
        Ok(mirror) => Ok(mirror),
        Err(fault) => Err(fault.into()),
    }
}

/// The same for a built-in class, of which a fault is answered as want of memory.
fn known_class<L: Ledger>(
    alloc: Global,
    mirrors: &mut Mirrors,
    table: &Table,
    set: u32,
    name: &str,
    steps: &mut Steps<L>,
) -> Result<u32, OutOfMemory>
    requires set { set < length table.now.files }
    requires loaded { AreOfSet table.now.files set (classes_of mirrors.old) }
    ensures number { IfOk result (λ mirror. IsNumbered (classes_of mirrors.new) mirror name.now) }
    ensures loads { Loads table.now.files set mirrors.old mirrors.new }
{
    let name = Name::from_ascii(alloc, name)?;
    match class_number(mirrors, table, set, &name, steps) {
        Ok(mirror) => Ok(mirror),
        Err(_) => Err(OutOfMemory),
    }
}

/// The numbers of the classes of what the machine throws, in the order of their table.
fn thrown_classes<L: Ledger>(
    alloc: Global,
    mirrors: &mut Mirrors,
    table: &Table,
    set: u32,
    steps: &mut Steps<L>,
) -> Result<List<u32>, OutOfMemory>
    requires set { set < length table.now.files }
    requires loaded { AreOfSet table.now.files set (classes_of mirrors.old) }
    ensures thrown { IfOk result (λ numbers. AreThrownIn (classes_of mirrors.new) numbers) }
    ensures loads { Loads table.now.files set mirrors.old mirrors.new }
{
    let mut numbers = List::new(alloc);
    for thrown in ALL_THROWN.as_slice() {
        let name = name_of_thrown(*thrown);
        numbers.push(known_class(alloc, mirrors, table, set, name, steps)?)?;
    }
    Ok(numbers)
}

/// The numbers of the classes of which the machine itself makes objects, which are loaded.
pub(crate) fn known_classes<L: Ledger>(
    alloc: Global,
    mirrors: &mut Mirrors,
    table: &Table,
    set: u32,
    steps: &mut Steps<L>,
) -> Result<Known, OutOfMemory>
    requires set { set < length table.now.files }
    requires loaded { AreOfSet table.now.files set (classes_of mirrors.old) }
    ensures known { IfOk result (λ known. AreKnownIn (classes_of mirrors.new) known) }
    ensures loads { Loads table.now.files set mirrors.old mirrors.new }
{
    let string = known_class(alloc, mirrors, table, set, "java/lang/String", steps)?;
    let object = known_class(alloc, mirrors, table, set, "java/lang/Object", steps)?;
    let class = known_class(alloc, mirrors, table, set, "java/lang/Class", steps)?;
    let stream = known_class(alloc, mirrors, table, set, "java/io/PrintStream", steps)?;
    let thread = known_class(alloc, mirrors, table, set, "java/lang/Thread", steps)?;
    let thrown = thrown_classes(alloc, mirrors, table, set, steps)?;
    Ok(Known {
        string,
        object,
        class,
        stream,
        thread,
        thrown,
    })
}

impl Isolate {
    /// The number of the class of a name (JVM Specification 5.3), which is loaded unless the isolate met it.
    ///
    /// # Errors
    ///
    /// What is thrown for the first fault of the load.
    pub fn load<L: Ledger>(
        &mut self,
        table: &Table,
        name: &Name,
        steps: &mut Steps<L>,
    ) -> Result<u32, Stop>
        requires files { table.now.files ≡ self.old.files }
        ensures there { IfOk result (λ mirror. IsClass self.new mirror) }
        ensures name { IfOk result (λ mirror. name_at self.new mirror ≡ name.now) }
        ensures fault { IfErr result (λ stop. Fails Stop.OutOfMemory stop (looked_up ((look_of self.old).class name.now))) }
        // By names nothing changes.
        ensures same { named self.new ≡ named self.old }
        ensures links { self.new.env.links ≡ self.old.env.links }
        ensures grows { Grows self.old self.new }
    {
        let set = self.env.launch.set;
        loaded(&mut self.mirrors, table, set, name, steps)
    }

    /// The class of a number.
    pub fn class(&self, mirror: u32) -> &Shared<Class>
        requires { IsClass self.now mirror }
        // It is what a look-up of its name gives.
        ensures value { looked_up ((look_of self.now).class (name_at self.now mirror)) ≡ Ok result.now }
        ensures name { own_name result.now.file ≡ Some (name_at self.now mirror) }
        ensures loaded { IsLoaded self.now.files result.now }
        ensures at { class_at self.now mirror ≡ Some result.now }
    {
        self.mirrors.class(mirror)
    }

    /// The name of the class of a number.
    pub fn class_name(&self, mirror: u32) -> &Name
        requires { IsClass self.now mirror }
        ensures { result.now ≡ name_at self.now mirror }
    {
        match own_name(self.class(mirror).get().file()) {
            Some(name) => name,
            None => unreachable!(),
        }
    }

    /// What an entry of the constant pool of a class stands for (JVM Specification 5.4.3).
    ///
    /// # Errors
    ///
    /// What is thrown for the first fault of the resolution.
    pub fn entry<L: Ledger>(
        &self,
        table: &Table,
        mirror: u32,
        index: u16,
        steps: &mut Steps<L>,
    ) -> Result<Resolved, Stop>
        requires files { table.now.files ≡ self.now.files }
        requires there { IsClass self.now mirror }
        ensures answer { AnswersUnless Stop.OutOfMemory result (looked_up ((look_of self.now).entry (name_at self.now mirror) index)) }
        ensures loaded { IfOk result (λ found. HasLoaded self.now.files found) }
    {
        match table.resolve(self.class(mirror), index, steps) {
            Ok(found) => Ok(found),
            Err(fault) => Err(fault.into()),
        }
    }

    /// Links a class (JVM Specification 5.4.1).
    ///
    /// # Errors
    ///
    /// What is thrown for the first fault of its code, or of the code of a class that it inherits from.
    pub fn linked<L: Ledger>(
        &self,
        table: &Table,
        mirror: u32,
        steps: &mut Steps<L>,
    ) -> Result<(), Stop>
        requires files { table.now.files ≡ self.now.files }
        requires there { IsClass self.now mirror }
        ensures { AnswersUnless Stop.OutOfMemory result (looked_up ((look_of self.now).linked (name_at self.now mirror))) }
    {
        match table.linked(self.class(mirror), steps) {
            Ok(()) => Ok(()),
            Err(fault) => Err(fault.into()),
        }
    }

    /// The number of the array class of a shape (JVM Specification 5.3.3).
    pub fn array_class(&mut self, shape: &FieldShape) -> Result<u32, OutOfMemory>
        ensures there { IfOk result (λ row. IsArray self.new row) }
        ensures shape { IfOk result (λ row. shape_at self.new row ≡ shape.now) }
        // By names nothing changes.
        ensures same { named self.new ≡ named self.old }
        ensures links { self.new.env.links ≡ self.old.env.links }
        ensures grows { Grows self.old self.new }
    {
        self.arrays.add(shape)
    }

    /// The shape of the array class of a number.
    pub fn array_shape(&self, row: u32) -> &FieldShape
        requires { IsArray self.now row }
        ensures { result.now ≡ shape_at self.now row }
    {
        self.arrays.shape(row)
    }
}
