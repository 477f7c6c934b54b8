ghost use Rattle.std.specs.Prelude.{◌≡◌, ◌<◌, ◌≤◌, ◌+◌, ◌^◌, length, OnOk};
ghost use Rattle.mvm_base.specs.Answers.{AnswersUnless};
ghost use Rattle.mvm_classfile.specs.Reading.{reading};
ghost use Rattle.mvm_table.specs.Cost.{cost};
ghost use Rattle.mvm_table.specs.Files.{files_in};
ghost use Rattle.mvm_table.specs.Load.{is_array_name, called, found};
ghost use Rattle.mvm_table.specs.Loads.{unread};

use crate::fault::LoadFault;
use crate::table::Table;
use mvm_base::{Name, Steps};
use mvm_builtin::builtin;
use mvm_classfile::{ClassFault, ClassFile, read_class};
use mvm_set::{Shared, is_called};
use std::alloc::Global;
use std::sync::atomic::Ordering;
use std::sync::ledger::Ledger;

/// Why a class is not loaded of which the file is not read.
fn unread(fault: ClassFault) -> LoadFault
    ensures { result ≡ unread fault }
{
    match fault {
        ClassFault::OutOfMemory => LoadFault::OutOfMemory,
        _ => LoadFault::Format(fault),
    }
}

/// The class file of a name that these bytes are.
fn read_as<L: Ledger>(
    alloc: Global,
    name: &Name,
    bytes: &[u8],
    steps: &mut Steps<L>,
) -> Result<ClassFile, LoadFault>
    requires { length bytes.now < 2 ^ 32 }
    ensures answer { AnswersUnless LoadFault.OutOfMemory result (called name.now (reading bytes.now)) }
    ensures steps { OnOk result (steps.new ≡ steps.old + length bytes.now) }
    ensures most { steps.new ≤ steps.old + length bytes.now }
{
    match read_class(alloc, bytes, steps) {
        Ok(file) => {
            if is_called(name, &file) {
                Ok(file)
            } else {
                Err(LoadFault::WrongName)
            }
        }
        Err(fault) => Err(unread(fault)),
    }
}

/// The unit with which the name of an array class begins, `[` (JVM Specification 4.4.1).
const BRACKET: u16 = 91;

pub(crate) fn is_array_name(name: &Name) -> bool
    ensures { result ≡ is_array_name name.now }
{
    match name.units().first() {
        Some(unit) => *unit == BRACKET,
        None => false,
    }
}

impl Table {
    /// The file of a name in a set: a built-in class, or the file of the set.
    #[tactic(auto, unfolding(crate::specs::Load::found_with))]
    fn find_file<L: Ledger>(
        &self,
        set: u32,
        name: &Name,
        steps: &mut Steps<L>,
    ) -> Result<ClassFile, LoadFault>
        ensures answer { AnswersUnless LoadFault.OutOfMemory result (found (files_in set self.now.files) name.now) }
        ensures steps { OnOk result (steps.new ≡ steps.old + cost (files_in set self.now.files) name.now) }
        ensures most { steps.new ≤ steps.old + cost (files_in set self.now.files) name.now }
    {
        if is_array_name(name) {
            return Err(LoadFault::NoClass);
        }
        match builtin(self.alloc, name)? {
            Some(file) => Ok(file),
            None => match self.bytes_of(set, name) {
                Some(bytes) => {
                    self.decoded.fetch_add(1, Ordering::SeqCst);
                    read_as(self.alloc, name, bytes, steps)
                }
                None => Err(LoadFault::NoClass),
            },
        }
    }

    /// The same, to be shared.
    pub(crate) fn find<L: Ledger>(
        &self,
        set: u32,
        name: &Name,
        steps: &mut Steps<L>,
    ) -> Result<Shared<ClassFile>, LoadFault>
        ensures answer { AnswersUnless LoadFault.OutOfMemory result (found (files_in set self.now.files) name.now) }
        ensures steps { OnOk result (steps.new ≡ steps.old + cost (files_in set self.now.files) name.now) }
        ensures most { steps.new ≤ steps.old + cost (files_in set self.now.files) name.now }
    {
        let file = self.find_file(set, name, steps)?;
        Ok(Shared::new(self.alloc, file)?)
    }

    /// How many sources were read by the calls so far; no clause says so. The count wraps at 2^64.
    pub fn decoded(&self) -> u64 {
        self.decoded.load(Ordering::SeqCst)
    }
}
