ghost use Rattle.std.specs.Prelude.{◌≡◌, ◌+◌, ℕ, List as Units, Some};
ghost use Rattle.mvm_base.specs.Answers.{AnswersUnless};
ghost use Rattle.mvm_set.specs.Names.{own_name};
ghost use Rattle.mvm_table.specs.Files.{files_in};
ghost use Rattle.mvm_table.specs.Link.{code_fault, or_sound, linked_files, linked};
ghost use Rattle.mvm_table.specs.Loads.{IsLoaded};

use crate::fault::LoadFault;
use crate::table::Table;
use mvm_base::Steps;
use mvm_check::{CheckFault, check};
use mvm_classfile::ClassFile;
use mvm_set::{Class, Own, Shared};
use std::alloc::Global;
use std::sync::ledger::Ledger;

/// Checks the code of a class file.
fn check_file(alloc: Global, file: &ClassFile) -> Result<(), LoadFault>
    ensures { AnswersUnless LoadFault.OutOfMemory result (or_sound (code_fault file.now)) }
{
    match check(alloc, file) {
        Ok(()) => Ok(()),
        Err(CheckFault::OutOfMemory) => Err(LoadFault::OutOfMemory),
        Err(fault) => Err(LoadFault::Check(fault)),
    }
}

/// Checks the code of these, in their order.
fn check_files(alloc: Global, owns: &[Shared<Own>]) -> Result<(), LoadFault>
    ensures { AnswersUnless LoadFault.OutOfMemory result (linked_files owns.now) }
{
    for i in 0..owns.len() {
        match check_file(alloc, owns[i].get().file()) {
            Ok(()) => {}
            Err(fault) => return Err(fault),
        }
    }
    Ok(())
}

impl Table {
    /// Links a class (JVM Specification 5.4.1): checks its code, and that of all that it inherits from, each once. It costs one step.
    ///
    /// # Errors
    ///
    /// `Check`, with the first fault: of the class, then of its superclass by this rule, then of its direct superinterfaces in their
    /// order by this rule.
    pub fn linked<L: Ledger>(
        &self,
        class: &Shared<Class>,
        steps: &mut Steps<L>,
    ) -> Result<(), LoadFault>
        requires { IsLoaded self.now.files class.now }
        ensures answer { (name : Units ℕ) → own_name class.now.file ≡ Some name → AnswersUnless LoadFault.OutOfMemory result (linked (files_in class.now.set self.now.files) name) }
        ensures steps { steps.new ≡ steps.old + 1 }
    {
        steps.rise(1);
        check_files(self.alloc, class.get().checked())
    }
}
