ghost use Rattle.std.specs.Prelude.{◌≡◌, ◌<◌, length, List as Rows, ◌+◌, ◌≤◌, Ok, IfOk, OnOk};
ghost use Rattle.mvm_table.specs.Files.{File};
ghost use Rattle.std.specs.Option.{option_copied};
ghost use Rattle.mvm_base.specs.Answers.{AnswersUnless};
ghost use Rattle.mvm_table.specs.Loads.{class_in, IsLoaded};
ghost use Rattle.mvm_table.specs.Members.{reference_at};
ghost use Rattle.mvm_table.specs.Met.{of_class, of_named, of_reference, met, AreOnShelf};
ghost use Rattle.mvm_table.specs.Resolve.{named_resolved, class_entry, field_entry, method_entry, text_entry, resolve_with, resolve, HasLoaded};

use crate::fault::LoadFault;
use crate::find::is_array_name;
use crate::reference::reference_at;
use crate::resolved::Resolved;
use crate::table::Table;
use mvm_base::{Name, Steps};
use mvm_layout::Item;
use mvm_layout::pool::{entry, text};
use mvm_set::{Class, Shared};
use std::sync::ledger::Ledger;

/// The units of a string constant (JVM Specification 5.1).
fn text_entry(units: Option<&Name>) -> Result<Resolved, LoadFault>
    ensures answer { AnswersUnless LoadFault.OutOfMemory result (Ok (text_entry (option_copied units.entry))) }
    ensures loaded { (table : Rows (Rows File)) → IfOk result (λ found. HasLoaded table found) }
{
    match units {
        Some(units) => Ok(Resolved::Text(units.copy()?)),
        None => Ok(Resolved::Other),
    }
}

impl Table {
    /// A class or an array class by its name, as a class resolves it (JVM Specification 5.4.3.1).
    #[tactic(auto, unfolding(crate::specs::Resolve::named_resolved, crate::specs::Met::of_class))]
    fn named_from<L: Ledger>(
        &self,
        from: &Class,
        name: &Name,
        steps: &mut Steps<L>,
    ) -> Result<Resolved, LoadFault>
        requires { from.now.set < length self.now.files }
        ensures answer { AnswersUnless LoadFault.OutOfMemory result (named_resolved (class_in self.now.files from.now.set) from.now name.now) }
        ensures loaded { IfOk result (λ found. HasLoaded self.now.files found) }
        ensures shelf { AreOnShelf self.now from.now.set (of_class name.now) → OnOk result (steps.new ≤ steps.old + 2) }
    {
        if is_array_name(name) {
            match self.array_from(from, name, steps) {
                Ok(shape) => Ok(Resolved::Array(shape)),
                Err(fault) => Err(fault),
            }
        } else {
            match self.class_from(from, name, steps) {
                Ok(class) => Ok(Resolved::Class(class)),
                Err(fault) => Err(fault),
            }
        }
    }

    fn class_entry<L: Ledger>(
        &self,
        from: &Class,
        name: Option<&Name>,
        steps: &mut Steps<L>,
    ) -> Result<Resolved, LoadFault>
        requires { from.now.set < length self.now.files }
        ensures answer { AnswersUnless LoadFault.OutOfMemory result (class_entry (class_in self.now.files from.now.set) from.now (option_copied name.entry)) }
        ensures loaded { IfOk result (λ found. HasLoaded self.now.files found) }
        ensures shelf { AreOnShelf self.now from.now.set (of_named (option_copied name.entry)) → OnOk result (steps.new ≤ steps.old + 2) }
    {
        match name {
            Some(name) => self.named_from(from, name, steps),
            None => Ok(Resolved::Other),
        }
    }

    fn field_entry<L: Ledger>(
        &self,
        from: &Class,
        class: u16,
        member: u16,
        steps: &mut Steps<L>,
    ) -> Result<Resolved, LoadFault>
        requires { from.now.set < length self.now.files }
        ensures answer { AnswersUnless LoadFault.OutOfMemory result (field_entry (class_in self.now.files from.now.set) from.now (reference_at from.now.file.pool class member)) }
        ensures loaded { IfOk result (λ found. HasLoaded self.now.files found) }
        ensures shelf { AreOnShelf self.now from.now.set (of_reference (reference_at from.now.file.pool class member)) → OnOk result (steps.new ≤ steps.old + 2) }
    {
        match reference_at(&from.file().parts().pool, class, member) {
            Some(field) => match self.field_from(from, &field, steps) {
                Ok(field) => Ok(Resolved::Field(field)),
                Err(fault) => Err(fault),
            },
            None => Ok(Resolved::Other),
        }
    }

    fn method_entry<L: Ledger>(
        &self,
        of_interface: bool,
        from: &Class,
        class: u16,
        member: u16,
        steps: &mut Steps<L>,
    ) -> Result<Resolved, LoadFault>
        requires { from.now.set < length self.now.files }
        ensures answer { AnswersUnless LoadFault.OutOfMemory result (method_entry (class_in self.now.files from.now.set) of_interface from.now (reference_at from.now.file.pool class member)) }
        ensures loaded { IfOk result (λ found. HasLoaded self.now.files found) }
        ensures shelf { AreOnShelf self.now from.now.set (of_reference (reference_at from.now.file.pool class member)) → OnOk result (steps.new ≤ steps.old + 2) }
    {
        match reference_at(&from.file().parts().pool, class, member) {
            Some(method) => match self.method_from(of_interface, from, &method, steps) {
                Ok(method) => Ok(Resolved::Method(method)),
                Err(fault) => Err(fault),
            },
            None => Ok(Resolved::Other),
        }
    }

    /// What an entry of the constant pool of a class stands for.
    #[tactic(auto, unfolding(crate::specs::Resolve::resolve_with, crate::specs::Met::met))]
    fn entry_from<L: Ledger>(
        &self,
        from: &Class,
        index: u16,
        steps: &mut Steps<L>,
    ) -> Result<Resolved, LoadFault>
        requires { from.now.set < length self.now.files }
        ensures answer { AnswersUnless LoadFault.OutOfMemory result (resolve_with (class_in self.now.files from.now.set) from.now index) }
        ensures loaded { IfOk result (λ found. HasLoaded self.now.files found) }
        ensures shelf { AreOnShelf self.now from.now.set (met from.now index) → OnOk result (steps.new ≤ steps.old + 2) }
    {
        let pool = &from.file().parts().pool;
        match entry(pool, index) {
            Some(Item::Class(name)) => self.class_entry(from, text(pool, *name), steps),
            Some(Item::Fieldref(class, member)) => {
                self.field_entry(from, *class, *member, steps)
            }
            Some(Item::Methodref(class, member)) => {
                self.method_entry(false, from, *class, *member, steps)
            }
            Some(Item::InterfaceMethodref(class, member)) => {
                self.method_entry(true, from, *class, *member, steps)
            }
            Some(Item::Integer(n)) => Ok(Resolved::Int(*n)),
            Some(Item::Long(n)) => Ok(Resolved::Long(*n)),
            Some(Item::Str(units)) => text_entry(text(pool, *units)),
            _ => Ok(Resolved::Other),
        }
    }

    /// What the entry of an index of the constant pool of a class stands for, in the class's own set (JVM Specification 5.4.3):
    /// `Other` where no entry stands there.
    ///
    /// # Errors
    ///
    /// Of a class, and of the class of an array's elements: the first fault of its load; then `Link(Access)` where it is not
    /// accessible. `NoClass` where the name of an array class is no descriptor. Of a field or a method: these faults of the class that its
    /// reference names; then `Link` with `NoField`, `NoMethod` or `Change`; then `Link(Access)` where it is not accessible.
    pub fn resolve<L: Ledger>(
        &self,
        class: &Shared<Class>,
        index: u16,
        steps: &mut Steps<L>,
    ) -> Result<Resolved, LoadFault>
        requires { IsLoaded self.now.files class.now }
        ensures answer { AnswersUnless LoadFault.OutOfMemory result (resolve self.now.files class.now index) }
        // The classes in it are as the calls want them that are handed a class.
        ensures loaded { IfOk result (λ found. HasLoaded self.now.files found) }
        // It costs at most two steps where each class that it loads stands on the shelf.
        ensures shelf { AreOnShelf self.now class.now.set (met class.now index) → OnOk result (steps.new ≤ steps.old + 2) }
    {
        self.entry_from(class.get(), index, steps)
    }
}
