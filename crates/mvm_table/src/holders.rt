ghost use Rattle.std.specs.Prelude.{◌≡◌, ◌<◌, length, ◌+◌, ◌≤◌, true, Ok, codes, IfOk, OnOk};
ghost use Rattle.mvm_base.specs.Answers.{AnswersUnless};
ghost use Rattle.mvm_base.specs.Descriptor.{field_of};
ghost use Rattle.mvm_set.specs.Names.{own_name};
ghost use Rattle.mvm_table.specs.Contents.{is_shelved};
ghost use Rattle.mvm_table.specs.Met.{of_base, of_shape, of_holder, AreOnShelf};
ghost use Rattle.mvm_table.specs.Loads.{class_in, IsLoaded};
ghost use Rattle.mvm_table.specs.Holders.{is_reachable_by, reached, class_resolved, or_no_class, element_resolved, array_resolved, holder_resolved};

use crate::fault::LoadFault;
use crate::find::is_array_name;
use crate::table::Table;
use mvm_base::{Base, DescFault, FieldShape, Name, Steps, parse_field};
use mvm_classfile::ClassFile;
use mvm_set::{Class, LinkFault, Shared, is_reachable, own_name};
use std::alloc::Global;
use std::sync::ledger::Ledger;

/// The most units that the name of an array class may have to be read: 4,294,967,295. A class file has fewer bytes.
const MOST_UNITS: usize = 0xFFFF_FFFF;

/// Whether a file defines a class that is accessible from that of another file (JVM Specification 5.4.4).
fn is_reachable_by(from: &ClassFile, file: &ClassFile) -> bool
    ensures { result ≡ is_reachable_by (own_name from.now) file.now }
{
    match own_name(from) {
        Some(name) => is_reachable(name, file),
        None => false,
    }
}

/// A class that was loaded, where it is accessible from another (JVM Specification 5.4.4).
fn reached(from: &Class, class: Shared<Class>) -> Result<Shared<Class>, LoadFault>
    ensures exact { result ≡ reached from.now class }
    ensures same { IfOk result (λ kept. kept ≡ class) }
{
    if is_reachable_by(from.file(), class.get().file()) {
        Ok(class)
    } else {
        Err(LoadFault::Link(LinkFault::Access))
    }
}

/// The shape that the name of an array class spells (JVM Specification 4.4.1).
fn shape_of(alloc: Global, name: &Name) -> Result<FieldShape, LoadFault>
    ensures answer { AnswersUnless LoadFault.OutOfMemory result (or_no_class (field_of name.now)) }
    ensures spelled { IfOk result (λ shape. field_of name.now ≡ Ok shape) }
{
    if name.units().len() > MOST_UNITS {
        return Err(LoadFault::OutOfMemory);
    }
    match parse_field(alloc, name) {
        Ok(shape) => Ok(shape),
        Err(DescFault::OutOfMemory) => Err(LoadFault::OutOfMemory),
        Err(_) => Err(LoadFault::NoClass),
    }
}

impl Table {
    /// The class of a name, as another class resolves it (JVM Specification 5.4.3.1).
    #[tactic(auto, unfolding(crate::specs::Holders::class_resolved))]
    pub(crate) fn class_from<L: Ledger>(
        &self,
        from: &Class,
        name: &Name,
        steps: &mut Steps<L>,
    ) -> Result<Shared<Class>, LoadFault>
        requires { from.now.set < length self.now.files }
        ensures answer { AnswersUnless LoadFault.OutOfMemory result (class_resolved (class_in self.now.files from.now.set) from.now name.now) }
        ensures loaded { IfOk result (λ class. IsLoaded self.now.files class) }
        ensures shelf { is_shelved self.now from.now.set name.now ≡ true → OnOk result (steps.new ≡ steps.old + 1) }
    {
        match self.class(from.set(), name, steps) {
            Ok(class) => reached(from, class),
            Err(fault) => Err(fault),
        }
    }

    /// Loads the class of an array's elements, and asks whether it is accessible.
    fn element_from<L: Ledger>(
        &self,
        from: &Class,
        base: &Base,
        steps: &mut Steps<L>,
    ) -> Result<(), LoadFault>
        requires { from.now.set < length self.now.files }
        ensures answer { AnswersUnless LoadFault.OutOfMemory result (element_resolved (class_in self.now.files from.now.set) from.now base.now) }
        ensures shelf { AreOnShelf self.now from.now.set (of_base base.now) → OnOk result (steps.new ≤ steps.old + 1) }
    {
        match base {
            Base::Object(name) => match self.class_from(from, name, steps) {
                Ok(_) => Ok(()),
                Err(fault) => Err(fault),
            },
            _ => Ok(()),
        }
    }

    /// The shape of the array class of a name, as a class resolves it (JVM Specification 5.4.3.1).
    #[tactic(auto, unfolding(crate::specs::Holders::array_resolved))]
    pub(crate) fn array_from<L: Ledger>(
        &self,
        from: &Class,
        name: &Name,
        steps: &mut Steps<L>,
    ) -> Result<FieldShape, LoadFault>
        requires { from.now.set < length self.now.files }
        ensures answer { AnswersUnless LoadFault.OutOfMemory result (array_resolved (class_in self.now.files from.now.set) from.now name.now) }
        ensures shelf { AreOnShelf self.now from.now.set (of_shape (field_of name.now)) → OnOk result (steps.new ≤ steps.old + 1) }
    {
        match shape_of(self.alloc, name) {
            Ok(shape) => match self.element_from(from, &shape.base, steps) {
                Ok(()) => Ok(shape),
                Err(fault) => Err(fault),
            },
            Err(fault) => Err(fault),
        }
    }

    /// The class `java/lang/Object`, which is that of an array's members (JVM Specification 4.10.1.2).
    fn object<L: Ledger>(&self, set: u32, steps: &mut Steps<L>) -> Result<Shared<Class>, LoadFault>
        requires { set < length self.now.files }
        ensures answer { AnswersUnless LoadFault.OutOfMemory result (class_in self.now.files set (codes "java/lang/Object")) }
        ensures loaded { IfOk result (λ class. IsLoaded self.now.files class) }
        ensures shelf { is_shelved self.now set (codes "java/lang/Object") ≡ true → OnOk result (steps.new ≡ steps.old + 1) }
    {
        let name = Name::from_ascii(self.alloc, "java/lang/Object")?;
        self.class(set, &name, steps)
    }

    /// The class that a member reference names, as a class resolves it; of an array class `java/lang/Object`.
    #[tactic(auto, unfolding(crate::specs::Holders::holder_resolved, crate::specs::Met::of_holder))]
    pub(crate) fn holder_from<L: Ledger>(
        &self,
        from: &Class,
        name: &Name,
        steps: &mut Steps<L>,
    ) -> Result<Shared<Class>, LoadFault>
        requires { from.now.set < length self.now.files }
        ensures answer { AnswersUnless LoadFault.OutOfMemory result (holder_resolved (class_in self.now.files from.now.set) from.now name.now) }
        ensures loaded { IfOk result (λ class. IsLoaded self.now.files class) }
        ensures shelf { AreOnShelf self.now from.now.set (of_holder name.now) → OnOk result (steps.new ≤ steps.old + 2) }
    {
        if !is_array_name(name) {
            return self.class_from(from, name, steps);
        }
        match self.array_from(from, name, steps) {
            Ok(_) => self.object(from.set(), steps),
            Err(fault) => Err(fault),
        }
    }
}
