ghost use Rattle.std.specs.Prelude.{◌≡◌, ◌++◌, ◌∷◌, [], ◌+◌, ◌<◌, ◌≤◌, ℕ, List as Items, true, false, length, None, IfOk, OnOk};
ghost use Rattle.mvm_base.specs.Answers.{AnswersUnless};
ghost use Rattle.mvm_set.specs.Over.{class_over};
ghost use Rattle.mvm_table.specs.Files.{files_in};
ghost use Rattle.mvm_table.specs.Load.{is_in, is_sort, may_stand, found};
ghost use Rattle.mvm_table.specs.Loads.{class_in, IsLoaded};
ghost use Rattle.mvm_table.specs.NameMap.{Puts};
ghost use Rattle.mvm_table.specs.declared.begun.Super.TheVariants.{New};
ghost use Rattle.mvm_table.specs.Contents.{is_shelved};
ghost use Rattle.mvm_table.specs.Cost.{cost, costs, to_read, walk_names, HasSupers, AreAmong, left, Reads};
ghost use Rattle.mvm_table.specs.Begun.{began, listed, is_interface_place, taken, AreLoaded, IsLoading, Goes, Known, Closes, to_do};

use crate::begun::{Begun, Super, with_class};
use crate::fault::LoadFault;
use crate::name_map::NameMap;
use crate::table::Table;
use mvm_base::{List, Name, OutOfMemory, Steps};
use mvm_classfile::ClassFile;
use mvm_set::{Class, LinkFault, Shared, is_interface, is_reachable};
use std::alloc::Global;
use std::sync::ledger::Ledger;

/// The names that were met in a load: each is begun, or its class is there.
type Met = NameMap<Option<Shared<Class>>>;

/// Whether a file defines an interface, where one is wanted, and else a class.
fn is_sort(as_interface: bool, file: &ClassFile) -> bool
    ensures { result ≡ is_sort as_interface file.now }
{
    if as_interface {
        is_interface(file)
    } else {
        !is_interface(file)
    }
}

/// Whether a class of this file may stand above the class of a name.
fn may_stand(as_interface: bool, name: &Name, file: &ClassFile) -> Result<(), LoadFault>
    ensures { result ≡ may_stand as_interface name.now file.now }
{
    if is_sort(as_interface, file) {
        if is_reachable(name, file) {
            Ok(())
        } else {
            Err(LoadFault::Link(LinkFault::Access))
        }
    } else {
        Err(LoadFault::Super)
    }
}

/// Whether an interface is wanted at a place among the indices of supers.
#[tactic(auto, using(crate::proofs::Supers::place_sort))]
fn is_interface_place(next: usize) -> bool
    ensures { result ≡ is_interface_place next }
{
    next != 0
}

/// Whether a class may be the super that this one waits for.
fn may_be_super(top: &Begun, class: &Shared<Class>) -> Result<(), LoadFault>
    ensures { result ≡ may_stand (is_interface_place top.now.next) top.now.name class.now.file }
{
    may_stand(is_interface_place(top.next), &top.name, class.get().file())
}

/// Puts a class back behind the others that are begun, with one super more.
fn put_back(
    begun: &mut Vec<Begun>,
    top: Begun,
    class: Option<Shared<Class>>,
) -> Result<(), OutOfMemory>
    requires { top.next < usize.MAX }
    ensures { OnOk result (begun.new.items ≡ begun.old.items ++ taken top class ∷ []) }
{
    begun.push(top.take(class)?)?;
    Ok(())
}

/// Puts a class back behind the others that are begun, and behind it a super that it waits for.
fn descend(
    alloc: Global,
    begun: &mut Vec<Begun>,
    met: &mut Met,
    top: Begun,
    new: Begun,
) -> Result<(), OutOfMemory>
    ensures begun { OnOk result (begun.new.items ≡ (begun.old.items ++ top ∷ []) ++ new ∷ []) }
    ensures met { OnOk result (Puts met.old new.name None met.new) }
{
    met.put(alloc, &new.name, None)?;
    begun.push(top)?;
    begun.push(new)?;
    Ok(())
}

impl Table {
    /// What is known of a super, by its name.
    fn look(&self, set: u32, name: &Name, met: &Met) -> Result<Super, OutOfMemory>
        requires { AreLoaded set (files_in set self.now.files) met.now }
        ensures known { IfOk result (λ found. Known set (files_in set self.now.files) met.now name.now found) }
        ensures new { IfOk result (λ found. found ≡ New → is_shelved self.now set name.now ≡ false) }
    {
        if let Some(class) = self.on_shelf(set, name) {
            return Ok(Super::Ready(class.share()?));
        }
        match met.get(name) {
            Some(Some(class)) => Ok(Super::Ready(class.share()?)),
            Some(None) => Ok(Super::Waiting),
            None => Ok(Super::New),
        }
    }

    /// The class of a name, of which nothing is done but to find its file.
    fn begin<L: Ledger>(
        &self,
        set: u32,
        name: &Name,
        steps: &mut Steps<L>,
    ) -> Result<Begun, LoadFault>
        ensures answer { AnswersUnless LoadFault.OutOfMemory result (began name.now (found (files_in set self.now.files) name.now)) }
        ensures steps { OnOk result (steps.new ≡ steps.old + cost (files_in set self.now.files) name.now) }
        ensures most { steps.new ≤ steps.old + cost (files_in set self.now.files) name.now }
    {
        let file = self.find(set, name, steps)?;
        Ok(Begun::new(self.alloc, name.copy()?, file))
    }

    /// The class of a file over its supers.
    fn finish(
        &self,
        set: u32,
        file: Shared<ClassFile>,
        above: Option<Shared<Class>>,
        across: List<Shared<Class>>,
    ) -> Result<Shared<Class>, OutOfMemory>
        ensures { IfOk result (λ class. class ≡ class_over set file (listed above) across) }
    {
        let above = with_class(List::new(self.alloc), above)?;
        let class = Class::over(self.alloc, set, file, above.as_slice(), across.as_slice())?;
        Ok(Shared::new(self.alloc, class)?)
    }

    /// A class of which all supers are there: the answer, where no other waits for it, and else finished for those that do.
    fn close(
        &self,
        set: u32,
        begun: &Vec<Begun>,
        met: &mut Met,
        top: Begun,
    ) -> Result<Option<Shared<Class>>, OutOfMemory>
        ensures { IfOk result (λ found. Closes begun.now.items top.name (class_over set top.file (listed top.above) top.across) met.old met.new found) }
    {
        let Begun {
            name,
            file,
            above,
            across,
            next: _,
        } = top;
        let class = self.finish(set, file, above, across)?;
        if begun.is_empty() {
            return Ok(Some(class));
        }
        met.put(self.alloc, &name, Some(class))?;
        Ok(None)
    }

    /// One step of a load: one super of the last class that is begun, or its end.
    fn step<L: Ledger>(
        &self,
        set: u32,
        root: &Name,
        begun: &mut Vec<Begun>,
        met: &mut Met,
        top: Begun,
        steps: &mut Steps<L>,
    ) -> Result<Option<Shared<Class>>, LoadFault>
        requires { IsLoading set (files_in set self.now.files) root.now (begun.old.items ++ top ∷ []) met.old }
        ensures goes { Goes set (files_in set self.now.files) root.now (to_do (files_in set self.now.files) (begun.old.items ++ top ∷ []) met.old) result begun.new.items met.new }
        ensures reads { (names : Items (Items ℕ)) → HasSupers (files_in set self.now.files) names → AreAmong met.old names → Reads (to_read self.now set) names result met.old steps.old met.new steps.new }
    {
        match top.next_super() {
            None => Ok(self.close(set, begun, met, top)?),
            Some(None) => {
                put_back(begun, top, None)?;
                Ok(None)
            }
            Some(Some(name)) => match self.look(set, name, met)? {
                Super::Ready(class) => match may_be_super(&top, &class) {
                    Ok(()) => {
                        put_back(begun, top, Some(class))?;
                        Ok(None)
                    }
                    Err(fault) => Err(fault),
                },
                Super::Waiting => Err(LoadFault::Circular),
                Super::New => match self.begin(set, name, steps) {
                    Ok(new) => {
                        descend(self.alloc, begun, met, top, new)?;
                        Ok(None)
                    }
                    Err(fault) => Err(fault),
                },
            },
        }
    }

    /// The rest of a load that is under way.
    fn run<L: Ledger>(
        &self,
        set: u32,
        root: &Name,
        mut begun: Vec<Begun>,
        mut met: Met,
        steps: &mut Steps<L>,
    ) -> Result<Shared<Class>, LoadFault>
        requires { IsLoading set (files_in set self.now.files) root.now begun.items met }
        ensures answer { AnswersUnless LoadFault.OutOfMemory result (class_in self.now.files set root.now) }
        ensures reads { (names : Items (Items ℕ)) → HasSupers (files_in set self.now.files) names → AreAmong met names → steps.new ≤ steps.old + left (to_read self.now set) met names }
    {
        while let Some(top) = begun.pop() {
            match self.step(set, root, &mut begun, &mut met, top, steps) {
                Ok(Some(class)) => return Ok(class),
                Ok(None) => {}
                Err(fault) => return Err(fault),
            }
        }
        Err(LoadFault::OutOfMemory)
    }

    /// The class of a name in a set, which does not stand on the shelf.
    fn load<L: Ledger>(
        &self,
        set: u32,
        name: &Name,
        steps: &mut Steps<L>,
    ) -> Result<Shared<Class>, LoadFault>
        ensures answer { AnswersUnless LoadFault.OutOfMemory result (class_in self.now.files set name.now) }
        ensures reads { is_shelved self.now set name.now ≡ false → (names : Items (Items ℕ)) → HasSupers (files_in set self.now.files) names → is_in names name.now ≡ true → steps.new ≤ steps.old + costs (to_read self.now set) names }
    {
        let new = match self.begin(set, name, steps) {
            Ok(new) => new,
            Err(fault) => return Err(fault),
        };
        let mut met = NameMap::new(self.alloc);
        met.put(self.alloc, name, None)?;
        let mut begun = Vec::new(self.alloc);
        begun.push(new)?;
        self.run(set, name, begun, met, steps)
    }

    /// The class of a name in a set (JVM Specification 5.3): a built-in class, or the one of the set's file, with all that it inherits
    /// from.
    ///
    /// # Errors
    ///
    /// The first fault of the load.
    pub fn class<L: Ledger>(
        &self,
        set: u32,
        name: &Name,
        steps: &mut Steps<L>,
    ) -> Result<Shared<Class>, LoadFault>
        // The set is one of the table's.
        requires { set < length self.now.files }
        ensures loads { AnswersUnless LoadFault.OutOfMemory result (class_in self.now.files set name.now) }
        // It is as the calls want it that are handed a class.
        ensures loaded { IfOk result (λ class. IsLoaded self.now.files class) }
        // Any other costs at most the bytes of its own file and of the files of all that it inherits from and that does not stand there,
        // each counted once.
        ensures reads { is_shelved self.now set name.now ≡ false → IfOk result (λ class. steps.new ≤ steps.old + costs (to_read self.now set) (walk_names class)) }
        // A class that stands on the shelf costs one step.
        ensures shelf { is_shelved self.now set name.now ≡ true → OnOk result (steps.new ≡ steps.old + 1) }
    {
        if let Some(class) = self.on_shelf(set, name) {
            let class = class.share()?;
            steps.rise(1);
            return Ok(class);
        }
        self.load(set, name, steps)
    }
}
