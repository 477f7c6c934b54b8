ghost use Rattle.std.specs.Prelude.{◌≡◌, ◌<◌, ◌^◌, [], ◌∷◌, length, IfOk};
ghost use Rattle.mvm_set.specs.ClassOf.{own_walk_name};
ghost use Rattle.mvm_set.specs.Once.{once};
ghost use Rattle.mvm_set.specs.Over.{class_over, itself};

use crate::join::{
    in_front, in_front_of_lines, other_checked, other_walks, own_of, superinterfaces_of,
};
use crate::own::Own;
use crate::shared::Shared;
use mvm_base::{List, OutOfMemory};
use mvm_classfile::ClassFile;
use std::alloc::Global;
use std::marker::Model;

/// How many classes can be counted in a u32: 4,294,967,295.
const MOST_CLASSES: usize = 0xFFFF_FFFF;

/// A class of a set, with all that it inherits from.
#[derive(Debug, Drop)]
pub struct Lineage {
    /// The number of the set.
    pub set: u32,
    /// The file of the class itself.
    pub file: Shared<ClassFile>,
    /// The class and its superclasses, nearest first.
    pub line: List<Shared<Own>>,
    /// The order of field resolution (JVM Specification 5.4.3.2): the class, what its direct superinterfaces have, in their
    /// order, what its superclass has, each class once, at its first place.
    pub walk: List<Shared<Own>>,
    /// The order of verification (JVM Specification 5.4.1): the class, what its superclass has, what its direct superinterfaces
    /// have, in their order, each class once, at its first place.
    pub checked: List<Shared<Own>>,
    /// The superinterfaces in the order in which they are initialised with a class (JVM Specification 5.5, step 7): for each direct
    /// superinterface, in their order, its own superinterfaces by this rule, then itself, each once, at its first place. What the
    /// superclass implements is not among them.
    pub superinterfaces: List<Shared<Own>>,
}

/// A class of a set, of which the places can be counted in a u32.
#[derive(Debug, Drop)]
pub struct Class {
    lineage: Lineage,
}

impl Model for Class {
    ghost use Rattle.mvm_set.specs.declared.class.Lineage.{Lineage as LineageOf};
    ghost use Rattle.mvm_set.specs.Over.{IsClass};

    ghost Value = { LineageOf };

    ghost view = { λ c. c.lineage };

    ghost invariant = { λ c. IsClass c.lineage };
}

impl Class {
    /// The class of a set that a file defines, over the classes of its direct superclass, if it has one, and of its direct
    /// superinterfaces in their order.
    ///
    /// # Errors
    ///
    /// `OutOfMemory` where memory runs out, and where the walk or the superinterfaces would be 2^32 classes.
    #[tactic(auto, using(crate::proofs::Over::class_made))]
    pub fn over(
        alloc: Global,
        set: u32,
        file: Shared<ClassFile>,
        above: &[Shared<Class>],
        across: &[Shared<Class>],
    ) -> Result<Class, OutOfMemory>
        ensures { IfOk result (λ class. class ≡ class_over set file above.now across.now) }
    {
        let others = other_walks(alloc, file.get(), above, across)?;
        let checks = other_checked(alloc, file.get(), above, across)?;
        let superinterfaces = superinterfaces_of(alloc, across)?;
        let own = own_of(alloc, file.share()?, others.as_slice())?;
        let line = in_front_of_lines(alloc, &own, above)?;
        let walk = in_front(&own, others)?;
        let checked = in_front(&own, checks)?;
        if walk.len() > MOST_CLASSES || superinterfaces.len() > MOST_CLASSES {
            return Err(OutOfMemory);
        }
        let lineage = Lineage {
            set,
            file,
            line,
            walk,
            checked,
            superinterfaces,
        };
        Ok(Class { lineage })
    }

    /// The number of its set.
    pub fn set(&self) -> u32
        ensures { result ≡ self.now.set }
    {
        self.lineage.set
    }

    /// The file of the class itself.
    pub fn file(&self) -> &ClassFile
        ensures { result.now ≡ self.now.file }
    {
        self.lineage.file.get()
    }

    /// The class itself, alone: its file with its walk.
    pub(crate) fn itself(&self) -> &[Shared<Own>]
        ensures { result.now ≡ itself self.now ∷ [] }
    {
        &self.lineage.line.as_slice()[..1]
    }

    /// The class and its superclasses, nearest first.
    pub fn line(&self) -> &[Shared<Own>]
        ensures { result.now ≡ self.now.line }
    {
        self.lineage.line.as_slice()
    }

    /// The order of field resolution (JVM Specification 5.4.3.2), fewer than 2^32 classes.
    pub fn walk(&self) -> &[Shared<Own>]
        ensures value { result.now ≡ self.now.walk }
        ensures few { length self.now.walk < 2 ^ 32 }
        // Each name stands there once.
        ensures once { once own_walk_name self.now.walk ≡ self.now.walk }
    {
        self.lineage.walk.as_slice()
    }

    /// The order of verification (JVM Specification 5.4.1).
    pub fn checked(&self) -> &[Shared<Own>]
        ensures value { result.now ≡ self.now.checked }
        // Each name stands there once.
        ensures once { once own_walk_name self.now.checked ≡ self.now.checked }
    {
        self.lineage.checked.as_slice()
    }

    /// The superinterfaces in the order in which they are initialised with a class (JVM Specification 5.5, step 7), fewer than 2^32: for
    /// each direct superinterface, in their order, its own superinterfaces by this rule, then itself. What the superclass implements is
    /// not among them. Of these a class initialises the ones that declare a method that is neither abstract nor static, as
    /// [`Own::declares_concrete_instance_method`] tells; an interface initialises none of them.
    pub fn superinterfaces(&self) -> &[Shared<Own>]
        ensures value { result.now ≡ self.now.superinterfaces }
        ensures few { length self.now.superinterfaces < 2 ^ 32 }
        // Each name stands there once.
        ensures once { once own_walk_name self.now.superinterfaces ≡ self.now.superinterfaces }
    {
        self.lineage.superinterfaces.as_slice()
    }
}
