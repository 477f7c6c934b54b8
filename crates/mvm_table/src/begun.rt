ghost use Rattle.std.specs.Prelude.{◌≡◌, ◌++◌, ◌<◌, IfOk, IfSome};
ghost use Rattle.std.specs.Option.{option_copied, option_map};
ghost use Rattle.mvm_table.specs.Begun.{super_at, taken, begun_of, listed};

use mvm_base::{List, Name, OutOfMemory};
use mvm_classfile::{ClassFile, Parts};
use mvm_layout::pool::class_name;
use mvm_set::{Class, Shared};
use std::alloc::Global;

/// A class that is begun: its file, and its supers that were loaded so far.
#[derive(Drop)]
pub(crate) struct Begun {
    pub(crate) name: Name,
    pub(crate) file: Shared<ClassFile>,
    /// The superclass, once it is loaded.
    pub(crate) above: Option<Shared<Class>>,
    /// The superinterfaces that are loaded, in their order.
    pub(crate) across: List<Shared<Class>>,
    /// How many of the indices of its supers were looked at: first that of the superclass, then those of the superinterfaces.
    pub(crate) next: usize,
}

/// A super, by its name.
#[derive(Drop)]
pub(crate) enum Super {
    /// Its class is there: it stands on the shelf, or was finished in this load.
    Ready(Shared<Class>),
    /// It is begun, and waits for its own supers.
    Waiting,
    /// It was not met in this load.
    New,
}

/// What the index of a super names that stands at this place. `None` is behind the last of them.
fn super_at(file: &ClassFile, next: usize) -> Option<Option<&Name>>
    ensures value { option_map option_copied result ≡ super_at file.now next }
    ensures few { IfSome result (λ found. next < usize.MAX) }
{
    let parts = file.parts();
    if next == 0 {
        return Some(class_name(&parts.pool, parts.super_class));
    }
    let interfaces = parts.interfaces.as_slice();
    // There is a number behind the last place, and so behind this one.
    let _behind = interfaces.len() + 1;
    match interfaces.get(next - 1) {
        Some(index) => Some(class_name(&parts.pool, *index)),
        None => None,
    }
}

impl Begun {
    /// The class of a file of which nothing is done.
    pub(crate) fn new(alloc: Global, name: Name, file: Shared<ClassFile>) -> Begun
        ensures { result ≡ begun_of name file }
    {
        Begun {
            name,
            file,
            above: None,
            across: List::new(alloc),
            next: 0,
        }
    }

    /// The next super, by its name, or that its index names none. `None` is behind the last of them.
    pub(crate) fn next_super(&self) -> Option<Option<&Name>>
        ensures value { option_map option_copied result ≡ super_at self.now.file self.now.next }
        ensures few { IfSome result (λ found. self.now.next < usize.MAX) }
    {
        super_at(self.file.get(), self.next)
    }

    /// One super more, or none where its index names none.
    #[tactic(auto, using(crate::proofs::Supers::taken_first, crate::proofs::Supers::taken_later))]
    pub(crate) fn take(self, class: Option<Shared<Class>>) -> Result<Begun, OutOfMemory>
        requires { self.next < usize.MAX }
        ensures { IfOk result (λ new. new ≡ taken self class) }
    {
        let Begun {
            name,
            file,
            above,
            across,
            next,
        } = self;
        if next == 0 {
            return Ok(Begun {
                name,
                file,
                above: class,
                across,
                next: 1,
            });
        }
        let across = with_class(across, class)?;
        Ok(Begun {
            name,
            file,
            above,
            across,
            next: next + 1,
        })
    }
}

/// These classes, and this one at their end if there is one.
pub(crate) fn with_class(
    mut classes: List<Shared<Class>>,
    class: Option<Shared<Class>>,
) -> Result<List<Shared<Class>>, OutOfMemory>
    ensures { IfOk result (λ new. new ≡ classes ++ listed class) }
{
    if let Some(class) = class {
        classes.push(class)?;
    }
    Ok(classes)
}
