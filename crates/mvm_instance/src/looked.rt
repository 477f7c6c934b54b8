//! Classes by number and by name, as an isolate looks them up.

ghost use Rattle.std.specs.Prelude.{◌≡◌, ◌<◌, length, Ok};
ghost use Rattle.std.specs.List.{list_any};
ghost use Rattle.mvm_base.specs.Answers.{AnswersUnless};
ghost use Rattle.mvm_isolate.specs.Look.{extends, is_sub, look_in};
ghost use Rattle.mvm_isolate.specs.Numbered.{look_of, name_at, IsClass};
ghost use Rattle.mvm_set.specs.Names.{is_called};

use mvm_base::{Name, Steps};
use mvm_isolate::{Isolate, Stop};
use mvm_set::{Class, Own, Shared, is_called, is_subclass};
use mvm_table::{LoadFault, Table};
use std::sync::ledger::Ledger;

/// The class of a number.
#[tactic(auto, using(crate::proofs::Sets::found))]
fn class_at(isolate: &Isolate, mirror: u32) -> &Class
    requires { IsClass isolate.now mirror }
    ensures { (look_of isolate.now).class (name_at isolate.now mirror) ≡ Ok result.now }
{
    isolate.class(mirror).get()
}

/// Whether the class of a number is that of a name, or inherits from it.
#[tactic(auto, unfolding(mvm_isolate::specs::Look::is_sub))]
pub(crate) fn is_sub_at(isolate: &Isolate, mirror: u32, target: &Name) -> bool
    requires { IsClass isolate.now mirror }
    ensures { result ≡ is_sub (look_of isolate.now) (name_at isolate.now mirror) target.now }
{
    is_subclass(class_at(isolate, mirror), target)
}

/// Whether one of these defines the class of a name.
fn is_in_line(name: &Name, line: &[Shared<Own>]) -> bool
    ensures { result ≡ list_any (λ own. is_called name.now own.file) line.now }
{
    for i in 0..line.len() {
        if is_called(name, line[i].get().file()) {
            return true;
        }
    }
    false
}

/// Whether the class of a number is that of a name, or has it as a superclass.
#[tactic(auto, unfolding(mvm_isolate::specs::Look::extends))]
pub(crate) fn extends_at(isolate: &Isolate, mirror: u32, target: &Name) -> bool
    requires { IsClass isolate.now mirror }
    ensures { result ≡ extends (look_of isolate.now) (name_at isolate.now mirror) target.now }
{
    is_in_line(target, class_at(isolate, mirror).line())
}

/// The set of the isolate, which is one of the table's: that of any of its classes.
fn set_of(isolate: &Isolate) -> u32
    ensures set { result ≡ isolate.now.env.launch.set }
    ensures there { result < length isolate.now.files }
{
    isolate.class(isolate.thread_class()).get().set()
}

/// The class of a name.
#[tactic(auto, unfolding(mvm_isolate::specs::Look::look_in))]
fn class_named<L: Ledger>(
    isolate: &Isolate,
    table: &Table,
    name: &Name,
    steps: &mut Steps<L>,
) -> Result<Shared<Class>, LoadFault>
    requires { table.now.files ≡ isolate.now.files }
    ensures { AnswersUnless LoadFault.OutOfMemory result ((look_in isolate.now.files isolate.now.env.launch.set).class name.now) }
{
    table.class(set_of(isolate), name, steps)
}

/// Whether the class of the one name is that of the other, or inherits from it; false where it can't be loaded.
#[tactic(auto, unfolding(mvm_isolate::specs::Look::is_sub))]
pub(crate) fn is_sub<L: Ledger>(
    isolate: &Isolate,
    table: &Table,
    name: &Name,
    target: &Name,
    steps: &mut Steps<L>,
) -> Result<bool, Stop>
    requires { table.now.files ≡ isolate.now.files }
    ensures { AnswersUnless Stop.OutOfMemory result (Ok (is_sub (look_of isolate.now) name.now target.now)) }
{
    match class_named(isolate, table, name, steps) {
        Ok(class) => Ok(is_subclass(class.get(), target)),
        Err(LoadFault::OutOfMemory) => Err(Stop::OutOfMemory),
        Err(_) => Ok(false),
    }
}
