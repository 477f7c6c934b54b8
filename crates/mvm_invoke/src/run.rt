//! The method that a thread other than the first one runs (Java SE 8 API, java.lang.Thread).

ghost use Rattle.std.specs.Prelude.{◌≡◌, IfOk, IfErr};
ghost use Rattle.mvm_base.specs.Answers.{AnswersUnless, Fails};
ghost use Rattle.mvm_isolate.specs.Numbered.{look_of, named};
ghost use Rattle.mvm_invoke.specs.Calls.{run_selected, thread_run};
ghost use Rattle.mvm_invoke.specs.Found.{HasMember};

use crate::receivers::{shared, virtual_selected};
use mvm_base::Name;
use mvm_isolate::{Isolate, Stop};
use mvm_native::Thrown;
use mvm_select::find_method;
use mvm_set::MethodAt;

/// `Thread.run`.
#[tactic(auto, unfolding(crate::specs::Calls::thread_run))]
fn thread_run(isolate: &Isolate) -> Result<MethodAt, Stop>
    ensures { AnswersUnless Stop.OutOfMemory result (thread_run (look_of isolate.now)) }
{
    let name = Name::from_ascii(isolate.alloc(), "run")?;
    let desc = Name::from_ascii(isolate.alloc(), "()V")?;
    let class = shared(isolate.class(isolate.thread_class()))?;
    match find_method(class.get(), &name, &desc) {
        Ok(found) => Ok(MethodAt { class, found }),
        Err(_) => Err(Stop::Throw(Thrown::NoSuchMethodError)),
    }
}

/// The method run that is selected in the class of a thread's object.
///
/// # Errors
///
/// A `NoSuchMethodError`, what is thrown where no method is selected, a `VerifyError` where there is no such object.
#[tactic(auto, unfolding(crate::specs::Calls::run_selected))]
pub fn run_selected(isolate: &Isolate, object: u32) -> Result<MethodAt, Stop>
    ensures ok { IfOk result (λ run. HasMember run (run_selected (look_of isolate.now) object (named isolate.now))) }
    ensures err { IfErr result (λ stop. Fails Stop.OutOfMemory stop (run_selected (look_of isolate.now) object (named isolate.now))) }
{
    let run = thread_run(isolate)?;
    virtual_selected(isolate, &run, object)
}
