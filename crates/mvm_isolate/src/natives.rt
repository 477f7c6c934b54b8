//! Calls of native methods (JVM Specification 6.5, under invokevirtual).

ghost use Rattle.std.specs.Prelude.{◌≡◌, OnErr};
ghost use Rattle.mvm_base.specs.Answers.{GivesUnless};
ghost use Rattle.mvm_isolate.specs.Natives.{native_called, out_or};
ghost use Rattle.mvm_isolate.specs.Numbered.{named};
ghost use Rattle.mvm_isolate.specs.Sound.{Grows};

use crate::isolate::Isolate;
use crate::stop::Stop;
use mvm_base::{OutOfMemory, Word};
use mvm_builtin::Native;
use mvm_native::{Out, Thrown, call, fits};

/// What an attempt comes to where a native method answered, or memory ran out.
fn out_or(answer: Result<Out, OutOfMemory>) -> Result<Out, Stop>
    ensures { result ≡ out_or answer }
{
    match answer {
        Ok(out) => Ok(out),
        Err(_) => Err(Stop::OutOfMemory),
    }
}

impl Isolate {
    /// The thread of this number calls from now on.
    fn set_thread(&mut self, thread: u32)
        ensures { self.new ≡ record self.old { env = record self.old.env { thread = thread } } }
    {
        self.env.thread = thread;
    }

    /// What a native method answers the thread that calls, and what it leaves.
    fn native_done(&mut self, native: Native, args: &[Word]) -> Result<Out, Stop>
        ensures does { GivesUnless Stop.OutOfMemory result (native_called self.old.env.launch self.old.env.thread self.old.env.links native args.now (named self.old)) (named self.new) }
        ensures err { OnErr result (named self.new ≡ named self.old) }
        ensures links { self.new.env.links ≡ self.old.env.links }
        ensures grows { Grows self.old self.new }
    {
        let number = native.number();
        if fits(&self.env, number, args) {
            out_or(call(&mut self.env, number, args))
        } else {
            Err(Stop::Throw(Thrown::VerifyError))
        }
    }

    /// What a native method answers a thread, and what it leaves.
    ///
    /// # Errors
    ///
    /// It throws `VerifyError` where the arguments are not what the method takes them for.
    #[tactic(auto, unfolding(crate::specs::Numbered::named), using(crate::proofs::Keeping::grows_same))]
    pub fn native_called(&mut self, thread: u32, native: Native, args: &[Word]) -> Result<Out, Stop>
        ensures does { GivesUnless Stop.OutOfMemory result (native_called self.old.env.launch thread self.old.env.links native args.now (named self.old)) (named self.new) }
        ensures err { OnErr result (named self.new ≡ named self.old) }
        ensures links { self.new.env.links ≡ self.old.env.links }
        ensures grows { Grows self.old self.new }
    {
        self.set_thread(thread);
        self.native_done(native, args)
    }
}
