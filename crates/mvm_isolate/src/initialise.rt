ghost use Rattle.std.specs.Prelude.{◌≡◌};
ghost use Rattle.mvm_isolate.specs.Initialise.{failed, finished, in_state};
ghost use Rattle.mvm_isolate.specs.Numbered.{name_at, named, IsClass};
ghost use Rattle.mvm_isolate.specs.Sound.{Grows};
ghost use Rattle.mvm_mirror.specs.declared.state.InitState.TheVariants.{InProgress, NotBegun};

use crate::isolate::Isolate;
use mvm_mirror::InitState;

impl Isolate {
    /// How far the initialisation of the class of a number is (JVM Specification 5.5).
    pub fn state(&self, mirror: u32) -> InitState
        requires { IsClass self.now mirror }
        ensures { result ≡ (named self.now).classes.states (name_at self.now mirror) }
    {
        let _class = self.mirrors.class(mirror);
        self.mirrors.state(mirror)
    }

    /// The thread of a number initialises the class of a number from now on (JVM Specification 5.5, step 6). It takes no memory.
    pub fn begin(&mut self, mirror: u32, thread: u32)
        requires there { IsClass self.old mirror }
        requires state { (named self.old).classes.states (name_at self.old mirror) ≡ NotBegun }
        ensures named { named self.new ≡ in_state (name_at self.old mirror) (InProgress thread) (named self.old) }
        ensures env { self.new.env ≡ self.old.env }
        ensures grows { Grows self.old self.new }
    {
        let _class = self.mirrors.class(mirror);
        let _begin = self.mirrors.begin(mirror, thread);
    }

    /// The class of a number is initialised from now on (JVM Specification 5.5, step 10). It takes no memory.
    pub fn finish(&mut self, mirror: u32)
        requires { IsClass self.old mirror }
        ensures named { named self.new ≡ finished (name_at self.old mirror) (named self.old) }
        ensures links { self.new.env.links ≡ self.old.env.links }
        ensures grows { Grows self.old self.new }
    {
        let _class = self.mirrors.class(mirror);
        self.mirrors.finish(mirror);
    }

    /// The initialisation of the class of a number failed (JVM Specification 5.5, steps 7 and 12). It takes no memory.
    pub fn fail(&mut self, mirror: u32)
        requires { IsClass self.old mirror }
        ensures named { named self.new ≡ failed (name_at self.old mirror) (named self.old) }
        ensures links { self.new.env.links ≡ self.old.env.links }
        ensures grows { Grows self.old self.new }
    {
        let _class = self.mirrors.class(mirror);
        self.mirrors.fail(mirror);
    }
}
