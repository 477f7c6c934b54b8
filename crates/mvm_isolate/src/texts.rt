//! Interned texts (JVM Specification 5.1).

ghost use Rattle.std.specs.Prelude.{◌≡◌, ◌<◌, ◌^◌, ℕ, suc, length, None, IfOk, IfSome, IsOk, OnOk, OnErr};
ghost use Rattle.mvm_base.specs.Answers.{GivesUnless};
ghost use Rattle.mvm_heap.specs.Heap.{interned};
ghost use Rattle.mvm_isolate.specs.Interning.{MayIntern};
ghost use Rattle.mvm_isolate.specs.Isolate.{interned_text};
ghost use Rattle.mvm_isolate.specs.Numbered.{named};
ghost use Rattle.mvm_isolate.specs.Sound.{Grows};

use crate::isolate::Isolate;
use crate::objects::made_or;
use crate::stop::Stop;
use mvm_base::OutOfMemory;

impl Isolate {
    /// The interned text of these units, if there is one (JVM Specification 5.1).
    #[tactic(auto, unfolding(crate::specs::Numbered::named), using(crate::proofs::Interned::unclassed_interned, mvm_native::proofs::Unclassed::unclassed_length))]
    pub fn interned(&self, units: &[u16]) -> Option<u32>
        ensures value { result ≡ interned (named self.now).heap.objects (named self.now).heap.texts units.now }
        ensures there { IfSome result (λ object. object < length (named self.now).heap.objects) }
    {
        self.env.heap.interned(units)
    }

    /// Takes the machine memory for so many texts, so that interning them wants none.
    ///
    /// # Errors
    ///
    /// `OutOfMemory` alone.
    pub fn reserve_texts(&mut self, count: u32) -> Result<(), OutOfMemory>
        ensures ok { OnOk result (MayIntern self.new count) }
        ensures same { named self.new ≡ named self.old }
        ensures links { self.new.env.links ≡ self.old.env.links }
        ensures grows { Grows self.old self.new }
    {
        let left = self.env.heap.left();
        self.env.heap.reserve(count, count, left)
    }

    /// A text of units that are not interned yet.
    fn new_interned(&mut self, units: &[u16]) -> Result<u32, Stop>
        requires short { length units.now < 2 ^ 32 }
        requires none { interned self.old.env.heap.state.objects self.old.env.heap.state.texts units.now ≡ None }
        ensures does { GivesUnless Stop.OutOfMemory result (interned_text units.now (named self.old)) (named self.new) }
        ensures there { IfOk result (λ object. object < length (named self.new).heap.objects) }
        ensures within { MayIntern self.old 1 → IsOk (interned_text units.now (named self.old)) → IsOk result }
        ensures room { (count : ℕ) → MayIntern self.old (suc count) → OnOk result (MayIntern self.new count) }
        ensures err { OnErr result (named self.new ≡ named self.old) }
        ensures links { self.new.env.links ≡ self.old.env.links }
        ensures grows { Grows self.old self.new }
    {
        made_or(self.env.heap.intern(units))
    }

    /// The one interned text of these units (JVM Specification 5.1).
    ///
    /// # Errors
    ///
    /// It throws `OutOfMemoryError` where words of the heap are missing.
    #[tactic(auto, using(crate::proofs::Interned::may_fewer, crate::proofs::Keeping::grows_same))]
    pub fn interned_text(&mut self, units: &[u16]) -> Result<u32, Stop>
        requires { length units.now < 2 ^ 32 }
        ensures does { GivesUnless Stop.OutOfMemory result (interned_text units.now (named self.old)) (named self.new) }
        ensures there { IfOk result (λ object. object < length (named self.new).heap.objects) }
        // Where memory was taken before, it wants none,
        ensures within { MayIntern self.old 1 → IsOk (interned_text units.now (named self.old)) → IsOk result }
        // and takes that of one text at most.
        ensures room { (count : ℕ) → MayIntern self.old (suc count) → OnOk result (MayIntern self.new count) }
        ensures err { OnErr result (named self.new ≡ named self.old) }
        ensures links { self.new.env.links ≡ self.old.env.links }
        ensures grows { Grows self.old self.new }
    {
        match self.env.heap.interned(units) {
            Some(object) => Ok(object),
            None => self.new_interned(units),
        }
    }
}
