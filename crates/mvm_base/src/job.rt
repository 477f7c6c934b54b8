ghost use Rattle.std.specs.Prelude.{OnOk, OnErr};

use crate::memory::OutOfMemory;

/// What a worker does to each item that it is given.
pub trait Job<T> {
    /// Which items it may be given.
    ghost may: { Self → T → Type 0 };

    /// What a call that answers `Ok` leaves of an item.
    ghost whole: { Self → T → T → Type 0 };

    /// What a call that is refused leaves of an item.
    ghost refused: { Self → T → T → Type 0 };

    /// Does the work on one item, as worker number `worker`; `place` is where the item stands, from 0.
    fn run(&self, worker: u32, place: u32, item: &mut T) -> Result<(), OutOfMemory>
        requires { may self.now item.old }
        ensures ok { OnOk result (whole self.now item.old item.new) }
        ensures err { OnErr result (refused self.now item.old item.new) };
}
