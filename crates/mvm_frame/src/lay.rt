ghost use Rattle.std.specs.Prelude.{◌≡◌, ◌+◌, ◌-◌, ◌≤◌, ◌++◌, length, take, drop, reverse, replicate};
ghost use Rattle.mvm_frame.specs.Laid.{part};

use crate::slot::Slot;

/// Lays out the local variables of a new frame from `bottom` up to `base`: first so many operands that stand from `sp` on, the
/// last one first, and then what is not set.
pub(crate) fn lay(slots: &mut Vec<Slot>, sp: usize, args: usize, bottom: usize, base: usize)
    requires locals { bottom + args ≤ base }
    requires apart { base ≤ sp }
    requires within { sp + args ≤ length slots.old.items }
    ensures locals { part bottom base slots.new.items ≡ reverse (take args (drop sp slots.old.items)) ++ replicate (base - bottom - args) Slot.Unset }
    ensures above { drop base slots.new.items ≡ drop base slots.old.items }
    ensures len { length slots.new.items ≡ length slots.old.items }
{
    let mut at = base;
    let arguments = bottom + args;
    'unset: while at > arguments {
        at -= 1;
        slots[at] = Slot::Unset;
    }
    for k in 0..args {
        at -= 1;
        slots[at] = slots[sp + k];
    }
}
