ghost use Rattle.std.specs.Prelude.{◌≡◌, ◌<◌, length, slice_get, slice_set, Some};
ghost use Rattle.mvm_mirror.specs.Kept.{Changes};
ghost use Rattle.mvm_mirror.specs.declared.mirror.Mirror.{Mirror as MirrorOf};

use crate::mirror::Mirror;
use crate::state::InitState;
use mvm_base::Word;

/// The mirror of a number.
pub(crate) fn at(mirrors: &[Mirror], number: u32) -> &Mirror
    requires { number < length mirrors.now }
    ensures { slice_get mirrors.now number ≡ Some result.now }
{
    &mirrors[number as usize]
}

/// Sets the state of the class of a number.
pub(crate) fn set_state(mirrors: &mut Vec<Mirror>, number: u32, state: InitState)
    requires { number < length mirrors.old.items }
    ensures { Changes (λ mirror. record mirror { state = state }) number mirrors.old.items mirrors.new.items }
{
    mirrors[number as usize].state = state;
}

/// Gives the class of a number a class object.
pub(crate) fn set_object(mirrors: &mut Vec<Mirror>, number: u32, object: u32)
    requires { number < length mirrors.old.items }
    ensures { Changes (λ mirror. record mirror { object = Some object }) number mirrors.old.items mirrors.new.items }
{
    mirrors[number as usize].object = Some(object);
}

/// Writes a value among those of the class of a number.
pub(crate) fn set_static(mirrors: &mut Vec<Mirror>, number: u32, slot: u32, word: Word)
    requires mirror { number < length mirrors.old.items }
    requires slot { (mirror : MirrorOf) → slice_get mirrors.old.items number ≡ Some mirror → slot < length mirror.statics }
    ensures { Changes (λ mirror. record mirror { statics = slice_set mirror.statics slot word }) number mirrors.old.items mirrors.new.items }
{
    mirrors[number as usize].statics.set(slot as usize, word);
}
