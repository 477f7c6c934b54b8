ghost use Rattle.std.specs.Prelude.{◌≡◌, Ok};
ghost use Rattle.mvm_base.specs.Answers.{AnswersUnless};
ghost use Rattle.mvm_isolate.specs.Numbered.{look_of};
ghost use Rattle.mvm_isolate.specs.Types.{array_suits, base_suits};

use crate::bases::is_any_object;
use crate::looked::is_sub;
use mvm_base::{Base, FieldShape, Steps};
use mvm_isolate::{Isolate, Stop};
use mvm_table::Table;
use std::sync::ledger::Ledger;

/// Whether what arrays of the one base hold are instances of what those of the other hold.
fn base_suits<L: Ledger>(
    isolate: &Isolate,
    table: &Table,
    from: &Base,
    to: &Base,
    steps: &mut Steps<L>,
) -> Result<bool, Stop>
    requires { table.now.files ≡ isolate.now.files }
    ensures { AnswersUnless Stop.OutOfMemory result (Ok (base_suits (look_of isolate.now) from.now to.now)) }
{
    match from {
        Base::Object(name) => match to {
            Base::Object(target) => is_sub(isolate, table, name, target, steps),
            _ => Ok(false),
        },
        Base::Boolean => Ok(matches!(to, Base::Boolean)),
        Base::Byte => Ok(matches!(to, Base::Byte)),
        Base::Char => Ok(matches!(to, Base::Char)),
        Base::Short => Ok(matches!(to, Base::Short)),
        Base::Int => Ok(matches!(to, Base::Int)),
        Base::Long => Ok(matches!(to, Base::Long)),
    }
}

/// Whether an array of the one type is an instance of the array type of these dimensions and this base.
#[tactic(auto, unfolding(mvm_isolate::specs::Types::array_suits))]
pub(crate) fn array_suits<L: Ledger>(
    isolate: &Isolate,
    table: &Table,
    from: &FieldShape,
    dims: u8,
    base: &Base,
    steps: &mut Steps<L>,
) -> Result<bool, Stop>
    requires { table.now.files ≡ isolate.now.files }
    ensures { AnswersUnless Stop.OutOfMemory result (Ok (array_suits (look_of isolate.now) from.now (record { dims = dims; base = base.now }))) }
{
    if from.dims == dims {
        base_suits(isolate, table, &from.base, base, steps)
    } else if dims < from.dims {
        Ok(is_any_object(base))
    } else {
        Ok(false)
    }
}
