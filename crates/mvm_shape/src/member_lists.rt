ghost use Rattle.std.specs.Prelude.{◌≡◌, [], All};
ghost use Rattle.mvm_base.specs.Answers.{AnswersUnless};
ghost use Rattle.mvm_layout.specs.Bounds.{StandsWithin};
ghost use Rattle.mvm_base.specs.Rules.{each_after};
ghost use Rattle.mvm_shape.specs.Members.{field_rule, method_rule};
ghost use Rattle.mvm_shape.specs.TextFacts.{all_facts};
ghost use Rattle.mvm_shape.specs.TextNumbers.{AreNumbers};
ghost use Rattle.mvm_layout.specs.Flags.{is_interface};

use crate::text_facts::TextFacts;
use crate::members::{test_field, test_method};
use crate::text_numbers::is_repeated;
use mvm_layout::{ClassFault, ClassInfo};
use std::alloc::Global;
use std::collections::BTreeSet;

/// Whether each field keeps the rules, and has another name or descriptor than those before it.
#[tactic(auto, unfolding(crate::specs::Members::field_rule))]
pub(crate) fn test_fields(
    alloc: Global,
    info: &ClassInfo,
    rows: &[Option<TextFacts>],
    numbers: &[usize],
) -> Result<(), ClassFault>
    requires rows { rows.now ≡ all_facts info.now.pool }
    requires numbers { AreNumbers info.now.pool numbers.now }
    requires within { All StandsWithin info.now.fields }
    ensures { AnswersUnless ClassFault.OutOfMemory result (each_after [] (field_rule info.now.pool (is_interface info.now.flags)) info.now.fields) }
{
    let mut pairs = BTreeSet::new(alloc);
    for field in info.fields.as_slice() {
        let repeated = is_repeated(&mut pairs, &info.pool, numbers, field)?;
        test_field(info, rows, repeated, field)?;
    }
    Ok(())
}

/// Whether each method keeps the rules, and has another name or descriptor than those before it.
#[tactic(auto, unfolding(crate::specs::Members::method_rule))]
pub(crate) fn test_methods(
    alloc: Global,
    info: &ClassInfo,
    rows: &[Option<TextFacts>],
    numbers: &[usize],
) -> Result<(), ClassFault>
    requires rows { rows.now ≡ all_facts info.now.pool }
    requires numbers { AreNumbers info.now.pool numbers.now }
    requires within { All StandsWithin info.now.methods }
    ensures { AnswersUnless ClassFault.OutOfMemory result (each_after [] (method_rule info.now.pool info.now.major (is_interface info.now.flags)) info.now.methods) }
{
    let mut pairs = BTreeSet::new(alloc);
    for method in info.methods.as_slice() {
        let repeated = is_repeated(&mut pairs, &info.pool, numbers, method)?;
        test_method(alloc, info, rows, repeated, method)?;
    }
    Ok(())
}
