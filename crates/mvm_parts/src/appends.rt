// Timing of appends to a StringBuilder.
ghost use Rattle.std.specs.Prelude.{◌≡◌, true, Option, Some, Ok};
ghost use Rattle.mvm_base.specs.declared.value.Word.{Word};
ghost use Rattle.mvm_builtin.specs.Natives.{native_at};
ghost use Rattle.mvm_builtin.specs.declared.natives.Native.TheVariants.{AppendChar};
ghost use Rattle.mvm_native.specs.Builders.{IsBuilder};
ghost use Rattle.mvm_native.specs.declared.out.Out.TheVariants.{Value};

use crate::natives::{answer_of, isolate, new_object};
use mvm_base::{OutOfMemory, Word};
use mvm_builtin::{Native, native_at};
use mvm_native::{Env, Out, call, fits};
use std::alloc::Global;

/// How many words the heap has.
const WORDS: u32 = 50_000_000;

/// Whether a native method returned.
fn is_value(out: Out) -> bool
    ensures { result ≡ true → (value : Option Word) × (out ≡ Value value) }
{
    match out {
        Out::Value(_) => true,
        _ => false,
    }
}

/// Appends a char to a builder. It answers whether that was done.
#[tactic(auto, unfolding(mvm_native::specs::Calls::Fits))]
fn append(env: &mut Env, number: u16, builder: u32, unit: i32) -> Result<bool, OutOfMemory>
    requires native { native_at number ≡ Some AppendChar }
    requires builder { IsBuilder env.old.heap.state.objects builder }
    ensures { result ≡ Ok true → IsBuilder env.new.heap.state.objects builder }
{
    if env.heap.used() >= WORDS {
        return Ok(false);
    }
    let out = call(env, number, &[Word::Ref(builder), Word::Int(unit)])?;
    Ok(is_value(out))
}

/// So many appends. It answers whether all were done.
fn append_all(env: &mut Env, number: u16, builder: u32, count: u32) -> Result<bool, OutOfMemory>
    requires native { native_at number ≡ Some AppendChar }
    requires builder { IsBuilder env.old.heap.state.objects builder }
    ensures { result ≡ Ok true → IsBuilder env.new.heap.state.objects builder }
{
    for turn in 0..count {
        if !append(env, number, builder, (turn % 0x1_0000).cast_signed())? {
            return Ok(false);
        }
    }
    Ok(true)
}

/// Whether the native method of a number appends a char to a builder, and an object is one.
#[tactic(auto, unfolding(mvm_native::specs::Calls::Fits))]
fn appends_to(env: &Env, number: u16, builder: u32) -> bool
    ensures native { result ≡ true → native_at number ≡ Some AppendChar }
    ensures builder { result ≡ true → IsBuilder env.now.heap.state.objects builder }
{
    if native_at(number) != Some(Native::AppendChar) {
        return false;
    }
    fits(env, number, &[Word::Ref(builder)])
}

/// A builder with no units, if one can be made.
fn builder_in(env: &mut Env) -> Result<Option<u32>, OutOfMemory> {
    let Some(builder) = new_object(&mut env.heap) else {
        return Ok(None);
    };
    match answer_of(env, Native::InitBuilder.number(), &[Word::Ref(builder)])? {
        Some(Out::Value(None)) => Ok(Some(builder)),
        _ => Ok(None),
    }
}

/// So many appends of a char to a builder that has so many already. It answers whether all were done.
pub(crate) fn time_appends(alloc: Global, count: u32, size: u32) -> Result<bool, OutOfMemory> {
    let mut env = isolate(alloc, WORDS)?;
    let Some(builder) = builder_in(&mut env)? else {
        return Ok(false);
    };
    let number = Native::AppendChar.number();
    if !appends_to(&env, number, builder) {
        return Ok(false);
    }
    Ok(
        append_all(&mut env, number, builder, size)?
            && append_all(&mut env, number, builder, count)?,
    )
}
