//! How an attempt goes on with the next instruction (JVM Specification 2.6).

ghost use Rattle.std.specs.Prelude.{◌≡◌, ◌≢◌, Err, IsSome, IfErr, OnErr};
ghost use Rattle.mvm_isolate.specs.Numbered.{Numbered};
ghost use Rattle.mvm_isolate.specs.Values.{kind_by, kind_of_items};
ghost use Rattle.mvm_current.specs.Keys.{top_named, RunsMethod};
ghost use Rattle.mvm_current.specs.Values.{kind_of, may_push};
ghost use Rattle.mvm_object.specs.Coming.{point_of, GoesOn};
ghost use Rattle.mvm_object.specs.Going.{pushing, Context};

use mvm_base::{Kind, Name, Word};
use mvm_current::{push, push_law, set_place};
use mvm_frame::Stack;
use mvm_heap::ItemKind;
use mvm_isolate::{Stop, items_by};

/// Pushes a value, and goes on.
///
/// # Errors
///
/// A `VerifyError` where it does not fit.
#[tactic(auto, unfolding(mvm_current::specs::Keys::callers_named))]
pub fn pushing(stack: &mut Stack, word: Word, next: u32) -> Result<(), Stop>
    requires frame { IsSome stack.old.rest.below.key }
    requires method { RunsMethod stack.old }
    ensures does { (c : Context) (n : Numbered) → GoesOn result (pushing c next word (point_of n stack.old)) n stack.new c.object }
    ensures below { stack.new.rest.below ≡ stack.old.rest.below }
    ensures err { OnErr result (stack.new ≡ stack.old) }
    ensures memory { IfErr result (λ stop. stop ≢ Stop.OutOfMemory) }
    // What fits is pushed.
    ensures room { (n : Numbered) → IfErr result (λ stop. may_push (kind_of word) (top_named n stack.old) ≡ Err stop) }
{
    push_law();
    match push(stack, word) {
        Ok(()) => {
            set_place(stack, next);
            Ok(())
        }
        Err(stop) => Err(stop),
    }
}

/// As what a variable of these items stands on the operands (JVM Specification 2.11.1).
pub(crate) fn kind_of_items(kind: ItemKind) -> Kind
    ensures { result ≡ kind_of_items kind }
{
    match kind {
        ItemKind::Long => Kind::Long,
        ItemKind::Ref => Kind::Ref,
        _ => Kind::Int,
    }
}

/// As what a variable of this descriptor stands on the operands (JVM Specification 2.11.1).
pub(crate) fn kind_by(desc: &Name) -> Kind
    ensures { result ≡ kind_by desc.now }
{
    kind_of_items(items_by(desc))
}
