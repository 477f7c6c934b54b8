//! What is looked up of a call once, to be kept.

ghost use Rattle.std.specs.Prelude.{◌≡◌, ◌≤◌, ◌^◌, length, IfSome};
ghost use Rattle.mvm_isolate.specs.Numbered.{name_at, named, IsClass};
ghost use Rattle.mvm_isolate.specs.Sound.{Grows};
ghost use Rattle.mvm_calling.specs.KeptCalls.{AreCalls, AreKindsOf, IsStaticCall, IsTarget};

use crate::calls::Calls;
use crate::static_call::StaticCall;
use mvm_base::{Kind, List, Name, Steps};
use mvm_current::{key_of, kinds_of, shape_of, widths};
use mvm_invoke::head_in;
use mvm_isolate::Isolate;
use mvm_layout::flags::{SYNCHRONIZED, has_flag};
use mvm_member::MemberName;
use mvm_table::Table;
use std::alloc::Global;
use std::sync::ledger::Ledger;

/// The kinds of the arguments of a static method of a descriptor. Where memory is short there are none.
fn static_kinds(alloc: Global, desc: &Name) -> Option<List<Kind>>
    ensures are { IfSome result (AreKindsOf desc.now) }
    ensures few { IfSome result (λ kinds. length kinds ≤ 2 ^ 32) }
{
    match shape_of(alloc, desc) {
        Ok(shape) => match kinds_of(alloc, true, &shape) {
            Ok(kinds) => Some(kinds),
            Err(_) => None,
        },
        Err(_) => None,
    }
}

/// What is kept of the calls of a static method that a class's constant pool names at an index: nothing where it has no code, or is synchronized.
fn known_static(
    isolate: &Isolate,
    mirror: u32,
    home: u32,
    index: u16,
    member: &MemberName<'_>,
) -> Option<StaticCall>
    requires class { IsClass isolate.now mirror }
    requires name { name_at isolate.now mirror ≡ member.now.class }
    requires home { IsClass isolate.now home }
    requires target { IsTarget isolate.now home index member.now }
    ensures { IfSome result (IsStaticCall isolate.now) }
{
    let Ok(head) = head_in(isolate, mirror, member) else {
        return None;
    };
    let size = head.size?;
    if has_flag(SYNCHRONIZED, head.flags) {
        return None;
    }
    let key = key_of(isolate, mirror, member.name(), member.desc(), None)?;
    let kinds = static_kinds(isolate.alloc(), member.desc())?;
    let slots = widths(kinds.as_slice());
    if key.mirror != mirror || slots > 255 {
        return None;
    }
    Some(StaticCall {
        home,
        index,
        key,
        size,
        kinds,
        slots: slots as u16,
    })
}

/// Keeps what is looked up of the calls of a static method that a class's constant pool names at an index. Where memory is short it is not kept.
#[tactic(auto, using(crate::proofs::Known::calls_grow, crate::proofs::Known::target_grows, mvm_isolate::proofs::Keeping::grows_same, mvm_current::proofs::Growth::is_class_grows))]
pub(crate) fn keep_static<L: Ledger>(
    isolate: &mut Isolate,
    table: &Table,
    calls: &mut Calls,
    home: u32,
    index: u16,
    member: &MemberName<'_>,
    steps: &mut Steps<L>,
)
    requires files { table.now.files ≡ isolate.old.files }
    requires calls { AreCalls isolate.old calls.old }
    requires home { IsClass isolate.old home }
    requires target { IsTarget isolate.old home index member.now }
    ensures calls { AreCalls isolate.new calls.new }
    // By names nothing changes.
    ensures same { named isolate.new ≡ named isolate.old }
    ensures links { isolate.new.env.links ≡ isolate.old.env.links }
    ensures grows { Grows isolate.old isolate.new }
{
    match isolate.load(table, member.class(), steps) {
        Ok(mirror) => match known_static(isolate, mirror, home, index, member) {
            Some(call) => {
                let entries = isolate.class(home).get().file().parts().pool.len();
                calls.keep_static(entries, call);
            }
            None => {}
        },
        Err(_) => {}
    }
}
