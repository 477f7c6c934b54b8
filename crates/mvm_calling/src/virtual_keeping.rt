//! What is looked up of a call with a receiver once, to be kept.

ghost use Rattle.std.specs.Prelude.{◌≡◌, ◌≤◌, ◌^◌, length, IfSome};
ghost use Rattle.mvm_isolate.specs.Numbered.{name_at, named, IsClass};
ghost use Rattle.mvm_isolate.specs.Sound.{Grows};
ghost use Rattle.mvm_calling.specs.KeptVirtual.{AreReceiverKinds, AreVirtualCalls, IsVirtualCall, Selects};

use crate::static_call::StaticCall;
use crate::virtual_call::VirtualCall;
use crate::virtual_table::VirtualCalls;
use mvm_base::{Kind, List, Name, Steps};
use mvm_current::{key_of, kinds_of, shape_of, widths};
use mvm_invoke::head_in;
use mvm_isolate::Isolate;
use mvm_layout::flags::{SYNCHRONIZED, has_flag};
use mvm_member::MemberName;
use mvm_table::Table;
use std::alloc::Global;
use std::sync::ledger::Ledger;

/// The kinds of a receiver and of the arguments of a method of a descriptor. Where memory is short there are none.
pub(crate) fn receiver_kinds(alloc: Global, desc: &Name) -> Option<List<Kind>>
    ensures are { IfSome result (AreReceiverKinds desc.now) }
    ensures few { IfSome result (λ kinds. length kinds ≤ 2 ^ 32) }
{
    match shape_of(alloc, desc) {
        Ok(shape) => match kinds_of(alloc, false, &shape) {
            Ok(kinds) => Some(kinds),
            Err(_) => None,
        },
        Err(_) => None,
    }
}

/// What is kept of the calls of a method for receivers of a class: nothing where it has no code, or is synchronized.
fn known_virtual(
    isolate: &Isolate,
    mirror: u32,
    home: u32,
    index: u16,
    receiver: u32,
    resolved: &MemberName<'_>,
    member: &MemberName<'_>,
) -> Option<VirtualCall>
    requires class { IsClass isolate.now mirror }
    requires name { name_at isolate.now mirror ≡ member.now.class }
    requires home { IsClass isolate.now home }
    requires receiver { IsClass isolate.now receiver }
    requires selects { Selects isolate.now home index receiver resolved.now member.now }
    ensures { IfSome result (IsVirtualCall isolate.now) }
{
    let Ok(head) = head_in(isolate, mirror, member) else {
        return None;
    };
    let size = head.size?;
    if has_flag(SYNCHRONIZED, head.flags) {
        return None;
    }
    let key = key_of(isolate, mirror, member.name(), member.desc(), None)?;
    let kinds = receiver_kinds(isolate.alloc(), resolved.desc())?;
    let slots = widths(kinds.as_slice());
    if slots > 255 {
        return None;
    }
    let call = StaticCall {
        home,
        index,
        key,
        size,
        kinds,
        slots: slots as u16,
    };
    Some(VirtualCall { receiver, call })
}

/// Keeps what is looked up of the calls of a method for receivers of a class. Where memory is short it is not kept.
#[tactic(auto, using(crate::proofs::Selecting::selects_grow, mvm_isolate::proofs::Keeping::grows_same, mvm_current::proofs::Growth::is_class_grows))]
pub(crate) fn keep_virtual<L: Ledger>(
    isolate: &mut Isolate,
    table: &Table,
    calls: &mut VirtualCalls,
    home: u32,
    index: u16,
    receiver: u32,
    resolved: &MemberName<'_>,
    member: &MemberName<'_>,
    steps: &mut Steps<L>,
)
    requires files { table.now.files ≡ isolate.old.files }
    requires calls { AreVirtualCalls isolate.old calls.old }
    requires home { IsClass isolate.old home }
    requires receiver { IsClass isolate.old receiver }
    requires selects { Selects isolate.old home index receiver resolved.now member.now }
    ensures calls { AreVirtualCalls isolate.new calls.new }
    // By names nothing changes.
    ensures same { named isolate.new ≡ named isolate.old }
    ensures links { isolate.new.env.links ≡ isolate.old.env.links }
    ensures grows { Grows isolate.old isolate.new }
{
    match isolate.load(table, member.class(), steps) {
        Ok(mirror) => match known_virtual(
            isolate, mirror, home, index, receiver, resolved, member,
        ) {
            Some(call) => {
                let entries = isolate.class(home).get().file().parts().pool.len();
                calls.keep(entries, call);
            }
            None => {}
        },
        Err(_) => {}
    }
}
