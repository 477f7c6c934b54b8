//! What is looked up of a call of a method of an interface once, to be kept.

ghost use Rattle.std.specs.Prelude.{◌≡◌, ◌≤◌, ◌^◌, length, IfSome};
ghost use Rattle.mvm_isolate.specs.Numbered.{name_at, named, IsClass};
ghost use Rattle.mvm_isolate.specs.Sound.{Grows};
ghost use Rattle.mvm_calling.specs.KeptInterface.{AreInterfaceCalls, IsInterfaceCall, InterfaceSelects};

use crate::interface_table::InterfaceCalls;
use crate::static_call::StaticCall;
use crate::virtual_call::VirtualCall;
use crate::virtual_keeping::receiver_kinds;
use mvm_base::Steps;
use mvm_current::{key_of, widths};
use mvm_invoke::head_in;
use mvm_isolate::Isolate;
use mvm_layout::flags::{SYNCHRONIZED, has_flag};
use mvm_member::MemberName;
use mvm_table::Table;
use std::sync::ledger::Ledger;

/// What is kept of the calls of a method for receivers of a class: nothing where it has no code, or is synchronized.
fn known_interface(
    isolate: &Isolate,
    mirror: u32,
    home: u32,
    index: u16,
    receiver: u32,
    resolved: &MemberName<'_>,
    member: &MemberName<'_>,
) -> Option<VirtualCall>
    requires class { IsClass isolate.now mirror }
    requires name { name_at isolate.now mirror ≡ member.now.class }
    requires home { IsClass isolate.now home }
    requires receiver { IsClass isolate.now receiver }
    requires selects { InterfaceSelects isolate.now home index receiver resolved.now member.now }
    ensures { IfSome result (IsInterfaceCall isolate.now) }
{
    let Ok(head) = head_in(isolate, mirror, member) else {
        return None;
    };
    let size = head.size?;
    if has_flag(SYNCHRONIZED, head.flags) {
        return None;
    }
    let key = key_of(isolate, mirror, member.name(), member.desc(), None)?;
    let kinds = receiver_kinds(isolate.alloc(), resolved.desc())?;
    let slots = widths(kinds.as_slice());
    if slots > 255 {
        return None;
    }
    let call = StaticCall {
        home,
        index,
        key,
        size,
        kinds,
        slots: slots as u16,
    };
    Some(VirtualCall { receiver, call })
}

/// Keeps what is looked up of the calls of a method for receivers of a class. Where memory is short it is not kept.
#[tactic(auto, using(crate::proofs::InterfaceSelecting::selects_grow, mvm_isolate::proofs::Keeping::grows_same, mvm_current::proofs::Growth::is_class_grows))]
pub(crate) fn keep_interface<L: Ledger>(
    isolate: &mut Isolate,
    table: &Table,
    calls: &mut InterfaceCalls,
    home: u32,
    index: u16,
    receiver: u32,
    resolved: &MemberName<'_>,
    member: &MemberName<'_>,
    steps: &mut Steps<L>,
)
    requires files { table.now.files ≡ isolate.old.files }
    requires calls { AreInterfaceCalls isolate.old calls.old }
    requires home { IsClass isolate.old home }
    requires receiver { IsClass isolate.old receiver }
    requires selects { InterfaceSelects isolate.old home index receiver resolved.now member.now }
    ensures calls { AreInterfaceCalls isolate.new calls.new }
    // By names nothing changes.
    ensures same { named isolate.new ≡ named isolate.old }
    ensures links { isolate.new.env.links ≡ isolate.old.env.links }
    ensures grows { Grows isolate.old isolate.new }
{
    match isolate.load(table, member.class(), steps) {
        Ok(mirror) => match known_interface(
            isolate, mirror, home, index, receiver, resolved, member,
        ) {
            Some(call) => {
                let entries = isolate.class(home).get().file().parts().pool.len();
                calls.keep(entries, call);
            }
            None => {}
        },
        Err(_) => {}
    }
}
