//! How the links stand on the side of an isolate.

ghost use Rattle.std.specs.Prelude.{◌≡◌, ◌<◌, length, slice_get, OnSome};
ghost use Rattle.mvm_isolate.specs.Numbered.{named};
ghost use Rattle.mvm_isolate.specs.Sound.{Grows};
ghost use Rattle.mvm_interp.specs.Linking.{earliest, linked, receiving_use, sending_use};

use mvm_isolate::Isolate;
use mvm_native::LinkUse;
use mvm_object::ThreadState;

/// The lower of two numbers of threads.
fn earliest(thread: u32, other: Option<u32>) -> u32
    ensures { result ≡ earliest thread other }
{
    match other {
        Some(other) if other < thread => other,
        _ => thread,
    }
}

/// How a link stands once a thread sends on it.
fn sending_use(thread: u32, link_use: LinkUse) -> LinkUse
    ensures { result ≡ sending_use thread link_use }
{
    LinkUse {
        sender: Some(earliest(thread, link_use.sender)),
        ..link_use
    }
}

/// How a link stands once a thread receives on it.
fn receiving_use(thread: u32, link_use: LinkUse) -> LinkUse
    ensures { result ≡ receiving_use thread link_use }
{
    LinkUse {
        receiver: Some(earliest(thread, link_use.receiver)),
        ..link_use
    }
}

/// How a link stands on this side, if there is one of this number.
fn use_of(isolate: &Isolate, link: u32) -> Option<LinkUse>
    ensures value { result ≡ slice_get isolate.now.env.links link }
    ensures there { OnSome result (link < length isolate.now.env.links) }
{
    isolate.links().get(link as usize).copied()
}

/// The thread of a number does this from now on.
#[tactic(auto, using(mvm_isolate::proofs::Keeping::grows_same))]
pub(crate) fn link(isolate: &mut Isolate, thread: u32, state: ThreadState)
    ensures links { isolate.new.env.links ≡ linked thread state isolate.old.env.links }
    ensures same { named isolate.new ≡ named isolate.old }
    ensures grows { Grows isolate.old isolate.new }
{
    match state {
        ThreadState::Sending(link) => {
            if let Some(link_use) = use_of(isolate, link) {
                isolate.set_link(link as usize, sending_use(thread, link_use));
            }
        }
        ThreadState::Receiving(link) => {
            if let Some(link_use) = use_of(isolate, link) {
                isolate.set_link(link as usize, receiving_use(thread, link_use));
            }
        }
        ThreadState::Ready
        | ThreadState::Entering(_, _)
        | ThreadState::Waiting(_, _)
        | ThreadState::Initing(_)
        | ThreadState::Joining(_)
        | ThreadState::Asking
        | ThreadState::Ended => {}
    }
}
