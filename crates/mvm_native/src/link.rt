ghost use Rattle.std.specs.Prelude.{◌≡◌, ◌<◌, length, map, IfOk};
ghost use Rattle.mvm_heap.specs.Heap.{number_at, object_at};
ghost use Rattle.mvm_native.specs.Links.{byte_in, close, int_in, is_another, is_end, link_at, long_in, message_of, offered, receive, send, sort_of, use_of, IsSendable};
ghost use Rattle.mvm_native.specs.Machine.{machine_of, Called};

use crate::env::{Env, LinkUse};
use crate::out::{Act, Out, Thrown};
use crate::string::whole_text;
use mvm_base::{List, Name, OutOfMemory, Word};
use mvm_heap::Heap;
use mvm_history::{Ask, Launch, LinkRow, MOST_ELEMENTS, Message};
use std::alloc::{AllocError, Global};

/// What a message is made of.
#[derive(Clone, Copy, Debug, PartialEq, Eq)]
pub enum Sendable {
    /// The items of an int array.
    Ints,
    /// The items of a long array.
    Longs,
    /// The items of a byte array.
    Bytes,
    /// The units of a text.
    Units,
}

/// Which end of a link an isolate is to be.
#[derive(Clone, Copy, Debug, PartialEq, Eq)]
pub enum End {
    /// It sends over the link.
    Sending,
    /// It receives over the link.
    Receiving,
    /// It does either.
    Either,
}

fn is_end(end: End, isolate: u32, row: LinkRow) -> bool
    ensures { result ≡ is_end end isolate row }
{
    match end {
        End::Sending => row.from == isolate,
        End::Receiving => row.to == isolate,
        End::Either => row.from == isolate || row.to == isolate,
    }
}

/// The link of a number, where there is one and the isolate is such an end of it.
fn link_at(end: End, link: i32, launch: &Launch) -> Option<u32>
    ensures { result ≡ link_at end link launch.now }
{
    if link < 0 {
        return None;
    }
    let link = link.cast_unsigned();
    match launch.links.as_slice().get(link as usize) {
        Some(row) => {
            if is_end(end, launch.number, *row) {
                Some(link)
            } else {
                None
            }
        }
        None => None,
    }
}

/// How a link stands on this side; one of which nothing is known is open.
fn use_of(uses: &List<LinkUse>, link: u32) -> LinkUse
    ensures { result ≡ use_of uses.now link }
{
    match uses.as_slice().get(link as usize) {
        Some(known) => *known,
        None => LinkUse {
            closed: false,
            sender: None,
            receiver: None,
        },
    }
}

/// Whether another thread than this one is at it.
fn is_another(thread: u32, user: Option<u32>) -> bool
    ensures { result ≡ is_another thread user }
{
    match user {
        Some(user) => user != thread,
        None => false,
    }
}

/// An item of an int array.
#[tactic(auto, unfolding(mvm_heap::specs::Sorts::item_of))]
fn int_in(heap: &Heap, array: u32, place: u32) -> i32
    requires { place < length (object_at heap.now.state.objects array).contents }
    ensures { result ≡ int_in (number_at heap.now.state.objects array place) }
{
    ((heap.number(array, place) % 4_294_967_296) as u32).cast_signed()
}

/// An item of a long array.
#[tactic(auto, unfolding(mvm_heap::specs::Sorts::item_of))]
fn long_in(heap: &Heap, array: u32, place: u32) -> i64
    requires { place < length (object_at heap.now.state.objects array).contents }
    ensures { result ≡ long_in (number_at heap.now.state.objects array place) }
{
    heap.number(array, place).cast_signed()
}

/// An item of a byte array.
#[tactic(auto, unfolding(mvm_heap::specs::Sorts::item_of))]
fn byte_in(heap: &Heap, array: u32, place: u32) -> i8
    requires { place < length (object_at heap.now.state.objects array).contents }
    ensures { result ≡ byte_in (number_at heap.now.state.objects array place) }
{
    ((heap.number(array, place) % 256) as u8).cast_signed()
}

fn ints(alloc: Global, heap: &Heap, array: u32) -> Result<Vec<i32>, AllocError>
    requires { array < length heap.now.state.objects }
    ensures { IfOk result (λ items. items.items ≡ map int_in (object_at heap.now.state.objects array).contents) }
{
    let mut items = Vec::new(alloc);
    for place in 0..heap.length(array) {
        items.push(int_in(heap, array, place))?;
    }
    Ok(items)
}

fn longs(alloc: Global, heap: &Heap, array: u32) -> Result<Vec<i64>, AllocError>
    requires { array < length heap.now.state.objects }
    ensures { IfOk result (λ items. items.items ≡ map long_in (object_at heap.now.state.objects array).contents) }
{
    let mut items = Vec::new(alloc);
    for place in 0..heap.length(array) {
        items.push(long_in(heap, array, place))?;
    }
    Ok(items)
}

fn bytes(alloc: Global, heap: &Heap, array: u32) -> Result<Vec<i8>, AllocError>
    requires { array < length heap.now.state.objects }
    ensures { IfOk result (λ items. items.items ≡ map byte_in (object_at heap.now.state.objects array).contents) }
{
    let mut items = Vec::new(alloc);
    for place in 0..heap.length(array) {
        items.push(byte_in(heap, array, place))?;
    }
    Ok(items)
}

/// A copy of what is sent.
fn message_of(
    alloc: Global,
    heap: &Heap,
    kind: Sendable,
    object: u32,
) -> Result<Message, OutOfMemory>
    requires there { object < length heap.now.state.objects }
    requires sort { (object_at heap.now.state.objects object).sort ≡ sort_of kind }
    ensures { IfOk result (λ message. message ≡ message_of kind (object_at heap.now.state.objects object).contents) }
{
    match kind {
        Sendable::Ints => Ok(Message::Ints(List::from_vec(ints(alloc, heap, object)?))),
        Sendable::Longs => Ok(Message::Longs(List::from_vec(longs(alloc, heap, object)?))),
        Sendable::Bytes => Ok(Message::Bytes(List::from_vec(bytes(alloc, heap, object)?))),
        Sendable::Units => Ok(Message::Text(Name::from_vec(whole_text(alloc, heap, object)?))),
    }
}

/// What is sent over a link of which this isolate is the sending end.
fn offered(env: &Env, kind: Sendable, link: u32, object: u32) -> Result<Out, OutOfMemory>
    requires there { object < length env.now.heap.state.objects }
    requires sort { (object_at env.now.heap.state.objects object).sort ≡ sort_of kind }
    ensures { IfOk result (λ out. out ≡ offered kind link (object_at env.now.heap.state.objects object).contents (use_of env.now.links link) env.now.thread) }
{
    if MOST_ELEMENTS < env.heap.length(object) as usize {
        return Ok(Out::Throw(Thrown::IllegalArgumentException));
    }
    let state = use_of(&env.links, link);
    if state.closed {
        return Ok(Out::Throw(Thrown::ClosedLinkException));
    }
    if is_another(env.thread, state.sender) {
        return Ok(Out::Throw(Thrown::IllegalStateException));
    }
    let message = message_of(env.alloc, &env.heap, kind, object)?;
    Ok(Out::Act(Act::Offer { link, message }))
}

/// `Link.send` of an array or a text.
#[tactic(auto, unfolding(crate::specs::Links::send))]
pub fn send(env: &Env, kind: Sendable, link: i32, word: Word) -> Result<Out, OutOfMemory>
    requires { IsSendable kind env.now.heap.state.objects word }
    ensures { Called result (send kind link word (machine_of env.now), machine_of env.now) (machine_of env.now) (machine_of env.now) }
{
    let Some(link) = link_at(End::Sending, link, &env.launch) else {
        return Ok(Out::Throw(Thrown::IllegalArgumentException));
    };
    let Word::Ref(object) = word else {
        return Ok(Out::Throw(Thrown::NullPointerException));
    };
    match offered(env, kind, link, object) {
        Ok(out) => Ok(out),
        Err(refused) => Err(refused),
    }
}

/// `Link.receive`.
#[tactic(auto, unfolding(crate::specs::Links::receive))]
pub fn receive(env: &Env, link: i32) -> Out
    ensures { result ≡ receive link (machine_of env.now) }
{
    let Some(link) = link_at(End::Receiving, link, &env.launch) else {
        return Out::Throw(Thrown::IllegalArgumentException);
    };
    let state = use_of(&env.links, link);
    if state.closed {
        return Out::Throw(Thrown::ClosedLinkException);
    }
    if is_another(env.thread, state.receiver) {
        return Out::Throw(Thrown::IllegalStateException);
    }
    Out::Act(Act::Receive { link })
}

/// `Link.close`.
#[tactic(auto, unfolding(crate::specs::Links::close))]
pub fn close(env: &Env, link: i32) -> Out
    ensures { result ≡ close link (machine_of env.now) }
{
    match link_at(End::Either, link, &env.launch) {
        Some(link) => Out::Act(Act::Ask(Ask::Close(link))),
        None => Out::Throw(Thrown::IllegalArgumentException),
    }
}
