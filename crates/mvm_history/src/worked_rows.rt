use crate::{Ask, Cause, Entry, Event, History, Message, Placed, merge, text};
use mvm_base::{List, OutOfMemory};
use std::alloc::Global;
use std::test::Fail;

/// A history whose entries have these stamps.
fn history(alloc: Global, stamps: &[u64]) -> Result<History, OutOfMemory> {
    let mut history = History::new(alloc);
    for stamp in stamps {
        history.push(Entry {
            stamp: *stamp,
            what: Event::Stalled { seen: 0 },
        })?;
    }
    Ok(history)
}

/// Where the entries of two histories with these stamps stand in their merge.
fn merged(alloc: Global, first: &[u64], second: &[u64]) -> Result<List<Placed>, OutOfMemory> {
    let mut histories = List::new(alloc);
    histories.push(history(alloc, first)?)?;
    histories.push(history(alloc, second)?)?;
    merge(alloc, &histories)
}

fn at(isolate: u32, place: u32) -> Placed {
    Placed { isolate, place }
}

#[test]
fn merges_by_stamp_then_isolate(rt: HostRuntime) -> Result<(), Fail> {
    let placed = merged(rt.alloc(), &[1, 4], &[2, 4])?;
    let wanted = [at(0, 0), at(1, 0), at(0, 1), at(1, 1)];
    assert_eq!(rt; placed.as_slice(), wanted.as_slice());
    Ok(())
}

#[test]
fn merges_by_place_at_last(rt: HostRuntime) -> Result<(), Fail> {
    let placed = merged(rt.alloc(), &[3, 2, 2], &[])?;
    let wanted = [at(0, 1), at(0, 2), at(0, 0)];
    assert_eq!(rt; placed.as_slice(), wanted.as_slice());
    Ok(())
}

#[test]
fn keeps_entries_in_order(rt: HostRuntime) -> Result<(), Fail> {
    let history = history(rt.alloc(), &[1, 2, 7])?;
    assert!(rt; history.len() == 3 && !history.is_empty() && history.last_stamp() == 7);
    assert!(rt; history.get(1).is_some_and(|entry| entry.stamp == 2));
    assert!(rt; history.get(3).is_none());
    assert_eq!(rt; History::new(rt.alloc()).last_stamp(), 0);
    let none = History::from_vec(Vec::new(rt.alloc()));
    assert!(rt; none.is_empty() && none.entries().is_empty());
    Ok(())
}

/// Whether the text of an entry with this event and stamp is this one.
fn reads(alloc: Global, what: Event, stamp: u64, wanted: &str) -> Result<bool, OutOfMemory> {
    let line = text(alloc, &Entry { stamp, what })?;
    Ok(line.as_str() == wanted)
}

#[test]
fn tells_what_happens_to_an_isolate(rt: HostRuntime) -> Result<(), Fail> {
    let alloc = rt.alloc();
    let by = Cause {
        isolate: 1,
        stamp: 8,
    };
    let (thread, steps) = (0, 79);
    assert!(rt; reads(alloc, Event::Started { by: None, seen: 0 }, 1, "Started 1")?);
    assert!(rt; reads(alloc, Event::Turn { thread, steps }, 2, "Turn 2")?);
    assert!(rt; reads(alloc, Event::Halted { by, status: 9 }, 15, "Halted 15")?);
    let last = u64::MAX;
    assert!(rt;
        reads(
            alloc,
            Event::Stalled { seen: 0 },
            last,
            "Stalled 18446744073709551615"
        )?
    );
    Ok(())
}

#[test]
fn tells_what_goes_over_a_link(rt: HostRuntime) -> Result<(), Fail> {
    let alloc = rt.alloc();
    let (link, thread) = (3, 0);
    let offered = Event::Offer {
        link,
        thread,
        message: Message::Ints(List::new(alloc)),
    };
    assert!(rt; reads(alloc, offered, 3, "Offer 3")?);
    let received = Event::Receipt {
        link,
        thread,
        message: Message::Bytes(List::new(alloc)),
        sent: 3,
    };
    assert!(rt; reads(alloc, received, 10, "Receipt 10")?);
    let took = Event::Took {
        link,
        thread,
        received: 10,
    };
    assert!(rt; reads(alloc, took, 11, "Took 11")?);
    assert!(rt; reads(alloc, Event::Closed { link, seen: 0 }, 12, "Closed 12")?);
    Ok(())
}

#[test]
fn tells_asks_and_answers(rt: HostRuntime) -> Result<(), Fail> {
    let alloc = rt.alloc();
    let thread = 0;
    let asked = Event::Ask {
        thread,
        ask: Ask::Start(1),
    };
    assert!(rt; reads(alloc, asked, 13, "Ask 13")?);
    let answered = Event::Answer {
        thread,
        value: 1,
        seen: 1,
    };
    assert!(rt; reads(alloc, answered, 14, "Answer 14")?);
    Ok(())
}
