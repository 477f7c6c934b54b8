ghost use Rattle.std.specs.Prelude.{◌≡◌, IfOk};
ghost use Rattle.mvm_history.specs.Texts.{name_of, text};

use crate::entry::Entry;
use crate::event::Event;
use itoa::Buffer;
use mvm_base::{Line, OutOfMemory};
use std::alloc::Global;

// The name of an event.
fn name_of(event: &Event) -> &'static str
    ensures { result.now ≡ name_of event.now }
{
    match event {
        Event::Started { .. } => "Started",
        Event::Turn { .. } => "Turn",
        Event::Offer { .. } => "Offer",
        Event::Receipt { .. } => "Receipt",
        Event::Took { .. } => "Took",
        Event::Closed { .. } => "Closed",
        Event::Ask { .. } => "Ask",
        Event::Answer { .. } => "Answer",
        Event::Halted { .. } => "Halted",
        Event::Stalled { .. } => "Stalled",
    }
}

/// An entry as text: the name of its event, a blank, and its stamp in decimal.
pub fn text(alloc: Global, entry: &Entry) -> Result<Line, OutOfMemory>
    ensures { IfOk result (λ line. line ≡ text entry.now) }
{
    let mut line = Line::new(alloc);
    line.push_str(name_of(&entry.what))?;
    line.push_str(" ")?;
    let mut digits = Buffer::new();
    line.push_str(digits.format(entry.stamp))?;
    Ok(line)
}
