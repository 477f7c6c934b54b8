ghost use Rattle.std.specs.Prelude.{◌≡◌, ◌++◌, map, IfOk, OnOk};
ghost use Rattle.std.specs.List.Sorted.{IsPermutation};
ghost use Rattle.mvm_history.specs.Merged.{items, merge, placed};
ghost use Rattle.mvm_history.specs.Rows.{row, rows_of, rows_from, placed_row};

use crate::history::History;
use mvm_base::{List, OutOfMemory};
use std::alloc::{AllocError, Global};

/// Where an entry stands.
#[derive(Clone, Copy, Debug, PartialEq, Eq)]
pub struct Placed {
    /// The number of the isolate.
    pub isolate: u32,
    /// The place in that isolate's history, from 0.
    pub place: u32,
}

// What of an entry its place in the merge depends on.
#[derive(Clone, Copy, Debug, PartialEq, Eq, PartialOrd, Ord)]
struct Row {
    stamp: u64,
    isolate: u32,
    place: u32,
}

// Adds the rows of an isolate's entries.
#[tactic(auto, using(crate::proofs::Adding::rows_of_next, crate::proofs::Adding::rows_of_none))]
fn push_rows(rows: &mut Vec<Row>, isolate: u32, history: &History) -> Result<(), OutOfMemory>
    ensures { OnOk result (rows.new.items ≡ rows.old.items ++ rows_of isolate 0 history.now) }
{
    let mut place: u32 = 0;
    for entry in history.entries() {
        rows.push(Row {
            stamp: entry.stamp,
            isolate,
            place,
        })?;
        place = place.checked_add(1).ok_or(OutOfMemory)?;
    }
    Ok(())
}

// The rows of all entries, by isolate and then by place.
#[tactic(auto, using(crate::proofs::Adding::rows_from_next, crate::proofs::Adding::rows_from_none))]
fn rows(alloc: Global, histories: &[History]) -> Result<Vec<Row>, OutOfMemory>
    ensures { IfOk result (λ rows. rows.items ≡ rows_from 0 histories.now) }
{
    let mut rows = Vec::new(alloc);
    let mut isolate: u32 = 0;
    for history in histories {
        push_rows(&mut rows, isolate, history)?;
        isolate = isolate.checked_add(1).ok_or(OutOfMemory)?;
    }
    Ok(rows)
}

// Where the entries of rows stand.
fn places(alloc: Global, rows: &[Row]) -> Result<Vec<Placed>, AllocError>
    ensures { IfOk result (λ places. places.items ≡ map placed_row rows.now) }
{
    rows.iter()
        .map(|row| Placed {
            isolate: row.isolate,
            place: row.place,
        })
        .collect(alloc)
}

/// Where all entries of some histories stand, the history of isolate 0 first: by stamp, then by the number of the isolate, then by
/// place. Numbers of 2^32 and more are not to be had: it is refused as for want of memory.
pub fn merge(alloc: Global, histories: &List<History>) -> Result<List<Placed>, OutOfMemory>
    ensures { IfOk result (λ places. places ≡ map placed (merge histories.now)) }
{
    let mut rows = rows(alloc, histories.as_slice())?;
    rows.sort_unstable();
    let places = places(alloc, &rows)?;
    Ok(List::from_vec(places))
}
