//! The maps of an index.

ghost use Rattle.std.specs.Prelude.{◌≡◌, ℕ, [], ◌==◌, if◌then◌else◌, OnOk};
ghost use Rattle.mvm_constants.specs.Index.{found, lower, Lowers, waiting_for, Waits};

use crate::key::Key;
use mvm_base::List;
use std::alloc::{AllocError, Global};
use std::collections::BTreeMap;

/// The index under a key.
pub(crate) fn found(rows: &BTreeMap<Key, u16>, key: Key) -> Option<u16>
    ensures { result ≡ found key rows.now }
{
    rows.get(&key).copied()
}

/// The lower of two indices, if there are two.
fn lower(index: Option<u16>, at: u16) -> u16
    ensures { result ≡ lower index at }
{
    match index {
        Some(index) if index <= at => index,
        _ => at,
    }
}

/// Puts an index under a key, unless a lower one stands there.
pub(crate) fn put_lower(rows: &mut BTreeMap<Key, u16>, key: Key, at: u16) -> Result<(), AllocError>
    ensures { OnOk result (Lowers rows.old key at rows.new) }
{
    let least = lower(found(rows, key), at);
    rows.insert(key, least)?;
    Ok(())
}

/// Lets an entry wait for one at an index.
pub(crate) fn wait(
    rows: &mut BTreeMap<u16, List<u16>>,
    alloc: Global,
    index: u16,
    at: u16,
) -> Result<(), AllocError>
    ensures { OnOk result (Waits rows.old index at rows.new) }
{
    let mut entries = waiting(rows, alloc, index);
    entries.push(at)?;
    rows.insert(index, entries)?;
    Ok(())
}

/// Takes the entries out that wait for one at an index.
pub(crate) fn waiting(rows: &mut BTreeMap<u16, List<u16>>, alloc: Global, index: u16) -> List<u16>
    ensures taken { result ≡ waiting_for index rows.old }
    ensures others { (other : ℕ) → waiting_for other rows.new ≡ (if index == other then [] else waiting_for other rows.old) }
{
    match rows.remove(&index) {
        Some(entries) => entries,
        None => List::new(alloc),
    }
}
