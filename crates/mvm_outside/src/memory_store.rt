ghost use Rattle.std.specs.Prelude.{◌≡◌, ◌≢◌, ◌≤◌, length, IsTrue, IfOk, IfSome, Some};
ghost use Rattle.std.specs.Option.{option_copied};
ghost use Rattle.mvm_outside.specs.Causes.{Rose, counted_if, is_failure, next_count};
ghost use Rattle.mvm_outside.specs.Files.{HasFile, HasNoFile, HasLongFile, file_of};
ghost use Rattle.mvm_outside.specs.Memory.{is_failing};

use crate::file_row::FileRow;
use crate::traits::{MOST_FILE_BYTES, Store, StoreFault};
use mvm_base::{Line, List};
use std::alloc::Global;
use std::marker::Model;

/// The bytes of the first row of this name.
fn find_file<'a>(rows: &'a [FileRow], name: &Line) -> Option<&'a List<u8>>
    ensures { option_copied result ≡ file_of rows.now name.now }
{
    for row in rows {
        if row.name.as_bytes() == name.as_bytes() {
            return Some(&row.bytes);
        }
    }
    None
}

/// A copy of the bytes of the first row of this name, as a store answers.
fn copy_file(alloc: Global, rows: &[FileRow], name: &Line) -> Result<Option<List<u8>>, StoreFault>
    ensures found { IfOk result (λ file. file ≡ file_of rows.now name.now) }
    ensures within { IfOk result (λ file. IfSome file (λ bytes. length bytes ≤ MOST_FILE_BYTES)) }
    ensures too_long { result ≡ Err StoreFault.TooLong → HasLongFile (Some (file_of rows.now)) name.now MOST_FILE_BYTES }
    ensures whole { result ≢ Err StoreFault.Failed }
{
    match find_file(rows, name) {
        None => Ok(None),
        Some(bytes) if bytes.len() > MOST_FILE_BYTES => Err(StoreFault::TooLong),
        Some(bytes) => match List::from_slice(alloc, bytes.as_slice()) {
            Ok(copy) => Ok(Some(copy)),
            Err(_) => Err(StoreFault::OutOfMemory),
        },
    }
}

/// A store over memory that fails where it is told to.
#[derive(Debug, Drop)]
pub struct MemoryStore {
    rows: List<FileRow>,
    failing: List<u64>,
    calls: u64,
    faults: u64,
}

impl Model for MemoryStore {
    ghost use Rattle.mvm_outside.specs.Memory.{StoreState};

    ghost Value = { StoreState };

    ghost view = { λ s. record { rows = s.rows; failing = s.failing; calls = s.calls; faults = s.faults } };
}

impl MemoryStore {
    /// A store of these files, of which the calls whose numbers stand in `failing` fail. Of rows with equal names
    /// the first is the file. Calls are numbered from 0. With an empty `failing` no call fails, and the count of
    /// faults stays 0.
    pub fn new(files: List<FileRow>, failing: List<u64>) -> MemoryStore
        ensures { result ≡ record { rows = files; failing = failing; calls = 0; faults = 0 } }
    {
        MemoryStore {
            rows: files,
            failing,
            calls: 0,
            faults: 0,
        }
    }
}

impl Store for MemoryStore {
    ghost files = { λ s. Some (file_of s.rows) };

    ghost faults = { λ s. s.faults };

    /// Fails exactly where the number of the call is one of those that fail, and counts a fault exactly there.
    fn read_file(&mut self, alloc: Global, name: &Line) -> Result<Option<List<u8>>, StoreFault>
        ensures kept { Some (file_of self.new.rows) ≡ Some (file_of self.old.rows) }
        ensures found { IfOk result (λ file. IfSome file (λ bytes. HasFile (Some (file_of self.old.rows)) name.now bytes)) }
        ensures within { IfOk result (λ file. IfSome file (λ bytes. length bytes ≤ MOST_FILE_BYTES)) }
        ensures missing { result ≡ Ok None → HasNoFile (Some (file_of self.old.rows)) name.now }
        ensures too_long { result ≡ Err StoreFault.TooLong → HasLongFile (Some (file_of self.old.rows)) name.now MOST_FILE_BYTES }
        ensures later { self.old.faults ≤ self.new.faults }
        ensures failed { result ≡ Err StoreFault.Failed → Rose self.old.faults self.new.faults }
        ensures fails { IsTrue (is_failing self.old.failing self.old.calls) → result ≡ Err StoreFault.Failed }
        ensures fails_only { result ≡ Err StoreFault.Failed → IsTrue (is_failing self.old.failing self.old.calls) }
        ensures counts { self.new.faults ≡ counted_if (is_failure result) self.old.faults }
        ensures others { self.new ≡ record self.old { calls = next_count self.old.calls; faults = self.new.faults } }
    {
        let call = self.calls;
        self.calls = call.saturating_add(1);
        if self.failing.as_slice().contains(&call) {
            self.faults = self.faults.saturating_add(1);
            return Err(StoreFault::Failed);
        }
        copy_file(alloc, self.rows.as_slice(), name)
    }
}

/// A store over memory that never fails: its count of faults is always 0. To a clause it is its rows, of which
/// the first of a name is the file.
#[derive(Debug, Drop)]
pub struct NeverStore {
    rows: List<FileRow>,
}

impl Model for NeverStore {
    ghost use Rattle.std.specs.Prelude.{List};
    ghost use Rattle.mvm_outside.specs.declared.file_row.FileRow.{FileRow};

    ghost Value = { List FileRow };

    ghost view = { λ s. s.rows };
}

impl NeverStore {
    /// A store of these files. Of rows with equal names the first is the file.
    pub fn new(files: List<FileRow>) -> NeverStore
        ensures { result ≡ files }
    {
        NeverStore { rows: files }
    }
}

impl Store for NeverStore {
    ghost files = { λ s. Some (file_of s) };

    ghost faults = { λ _. 0 };

    /// Never fails.
    fn read_file(&mut self, alloc: Global, name: &Line) -> Result<Option<List<u8>>, StoreFault>
        ensures kept { Some (file_of self.new) ≡ Some (file_of self.old) }
        ensures found { IfOk result (λ file. IfSome file (λ bytes. HasFile (Some (file_of self.old)) name.now bytes)) }
        ensures within { IfOk result (λ file. IfSome file (λ bytes. length bytes ≤ MOST_FILE_BYTES)) }
        ensures missing { result ≡ Ok None → HasNoFile (Some (file_of self.old)) name.now }
        ensures too_long { result ≡ Err StoreFault.TooLong → HasLongFile (Some (file_of self.old)) name.now MOST_FILE_BYTES }
        ensures later { 0 ≤ 0 }
        ensures failed { result ≡ Err StoreFault.Failed → Rose 0 0 }
        ensures never { result ≢ Err StoreFault.Failed }
        ensures same { self.new ≡ self.old }
    {
        copy_file(alloc, self.rows.as_slice(), name)
    }
}
