ghost use Rattle.std.specs.Prelude.{◌≡◌, ◌≤◌, length, is_err, IfOk, IfSome, None};
ghost use Rattle.std.specs.Io.{ReadsAtMost, WritesAtMost};
ghost use Rattle.std.specs.Io.KnownBytes.{ReadConsumes, WriteAppends};
ghost use Rattle.mvm_outside.specs.Causes.{Rose, HasCause, CountsIdle, counted_if, is_idle, is_failure};
ghost use Rattle.mvm_outside.specs.Files.{HasFile, HasNoFile, HasLongFile, untold};

use crate::traits::{Failed, MOST_FILE_BYTES, Sink, Source, Store, StoreFault};
use crate::whole::{ReadRefusal, read_all};
use mvm_base::{Line, List};
use std::alloc::Global;
use std::fs;
use std::io::{ErrorKind, Read, Write};
use std::rt::Files;

/// Any reader of std as a source. Each error of the reader is a fault.
#[derive(Debug, Drop)]
pub struct ReadSource<R> {
    reader: R,
    faults: u64,
}

impl<R: Read> ReadSource<R> {
    /// A source of what the reader still gives.
    pub fn new(reader: R) -> ReadSource<R>
        ensures left { ⟦<ReadSource<R> as Source>⟧.left result ≡ R.remaining reader }
        ensures faults { ⟦<ReadSource<R> as Source>⟧.faults result ≡ 0 }
    {
        ReadSource { reader, faults: 0 }
    }
}

impl<R: Read> Source for ReadSource<R> {
    ghost left = { λ s. R.remaining s.reader };

    ghost faults = { λ s. s.faults };

    /// Counts a fault exactly where the reader fails.
    fn read(&mut self, buf: &mut [u8]) -> Result<usize, Failed>
        ensures bound { ReadsAtMost result buf.new }
        ensures bytes { ReadConsumes (R.remaining self.old.reader) (R.remaining self.new.reader) result buf.new }
        ensures cause { HasCause self.old.faults self.new.faults result }
        ensures counts { self.new.faults ≡ counted_if (is_err result) self.old.faults }
    {
        match self.reader.read(buf) {
            Ok(count) => Ok(count),
            Err(_) => {
                self.faults = self.faults.saturating_add(1);
                Err(Failed)
            }
        }
    }
}

/// Any writer of std as a sink. Each error of the writer is a fault.
#[derive(Debug, Drop)]
pub struct WriteSink<W> {
    writer: W,
    faults: u64,
    idle: u64,
}

impl<W: Write> WriteSink<W> {
    /// A sink into the writer.
    pub fn new(writer: W) -> WriteSink<W>
        ensures taken { ⟦<WriteSink<W> as Sink>⟧.taken result ≡ W.contents writer }
        ensures faults { ⟦<WriteSink<W> as Sink>⟧.faults result ≡ 0 }
        ensures idle { ⟦<WriteSink<W> as Sink>⟧.idle result ≡ 0 }
    {
        WriteSink {
            writer,
            faults: 0,
            idle: 0,
        }
    }
}

impl<W: Write> Sink for WriteSink<W> {
    ghost taken = { λ s. W.contents s.writer };

    ghost faults = { λ s. s.faults };

    ghost idle = { λ s. s.idle };

    /// Counts a fault exactly where the writer fails, and an idle write exactly where it takes nothing of a piece.
    fn write(&mut self, piece: &[u8]) -> Result<usize, Failed>
        ensures bound { WritesAtMost result piece.now }
        ensures bytes { WriteAppends (W.contents self.old.writer) (W.contents self.new.writer) result piece.now }
        ensures cause { HasCause self.old.faults self.new.faults result }
        ensures idle { CountsIdle self.old.idle self.new.idle result piece.now }
        ensures counts { self.new.faults ≡ counted_if (is_err result) self.old.faults }
        ensures idles { self.new.idle ≡ counted_if (is_idle result piece.now) self.old.idle }
    {
        match self.writer.write(piece) {
            Ok(0) => {
                if !piece.is_empty() {
                    self.idle = self.idle.saturating_add(1);
                }
                Ok(0)
            }
            Ok(count) => Ok(count),
            Err(_) => {
                self.faults = self.faults.saturating_add(1);
                Err(Failed)
            }
        }
    }
}

/// The files of the current folder as a store. A file that is not there is `None`; every other failure to open or
/// to read it is a fault. It tells nothing of what it holds, since no clause can say what a real file has.
#[derive(Drop)]
pub struct FolderStore<'a, R> {
    runtime: &'a R,
    faults: u64,
}

impl<'a, R: Files> FolderStore<'a, R> {
    /// The store of the folder that is current for this runtime.
    pub fn new(runtime: &'a R) -> FolderStore<'a, R>
        ensures { ⟦<FolderStore<'a, R> as Store>⟧.faults result ≡ 0 }
    {
        FolderStore { runtime, faults: 0 }
    }
}

/// The bytes of the file at a path, of which one byte past the limit is read at most.
fn read_path<R: Files>(
    runtime: &R,
    alloc: Global,
    path: &str,
) -> Result<Option<List<u8>>, StoreFault>
    ensures { IfOk result (λ file. IfSome file (λ bytes. length bytes ≤ MOST_FILE_BYTES)) }
{
    let file = match fs::open(runtime, path) {
        Ok(file) => file,
        Err(error) if error.kind() == ErrorKind::NotFound => return Ok(None),
        Err(_) => return Err(StoreFault::Failed),
    };
    match read_all(alloc, &mut ReadSource::new(file), MOST_FILE_BYTES) {
        Ok(bytes) => Ok(Some(bytes)),
        Err(ReadRefusal::ReadFault) => Err(StoreFault::Failed),
        Err(ReadRefusal::InputTooLong) => Err(StoreFault::TooLong),
        Err(ReadRefusal::OutOfMemory) => Err(StoreFault::OutOfMemory),
    }
}

impl<'a, R: Files> Store for FolderStore<'a, R> {
    ghost files = { λ _. untold };

    ghost faults = { λ s. s.faults };

    /// Counts a fault exactly where it answers `Failed`.
    fn read_file(&mut self, alloc: Global, name: &Line) -> Result<Option<List<u8>>, StoreFault>
        // The clauses of the trait come first. A real folder tells nothing of its files, so those on files ask nothing here.
        ensures kept { untold ≡ untold }
        ensures found { IfOk result (λ file. IfSome file (λ bytes. HasFile untold name.now bytes)) }
        ensures within { IfOk result (λ file. IfSome file (λ bytes. length bytes ≤ MOST_FILE_BYTES)) }
        ensures missing { result ≡ Ok None → HasNoFile untold name.now }
        ensures too_long { result ≡ Err StoreFault.TooLong → HasLongFile untold name.now MOST_FILE_BYTES }
        ensures later { self.old.faults ≤ self.new.faults }
        ensures failed { result ≡ Err StoreFault.Failed → Rose self.old.faults self.new.faults }
        ensures counts { self.new.faults ≡ counted_if (is_failure result) self.old.faults }
    {
        let answer = read_path(self.runtime, alloc, name.as_str());
        if let Err(StoreFault::Failed) = answer {
            self.faults = self.faults.saturating_add(1);
        }
        answer
    }
}
