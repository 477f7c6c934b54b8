// Calls of `launch` over memory, with the answers that they must give.
use crate::launch::launch;
use crate::outcome::{Ended, What};
use crate::refusal::Refusal;
use mvm_base::List;
use mvm_classfile::ClassFault;
use mvm_outside::{MemorySink, MemorySource, MemoryStore, NoGate};
use std::alloc::{AllocError, Global};
use std::test::Fail;
use std::thread::Threads;

// A class `Main` that prints the numbers from 0 to 9.
pub(crate) const MAIN: [u8; 180] = [
    0xca, 0xfe, 0xba, 0xbe, 0x00, 0x00, 0x00, 0x34, 0x00, 0x0e, 0x01, 0x00, 0x04, 0x4d, 0x61, 0x69,
    0x6e, 0x07, 0x00, 0x01, 0x01, 0x00, 0x10, 0x6a, 0x61, 0x76, 0x61, 0x2f, 0x6c, 0x61, 0x6e, 0x67,
    0x2f, 0x4f, 0x62, 0x6a, 0x65, 0x63, 0x74, 0x07, 0x00, 0x03, 0x01, 0x00, 0x04, 0x6d, 0x61, 0x69,
    0x6e, 0x01, 0x00, 0x16, 0x28, 0x5b, 0x4c, 0x6a, 0x61, 0x76, 0x61, 0x2f, 0x6c, 0x61, 0x6e, 0x67,
    0x2f, 0x53, 0x74, 0x72, 0x69, 0x6e, 0x67, 0x3b, 0x29, 0x56, 0x01, 0x00, 0x04, 0x43, 0x6f, 0x64,
    0x65, 0x01, 0x00, 0x07, 0x6d, 0x76, 0x6d, 0x2f, 0x53, 0x79, 0x73, 0x07, 0x00, 0x08, 0x01, 0x00,
    0x07, 0x70, 0x72, 0x69, 0x6e, 0x74, 0x6c, 0x6e, 0x01, 0x00, 0x04, 0x28, 0x49, 0x29, 0x56, 0x0c,
    0x00, 0x0a, 0x00, 0x0b, 0x0a, 0x00, 0x09, 0x00, 0x0c, 0x00, 0x21, 0x00, 0x02, 0x00, 0x04, 0x00,
    0x00, 0x00, 0x00, 0x00, 0x01, 0x00, 0x09, 0x00, 0x05, 0x00, 0x06, 0x00, 0x01, 0x00, 0x07, 0x00,
    0x00, 0x00, 0x1f, 0x00, 0x02, 0x00, 0x02, 0x00, 0x00, 0x00, 0x13, 0x03, 0x3c, 0x1b, 0x10, 0x0a,
    0xa2, 0x00, 0x0d, 0x1b, 0xb8, 0x00, 0x0d, 0x84, 0x01, 0x01, 0xa7, 0xff, 0xf3, 0xb1, 0x00, 0x00,
    0x00, 0x00, 0x00, 0x00,
];

const REPORT: &str =
    "isolate 0 Main\nend exit 0\noutput 20\n0\n1\n2\n3\n4\n5\n6\n7\n8\n9\ndone 0\n";

const VERIFY_ERROR: &str =
    "isolate 0 Main\nend exit 1\nuncaught 0 java/lang/VerifyError\noutput 0\ndone 1\n";

// How many bytes a sink takes in a call, where it takes all.
pub(crate) const ALL: usize = usize::MAX;

// A place of the class and the byte that is put there; the number of the read that fails, how many bytes the sink takes in a
// call, and the number of the write that fails; then the status, the refusal, and what the sink took.
const ROWS: [(
    usize,
    u8,
    Option<u64>,
    usize,
    Option<u64>,
    u8,
    Option<Refusal>,
    &str,
); 8] = [
    (0, 0xca, None, ALL, None, 0, None, REPORT),
    (148, 0x01, None, ALL, None, 1, None, VERIFY_ERROR),
    (150, 0x01, None, ALL, None, 1, None, VERIFY_ERROR),
    // the method is synchronized
    (
        134,
        0x29,
        None,
        ALL,
        None,
        4,
        Some(Refusal::Class(ClassFault::Unsupported(0))),
        "",
    ),
    // all bytes are read, and then a read fails
    (0, 0xca, Some(1), ALL, None, 3, Some(Refusal::ReadFault), ""),
    (
        0,
        0xca,
        None,
        16,
        Some(1),
        5,
        Some(Refusal::WriteFault(16)),
        "isolate 0 Main\ne",
    ),
    (0, 0xca, None, 0, None, 5, Some(Refusal::WriteFault(0)), ""),
    (0, 0xca, None, 1, None, 0, None, REPORT),
];

// The class with one byte changed.
fn main_with(alloc: Global, place: usize, byte: u8) -> Result<List<u8>, AllocError> {
    let mut bytes = List::from_slice(alloc, &MAIN)?;
    if place < bytes.len() {
        bytes.set(place, byte);
    }
    Ok(bytes)
}

// A list of the number, if there is one.
fn numbers(alloc: Global, number: Option<u64>) -> Result<List<u64>, AllocError> {
    let mut numbers = List::new(alloc);
    if let Some(number) = number {
        numbers.push(number)?;
    }
    Ok(numbers)
}

// What a call answers, with what the sink took.
#[derive(Drop)]
pub(crate) struct Answer {
    pub status: u8,
    pub refusal: Option<Refusal>,
    pub taken: List<u8>,
}

// What `launch` answers to this word.
fn answer_to<R: Threads + Sync>(
    rt: &R,
    alloc: Global,
    word: &str,
    source: &mut MemorySource,
    sink: &mut MemorySink,
) -> Result<Ended, AllocError> {
    let words = [String::from_str(alloc, word)?];
    let mut store = MemoryStore::new(List::new(alloc), List::new(alloc));
    Ok(launch(rt, alloc, &words, source, &mut store, sink, &NoGate))
}

// A call with this word over these bytes, of whose reads and writes those of these numbers fail, into a sink that takes so many
// bytes a call.
pub(crate) fn call<R: Threads + Sync>(
    rt: &R,
    alloc: Global,
    word: &str,
    bytes: List<u8>,
    failing_read: Option<u64>,
    most: usize,
    failing_write: Option<u64>,
) -> Result<Answer, AllocError> {
    let mut source = MemorySource::new(bytes, numbers(alloc, failing_read)?);
    let mut sink = MemorySink::new(alloc, most, numbers(alloc, failing_write)?);
    let ended = answer_to(rt, alloc, word, &mut source, &mut sink)?;
    Ok(Answer {
        status: ended.status,
        refusal: refusal_of(&ended),
        taken: List::from_slice(alloc, sink.as_slice())?,
    })
}

fn refusal_of(ended: &Ended) -> Option<Refusal> {
    match &ended.what {
        What::Refused(refusal) => Some(*refusal),
        What::Ran(_) | What::Made | What::OutOfMemory => None,
    }
}

#[test]
fn answers_the_rows(rt: HostRuntime) -> Result<(), Fail> {
    for (place, byte, failing_read, most, failing_write, status, refusal, taken) in ROWS {
        let bytes = main_with(rt.alloc(), place, byte)?;
        let answer = call(
            &rt,
            rt.alloc(),
            "run",
            bytes,
            failing_read,
            most,
            failing_write,
        )?;
        assert_eq!(rt; answer.taken.as_slice(), taken.as_bytes());
        assert_eq!(rt; answer.status, status);
        assert_eq!(rt; answer.refusal, refusal);
    }
    Ok(())
}

#[test]
fn runs_into_the_limit_of_output(rt: HostRuntime) -> Result<(), Fail> {
    let mut endless = String::from_str(
        rt.alloc(),
        "isolate 0 Main\nend limit output\noutput 65536\n",
    )?;
    for _ in 0..32_768 {
        endless.push_str("0\n")?;
    }
    endless.push_str("done 1\n")?;
    let iinc_by_0 = main_with(rt.alloc(), 169, 0x00)?;
    let answer = call(&rt, rt.alloc(), "run", iinc_by_0, None, ALL, None)?;
    assert!(rt; answer.taken.as_slice() == endless.as_bytes());
    assert_eq!(rt; answer.status, 1);
    Ok(())
}

#[test]
fn refuses_what_is_empty_or_too_long(rt: HostRuntime) -> Result<(), Fail> {
    let empty = call(
        &rt,
        rt.alloc(),
        "run",
        List::new(rt.alloc()),
        None,
        ALL,
        None,
    )?;
    let truncated = Refusal::Class(ClassFault::Truncated(0));
    assert_eq!(rt; empty.refusal, Some(truncated));
    let long = List::from_vec(vec![in rt.alloc(); 0; 1_048_577]?);
    let long = call(&rt, rt.alloc(), "run", long, None, ALL, None)?;
    assert_eq!(rt; long.refusal, Some(Refusal::InputTooLong));
    Ok(())
}
