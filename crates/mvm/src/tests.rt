use crate::outcome::{Block, Outcome};
use crate::refusal::{Refusal, refusal_text};
use crate::report::report;
use mvm_base::{Line, List, Name};
use mvm_classfile::ClassFault;
use mvm_history::{End, LimitKind};
use mvm_interp::Uncaught;
use std::alloc::{AllocError, Global};
use std::test::Fail;

// How an isolate ended, and how that reads.
const ENDS: [(End, &str); 10] = [
    (End::Exit(-2147483648), "exit -2147483648"),
    (End::Limit(LimitKind::Steps), "limit steps"),
    (End::Limit(LimitKind::Threads), "limit threads"),
    (End::Limit(LimitKind::Output), "limit output"),
    (End::Limit(LimitKind::Log), "limit log"),
    (End::Limit(LimitKind::Clock), "limit clock"),
    (End::Limit(LimitKind::Messages), "limit messages"),
    (End::Halted { by: 2, status: -3 }, "halted by 2 status -3"),
    (End::Stalled, "stalled"),
    (End::NeverStarted, "never started"),
];

// An isolate with one exception, or with none where that has no class.
fn block(
    alloc: Global,
    main: &[u16],
    class: &str,
    message: Option<Name>,
    output: &str,
    end: End,
) -> Result<Block, AllocError> {
    let mut uncaught = List::new(alloc);
    if !class.is_empty() {
        let class = Name::from_ascii(alloc, class)?;
        uncaught.push(Uncaught {
            thread: 0,
            class,
            message,
        })?;
    }
    let mut printed = Line::new(alloc);
    printed.push_str(output)?;
    let main = Name::from_vec(Vec::from_slice(alloc, main)?);
    Ok(Block {
        main,
        output: printed,
        uncaught,
        end,
    })
}

// The report of one isolate, or of two.
fn reported(alloc: Global, first: Block, second: Option<Block>) -> Result<Line, AllocError> {
    let mut isolates = List::new(alloc);
    isolates.push(first)?;
    if let Some(second) = second {
        isolates.push(second)?;
    }
    report(alloc, &Outcome { isolates }, false).map_err(|_| AllocError)
}

#[test]
fn reports_isolates(rt: HostRuntime) -> Result<(), Fail> {
    let alloc = rt.alloc();
    let main = [77, 97, 105, 110];
    let thrown = block(
        alloc,
        &main,
        "java/lang/VerifyError",
        None,
        "0\n1",
        End::Exit(1),
    )?;
    let thrown = reported(alloc, thrown, None)?;
    assert_eq!(rt;
        thrown.as_str(),
        "isolate 0 Main\nend exit 1\nuncaught 0 java/lang/VerifyError\noutput 3\n0\n1\ndone 1\n"
    );

    let limited = block(alloc, &main, "", None, "", End::Limit(LimitKind::Steps))?;
    let limited = reported(alloc, limited, None)?;
    assert_eq!(rt;
        limited.as_str(),
        "isolate 0 Main\nend limit steps\noutput 0\ndone 1\n"
    );

    let message = Name::from_ascii(alloc, "m")?;
    let odd = [0xd800, 31, 0xd83d, 0xde00, 32, 0xde00, 0xe9, 0xdbff];
    let odd = block(alloc, &odd, "C", Some(message), "x\n", End::Exit(0))?;
    let plain = block(alloc, &main, "", None, "\n", End::Exit(0))?;
    let two = reported(alloc, odd, Some(plain))?;
    assert_eq!(rt;
        two.as_str(),
        "isolate 0 ??\u{1f600} ?é?\nend exit 0\nuncaught 0 C: m\noutput 2\nx\nisolate 1 Main\nend exit 0\noutput 1\n\ndone 0\n"
    );
    Ok(())
}

#[test]
fn reports_ends(rt: HostRuntime) -> Result<(), Fail> {
    for (end, told) in ENDS {
        let ended = block(rt.alloc(), &[77], "", None, "", end)?;
        let ended = reported(rt.alloc(), ended, None)?;
        let mut expected = String::from_str(rt.alloc(), "isolate 0 M\nend ")?;
        expected.push_str(told)?;
        expected.push_str("\noutput 0\ndone 1\n")?;
        assert_eq!(rt; ended.as_str(), expected.as_str());
    }
    Ok(())
}

#[test]
fn tells_a_refusal(rt: HostRuntime) -> Result<(), Fail> {
    let text = refusal_text(rt.alloc(), &Refusal::WriteFault(16)).map_err(|_| AllocError)?;
    assert_eq!(rt; text.as_str(), "write failed after 16 bytes");
    let fault = Refusal::Class(ClassFault::Shape(4294967295));
    let text = refusal_text(rt.alloc(), &fault).map_err(|_| AllocError)?;
    assert_eq!(rt; text.as_str(), "class: shape 4294967295");
    Ok(())
}
