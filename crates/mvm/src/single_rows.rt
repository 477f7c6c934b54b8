// Class files that run alone and class files that do not, as texts, and what a run of one leaves.
use crate::alone::runs_alone;
use crate::single::run;
use crate::worked_rows::MAIN;
use mvm_asm::assemble;
use mvm_base::Name;
use mvm_history::End;
use std::alloc::{AllocError, Global};
use std::test::Fail;

// The lines of a class file behind `class 33 Main java/lang/Object`, and whether it runs alone.
const MEMBERS: [(&str, bool); 15] = [
    ("", true),
    ("method 33 m ()V\ncode 0 1\nreturn\nend", false),
    ("method 1 m ()V\ncode 0 1\nreturn\nend", true),
    (
        "method 9 m ()V\ncode 1 0\naconst_null\nmonitorenter\nreturn\nend",
        false,
    ),
    (
        "method 9 m ()V\ncode 1 0\naconst_null\nmonitorexit\nreturn\nend",
        false,
    ),
    // bytes of an instruction that are those of monitorenter and monitorexit
    (
        "method 9 m ()V\ncode 1 0\nsipush -15421\npop\nreturn\nend",
        true,
    ),
    // behind a byte that begins no instruction none is found
    (
        "method 9 m ()V\ncode 1 0\nbyte 0xFE\nmonitorenter\nreturn\nend",
        true,
    ),
    (
        "method 9 m ()V\ncode 1 0\nnew java/lang/Thread\npop\nreturn\nend",
        false,
    ),
    (
        "method 9 m ()V\ncode 1 0\nnew java/lang/Threads\npop\nreturn\nend",
        true,
    ),
    (
        "method 9 m ()V\ncode 1 0\nldc \"java/lang/Thread\"\npop\nreturn\nend",
        true,
    ),
    (
        "method 9 m ()V\ncode 1 0\naconst_null\ninvokevirtual Main.wait:()V\nreturn\nend",
        false,
    ),
    (
        "method 9 m ()V\ncode 1 0\naconst_null\ninvokevirtual A.notify:()V\nreturn\nend",
        false,
    ),
    (
        "method 9 m ()V\ncode 1 0\naconst_null\ninvokevirtual A.notifyAll:()V\nreturn\nend",
        false,
    ),
    (
        "method 9 m ()V\ncode 1 0\ngetstatic A.wait:I\npop\nreturn\nend",
        false,
    ),
    // a method of that name that nothing names
    ("method 9 wait ()V\ncode 0 0\nreturn\nend", true),
];

// Names of classes, as quoted texts, and whether a user can have a class of the name.
const NAMES: [(&str, bool); 9] = [
    ("a/Main", true),
    ("java/Main", false),
    ("javax/Main", false),
    ("mvm/Main", false),
    ("java", true),
    ("javas/Main", true),
    ("a/java/Main", true),
    ("\\uD83D\\uDE00", true),
    ("\\uD83D", false),
];

// Whether the class file that a text says runs alone.
fn text_runs_alone(alloc: Global, text: &str) -> Result<bool, Fail> {
    if text.len() > 1_000_000 {
        return Ok(false);
    }
    let class = assemble(alloc, text.as_bytes())?;
    Ok(runs_alone(&class))
}

// Whether a class file without members, of this name, runs alone.
fn name_runs_alone(alloc: Global, name: &str) -> Result<bool, Fail> {
    let mut text = String::from_str(alloc, "pool 1 utf8 \"")?;
    text.push_str(name)?;
    text.push_str("\"\npool 2 class #1\nclass 33 #2 java/lang/Object\n")?;
    text_runs_alone(alloc, text.as_str())
}

// A name of so many characters.
fn long_name(alloc: Global, count: usize) -> Result<String, AllocError> {
    let mut name = String::new(alloc);
    for _ in 0..count {
        name.push('A')?;
    }
    Ok(name)
}

#[test]
fn tells_by_members_what_runs_alone(rt: HostRuntime) -> Result<(), Fail> {
    for (members, alone) in MEMBERS {
        let mut text = String::from_str(rt.alloc(), "class 33 Main java/lang/Object\n")?;
        text.push_str(members)?;
        assert_eq!(rt; text_runs_alone(rt.alloc(), text.as_str())?, alone);
    }
    Ok(())
}

#[test]
fn tells_by_names_what_runs_alone(rt: HostRuntime) -> Result<(), Fail> {
    for (name, alone) in NAMES {
        assert_eq!(rt; name_runs_alone(rt.alloc(), name)?, alone);
    }
    for (count, alone) in [(255, true), (256, false)] {
        let name = long_name(rt.alloc(), count)?;
        assert_eq!(rt; name_runs_alone(rt.alloc(), name.as_str())?, alone);
    }
    Ok(())
}

#[test]
fn leaves_what_was_printed(rt: HostRuntime) -> Result<(), Fail> {
    let name = Name::from_ascii(rt.alloc(), "Main")?;
    let block = run(rt.alloc(), &name, &MAIN)?;
    assert_eq!(rt; block.main.units(), name.units());
    assert_eq!(rt; block.output.as_str(), "0\n1\n2\n3\n4\n5\n6\n7\n8\n9\n");
    assert_eq!(rt; block.uncaught.len(), 0);
    assert_eq!(rt; block.end, End::Exit(0));
    Ok(())
}
