// Rows that were worked by hand: which method a name and a descriptor mean where several interfaces have it, and which method a call
// selects, or why none.
use crate::assembled::set_of;
use crate::question::{Question, Row, test_rows};
use std::test::Fail;

/// An interface whose method has code, a class of it, an interface that has the method anew, and a class of both; two interfaces, each with
/// such a method, and a class of both.
const DEFAULTS: [&str; 7] = [
    "class 1537 Hi java/lang/Object\nmethod 1 hi ()V\ncode 0 1\nreturn\nend\n",
    "class 33 Greets java/lang/Object\nimplements Hi\n",
    "class 1537 Anew java/lang/Object\nimplements Hi\nmethod 1 hi ()V\ncode 0 1\nreturn\nend\n",
    "class 33 Both java/lang/Object\nimplements Hi\nimplements Anew\n",
    "class 1537 I1 java/lang/Object\nmethod 1 hi ()V\ncode 0 1\nreturn\nend\n",
    "class 1537 I2 java/lang/Object\nmethod 1 hi ()V\ncode 0 1\nreturn\nend\n",
    "class 33 Two java/lang/Object\nimplements I1\nimplements I2\n",
];

const DEFAULT_ROWS: [Row; 7] = [
    (
        "Greets",
        Question::Virtual("Hi", "hi", "()V"),
        "1 Hi.hi:()V",
    ),
    (
        "Greets",
        Question::Interface("Hi", "hi", "()V"),
        "1 Hi.hi:()V",
    ),
    (
        "Both",
        Question::Virtual("Hi", "hi", "()V"),
        "3 Anew.hi:()V",
    ),
    ("Two", Question::Method("hi", "()V"), "1 I1.hi:()V"),
    ("Two", Question::Virtual("Two", "hi", "()V"), "Change"),
    ("Hi", Question::Special("Hi", "hi", "()V"), "0 Hi.hi:()V"),
    (
        "Hi",
        Question::Special("java/lang/Object", "equals", "(Ljava/lang/Object;)Z"),
        "1 java/lang/Object.equals:(Ljava/lang/Object;)Z",
    ),
];

/// A class with a public method, and classes that extend it with a private and with a static one; a class whose method has no access flag,
/// and classes with a public one below it: in another package, in the same, and below that in another; an interface whose method has no
/// access flag, one that extends it and has the method public, a class of the first, and one below that class and of the second in another
/// package.
const OVERRIDES: [&str; 11] = [
    "class 33 A java/lang/Object\nmethod 1 m ()V\ncode 0 1\nreturn\nend\n",
    "class 33 Hides A\nmethod 2 m ()V\ncode 0 1\nreturn\nend\n",
    "class 33 Still A\nmethod 9 m ()V\ncode 0 0\nreturn\nend\n",
    "class 33 p/A java/lang/Object\nmethod 0 m ()V\ncode 0 1\nreturn\nend\n",
    "class 33 q/B p/A\nmethod 1 m ()V\ncode 0 1\nreturn\nend\n",
    "class 33 p/B p/A\nmethod 1 m ()V\ncode 0 1\nreturn\nend\n",
    "class 33 q/C p/B\nmethod 1 m ()V\ncode 0 1\nreturn\nend\n",
    "class 1537 p/I java/lang/Object\nmethod 1024 m ()V\n",
    "class 1537 p/J java/lang/Object\nimplements p/I\nmethod 1025 m ()V\n",
    "class 33 p/D java/lang/Object\nimplements p/I\n",
    "class 33 q/D p/D\nimplements p/J\nmethod 1 m ()V\ncode 0 1\nreturn\nend\n",
];

const OVERRIDE_ROWS: [Row; 5] = [
    ("Hides", Question::Virtual("A", "m", "()V"), "1 A.m:()V"),
    ("Still", Question::Virtual("A", "m", "()V"), "1 A.m:()V"),
    ("q/B", Question::Virtual("p/A", "m", "()V"), "1 p/A.m:()V"),
    ("q/C", Question::Virtual("p/A", "m", "()V"), "0 q/C.m:()V"),
    ("q/D", Question::Virtual("p/I", "m", "()V"), "0 q/D.m:()V"),
];

/// A class of `java/lang/Runnable` that has not its method, and one that has it without access flag; an interface whose method has code, a
/// class with that method abstract, and a class of both.
const REFUSED: [&str; 5] = [
    "class 33 Idle java/lang/Object\nimplements java/lang/Runnable\n",
    "class 33 Runs java/lang/Object\nimplements java/lang/Runnable\nmethod 0 run ()V\ncode 0 1\nreturn\nend\n",
    "class 1537 Hi java/lang/Object\nmethod 1 hi ()V\ncode 0 1\nreturn\nend\n",
    "class 1057 Bare java/lang/Object\nmethod 1025 hi ()V\n",
    "class 33 Under Bare\nimplements Hi\n",
];

const REFUSED_ROWS: [Row; 3] = [
    (
        "Idle",
        Question::Interface("java/lang/Runnable", "run", "()V"),
        "Abstract",
    ),
    (
        "Runs",
        Question::Interface("java/lang/Runnable", "run", "()V"),
        "Access",
    ),
    ("Under", Question::Virtual("Bare", "hi", "()V"), "Abstract"),
];

#[test]
fn methods_of_several_interfaces(rt: HostRuntime) -> Result<(), Fail> {
    let table = set_of(rt.alloc(), &DEFAULTS)?;
    test_rows(&rt, rt.alloc(), &table, &DEFAULT_ROWS)
}

#[test]
fn methods_that_override(rt: HostRuntime) -> Result<(), Fail> {
    let table = set_of(rt.alloc(), &OVERRIDES)?;
    test_rows(&rt, rt.alloc(), &table, &OVERRIDE_ROWS)
}

#[test]
fn calls_that_select_nothing(rt: HostRuntime) -> Result<(), Fail> {
    let table = set_of(rt.alloc(), &REFUSED)?;
    test_rows(&rt, rt.alloc(), &table, &REFUSED_ROWS)
}
