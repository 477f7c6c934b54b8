// Rows that were worked by hand: built-in classes, fields and methods found, superclasses and access.
use crate::assembled::set_of;
use crate::question::{Question, Row, test_rows};
use mvm_base::Name;
use mvm_builtin::{builtin, native_number};
use mvm_layout::flags::{PRIVATE, PROTECTED, PUBLIC};
use std::alloc::{AllocError, Global};
use std::test::Fail;

/// A class with a field; one that extends it; an interface with a field of that name; a class that has both above it; and a class of a
/// package in another.
const CLASSES: [&str; 5] = [
    "class 33 A java/lang/Object\nfield 1 a I\n",
    "class 33 B A",
    "class 1537 I java/lang/Object\nfield 25 a I\n",
    "class 33 C A\nimplements I\n",
    "class 33 a/b/Far java/lang/Object",
];

const ROWS: [Row; 14] = [
    ("B", Question::Field("a", "I"), "1 A.a:I"),
    ("B", Question::Field("z", "I"), "NoField"),
    ("C", Question::Field("a", "I"), "1 I.a:I"),
    (
        "B",
        Question::Method("equals", "(Ljava/lang/Object;)Z"),
        "2 java/lang/Object.equals:(Ljava/lang/Object;)Z",
    ),
    ("B", Question::Method("gone", "()V"), "NoMethod"),
    (
        "java/lang/Runnable",
        Question::Method("run", "()V"),
        "Change",
    ),
    (
        "java/lang/Runnable",
        Question::InterfaceMethod("run", "()V"),
        "0 java/lang/Runnable.run:()V",
    ),
    ("B", Question::Under("A"), "true"),
    ("A", Question::Under("B"), "false"),
    ("B", Question::MayUse("A", PRIVATE), "false"),
    ("B", Question::MayUse("A", PROTECTED), "true"),
    ("B", Question::MayUse("A", PUBLIC), "true"),
    ("a/b/Far", Question::MayUse("a/Near", 0), "false"),
    ("Gone", Question::Links, "NoClass"),
];

#[test]
fn classes_and_members(rt: HostRuntime) -> Result<(), Fail> {
    let table = set_of(rt.alloc(), &CLASSES)?;
    test_rows(&rt, rt.alloc(), &table, &ROWS)
}

/// Names, and whether there is a built-in class of that name.
const BUILT_IN: [(&str, bool); 2] = [("java/lang/Object", true), ("java/util/List", false)];

#[test]
fn built_in_classes(rt: HostRuntime) -> Result<(), Fail> {
    for (name, is_one) in BUILT_IN {
        let found = builtin(rt.alloc(), &Name::from_ascii(rt.alloc(), name)?);
        let found = found.map_err(|_| AllocError)?;
        assert_eq!(rt; found.is_some(), is_one);
    }
    Ok(())
}

/// Methods without parameter and result, by their class and their name, and the number of each that is native. The last three are
/// inherited, bytecode, and abstract.
const NATIVE: [(&str, &str, Option<u16>); 5] = [
    ("java/lang/Object", "<init>", Some(0)),
    ("java/lang/Object", "notify", Some(3)),
    ("java/lang/Thread", "notify", None),
    ("java/lang/Thread", "run", None),
    ("java/lang/Runnable", "run", None),
];

/// The number of the native method of a class with this name and the descriptor `()V`.
fn number_of(alloc: Global, class: &str, name: &str) -> Result<Option<u16>, AllocError> {
    let class = Name::from_ascii(alloc, class)?;
    let name = Name::from_ascii(alloc, name)?;
    let desc = Name::from_ascii(alloc, "()V")?;
    Ok(native_number(&class, &name, &desc))
}

#[test]
fn native_methods(rt: HostRuntime) -> Result<(), Fail> {
    for (class, name, number) in NATIVE {
        assert_eq!(rt; number_of(rt.alloc(), class, name)?, number);
    }
    Ok(())
}
