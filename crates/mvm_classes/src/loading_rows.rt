// Rows that were worked by hand: classes that load and link, or why not; entries of the constant pool; the shelf.
use crate::assembled::{chain, lattice, set_of, set_of_version, set_under};
use crate::question::{Question, Row, answer, shelve, test_rows};
use std::test::Fail;

/// Two classes, each of which extends the other; a class whose code ends behind an instruction that goes on, and one that extends it; and a
/// class that calls a method of `mvm/Sys`, whose constant pool is written out.
const CLASSES: [&str; 5] = [
    "class 33 Left Right",
    "class 33 Right Left",
    "class 33 Bad java/lang/Object\nmethod 9 m ()V\ncode 0 0\nnop\nend\n",
    "class 33 Below Bad",
    "\
pool 1 utf8 \"mvm/Sys\"
pool 2 class #1
pool 3 utf8 \"println\"
pool 4 utf8 \"(I)V\"
pool 5 nat #3 #4
pool 6 method #2 #5
class 33 Main java/lang/Object
method 9 main ([Ljava/lang/String;)V
code 1 1
iconst_0
invokestatic #6
return
end
",
];

const ROWS: [Row; 7] = [
    ("Left", Question::Links, "Circular"),
    ("Gone", Question::Links, "NoClass"),
    (
        "Below",
        Question::Links,
        "Check(Bad { method: 0, at: 0, kind: OffEnd })",
    ),
    ("Main", Question::Links, "links"),
    ("Main", Question::Entry(6), "0 mvm/Sys.println:(I)V"),
    ("Main", Question::Entry(2), "class mvm/Sys"),
    ("Main", Question::Entry(0), "other"),
];

#[test]
fn loading_and_linking(rt: HostRuntime) -> Result<(), Fail> {
    let table = set_of(rt.alloc(), &CLASSES)?;
    test_rows(&rt, rt.alloc(), &table, &ROWS)
}

#[test]
fn the_file_of_another_class(rt: HostRuntime) -> Result<(), Fail> {
    let table = set_under(rt.alloc(), "Alias", "class 33 A java/lang/Object")?;
    let alias = answer(rt.alloc(), &table, "Alias", Question::Links)?;
    assert_eq!(rt; alias.as_str(), "WrongName");
    let gone = answer(rt.alloc(), &table, "A", Question::Links)?;
    assert_eq!(rt; gone.as_str(), "NoClass");
    Ok(())
}

/// An interface with a method that has code, which stands at 70 in its class file. Class files of the first version have no such methods.
const HI: &str = "class 1537 Hi java/lang/Object\nmethod 1 hi ()V\ncode 0 1\nreturn\nend\n";

const VERSIONS: [(u8, &str); 2] = [(52, "links"), (51, "Format(Unsupported(70))")];

#[test]
fn versions(rt: HostRuntime) -> Result<(), Fail> {
    for (major, wanted) in VERSIONS {
        let table = set_of_version(rt.alloc(), "Hi", HI, major)?;
        let told = answer(rt.alloc(), &table, "Hi", Question::Links)?;
        assert_eq!(rt; told.as_str(), wanted);
    }
    Ok(())
}

#[test]
fn hostile_sets(rt: HostRuntime) -> Result<(), Fail> {
    let table = chain(rt.alloc(), 1000)?;
    let line = answer(rt.alloc(), &table, "K300", Question::Supers)?;
    assert_eq!(rt; line.as_str(), "302 302");
    let all = answer(rt.alloc(), &table, "K999", Question::Supers)?;
    assert_eq!(rt; all.as_str(), "1001 1001");
    let table = lattice(rt.alloc(), 41)?;
    let crossed = answer(rt.alloc(), &table, "A40", Question::Supers)?;
    assert_eq!(rt; crossed.as_str(), "2 82");
    Ok(())
}

/// A class, and one that extends it.
const PAIR: [&str; 2] = ["class 33 A java/lang/Object", "class 33 B A"];

#[test]
fn the_shelf(rt: HostRuntime) -> Result<(), Fail> {
    let mut table = set_of(rt.alloc(), &PAIR)?;
    let built_in = answer(rt.alloc(), &table, "java/lang/Object", Question::Shelved)?;
    assert_eq!(rt; built_in.as_str(), "true");
    assert_eq!(rt; table.decoded(), 0);
    let before = answer(rt.alloc(), &table, "B", Question::Shelved)?;
    assert_eq!(rt; before.as_str(), "false");
    assert_eq!(rt; table.decoded(), 2);
    shelve(rt.alloc(), &mut table, "B")?;
    assert_eq!(rt; table.decoded(), 4);
    let behind = answer(rt.alloc(), &table, "B", Question::Shelved)?;
    assert_eq!(rt; behind.as_str(), "true");
    assert_eq!(rt; table.decoded(), 4);
    Ok(())
}
