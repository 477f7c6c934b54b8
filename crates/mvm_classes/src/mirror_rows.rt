// Rows that were worked by hand: how far the initialisation of a class is in one isolate.
use crate::assembled::set_of;
use crate::question::class_of;
use mvm_mirror::{Begin, InitState, Mirrors};
use std::test::Fail;

const CLASSES: [&str; 2] = ["class 33 A java/lang/Object", "class 33 B A"];

#[test]
fn initialisation(rt: HostRuntime) -> Result<(), Fail> {
    let table = set_of(rt.alloc(), &CLASSES)?;
    let class = class_of(rt.alloc(), &table, "A")?;
    let mut mirrors = Mirrors::new(rt.alloc());
    assert_eq!(rt; mirrors.add(&class)?, 0);
    assert_eq!(rt; mirrors.add(&class)?, 0);
    assert_eq!(rt; mirrors.count(), 1);
    assert_eq!(rt; mirrors.begin(0, 0), Begin::Run);
    assert_eq!(rt; mirrors.begin(0, 0), Begin::Done);
    assert_eq!(rt; mirrors.begin(0, 1), Begin::Wait);
    mirrors.fail(0);
    assert_eq!(rt; mirrors.begin(0, 1), Begin::Erroneous);
    Ok(())
}

#[test]
fn mirrors_by_name(rt: HostRuntime) -> Result<(), Fail> {
    let table = set_of(rt.alloc(), &CLASSES)?;
    let mut mirrors = Mirrors::new(rt.alloc());
    for name in ["java/lang/Object", "B"] {
        let class = class_of(rt.alloc(), &table, name)?;
        mirrors.add(&class)?;
    }
    assert_eq!(rt; mirrors.count(), 2);
    assert_eq!(rt; mirrors.state(0), InitState::Initialised);
    assert_eq!(rt; mirrors.state(1), InitState::NotBegun);
    assert_eq!(rt; mirrors.class_object(1), None);
    mirrors.set_class_object(1, 7);
    assert_eq!(rt; mirrors.class_object(1), Some(7));
    assert_eq!(rt; mirrors.class_object(0), None);
    mirrors.finish(1);
    assert_eq!(rt; mirrors.begin(1, 3), Begin::Done);
    Ok(())
}
