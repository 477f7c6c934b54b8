ghost use Rattle.std.specs.Prelude.{◌≤◌, ◌+◌};

use crate::inspect::{Finding, inspect};
use mvm_check::{CheckFault, CheckKind};
use mvm_classfile::{ClassFault, ClassFile, write_class};
use mvm_layout::read_layout;
use mvm_shape::shape;
use std::test::Fail;

/// The class file of `public class Main`, whose `main` counts an int from 0 to 9 and prints each.
const MAIN: [u8; 180] = [
    0xca, 0xfe, 0xba, 0xbe, 0x00, 0x00, 0x00, 0x34, 0x00, 0x0e, 0x01, 0x00, 0x04, 0x4d, 0x61, 0x69,
    0x6e, 0x07, 0x00, 0x01, 0x01, 0x00, 0x10, 0x6a, 0x61, 0x76, 0x61, 0x2f, 0x6c, 0x61, 0x6e, 0x67,
    0x2f, 0x4f, 0x62, 0x6a, 0x65, 0x63, 0x74, 0x07, 0x00, 0x03, 0x01, 0x00, 0x04, 0x6d, 0x61, 0x69,
    0x6e, 0x01, 0x00, 0x16, 0x28, 0x5b, 0x4c, 0x6a, 0x61, 0x76, 0x61, 0x2f, 0x6c, 0x61, 0x6e, 0x67,
    0x2f, 0x53, 0x74, 0x72, 0x69, 0x6e, 0x67, 0x3b, 0x29, 0x56, 0x01, 0x00, 0x04, 0x43, 0x6f, 0x64,
    0x65, 0x01, 0x00, 0x07, 0x6d, 0x76, 0x6d, 0x2f, 0x53, 0x79, 0x73, 0x07, 0x00, 0x08, 0x01, 0x00,
    0x07, 0x70, 0x72, 0x69, 0x6e, 0x74, 0x6c, 0x6e, 0x01, 0x00, 0x04, 0x28, 0x49, 0x29, 0x56, 0x0c,
    0x00, 0x0a, 0x00, 0x0b, 0x0a, 0x00, 0x09, 0x00, 0x0c, 0x00, 0x21, 0x00, 0x02, 0x00, 0x04, 0x00,
    0x00, 0x00, 0x00, 0x00, 0x01, 0x00, 0x09, 0x00, 0x05, 0x00, 0x06, 0x00, 0x01, 0x00, 0x07, 0x00,
    0x00, 0x00, 0x1f, 0x00, 0x02, 0x00, 0x02, 0x00, 0x00, 0x00, 0x13, 0x03, 0x3c, 0x1b, 0x10, 0x0a,
    0xa2, 0x00, 0x0d, 0x1b, 0xb8, 0x00, 0x0d, 0x84, 0x01, 0x01, 0xa7, 0xff, 0xf3, 0xb1, 0x00, 0x00,
    0x00, 0x00, 0x00, 0x00,
];

/// Lengths to which the file is cut, and the place of what is not whole then.
const CUTS: [(usize, u32); 11] = [
    (0, 0),
    (5, 4),
    (9, 8),
    (11, 11),
    (15, 13),
    (18, 18),
    (50, 50),
    (124, 123),
    (145, 143),
    (160, 147),
    (179, 178),
];

/// Places, the bytes that are put there, how many of them, and the fault that the file has then.
const FAULTS: [(usize, [u8; 4], usize, ClassFault); 14] = [
    (3, [0xbf, 0, 0, 0], 1, ClassFault::Magic),
    (7, [0x35, 0, 0, 0], 1, ClassFault::Version(53)),
    (8, [0, 0, 0, 0], 2, ClassFault::Pool(0)),
    (13, [0x80, 0, 0, 0], 1, ClassFault::Pool(1)),
    (17, [2, 0, 0, 0], 1, ClassFault::Pool(2)),
    (92, [0, 0x0d, 0, 0], 2, ClassFault::Pool(9)),
    (92, [0xff, 0xff, 0, 0], 2, ClassFault::Pool(9)),
    (123, [0, 5, 0, 0], 2, ClassFault::Shape(123)),
    (125, [0, 0, 0, 0], 2, ClassFault::Shape(125)),
    (133, [1, 9, 0, 0], 2, ClassFault::Shape(133)),
    (135, [0, 6, 0, 0], 2, ClassFault::Shape(135)),
    (137, [0, 5, 0, 0], 2, ClassFault::Shape(137)),
    (143, [0xff, 0xff, 0xff, 0xff], 4, ClassFault::Truncated(147)),
    (151, [0, 0, 0, 0], 4, ClassFault::Shape(141)),
];

/// The same, and the place and kind of the fault that the code of `main` has then.
const CODE_FAULTS: [(usize, [u8; 4], usize, u32, CheckKind); 6] = [
    (149, [0, 0, 0, 0], 2, 0, CheckKind::BadLocal),
    (155, [0xba, 0, 0, 0], 1, 0, CheckKind::Unsupported),
    (155, [0xcb, 0, 0, 0], 1, 0, CheckKind::BadOpcode),
    (165, [0, 0x0c, 0, 0], 2, 9, CheckKind::BadIndex),
    (172, [0xf5, 0, 0, 0], 1, 15, CheckKind::BadTarget),
    (173, [0, 0, 0, 0], 1, 18, CheckKind::OffEnd),
];

/// The file with some of the bytes put in at a place.
fn changed(at: usize, bytes: [u8; 4], count: usize) -> [u8; 180]
    requires place { at + 4 ≤ 180 }
    requires count { count ≤ 4 }
{
    let mut file = MAIN;
    for k in 0..count {
        file[at + k] = bytes[k];
    }
    file
}

/// Majors, flags of `main` where the class is an interface with code in it, and what is wrong with the file then (4.6).
const INTERFACE_METHODS: [(u8, u8, Finding); 8] = [
    (52, 0x09, Finding::Sound),
    (52, 0x0a, Finding::Sound),
    (52, 0x08, Finding::Class(ClassFault::Shape(133))),
    (52, 0x0b, Finding::Class(ClassFault::Shape(133))),
    (52, 0x0d, Finding::Class(ClassFault::Shape(133))),
    (52, 0x19, Finding::Class(ClassFault::Shape(133))),
    (52, 0x29, Finding::Class(ClassFault::Shape(133))),
    (51, 0x09, Finding::Class(ClassFault::Unsupported(133))),
];

/// The file with other flags of its one method, as an abstract public interface.
fn interface(major: u8, flags: u8) -> [u8; 180] {
    let mut file = changed(121, [0x06, 0x01, 0, 0], 2);
    file[7] = major;
    file[134] = flags;
    file
}

#[test]
fn cut_files_are_truncated(rt: HostRuntime) -> Result<(), Fail> {
    for (length, place) in CUTS {
        assert!(rt; length <= MAIN.len());
        let expected = Finding::Class(ClassFault::Truncated(place));
        assert_eq!(rt;
            inspect(rt.alloc(), &MAIN[..length]),
            expected,
            "cut to {length}"
        );
    }
    Ok(())
}

#[test]
fn faults_of_the_file_are_found(rt: HostRuntime) -> Result<(), Fail> {
    for (at, bytes, count, fault) in FAULTS {
        assert!(rt; at <= 176 && count <= 4);
        let finding = inspect(rt.alloc(), &changed(at, bytes, count));
        assert_eq!(rt; finding, Finding::Class(fault), "changed at {at}");
    }
    Ok(())
}

#[test]
fn faults_of_the_code_are_found(rt: HostRuntime) -> Result<(), Fail> {
    for (place, bytes, count, at, kind) in CODE_FAULTS {
        assert!(rt; place <= 176 && count <= 4);
        let finding = inspect(rt.alloc(), &changed(place, bytes, count));
        let fault = CheckFault::Bad {
            method: 0,
            at,
            kind,
        };
        assert_eq!(rt; finding, Finding::Code(fault), "changed at {place}");
    }
    Ok(())
}

#[test]
fn methods_of_interfaces_with_code_have_their_flags(rt: HostRuntime) -> Result<(), Fail> {
    for (major, flags, finding) in INTERFACE_METHODS {
        let file = interface(major, flags);
        assert_eq!(rt; inspect(rt.alloc(), &file), finding, "{major} {flags}");
    }
    Ok(())
}

#[test]
fn sound_files_are_sound(rt: HostRuntime) -> Result<(), Fail> {
    assert_eq!(rt; inspect(rt.alloc(), &MAIN), Finding::Sound);
    // the branch back leads to another instruction
    let other = changed(172, [0xf4, 0, 0, 0], 1);
    assert_eq!(rt; inspect(rt.alloc(), &other), Finding::Sound);
    Ok(())
}

#[test]
fn a_byte_behind_the_end_is_trailing(rt: HostRuntime) -> Result<(), Fail> {
    let mut longer = Vec::from_slice(rt.alloc(), &MAIN)?;
    longer.push(0)?;
    assert!(rt; longer.len() < 1000);
    assert_eq!(rt;
        inspect(rt.alloc(), &longer),
        Finding::Class(ClassFault::Trailing(180))
    );
    Ok(())
}

#[test]
fn its_parts_are_the_class_again(rt: HostRuntime) -> Result<(), Fail> {
    let parts = shape(rt.alloc(), read_layout(rt.alloc(), &MAIN)?)?;
    let class = ClassFile::from_parts(rt.alloc(), parts)?;
    let bytes = write_class(rt.alloc(), &class)?;
    assert_eq!(rt; bytes.as_slice(), MAIN.as_slice());
    Ok(())
}
