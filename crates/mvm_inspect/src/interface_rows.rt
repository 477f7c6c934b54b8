use crate::inspect::{Finding, inspect};
use mvm_classfile::ClassFault;
use std::test::Fail;

/// The interface `A` under `java/lang/Object`, with one method: it is public, its name is `f`, its descriptor `()V`, and its code `return`.
/// The texts of the pool are 2 `A`, 4, 5 `f`, 6 `()V`, 7 `Code`, 8 `<clinit>`. The flags of the class stand at 67, the method at 79.
const INTERFACE: [u8; 108] = [
    0xca, 0xfe, 0xba, 0xbe, 0x00, 0x00, 0x00, 0x34, 0x00, 0x09, 0x07, 0x00, 0x02, 0x01, 0x00, 0x01,
    0x41, 0x07, 0x00, 0x04, 0x01, 0x00, 0x10, 0x6a, 0x61, 0x76, 0x61, 0x2f, 0x6c, 0x61, 0x6e, 0x67,
    0x2f, 0x4f, 0x62, 0x6a, 0x65, 0x63, 0x74, 0x01, 0x00, 0x01, 0x66, 0x01, 0x00, 0x03, 0x28, 0x29,
    0x56, 0x01, 0x00, 0x04, 0x43, 0x6f, 0x64, 0x65, 0x01, 0x00, 0x08, 0x3c, 0x63, 0x6c, 0x69, 0x6e,
    0x69, 0x74, 0x3e, 0x06, 0x00, 0x00, 0x01, 0x00, 0x03, 0x00, 0x00, 0x00, 0x00, 0x00, 0x01, 0x00,
    0x01, 0x00, 0x05, 0x00, 0x06, 0x00, 0x01, 0x00, 0x07, 0x00, 0x00, 0x00, 0x0d, 0x00, 0x00, 0x00,
    0x01, 0x00, 0x00, 0x00, 0x01, 0xb1, 0x00, 0x00, 0x00, 0x00, 0x00, 0x00,
];

/// Majors, flags of the method and indices of its name, and what is wrong with the file then (4.6).
const METHODS: [(u8, u8, u8, Finding); 7] = [
    (52, 0x01, 5, Finding::Sound),
    (45, 0x03, 5, Finding::Class(ClassFault::Unsupported(79))),
    (52, 0x00, 8, Finding::Sound),
    (51, 0x31, 8, Finding::Sound),
    (52, 0x00, 1, Finding::Class(ClassFault::Shape(79))),
    (51, 0x00, 1, Finding::Class(ClassFault::Unsupported(79))),
    (52, 0x01, 1, Finding::Class(ClassFault::Shape(81))),
];

/// Places, the byte that is put there, and the fault that the file has then.
const FAULTS: [(usize, u8, ClassFault); 4] = [
    (12, 0x03, ClassFault::Pool(1)),
    (88, 0x05, ClassFault::Shape(79)),
    (42, 0x2f, ClassFault::Shape(81)),
    (48, 0x46, ClassFault::Unsupported(83)),
];

#[test]
fn code_of_an_interface(rt: HostRuntime) -> Result<(), Fail> {
    for (major, flags, name, finding) in METHODS {
        let mut file = INTERFACE;
        file[7] = major;
        file[80] = flags;
        file[82] = name;
        assert_eq!(rt;
            inspect(rt.alloc(), &file),
            finding,
            "{major} {flags} {name}"
        );
    }
    Ok(())
}

#[test]
fn faults_of_an_interface(rt: HostRuntime) -> Result<(), Fail> {
    for (at, byte, fault) in FAULTS {
        let mut file = INTERFACE;
        assert!(rt; at < file.len());
        file[at] = byte;
        assert_eq!(rt;
            inspect(rt.alloc(), &file),
            Finding::Class(fault),
            "changed at {at}"
        );
    }
    Ok(())
}
