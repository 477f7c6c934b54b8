ghost use Rattle.std.specs.Prelude.{◌<◌, ◌^◌, length};

use mvm_base::{Base, DescFault, Name, decode_mutf8, encode_mutf8, parse_field, parse_method};
use std::alloc::Global;
use std::test::Fail;

#[test]
fn decodes_modified_utf8(rt: HostRuntime) -> Result<(), Fail> {
    let zero = decode_mutf8(rt.alloc(), &[0xc0, 0x80])?;
    assert_eq!(rt; zero.units(), [0].as_slice());
    let spelled = [0xed, 0xa0, 0xbd, 0xed, 0xb8, 0x80];
    let pair = decode_mutf8(rt.alloc(), &spelled)?;
    assert_eq!(rt; pair.units(), [0xd83d, 0xde00].as_slice());
    let bytes = encode_mutf8(rt.alloc(), &pair)?;
    assert_eq!(rt; bytes.as_slice(), spelled.as_slice());
    Ok(())
}

#[test]
fn parses_descriptors(rt: HostRuntime) -> Result<(), Fail> {
    let field = parse_field(rt.alloc(), &Name::from_ascii(rt.alloc(), "[[I")?)?;
    assert!(rt; field.dims == 2 && field.base == Base::Int);
    let method = parse_method(rt.alloc(), &Name::from_ascii(rt.alloc(), "(JI[J)J")?)?;
    assert!(rt; method.params.len() == 3 && method.slots() == 4 && method.result.is_some());
    Ok(())
}

/// Texts that are no descriptor of a field, and the fault of each.
const DESCRIPTOR_FAULTS: [(&str, DescFault); 5] = [
    ("", DescFault::Empty),
    ("La//b;", DescFault::BadLetter(3)),
    ("Lx", DescFault::Open),
    ("II", DescFault::Trailing),
    ("[D", DescFault::Float),
];

/// Whether the text is no descriptor of a field, with this fault.
fn has_fault(alloc: Global, text: &str, fault: DescFault) -> bool
    requires { length text.now < 2 ^ 32 }
{
    match Name::from_ascii(alloc, text) {
        Ok(name) => match parse_field(alloc, &name) {
            Ok(_) => false,
            Err(there) => there == fault,
        },
        Err(_) => false,
    }
}

#[test]
fn tells_faults_of_descriptors(rt: HostRuntime) -> Result<(), Fail> {
    for (text, fault) in DESCRIPTOR_FAULTS {
        assert!(rt; text.len() < 1000);
        assert!(rt; has_fault(rt.alloc(), text, fault), "{text}");
    }
    Ok(())
}
