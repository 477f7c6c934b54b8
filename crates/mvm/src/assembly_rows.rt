// Calls of `launch` with the words `asm` and `dump` over memory, with the answers that they must give.
use crate::refusal::{Refusal, refusal_text};
use crate::worked_rows::{ALL, Answer, MAIN, call};
use mvm_asm::AsmFault;
use mvm_base::List;
use mvm_classfile::ClassFault;
use mvm_statement::AsmKind;
use std::alloc::{AllocError, Global};
use std::test::Fail;
use std::thread::Threads;

// The text of a class file without members, and the class file.
const EMPTY_TEXT: &str = "class 33 A java/lang/Object";

const EMPTY: [u8; 53] = [
    0xca, 0xfe, 0xba, 0xbe, 0x00, 0x00, 0x00, 0x34, 0x00, 0x05, 0x01, 0x00, 0x01, 0x41, 0x07, 0x00,
    0x01, 0x01, 0x00, 0x10, 0x6a, 0x61, 0x76, 0x61, 0x2f, 0x6c, 0x61, 0x6e, 0x67, 0x2f, 0x4f, 0x62,
    0x6a, 0x65, 0x63, 0x74, 0x07, 0x00, 0x03, 0x00, 0x21, 0x00, 0x02, 0x00, 0x04, 0x00, 0x00, 0x00,
    0x00, 0x00, 0x00, 0x00, 0x00,
];

// The text of the example, whose class file is `MAIN`.
const COUNT: &str = "\
class 33 Main java/lang/Object
method 9 main ([Ljava/lang/String;)V
  code 2 2
    iconst_0
    istore_1
  loop:
    iload_1
    bipush 10
    if_icmpge done
    iload_1
    invokestatic mvm/Sys.println:(I)V
    iinc 1 1
    goto loop
  done:
    return
  end
";

// A text that is refused, its fault, and how that reads.
const REFUSED: [(&str, AsmFault, &str); 7] = [
    ("clas", AsmFault::At(1, AsmKind::Word), "line 1: word"),
    (
        "class 33 A",
        AsmFault::At(1, AsmKind::Operand),
        "line 1: operand",
    ),
    (
        "\nclass 65536 A java/lang/Object",
        AsmFault::At(2, AsmKind::Range),
        "line 2: range",
    ),
    (
        "class 33 A java/lang/Object\nmethod 9 m ()V\ncode 0 0\ngoto on\nend\n",
        AsmFault::At(5, AsmKind::Label),
        "line 5: label",
    ),
    ("", AsmFault::At(1, AsmKind::Order), "line 1: order"),
    (
        "pool 2 utf8 \"A\"\nclass 33 A java/lang/Object",
        AsmFault::At(1, AsmKind::Pool),
        "line 1: pool",
    ),
    // a superclass is missing
    (
        "class 33 A none",
        AsmFault::Refused(ClassFault::Shape(21)),
        "class: shape 21",
    ),
];

// What the command answers to this input, where nothing fails.
fn answer<R: Threads + Sync>(
    rt: &R,
    alloc: Global,
    command: &str,
    input: &[u8],
) -> Result<Answer, AllocError> {
    let bytes = List::from_slice(alloc, input)?;
    call(rt, alloc, command, bytes, None, ALL, None)
}

#[test]
fn refuses_texts(rt: HostRuntime) -> Result<(), Fail> {
    for (text, fault, told) in REFUSED {
        let refused = answer(&rt, rt.alloc(), "asm", text.as_bytes())?;
        let refusal = Refusal::Assembly(fault);
        assert_eq!(rt; refused.refusal, Some(refusal));
        assert_eq!(rt; refused.status, 4);
        let line = refusal_text(rt.alloc(), &refusal).map_err(|_| AllocError)?;
        assert_eq!(rt; line.as_str(), told);
    }
    Ok(())
}

#[test]
fn makes_class_files_and_texts(rt: HostRuntime) -> Result<(), Fail> {
    let empty = answer(&rt, rt.alloc(), "asm", EMPTY_TEXT.as_bytes())?;
    assert_eq!(rt; empty.taken.as_slice(), EMPTY.as_slice());
    let count = answer(&rt, rt.alloc(), "asm", COUNT.as_bytes())?;
    assert_eq!(rt; count.taken.as_slice(), MAIN.as_slice());
    let text = answer(&rt, rt.alloc(), "dump", &MAIN)?;
    assert_eq!(rt; text.status, 0);
    let again = answer(&rt, rt.alloc(), "asm", text.taken.as_slice())?;
    assert_eq!(rt; again.taken.as_slice(), MAIN.as_slice());
    Ok(())
}
