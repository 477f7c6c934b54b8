ghost use Rattle.std.specs.Prelude.{◌≡◌, ◌≢◌, ℕ, Some, map, option_map, slice_get, MatchOption};
ghost use Rattle.mvm_insn.specs.Opcodes.{operands_of, mnemonic_of};

/// What stands behind an opcode, by the formats of JVM Specification 6.5.
#[derive(Clone, Copy, Debug, PartialEq, Eq)]
pub enum Operands {
    /// Nothing: the opcode stands alone.
    Alone,
    /// `byte`: a number to push, in two's complement (`bipush`).
    ByteNumber,
    /// `byte1 byte2`: the same in two bytes (`sipush`).
    ShortNumber,
    /// `index`: an entry of the constant pool, in one byte (`ldc`).
    BytePool,
    /// `indexbyte1 indexbyte2`: an entry of the constant pool, in two bytes.
    ShortPool,
    /// `index`: a local variable, in one byte.
    ByteLocal,
    /// `index const`: a local variable and what to add to it, a byte each (`iinc`).
    Increment,
    /// `branchbyte1 branchbyte2`: how far to go from the opcode's place, in two's complement.
    ShortJump,
    /// `branchbyte1` to `branchbyte4`: the same in four bytes (`goto_w`).
    LongJump,
    /// Up to three bytes of padding, default, low, high, and a jump offset for each key (`tableswitch`).
    Table,
    /// Up to three bytes of padding, default, npairs, and so many pairs of match and offset (`lookupswitch`).
    Lookup,
    /// `indexbyte1 indexbyte2 count 0`: an entry of the constant pool and a count (`invokeinterface`).
    Invocation,
    /// `atype`: the kind of an array's items (`newarray`).
    Items,
    /// `indexbyte1 indexbyte2 dimensions`: an entry of the constant pool and a count (`multianewarray`).
    Dimensions,
    /// An opcode and its operands in twice the width (`wide`).
    Widened,
    /// The instruction is not supported: one of float or double, `jsr`, `ret`, `jsr_w` or `invokedynamic`.
    Foreign,
    /// There is no such instruction.
    Absent,
}

/// The instructions, a row each in the order of their opcodes from 0 on: the mnemonic, and what stands behind the
/// opcode (JVM Specification 6.5). This table is the rule: the definition of [`crate::insn_at`] looks it up.
pub static TABLE: [(&str, Operands); 202] = [
    ("nop", Operands::Alone), // 0x00
    ("aconst_null", Operands::Alone), // 0x01
    ("iconst_m1", Operands::Alone), // 0x02
    ("iconst_0", Operands::Alone), // 0x03
    ("iconst_1", Operands::Alone), // 0x04
    ("iconst_2", Operands::Alone), // 0x05
    ("iconst_3", Operands::Alone), // 0x06
    ("iconst_4", Operands::Alone), // 0x07
    ("iconst_5", Operands::Alone), // 0x08
    ("lconst_0", Operands::Alone), // 0x09
    ("lconst_1", Operands::Alone), // 0x0a
    ("fconst_0", Operands::Foreign), // 0x0b
    ("fconst_1", Operands::Foreign), // 0x0c
    ("fconst_2", Operands::Foreign), // 0x0d
    ("dconst_0", Operands::Foreign), // 0x0e
    ("dconst_1", Operands::Foreign), // 0x0f
    ("bipush", Operands::ByteNumber), // 0x10
    ("sipush", Operands::ShortNumber), // 0x11
    ("ldc", Operands::BytePool), // 0x12
    ("ldc_w", Operands::ShortPool), // 0x13
    ("ldc2_w", Operands::ShortPool), // 0x14
    ("iload", Operands::ByteLocal), // 0x15
    ("lload", Operands::ByteLocal), // 0x16
    ("fload", Operands::Foreign), // 0x17
    ("dload", Operands::Foreign), // 0x18
    ("aload", Operands::ByteLocal), // 0x19
    ("iload_0", Operands::Alone), // 0x1a
    ("iload_1", Operands::Alone), // 0x1b
    ("iload_2", Operands::Alone), // 0x1c
    ("iload_3", Operands::Alone), // 0x1d
    ("lload_0", Operands::Alone), // 0x1e
    ("lload_1", Operands::Alone), // 0x1f
    ("lload_2", Operands::Alone), // 0x20
    ("lload_3", Operands::Alone), // 0x21
    ("fload_0", Operands::Foreign), // 0x22
    ("fload_1", Operands::Foreign), // 0x23
    ("fload_2", Operands::Foreign), // 0x24
    ("fload_3", Operands::Foreign), // 0x25
    ("dload_0", Operands::Foreign), // 0x26
    ("dload_1", Operands::Foreign), // 0x27
    ("dload_2", Operands::Foreign), // 0x28
    ("dload_3", Operands::Foreign), // 0x29
    ("aload_0", Operands::Alone), // 0x2a
    ("aload_1", Operands::Alone), // 0x2b
    ("aload_2", Operands::Alone), // 0x2c
    ("aload_3", Operands::Alone), // 0x2d
    ("iaload", Operands::Alone), // 0x2e
    ("laload", Operands::Alone), // 0x2f
    ("faload", Operands::Foreign), // 0x30
    ("daload", Operands::Foreign), // 0x31
    ("aaload", Operands::Alone), // 0x32
    ("baload", Operands::Alone), // 0x33
    ("caload", Operands::Alone), // 0x34
    ("saload", Operands::Alone), // 0x35
    ("istore", Operands::ByteLocal), // 0x36
    ("lstore", Operands::ByteLocal), // 0x37
    ("fstore", Operands::Foreign), // 0x38
    ("dstore", Operands::Foreign), // 0x39
    ("astore", Operands::ByteLocal), // 0x3a
    ("istore_0", Operands::Alone), // 0x3b
    ("istore_1", Operands::Alone), // 0x3c
    ("istore_2", Operands::Alone), // 0x3d
    ("istore_3", Operands::Alone), // 0x3e
    ("lstore_0", Operands::Alone), // 0x3f
    ("lstore_1", Operands::Alone), // 0x40
    ("lstore_2", Operands::Alone), // 0x41
    ("lstore_3", Operands::Alone), // 0x42
    ("fstore_0", Operands::Foreign), // 0x43
    ("fstore_1", Operands::Foreign), // 0x44
    ("fstore_2", Operands::Foreign), // 0x45
    ("fstore_3", Operands::Foreign), // 0x46
    ("dstore_0", Operands::Foreign), // 0x47
    ("dstore_1", Operands::Foreign), // 0x48
    ("dstore_2", Operands::Foreign), // 0x49
    ("dstore_3", Operands::Foreign), // 0x4a
    ("astore_0", Operands::Alone), // 0x4b
    ("astore_1", Operands::Alone), // 0x4c
    ("astore_2", Operands::Alone), // 0x4d
    ("astore_3", Operands::Alone), // 0x4e
    ("iastore", Operands::Alone), // 0x4f
    ("lastore", Operands::Alone), // 0x50
    ("fastore", Operands::Foreign), // 0x51
    ("dastore", Operands::Foreign), // 0x52
    ("aastore", Operands::Alone), // 0x53
    ("bastore", Operands::Alone), // 0x54
    ("castore", Operands::Alone), // 0x55
    ("sastore", Operands::Alone), // 0x56
    ("pop", Operands::Alone), // 0x57
    ("pop2", Operands::Alone), // 0x58
    ("dup", Operands::Alone), // 0x59
    ("dup_x1", Operands::Alone), // 0x5a
    ("dup_x2", Operands::Alone), // 0x5b
    ("dup2", Operands::Alone), // 0x5c
    ("dup2_x1", Operands::Alone), // 0x5d
    ("dup2_x2", Operands::Alone), // 0x5e
    ("swap", Operands::Alone), // 0x5f
    ("iadd", Operands::Alone), // 0x60
    ("ladd", Operands::Alone), // 0x61
    ("fadd", Operands::Foreign), // 0x62
    ("dadd", Operands::Foreign), // 0x63
    ("isub", Operands::Alone), // 0x64
    ("lsub", Operands::Alone), // 0x65
    ("fsub", Operands::Foreign), // 0x66
    ("dsub", Operands::Foreign), // 0x67
    ("imul", Operands::Alone), // 0x68
    ("lmul", Operands::Alone), // 0x69
    ("fmul", Operands::Foreign), // 0x6a
    ("dmul", Operands::Foreign), // 0x6b
    ("idiv", Operands::Alone), // 0x6c
    ("ldiv", Operands::Alone), // 0x6d
    ("fdiv", Operands::Foreign), // 0x6e
    ("ddiv", Operands::Foreign), // 0x6f
    ("irem", Operands::Alone), // 0x70
    ("lrem", Operands::Alone), // 0x71
    ("frem", Operands::Foreign), // 0x72
    ("drem", Operands::Foreign), // 0x73
    ("ineg", Operands::Alone), // 0x74
    ("lneg", Operands::Alone), // 0x75
    ("fneg", Operands::Foreign), // 0x76
    ("dneg", Operands::Foreign), // 0x77
    ("ishl", Operands::Alone), // 0x78
    ("lshl", Operands::Alone), // 0x79
    ("ishr", Operands::Alone), // 0x7a
    ("lshr", Operands::Alone), // 0x7b
    ("iushr", Operands::Alone), // 0x7c
    ("lushr", Operands::Alone), // 0x7d
    ("iand", Operands::Alone), // 0x7e
    ("land", Operands::Alone), // 0x7f
    ("ior", Operands::Alone), // 0x80
    ("lor", Operands::Alone), // 0x81
    ("ixor", Operands::Alone), // 0x82
    ("lxor", Operands::Alone), // 0x83
    ("iinc", Operands::Increment), // 0x84
    ("i2l", Operands::Alone), // 0x85
    ("i2f", Operands::Foreign), // 0x86
    ("i2d", Operands::Foreign), // 0x87
    ("l2i", Operands::Alone), // 0x88
    ("l2f", Operands::Foreign), // 0x89
    ("l2d", Operands::Foreign), // 0x8a
    ("f2i", Operands::Foreign), // 0x8b
    ("f2l", Operands::Foreign), // 0x8c
    ("f2d", Operands::Foreign), // 0x8d
    ("d2i", Operands::Foreign), // 0x8e
    ("d2l", Operands::Foreign), // 0x8f
    ("d2f", Operands::Foreign), // 0x90
    ("i2b", Operands::Alone), // 0x91
    ("i2c", Operands::Alone), // 0x92
    ("i2s", Operands::Alone), // 0x93
    ("lcmp", Operands::Alone), // 0x94
    ("fcmpl", Operands::Foreign), // 0x95
    ("fcmpg", Operands::Foreign), // 0x96
    ("dcmpl", Operands::Foreign), // 0x97
    ("dcmpg", Operands::Foreign), // 0x98
    ("ifeq", Operands::ShortJump), // 0x99
    ("ifne", Operands::ShortJump), // 0x9a
    ("iflt", Operands::ShortJump), // 0x9b
    ("ifge", Operands::ShortJump), // 0x9c
    ("ifgt", Operands::ShortJump), // 0x9d
    ("ifle", Operands::ShortJump), // 0x9e
    ("if_icmpeq", Operands::ShortJump), // 0x9f
    ("if_icmpne", Operands::ShortJump), // 0xa0
    ("if_icmplt", Operands::ShortJump), // 0xa1
    ("if_icmpge", Operands::ShortJump), // 0xa2
    ("if_icmpgt", Operands::ShortJump), // 0xa3
    ("if_icmple", Operands::ShortJump), // 0xa4
    ("if_acmpeq", Operands::ShortJump), // 0xa5
    ("if_acmpne", Operands::ShortJump), // 0xa6
    ("goto", Operands::ShortJump), // 0xa7
    ("jsr", Operands::Foreign), // 0xa8
    ("ret", Operands::Foreign), // 0xa9
    ("tableswitch", Operands::Table), // 0xaa
    ("lookupswitch", Operands::Lookup), // 0xab
    ("ireturn", Operands::Alone), // 0xac
    ("lreturn", Operands::Alone), // 0xad
    ("freturn", Operands::Foreign), // 0xae
    ("dreturn", Operands::Foreign), // 0xaf
    ("areturn", Operands::Alone), // 0xb0
    ("return", Operands::Alone), // 0xb1
    ("getstatic", Operands::ShortPool), // 0xb2
    ("putstatic", Operands::ShortPool), // 0xb3
    ("getfield", Operands::ShortPool), // 0xb4
    ("putfield", Operands::ShortPool), // 0xb5
    ("invokevirtual", Operands::ShortPool), // 0xb6
    ("invokespecial", Operands::ShortPool), // 0xb7
    ("invokestatic", Operands::ShortPool), // 0xb8
    ("invokeinterface", Operands::Invocation), // 0xb9
    ("invokedynamic", Operands::Foreign), // 0xba
    ("new", Operands::ShortPool), // 0xbb
    ("newarray", Operands::Items), // 0xbc
    ("anewarray", Operands::ShortPool), // 0xbd
    ("arraylength", Operands::Alone), // 0xbe
    ("athrow", Operands::Alone), // 0xbf
    ("checkcast", Operands::ShortPool), // 0xc0
    ("instanceof", Operands::ShortPool), // 0xc1
    ("monitorenter", Operands::Alone), // 0xc2
    ("monitorexit", Operands::Alone), // 0xc3
    ("wide", Operands::Widened), // 0xc4
    ("multianewarray", Operands::Dimensions), // 0xc5
    ("ifnull", Operands::ShortJump), // 0xc6
    ("ifnonnull", Operands::ShortJump), // 0xc7
    ("goto_w", Operands::LongJump), // 0xc8
    ("jsr_w", Operands::Foreign), // 0xc9
];

/// The row of an opcode, among rows in the order of the opcodes.
#[tactic(auto, using(crate::proofs::Tables::column))]
fn row_in<'a>(rows: &'a [(&'static str, Operands)], op: u8) -> Option<&'a (&'static str, Operands)>
    ensures mnemonic { option_map (λ row. row.now.0.now) result ≡ slice_get (map (λ row. row.0.now) rows.now) op }
    ensures operands { option_map (λ row. row.now.1) result ≡ slice_get (map (λ row. row.1) rows.now) op }
{
    rows.get(usize::from(op))
}

/// What stands behind an opcode; `Absent` where there is no instruction of it (JVM Specification 6.5).
#[tactic(auto, unfolding(crate::specs::Opcodes::operands_of))]
pub fn operands_of(op: u8) -> Operands
    ensures { result ≡ operands_of op }
{
    match row_in(&TABLE, op) {
        Some((_, operands)) => *operands,
        None => Operands::Absent,
    }
}

/// The mnemonic of an opcode; `None` where there is no instruction of it (JVM Specification 6.5).
#[tactic(auto, unfolding(crate::specs::Opcodes::mnemonic_of))]
pub fn mnemonic(op: u8) -> Option<&'static str>
    ensures { option_map (λ text. text.now) result ≡ mnemonic_of op }
{
    match row_in(&TABLE, op) {
        Some((mnemonic, _)) => Some(*mnemonic),
        None => None,
    }
}

/// The opcode with a mnemonic; `None` where no instruction has it (JVM Specification 6.5).
pub fn opcode_named(text: &str) -> Option<u8>
    ensures { MatchOption result ((op : ℕ) → mnemonic_of op ≢ Some text.now) (λ op. mnemonic_of op ≡ Some text.now) }
{
    for op in 0..TABLE.len() as u8 {
        if mnemonic(op) == Some(text) {
            return Some(op);
        }
    }
    None
}
