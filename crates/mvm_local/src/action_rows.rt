ghost use Rattle.std.specs.Prelude.{◌≡◌, slice_get, unwrap_or};
ghost use Rattle.mvm_local.specs.Rows.{action_in, action_of};

use crate::action::{Action, Condition, Operation, Test};
use mvm_base::Kind;

/// What the instructions do, a row each in the order of their opcodes from 0 on (JVM Specification 6.5). This table is the
/// rule: the definition of an attempt looks it up.
pub static ACTIONS: [Action; 202] = [
    Action::Operate(Operation::Nothing), // 0x00 nop
    Action::Operate(Operation::PushNull), // 0x01 aconst_null
    Action::Operate(Operation::PushInt(-1)), // 0x02 iconst_m1
    Action::Operate(Operation::PushInt(0)), // 0x03 iconst_0
    Action::Operate(Operation::PushInt(1)), // 0x04 iconst_1
    Action::Operate(Operation::PushInt(2)), // 0x05 iconst_2
    Action::Operate(Operation::PushInt(3)), // 0x06 iconst_3
    Action::Operate(Operation::PushInt(4)), // 0x07 iconst_4
    Action::Operate(Operation::PushInt(5)), // 0x08 iconst_5
    Action::Operate(Operation::PushLong(0)), // 0x09 lconst_0
    Action::Operate(Operation::PushLong(1)), // 0x0a lconst_1
    Action::Absent, // 0x0b fconst_0
    Action::Absent, // 0x0c fconst_1
    Action::Absent, // 0x0d fconst_2
    Action::Absent, // 0x0e dconst_0
    Action::Absent, // 0x0f dconst_1
    Action::PushByte, // 0x10 bipush
    Action::PushShort, // 0x11 sipush
    Action::Beyond, // 0x12 ldc
    Action::Beyond, // 0x13 ldc_w
    Action::Beyond, // 0x14 ldc2_w
    Action::Load(Kind::Int), // 0x15 iload
    Action::Load(Kind::Long), // 0x16 lload
    Action::Absent, // 0x17 fload
    Action::Absent, // 0x18 dload
    Action::Load(Kind::Ref), // 0x19 aload
    Action::LoadFrom(Kind::Int, 0), // 0x1a iload_0
    Action::LoadFrom(Kind::Int, 1), // 0x1b iload_1
    Action::LoadFrom(Kind::Int, 2), // 0x1c iload_2
    Action::LoadFrom(Kind::Int, 3), // 0x1d iload_3
    Action::LoadFrom(Kind::Long, 0), // 0x1e lload_0
    Action::LoadFrom(Kind::Long, 1), // 0x1f lload_1
    Action::LoadFrom(Kind::Long, 2), // 0x20 lload_2
    Action::LoadFrom(Kind::Long, 3), // 0x21 lload_3
    Action::Absent, // 0x22 fload_0
    Action::Absent, // 0x23 fload_1
    Action::Absent, // 0x24 fload_2
    Action::Absent, // 0x25 fload_3
    Action::Absent, // 0x26 dload_0
    Action::Absent, // 0x27 dload_1
    Action::Absent, // 0x28 dload_2
    Action::Absent, // 0x29 dload_3
    Action::LoadFrom(Kind::Ref, 0), // 0x2a aload_0
    Action::LoadFrom(Kind::Ref, 1), // 0x2b aload_1
    Action::LoadFrom(Kind::Ref, 2), // 0x2c aload_2
    Action::LoadFrom(Kind::Ref, 3), // 0x2d aload_3
    Action::Beyond, // 0x2e iaload
    Action::Beyond, // 0x2f laload
    Action::Absent, // 0x30 faload
    Action::Absent, // 0x31 daload
    Action::Beyond, // 0x32 aaload
    Action::Beyond, // 0x33 baload
    Action::Beyond, // 0x34 caload
    Action::Beyond, // 0x35 saload
    Action::Store(Kind::Int), // 0x36 istore
    Action::Store(Kind::Long), // 0x37 lstore
    Action::Absent, // 0x38 fstore
    Action::Absent, // 0x39 dstore
    Action::Store(Kind::Ref), // 0x3a astore
    Action::StoreTo(Kind::Int, 0), // 0x3b istore_0
    Action::StoreTo(Kind::Int, 1), // 0x3c istore_1
    Action::StoreTo(Kind::Int, 2), // 0x3d istore_2
    Action::StoreTo(Kind::Int, 3), // 0x3e istore_3
    Action::StoreTo(Kind::Long, 0), // 0x3f lstore_0
    Action::StoreTo(Kind::Long, 1), // 0x40 lstore_1
    Action::StoreTo(Kind::Long, 2), // 0x41 lstore_2
    Action::StoreTo(Kind::Long, 3), // 0x42 lstore_3
    Action::Absent, // 0x43 fstore_0
    Action::Absent, // 0x44 fstore_1
    Action::Absent, // 0x45 fstore_2
    Action::Absent, // 0x46 fstore_3
    Action::Absent, // 0x47 dstore_0
    Action::Absent, // 0x48 dstore_1
    Action::Absent, // 0x49 dstore_2
    Action::Absent, // 0x4a dstore_3
    Action::StoreTo(Kind::Ref, 0), // 0x4b astore_0
    Action::StoreTo(Kind::Ref, 1), // 0x4c astore_1
    Action::StoreTo(Kind::Ref, 2), // 0x4d astore_2
    Action::StoreTo(Kind::Ref, 3), // 0x4e astore_3
    Action::Beyond, // 0x4f iastore
    Action::Beyond, // 0x50 lastore
    Action::Absent, // 0x51 fastore
    Action::Absent, // 0x52 dastore
    Action::Beyond, // 0x53 aastore
    Action::Beyond, // 0x54 bastore
    Action::Beyond, // 0x55 castore
    Action::Beyond, // 0x56 sastore
    Action::Operate(Operation::Shuffle), // 0x57 pop
    Action::Operate(Operation::Shuffle), // 0x58 pop2
    Action::Operate(Operation::Shuffle), // 0x59 dup
    Action::Operate(Operation::Shuffle), // 0x5a dup_x1
    Action::Operate(Operation::Shuffle), // 0x5b dup_x2
    Action::Operate(Operation::Shuffle), // 0x5c dup2
    Action::Operate(Operation::Shuffle), // 0x5d dup2_x1
    Action::Operate(Operation::Shuffle), // 0x5e dup2_x2
    Action::Operate(Operation::Shuffle), // 0x5f swap
    Action::Operate(Operation::Ints), // 0x60 iadd
    Action::Operate(Operation::Longs), // 0x61 ladd
    Action::Absent, // 0x62 fadd
    Action::Absent, // 0x63 dadd
    Action::Operate(Operation::Ints), // 0x64 isub
    Action::Operate(Operation::Longs), // 0x65 lsub
    Action::Absent, // 0x66 fsub
    Action::Absent, // 0x67 dsub
    Action::Operate(Operation::Ints), // 0x68 imul
    Action::Operate(Operation::Longs), // 0x69 lmul
    Action::Absent, // 0x6a fmul
    Action::Absent, // 0x6b dmul
    Action::Operate(Operation::Ints), // 0x6c idiv
    Action::Operate(Operation::Longs), // 0x6d ldiv
    Action::Absent, // 0x6e fdiv
    Action::Absent, // 0x6f ddiv
    Action::Operate(Operation::Ints), // 0x70 irem
    Action::Operate(Operation::Longs), // 0x71 lrem
    Action::Absent, // 0x72 frem
    Action::Absent, // 0x73 drem
    Action::Operate(Operation::NegateInt), // 0x74 ineg
    Action::Operate(Operation::NegateLong), // 0x75 lneg
    Action::Absent, // 0x76 fneg
    Action::Absent, // 0x77 dneg
    Action::Operate(Operation::Ints), // 0x78 ishl
    Action::Operate(Operation::ShiftLong), // 0x79 lshl
    Action::Operate(Operation::Ints), // 0x7a ishr
    Action::Operate(Operation::ShiftLong), // 0x7b lshr
    Action::Operate(Operation::Ints), // 0x7c iushr
    Action::Operate(Operation::ShiftLong), // 0x7d lushr
    Action::Operate(Operation::Ints), // 0x7e iand
    Action::Operate(Operation::Longs), // 0x7f land
    Action::Operate(Operation::Ints), // 0x80 ior
    Action::Operate(Operation::Longs), // 0x81 lor
    Action::Operate(Operation::Ints), // 0x82 ixor
    Action::Operate(Operation::Longs), // 0x83 lxor
    Action::Increment, // 0x84 iinc
    Action::Operate(Operation::Convert(Kind::Int)), // 0x85 i2l
    Action::Absent, // 0x86 i2f
    Action::Absent, // 0x87 i2d
    Action::Operate(Operation::Convert(Kind::Long)), // 0x88 l2i
    Action::Absent, // 0x89 l2f
    Action::Absent, // 0x8a l2d
    Action::Absent, // 0x8b f2i
    Action::Absent, // 0x8c f2l
    Action::Absent, // 0x8d f2d
    Action::Absent, // 0x8e d2i
    Action::Absent, // 0x8f d2l
    Action::Absent, // 0x90 d2f
    Action::Operate(Operation::Convert(Kind::Int)), // 0x91 i2b
    Action::Operate(Operation::Convert(Kind::Int)), // 0x92 i2c
    Action::Operate(Operation::Convert(Kind::Int)), // 0x93 i2s
    Action::Operate(Operation::Compare), // 0x94 lcmp
    Action::Absent, // 0x95 fcmpl
    Action::Absent, // 0x96 fcmpg
    Action::Absent, // 0x97 dcmpl
    Action::Absent, // 0x98 dcmpg
    Action::Branch(Test::Zero(Condition::Equal)), // 0x99 ifeq
    Action::Branch(Test::Zero(Condition::NotEqual)), // 0x9a ifne
    Action::Branch(Test::Zero(Condition::Less)), // 0x9b iflt
    Action::Branch(Test::Zero(Condition::GreaterOrEqual)), // 0x9c ifge
    Action::Branch(Test::Zero(Condition::Greater)), // 0x9d ifgt
    Action::Branch(Test::Zero(Condition::LessOrEqual)), // 0x9e ifle
    Action::Branch(Test::Ints(Condition::Equal)), // 0x9f if_icmpeq
    Action::Branch(Test::Ints(Condition::NotEqual)), // 0xa0 if_icmpne
    Action::Branch(Test::Ints(Condition::Less)), // 0xa1 if_icmplt
    Action::Branch(Test::Ints(Condition::GreaterOrEqual)), // 0xa2 if_icmpge
    Action::Branch(Test::Ints(Condition::Greater)), // 0xa3 if_icmpgt
    Action::Branch(Test::Ints(Condition::LessOrEqual)), // 0xa4 if_icmple
    Action::Branch(Test::Same), // 0xa5 if_acmpeq
    Action::Branch(Test::Different), // 0xa6 if_acmpne
    Action::Branch(Test::Always), // 0xa7 goto
    Action::Absent, // 0xa8 jsr
    Action::Absent, // 0xa9 ret
    Action::Switch, // 0xaa tableswitch
    Action::Switch, // 0xab lookupswitch
    Action::Beyond, // 0xac ireturn
    Action::Beyond, // 0xad lreturn
    Action::Absent, // 0xae freturn
    Action::Absent, // 0xaf dreturn
    Action::Beyond, // 0xb0 areturn
    Action::Beyond, // 0xb1 return
    Action::Beyond, // 0xb2 getstatic
    Action::Beyond, // 0xb3 putstatic
    Action::Beyond, // 0xb4 getfield
    Action::Beyond, // 0xb5 putfield
    Action::Beyond, // 0xb6 invokevirtual
    Action::Beyond, // 0xb7 invokespecial
    Action::Beyond, // 0xb8 invokestatic
    Action::Beyond, // 0xb9 invokeinterface
    Action::Absent, // 0xba invokedynamic
    Action::Beyond, // 0xbb new
    Action::Beyond, // 0xbc newarray
    Action::Beyond, // 0xbd anewarray
    Action::Beyond, // 0xbe arraylength
    Action::Beyond, // 0xbf athrow
    Action::Beyond, // 0xc0 checkcast
    Action::Beyond, // 0xc1 instanceof
    Action::Beyond, // 0xc2 monitorenter
    Action::Beyond, // 0xc3 monitorexit
    Action::Wide, // 0xc4 wide
    Action::Beyond, // 0xc5 multianewarray
    Action::Branch(Test::Null), // 0xc6 ifnull
    Action::Branch(Test::NonNull), // 0xc7 ifnonnull
    Action::LongGoto, // 0xc8 goto_w
    Action::Absent, // 0xc9 jsr_w
];

/// The row of an opcode, among rows in the order of the opcodes.
fn action_in(rows: &[Action], op: u8) -> Action
    ensures { result ≡ action_in rows.now op }
{
    match rows.get(usize::from(op)) {
        Some(action) => *action,
        None => Action::Absent,
    }
}

/// What the instruction of an opcode does; `Absent` where there is none (JVM Specification 6.5).
#[tactic(auto, unfolding(crate::specs::Rows::action_of))]
pub fn action_of(op: u8) -> Action
    ensures { result ≡ action_of op }
{
    action_in(&ACTIONS, op)
}
