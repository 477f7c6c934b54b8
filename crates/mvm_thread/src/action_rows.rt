ghost use Rattle.std.specs.Prelude.{◌≡◌, slice_get, unwrap_or};
ghost use Rattle.mvm_thread.specs.Rows.{action_in, action_of};

use crate::action::Action;
use mvm_base::Kind;
use mvm_heap::ItemKind;

/// What the instructions do that reach beyond their frame, a row each in the order of their opcodes from 0 on (JVM Specification
/// 6.5). This table is the rule: the definition of an attempt looks it up.
pub static ACTIONS: [Action; 196] = [
    Action::Absent, // 0x00 nop
    Action::Absent, // 0x01 aconst_null
    Action::Absent, // 0x02 iconst_m1
    Action::Absent, // 0x03 iconst_0
    Action::Absent, // 0x04 iconst_1
    Action::Absent, // 0x05 iconst_2
    Action::Absent, // 0x06 iconst_3
    Action::Absent, // 0x07 iconst_4
    Action::Absent, // 0x08 iconst_5
    Action::Absent, // 0x09 lconst_0
    Action::Absent, // 0x0a lconst_1
    Action::Absent, // 0x0b fconst_0
    Action::Absent, // 0x0c fconst_1
    Action::Absent, // 0x0d fconst_2
    Action::Absent, // 0x0e dconst_0
    Action::Absent, // 0x0f dconst_1
    Action::Absent, // 0x10 bipush
    Action::Absent, // 0x11 sipush
    Action::Constant, // 0x12 ldc
    Action::Constant, // 0x13 ldc_w
    Action::Constant, // 0x14 ldc2_w
    Action::Absent, // 0x15 iload
    Action::Absent, // 0x16 lload
    Action::Absent, // 0x17 fload
    Action::Absent, // 0x18 dload
    Action::Absent, // 0x19 aload
    Action::Absent, // 0x1a iload_0
    Action::Absent, // 0x1b iload_1
    Action::Absent, // 0x1c iload_2
    Action::Absent, // 0x1d iload_3
    Action::Absent, // 0x1e lload_0
    Action::Absent, // 0x1f lload_1
    Action::Absent, // 0x20 lload_2
    Action::Absent, // 0x21 lload_3
    Action::Absent, // 0x22 fload_0
    Action::Absent, // 0x23 fload_1
    Action::Absent, // 0x24 fload_2
    Action::Absent, // 0x25 fload_3
    Action::Absent, // 0x26 dload_0
    Action::Absent, // 0x27 dload_1
    Action::Absent, // 0x28 dload_2
    Action::Absent, // 0x29 dload_3
    Action::Absent, // 0x2a aload_0
    Action::Absent, // 0x2b aload_1
    Action::Absent, // 0x2c aload_2
    Action::Absent, // 0x2d aload_3
    Action::LoadItem(ItemKind::Int), // 0x2e iaload
    Action::LoadItem(ItemKind::Long), // 0x2f laload
    Action::Absent, // 0x30 faload
    Action::Absent, // 0x31 daload
    Action::LoadItem(ItemKind::Ref), // 0x32 aaload
    Action::LoadItem(ItemKind::Byte), // 0x33 baload
    Action::LoadItem(ItemKind::Char), // 0x34 caload
    Action::LoadItem(ItemKind::Short), // 0x35 saload
    Action::Absent, // 0x36 istore
    Action::Absent, // 0x37 lstore
    Action::Absent, // 0x38 fstore
    Action::Absent, // 0x39 dstore
    Action::Absent, // 0x3a astore
    Action::Absent, // 0x3b istore_0
    Action::Absent, // 0x3c istore_1
    Action::Absent, // 0x3d istore_2
    Action::Absent, // 0x3e istore_3
    Action::Absent, // 0x3f lstore_0
    Action::Absent, // 0x40 lstore_1
    Action::Absent, // 0x41 lstore_2
    Action::Absent, // 0x42 lstore_3
    Action::Absent, // 0x43 fstore_0
    Action::Absent, // 0x44 fstore_1
    Action::Absent, // 0x45 fstore_2
    Action::Absent, // 0x46 fstore_3
    Action::Absent, // 0x47 dstore_0
    Action::Absent, // 0x48 dstore_1
    Action::Absent, // 0x49 dstore_2
    Action::Absent, // 0x4a dstore_3
    Action::Absent, // 0x4b astore_0
    Action::Absent, // 0x4c astore_1
    Action::Absent, // 0x4d astore_2
    Action::Absent, // 0x4e astore_3
    Action::StoreItem(ItemKind::Int), // 0x4f iastore
    Action::StoreItem(ItemKind::Long), // 0x50 lastore
    Action::Absent, // 0x51 fastore
    Action::Absent, // 0x52 dastore
    Action::StoreItem(ItemKind::Ref), // 0x53 aastore
    Action::StoreItem(ItemKind::Byte), // 0x54 bastore
    Action::StoreItem(ItemKind::Char), // 0x55 castore
    Action::StoreItem(ItemKind::Short), // 0x56 sastore
    Action::Absent, // 0x57 pop
    Action::Absent, // 0x58 pop2
    Action::Absent, // 0x59 dup
    Action::Absent, // 0x5a dup_x1
    Action::Absent, // 0x5b dup_x2
    Action::Absent, // 0x5c dup2
    Action::Absent, // 0x5d dup2_x1
    Action::Absent, // 0x5e dup2_x2
    Action::Absent, // 0x5f swap
    Action::Absent, // 0x60 iadd
    Action::Absent, // 0x61 ladd
    Action::Absent, // 0x62 fadd
    Action::Absent, // 0x63 dadd
    Action::Absent, // 0x64 isub
    Action::Absent, // 0x65 lsub
    Action::Absent, // 0x66 fsub
    Action::Absent, // 0x67 dsub
    Action::Absent, // 0x68 imul
    Action::Absent, // 0x69 lmul
    Action::Absent, // 0x6a fmul
    Action::Absent, // 0x6b dmul
    Action::Absent, // 0x6c idiv
    Action::Absent, // 0x6d ldiv
    Action::Absent, // 0x6e fdiv
    Action::Absent, // 0x6f ddiv
    Action::Absent, // 0x70 irem
    Action::Absent, // 0x71 lrem
    Action::Absent, // 0x72 frem
    Action::Absent, // 0x73 drem
    Action::Absent, // 0x74 ineg
    Action::Absent, // 0x75 lneg
    Action::Absent, // 0x76 fneg
    Action::Absent, // 0x77 dneg
    Action::Absent, // 0x78 ishl
    Action::Absent, // 0x79 lshl
    Action::Absent, // 0x7a ishr
    Action::Absent, // 0x7b lshr
    Action::Absent, // 0x7c iushr
    Action::Absent, // 0x7d lushr
    Action::Absent, // 0x7e iand
    Action::Absent, // 0x7f land
    Action::Absent, // 0x80 ior
    Action::Absent, // 0x81 lor
    Action::Absent, // 0x82 ixor
    Action::Absent, // 0x83 lxor
    Action::Absent, // 0x84 iinc
    Action::Absent, // 0x85 i2l
    Action::Absent, // 0x86 i2f
    Action::Absent, // 0x87 i2d
    Action::Absent, // 0x88 l2i
    Action::Absent, // 0x89 l2f
    Action::Absent, // 0x8a l2d
    Action::Absent, // 0x8b f2i
    Action::Absent, // 0x8c f2l
    Action::Absent, // 0x8d f2d
    Action::Absent, // 0x8e d2i
    Action::Absent, // 0x8f d2l
    Action::Absent, // 0x90 d2f
    Action::Absent, // 0x91 i2b
    Action::Absent, // 0x92 i2c
    Action::Absent, // 0x93 i2s
    Action::Absent, // 0x94 lcmp
    Action::Absent, // 0x95 fcmpl
    Action::Absent, // 0x96 fcmpg
    Action::Absent, // 0x97 dcmpl
    Action::Absent, // 0x98 dcmpg
    Action::Absent, // 0x99 ifeq
    Action::Absent, // 0x9a ifne
    Action::Absent, // 0x9b iflt
    Action::Absent, // 0x9c ifge
    Action::Absent, // 0x9d ifgt
    Action::Absent, // 0x9e ifle
    Action::Absent, // 0x9f if_icmpeq
    Action::Absent, // 0xa0 if_icmpne
    Action::Absent, // 0xa1 if_icmplt
    Action::Absent, // 0xa2 if_icmpge
    Action::Absent, // 0xa3 if_icmpgt
    Action::Absent, // 0xa4 if_icmple
    Action::Absent, // 0xa5 if_acmpeq
    Action::Absent, // 0xa6 if_acmpne
    Action::Absent, // 0xa7 goto
    Action::Absent, // 0xa8 jsr
    Action::Absent, // 0xa9 ret
    Action::Absent, // 0xaa tableswitch
    Action::Absent, // 0xab lookupswitch
    Action::Return(Kind::Int), // 0xac ireturn
    Action::Return(Kind::Long), // 0xad lreturn
    Action::Absent, // 0xae freturn
    Action::Absent, // 0xaf dreturn
    Action::Return(Kind::Ref), // 0xb0 areturn
    Action::ReturnNothing, // 0xb1 return
    Action::GetStatic, // 0xb2 getstatic
    Action::PutStatic, // 0xb3 putstatic
    Action::GetField, // 0xb4 getfield
    Action::PutField, // 0xb5 putfield
    Action::InvokeVirtual, // 0xb6 invokevirtual
    Action::InvokeSpecial, // 0xb7 invokespecial
    Action::InvokeStatic, // 0xb8 invokestatic
    Action::Absent, // 0xb9 invokeinterface
    Action::Absent, // 0xba invokedynamic
    Action::New, // 0xbb new
    Action::Absent, // 0xbc newarray
    Action::NewReferences, // 0xbd anewarray
    Action::ArrayLength, // 0xbe arraylength
    Action::Throw, // 0xbf athrow
    Action::CheckCast, // 0xc0 checkcast
    Action::InstanceOf, // 0xc1 instanceof
    Action::EnterMonitor, // 0xc2 monitorenter
    Action::ExitMonitor, // 0xc3 monitorexit
];

/// The row of an opcode, among rows in the order of the opcodes.
fn action_in(rows: &[Action], op: u8) -> Action
    ensures { result ≡ action_in rows.now op }
{
    match rows.get(usize::from(op)) {
        Some(action) => *action,
        None => Action::Absent,
    }
}

/// What the instruction of an opcode does; `Absent` where it does not reach beyond its frame (JVM Specification 6.5).
#[tactic(auto, unfolding(crate::specs::Rows::action_of))]
pub fn action_of(op: u8) -> Action
    ensures { result ≡ action_of op }
{
    action_in(&ACTIONS, op)
}
