use crate::operand::{KeyRow, Loadable, LongConstant, Member, Place, Reference};
use mvm_base::List;

/// An instruction as a line spells it (JVM Specification 6.5). Its opcode is the one of the line's mnemonic; where `wide` is
/// true the mnemonic stands behind the word `wide`.
#[derive(Debug, Drop)]
pub enum Instruction {
    /// An instruction with nothing behind its opcode.
    Plain {
        op: u8,
    },
    /// `bipush N` and `sipush N`: the number to push.
    Push {
        op: u8,
        number: i128,
    },
    /// `ldc` and `ldc_w`: what to push.
    Load {
        op: u8,
        constant: Loadable,
    },
    /// `ldc2_w`: what to push.
    LoadLong {
        op: u8,
        constant: LongConstant,
    },
    /// `new`, `anewarray`, `checkcast` and `instanceof`, with a class.
    OfClass {
        op: u8,
        class: Reference,
    },
    /// The fields' instructions, and the invocations but `invokeinterface`, with a field or a method.
    OfMember {
        op: u8,
        member: Member,
    },
    /// A load or a store of a local variable.
    Local {
        op: u8,
        local: i128,
        wide: bool,
    },
    /// `iinc LOCAL N`: add to a local variable.
    Increment {
        op: u8,
        local: i128,
        by: i128,
        wide: bool,
    },
    /// A branch, also `goto_w`.
    Jump {
        op: u8,
        target: Place,
    },
    /// `tableswitch LOW PLACE .. default PLACE`: where to go for the lowest key and for each key behind it.
    Table {
        op: u8,
        low: i128,
        targets: List<Place>,
        otherwise: Place,
    },
    /// `lookupswitch KEY PLACE .. default PLACE`: where to go for each key.
    Lookup {
        op: u8,
        rows: List<KeyRow>,
        otherwise: Place,
    },
    /// `invokeinterface METHOD COUNT`.
    Invocation {
        op: u8,
        member: Member,
        count: i128,
    },
    /// `newarray KIND`, with the code of the kind of its items.
    Items {
        op: u8,
        kind: i128,
    },
    /// `multianewarray CLASS COUNT`, with the count of its dimensions.
    Dimensions {
        op: u8,
        class: Reference,
        count: i128,
    },
}
