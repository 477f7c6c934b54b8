use crate::instruction::Instruction;
use crate::operand::{Initial, Place, Reference};
use crate::pool_value::PoolValue;
use mvm_base::Name;

/// What a line says.
#[derive(Debug, Drop)]
pub enum Statement {
    /// `version MINOR MAJOR`: the version of the class file.
    Version {
        minor: i128,
        major: i128,
    },
    /// `pool N KIND VALUES`: the entry of the constant pool at index N.
    Entry {
        index: i128,
        value: PoolValue,
    },
    /// `class FLAGS THIS SUPER`: the class; `None` where SUPER is `none`.
    Class {
        flags: i128,
        this_class: Reference,
        super_class: Option<Reference>,
    },
    /// `implements CLASS`: a direct superinterface.
    Implements {
        interface: Reference,
    },
    /// `field FLAGS NAME DESC`, with an optional `constant VALUE`.
    Field {
        flags: i128,
        name: Reference,
        desc: Reference,
        constant: Option<Initial>,
    },
    /// `method FLAGS NAME DESC`.
    Method {
        flags: i128,
        name: Reference,
        desc: Reference,
    },
    /// `code STACK LOCALS`: the code of the method above begins.
    Code {
        max_stack: i128,
        max_locals: i128,
    },
    /// `LABEL:`, a name for this place of the code.
    Label {
        name: Name,
    },
    /// `MNEMONIC OPERANDS`: an instruction.
    Instruction {
        line: Instruction,
    },
    /// `byte V`: a byte of code as it is.
    Byte {
        value: i128,
    },
    /// `catch FROM TO HANDLER CLASS`: a row of the exception table; `None` where CLASS is `any`.
    Catch {
        start: Place,
        end: Place,
        handler: Place,
        class: Option<Reference>,
    },
    /// `end`: the code ends.
    End,
}
