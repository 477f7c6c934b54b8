ghost use Rattle.std.specs.Prelude.{◌≡◌};
ghost use Rattle.mvm_builtin.specs.Table.{is_part};

use crate::table::Sort;

/// A part of a class that lines of the table tell.
#[derive(Clone, Copy, Debug, PartialEq, Eq)]
pub enum Part {
    /// The class itself: a row begins here.
    Head,
    /// Its direct superclass.
    Superclass,
    /// Its direct superinterfaces.
    Superinterface,
    /// The methods that have a body.
    Bytecode,
    /// Its fields.
    Field,
    /// Its methods.
    Method,
}

/// Whether a line of this sort tells of this part.
pub(crate) fn is_part(part: Part, sort: Sort) -> bool
    ensures { result ≡ is_part part sort }
{
    match part {
        Part::Head => matches!(sort, Sort::Class | Sort::Interface),
        Part::Superclass => matches!(sort, Sort::Extends),
        Part::Superinterface => matches!(sort, Sort::Implements),
        Part::Bytecode => matches!(sort, Sort::Code),
        Part::Field => matches!(sort, Sort::Private | Sort::Constant),
        Part::Method => matches!(
            sort,
            Sort::Abstract | Sort::Code | Sort::Native(_) | Sort::Static(_)
        ),
    }
}

/// Of a class: `invokespecial` treats methods of the superclass as today's Java does (JVM Specification 4.1).
pub const SUPER: u16 = 0x0020;

/// The code of `java/lang/Thread.run`, which is that of `if (target != null) target.run();`.
pub const RUN: [u8; 17] = [
    0x2a, // aload_0
    0xb4, 0, 11, // getfield target
    0xc6, 0, 12, // ifnull, to the return
    0x2a, // aload_0
    0xb4, 0, 11, // getfield target
    0xb9, 0, 15, 1, 0, // invokeinterface java/lang/Runnable.run
    0xb1, // return
];
