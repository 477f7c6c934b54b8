//! The class file that a text says, as it grows line by line.

ghost use Rattle.std.specs.Prelude.{◌≡◌, ◌++◌, OnOk};
ghost use Rattle.mvm_listing.specs.Assembly.{start, with_code};
ghost use Rattle.mvm_asm.specs.Turning.{state_of};

use mvm_base::{List, OutOfMemory};
use mvm_block::Block;
use mvm_constants::ConstantPool;
use mvm_layout::{Code, Member, Parts};
use mvm_listing::Phase;
use std::alloc::{AllocError, Global};

/// What the lines so far have made.
#[derive(Drop)]
pub(crate) struct Growing {
    /// Where the next line stands.
    pub(crate) phase: Phase,
    /// The minor version.
    pub(crate) minor: u16,
    /// The major version.
    pub(crate) major: u16,
    /// The constant pool.
    pub(crate) pool: ConstantPool,
    /// The access flags.
    pub(crate) flags: u16,
    /// The index of the class itself.
    pub(crate) this_class: u16,
    /// The index of the direct superclass, or 0.
    pub(crate) super_class: u16,
    /// The indices of the direct superinterfaces.
    pub(crate) interfaces: List<u16>,
    /// The fields.
    pub(crate) fields: List<Member>,
    /// The methods.
    pub(crate) methods: List<Member>,
    /// The code that is being assembled.
    pub(crate) block: Block,
    /// The lines of the codes behind us on which an offset or a place does not fit.
    pub(crate) unfit: List<u32>,
}

impl Growing {
    /// Before all lines. It takes no memory.
    pub(crate) fn new(alloc: Global) -> Growing
        ensures { state_of result ≡ start }
    {
        Growing {
            phase: Phase::Start,
            minor: 0,
            major: 52,
            pool: ConstantPool::new(alloc),
            flags: 0,
            this_class: 0,
            super_class: 0,
            interfaces: List::new(alloc),
            fields: List::new(alloc),
            methods: List::new(alloc),
            block: Block::new(alloc, 0, 0),
            unfit: List::new(alloc),
        }
    }

    /// The parts of the class file.
    pub(crate) fn into_parts(self) -> Parts
        ensures { result ≡ (state_of self).parts }
    {
        Parts {
            minor: self.minor,
            major: self.major,
            pool: self.pool.into_entries(),
            flags: self.flags,
            this_class: self.this_class,
            super_class: self.super_class,
            interfaces: self.interfaces,
            fields: self.fields,
            methods: self.methods,
        }
    }
}

/// Gives the last method its code.
pub(crate) fn give_code(methods: &mut List<Member>, code: Code)
    ensures { methods.new ≡ with_code methods.old code }
{
    let Some(at) = methods.len().checked_sub(1) else {
        return;
    };
    let method = &methods.as_slice()[at];
    let whole = Member {
        flags: method.flags,
        name: method.name,
        desc: method.desc,
        constant: method.constant,
        code: Some(code),
    };
    methods.set(at, whole);
}

/// Adds these lines behind all others.
pub(crate) fn push_lines(all: &mut List<u32>, lines: &[u32]) -> Result<(), AllocError>
    ensures { OnOk result (all.new ≡ all.old ++ lines.now) }
{
    for line in lines {
        all.push(*line)?;
    }
    Ok(())
}
