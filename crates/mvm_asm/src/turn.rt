//! What a line does where it may stand and its numbers fit.

ghost use Rattle.std.specs.Prelude.{ℕ, ◌≡◌, IsTrue, Ok};
ghost use Rattle.mvm_statement.specs.Statements.{line_says};
ghost use Rattle.mvm_statement.specs.declared.statement.Statement.TheVariants.{Version, Entry, Class, Implements, Field, Method, Code as CodeLine, Label, Instruction as InstructionLine, Byte, Catch, End};
ghost use Rattle.mvm_listing.specs.Range.{is_u1, is_u2, fits_value, fits_reference, fits_class, fits_instruction, fits};
ghost use Rattle.mvm_listing.specs.Assembly.{act, turn, turn_of};
ghost use Rattle.mvm_asm.specs.Turning.{state_of, Turns, OnFault, IsKept, IsBehind};

use crate::growing::{Growing, give_code, push_lines};
use crate::item::{byte, item_of, short};
use crate::settle::{class_or_none, class_referred, constant_of, settled, text_referred};
use mvm_base::Name;
use mvm_block::Block;
use mvm_layout::Member;
use mvm_listing::order::next;
use mvm_listing::range::{fits, is_long_text};
use mvm_listing::{Catching, Piece, StepFault};
use mvm_statement::{
    AsmKind, Initial, Instruction, LineFault, Place, PoolValue, Reference, Statement, read_line,
};
use std::alloc::Global;

#[tactic(auto, unfolding(mvm_listing::specs::Assembly::act))]
impl Growing {
    /// An entry of the constant pool.
    fn entry(&mut self, index: i128, value: PoolValue) -> Result<(), StepFault>
        requires index { IsTrue (is_u2 index) }
        requires value { IsTrue (fits_value value) }
        ensures does { (line : ℕ) → Turns result (act line (Entry index value) (state_of self.old)) (state_of self.new) }
        ensures kept { OnFault result (IsKept (state_of self.old) (state_of self.new)) }
    {
        if usize::from(short(index)) != self.pool.entries().len() + 1 {
            return Err(StepFault::Kind(AsmKind::Pool));
        }
        self.pool.append(item_of(value))?;
        Ok(())
    }

    /// The class.
    fn class(
        &mut self,
        flags: i128,
        this_class: &Reference,
        super_class: &Option<Reference>,
    ) -> Result<(), StepFault>
        requires flags { IsTrue (is_u2 flags) }
        requires class { IsTrue (fits_reference this_class.now) }
        requires superclass { IsTrue (fits_class super_class.now) }
        ensures does { (line : ℕ) → Turns result (act line (Class flags this_class.now super_class.now) (state_of self.old)) (state_of self.new) }
        ensures kept { OnFault result (IsKept (state_of self.old) (state_of self.new)) }
    {
        let this_class = class_referred(&mut self.pool, this_class)?;
        let super_class = class_or_none(&mut self.pool, super_class)?;
        self.flags = short(flags);
        self.this_class = this_class;
        self.super_class = super_class;
        Ok(())
    }

    /// A direct superinterface.
    fn implements(&mut self, interface: &Reference) -> Result<(), StepFault>
        requires { IsTrue (fits_reference interface.now) }
        ensures does { (line : ℕ) → Turns result (act line (Implements interface.now) (state_of self.old)) (state_of self.new) }
        ensures kept { OnFault result (IsKept (state_of self.old) (state_of self.new)) }
    {
        let interface = class_referred(&mut self.pool, interface)?;
        self.interfaces.push(interface)?;
        Ok(())
    }

    /// A field.
    fn field(
        &mut self,
        alloc: Global,
        flags: i128,
        name: &Reference,
        desc: &Reference,
        constant: &Option<Initial>,
    ) -> Result<(), StepFault>
        requires { IsTrue (fits self.old.pool (Field flags name.now desc.now constant.now)) }
        ensures does { (line : ℕ) → Turns result (act line (Field flags name.now desc.now constant.now) (state_of self.old)) (state_of self.new) }
        ensures kept { OnFault result (IsKept (state_of self.old) (state_of self.new)) }
    {
        let is_long = is_long_text(self.pool.entries(), desc);
        let name = text_referred(&mut self.pool, name)?;
        let desc = text_referred(&mut self.pool, desc)?;
        let constant = constant_of(alloc, &mut self.pool, is_long, constant)?;
        self.fields.push(Member {
            flags: short(flags),
            name,
            desc,
            constant,
            code: None,
        })?;
        Ok(())
    }

    /// The head of a method.
    fn method(&mut self, flags: i128, name: &Reference, desc: &Reference) -> Result<(), StepFault>
        requires flags { IsTrue (is_u2 flags) }
        requires name { IsTrue (fits_reference name.now) }
        requires desc { IsTrue (fits_reference desc.now) }
        ensures does { (line : ℕ) → Turns result (act line (Method flags name.now desc.now) (state_of self.old)) (state_of self.new) }
        ensures kept { OnFault result (IsKept (state_of self.old) (state_of self.new)) }
    {
        let name = text_referred(&mut self.pool, name)?;
        let desc = text_referred(&mut self.pool, desc)?;
        self.methods.push(Member {
            flags: short(flags),
            name,
            desc,
            constant: None,
            code: None,
        })?;
        Ok(())
    }

    /// The head of a code.
    fn code(&mut self, alloc: Global, max_stack: i128, max_locals: i128) -> Result<(), StepFault>
        requires stack { IsTrue (is_u2 max_stack) }
        requires locals { IsTrue (is_u2 max_locals) }
        ensures does { (line : ℕ) → Turns result (act line (CodeLine max_stack max_locals) (state_of self.old)) (state_of self.new) }
        ensures kept { OnFault result (IsKept (state_of self.old) (state_of self.new)) }
    {
        let name = Name::from_ascii(alloc, "Code")?;
        self.pool.text(&name)?;
        self.block = Block::new(alloc, short(max_stack), short(max_locals));
        Ok(())
    }

    /// A label.
    fn label(&mut self, alloc: Global, name: Name) -> Result<(), StepFault>
        ensures does { (line : ℕ) → Turns result (act line (Label name) (state_of self.old)) (state_of self.new) }
        ensures kept { OnFault result (IsKept (state_of self.old) (state_of self.new)) }
    {
        self.block.label(alloc, name)
    }

    /// An instruction.
    fn instruction(&mut self, line: u32, own: Instruction) -> Result<(), StepFault>
        requires { IsTrue (fits_instruction own) }
        ensures does { Turns result (act line (InstructionLine own) (state_of self.old)) (state_of self.new) }
        ensures kept { OnFault result (IsKept (state_of self.old) (state_of self.new)) }
    {
        let own = settled(&mut self.pool, own)?;
        match self.block.place(line, Piece::Own(own)) {
            Ok(()) => Ok(()),
            Err(_refused) => Err(StepFault::OutOfMemory),
        }
    }

    /// A byte of the code.
    fn byte(&mut self, line: u32, value: i128) -> Result<(), StepFault>
        requires { IsTrue (is_u1 value) }
        ensures does { Turns result (act line (Byte value) (state_of self.old)) (state_of self.new) }
        ensures kept { OnFault result (IsKept (state_of self.old) (state_of self.new)) }
    {
        match self.block.place(line, Piece::OneByte(byte(value))) {
            Ok(()) => Ok(()),
            Err(_refused) => Err(StepFault::OutOfMemory),
        }
    }

    /// A row of the exception table.
    fn row(
        &mut self,
        line: u32,
        start: Place,
        end: Place,
        handler: Place,
        class: &Option<Reference>,
    ) -> Result<(), StepFault>
        requires { IsTrue (fits_class class.now) }
        ensures does { Turns result (act line (Catch start end handler class.now) (state_of self.old)) (state_of self.new) }
        ensures kept { OnFault result (IsKept (state_of self.old) (state_of self.new)) }
    {
        let class = class_or_none(&mut self.pool, class)?;
        let row = Catching {
            line,
            start,
            end,
            handler,
            class,
        };
        match self.block.catch(row) {
            Ok(()) => Ok(()),
            Err(_refused) => Err(StepFault::OutOfMemory),
        }
    }

    /// The end of a code.
    fn end(&mut self, alloc: Global) -> Result<(), StepFault>
        ensures does { (line : ℕ) → Turns result (act line End (state_of self.old)) (state_of self.new) }
        ensures kept { OnFault result (IsKept (state_of self.old) (state_of self.new)) }
    {
        if !self.block.is_closed() {
            return Err(StepFault::Kind(AsmKind::Label));
        }
        let Ok(lines) = self.block.unfit(alloc) else {
            return Err(StepFault::OutOfMemory);
        };
        if lines.is_empty() {
            let Ok(code) = self.block.code(alloc) else {
                return Err(StepFault::OutOfMemory);
            };
            give_code(&mut self.methods, code);
        } else {
            push_lines(&mut self.unfit, lines.as_slice())?;
        }
        self.block = Block::new(alloc, 0, 0);
        Ok(())
    }

    /// The version.
    fn version(&mut self, minor: i128, major: i128)
        requires minor { IsTrue (is_u2 minor) }
        requires major { IsTrue (is_u2 major) }
        ensures does { (line : ℕ) → act line (Version minor major) (state_of self.old) ≡ Ok (state_of self.new) }
    {
        self.minor = short(minor);
        self.major = short(major);
    }
}

impl Growing {
    /// What a line does where it may stand and its numbers fit.
    fn act(&mut self, alloc: Global, line: u32, statement: Statement) -> Result<(), StepFault>
        requires { IsTrue (fits self.old.pool statement) }
        ensures does { Turns result (act line statement (state_of self.old)) (state_of self.new) }
        ensures kept { OnFault result (IsKept (state_of self.old) (state_of self.new)) }
    {
        match statement {
            Statement::Version { minor, major } => {
                self.version(minor, major);
                Ok(())
            }
            Statement::Entry { index, value } => self.entry(index, value),
            Statement::Class {
                flags,
                this_class,
                super_class,
            } => self.class(flags, &this_class, &super_class),
            Statement::Implements { interface } => self.implements(&interface),
            Statement::Field {
                flags,
                name,
                desc,
                constant,
            } => self.field(alloc, flags, &name, &desc, &constant),
            Statement::Method { flags, name, desc } => self.method(flags, &name, &desc),
            Statement::Code {
                max_stack,
                max_locals,
            } => self.code(alloc, max_stack, max_locals),
            Statement::Label { name } => self.label(alloc, name),
            Statement::Instruction { line: own } => self.instruction(line, own),
            Statement::Byte { value } => self.byte(line, value),
            Statement::Catch {
                start,
                end,
                handler,
                class,
            } => self.row(line, start, end, handler, &class),
            Statement::End => self.end(alloc),
        }
    }
}

#[tactic(auto, unfolding(mvm_listing::specs::Assembly::turn))]
impl Growing {
    /// What a statement does, or its fault.
    fn turn(&mut self, alloc: Global, line: u32, statement: Statement) -> Result<(), StepFault>
        ensures does { Turns result (turn line statement (state_of self.old)) (state_of self.new) }
        ensures behind { OnFault result (IsBehind (Ok (Some statement)) (state_of self.old) (state_of self.new)) }
    {
        let fits = fits(self.pool.entries(), &statement);
        let Some(phase) = next(self.phase, &statement) else {
            let kind = if fits { AsmKind::Order } else { AsmKind::Range };
            return Err(StepFault::Kind(kind));
        };
        self.phase = phase;
        if !fits {
            return Err(StepFault::Kind(AsmKind::Range));
        }
        self.act(alloc, line, statement)
    }
}

impl Growing {
    /// What the line of this number does, or its fault.
    pub(crate) fn line(&mut self, alloc: Global, number: u32, line: &[u8]) -> Result<(), StepFault>
        ensures does { Turns result (turn_of number (line_says line.now) (state_of self.old)) (state_of self.new) }
        ensures behind { OnFault result (IsBehind (line_says line.now) (state_of self.old) (state_of self.new)) }
    {
        match read_line(alloc, line) {
            Ok(Some(statement)) => self.turn(alloc, number, statement),
            Ok(None) => Ok(()),
            Err(LineFault::Word) => Err(StepFault::Kind(AsmKind::Word)),
            Err(LineFault::Operand) => Err(StepFault::Kind(AsmKind::Operand)),
            Err(LineFault::OutOfMemory) => Err(StepFault::OutOfMemory),
        }
    }
}
