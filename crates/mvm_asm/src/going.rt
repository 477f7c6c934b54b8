//! The lines of a text, gone over one behind the other to the first with a fault that is told at once.

ghost use Rattle.std.specs.Prelude.{ℕ, ◌≡◌, ◌+◌, ◌<◌, ◌^◌, ◌∷◌, ◌++◌, List as Items, length, IfOk, OnOk, None, Result as Answer, Option as Maybe};
ghost use Rattle.mvm_base.specs.Answers.{AnswersUnless};
ghost use Rattle.mvm_statement.specs.declared.fault.AsmKind.{AsmKind as Kind};
ghost use Rattle.mvm_statement.specs.declared.statement.Statement.{Statement as StatementOf};
ghost use Rattle.mvm_statement.specs.Statements.{line_says};
ghost use Rattle.mvm_listing.specs.Assembly.{start, lines_of, first_fault, judged, assembled};
ghost use Rattle.mvm_asm.specs.Turning.{state_of};
ghost use Rattle.mvm_asm.specs.Going.{continued, ran_of};

use crate::cut::cut;
use crate::first_fault::{earlier, earliest_unfit};
use crate::growing::Growing;
use mvm_base::OutOfMemory;
use mvm_layout::Parts;
use mvm_listing::order::is_whole;
use mvm_listing::{AsmFault, StepFault};
use mvm_statement::AsmKind;
use std::alloc::Global;

/// Lines that have been gone over.
#[derive(Drop)]
pub(crate) struct Going {
    /// What they have made.
    growing: Growing,
    /// The first fault, but for offsets and places that do not fit. No line behind it does anything.
    fault: Option<(u32, AsmKind)>,
    /// How many lines there are so far.
    count: u32,
}

impl Going {
    /// Before all lines. It takes no memory.
    fn new(alloc: Global) -> Going
        ensures growing { state_of result.growing ≡ start }
        ensures fault { result.fault ≡ None }
        ensures count { result.count ≡ 0 }
    {
        Going {
            growing: Growing::new(alloc),
            fault: None,
            count: 0,
        }
    }

    /// Goes over the next line.
    fn line(&mut self, alloc: Global, line: &[u8]) -> Result<(), OutOfMemory>
        requires { self.old.count + 1 < 2 ^ 32 }
        ensures count { OnOk result (self.new.count ≡ self.old.count + 1) }
        ensures goes { OnOk result ((total : ℕ) (more : Items (Answer (Maybe StatementOf) Kind)) → judged total (continued self.new more) ≡ judged total (continued self.old (line_says line.now ∷ more))) }
    {
        self.count += 1;
        if self.fault.is_some() {
            return Ok(());
        }
        match self.growing.line(alloc, self.count, line) {
            Ok(()) => Ok(()),
            Err(StepFault::Kind(kind)) => {
                self.fault = Some((self.count, kind));
                Ok(())
            }
            Err(StepFault::OutOfMemory) => Err(OutOfMemory),
        }
    }

    /// Goes over the lines of a text.
    fn over(alloc: Global, text: &[u8]) -> Result<Going, OutOfMemory>
        requires { length text.now < 2 ^ 32 }
        ensures { IfOk result (λ going. judged going.count (ran_of going) ≡ assembled text.now) }
    {
        let mut going = Going::new(alloc);
        let mut rest = Some(text);
        while let Some(bytes) = rest {
            let (line, behind) = cut(bytes);
            going.line(alloc, line)?;
            rest = behind;
        }
        Ok(going)
    }

    /// The first of all faults.
    fn first_fault(&self, alloc: Global) -> Result<Option<(u32, AsmKind)>, OutOfMemory>
        ensures { IfOk result (λ fault. fault ≡ first_fault self.now.count (ran_of self.now)) }
    {
        let open = self.growing.block.unfit(alloc)?;
        let fault = earliest_unfit(self.fault, self.growing.unfit.as_slice());
        let fault = earliest_unfit(fault, open.as_slice());
        if is_whole(self.growing.phase) {
            Ok(fault)
        } else {
            Ok(earlier(fault, (self.count, AsmKind::Order)))
        }
    }

    /// The parts that the lines have made, or the first of all faults.
    fn judged(self, alloc: Global) -> Result<Parts, AsmFault>
        ensures { AnswersUnless AsmFault.OutOfMemory result (judged self.count (ran_of self)) }
    {
        match self.first_fault(alloc) {
            Ok(Some((line, kind))) => Err(AsmFault::At(line, kind)),
            Ok(None) => Ok(self.growing.into_parts()),
            Err(_refused) => Err(AsmFault::OutOfMemory),
        }
    }
}

/// The parts that a text is assembled to, or its first fault.
pub(crate) fn assembled(alloc: Global, text: &[u8]) -> Result<Parts, AsmFault>
    requires { length text.now < 2 ^ 32 }
    ensures { AnswersUnless AsmFault.OutOfMemory result (assembled text.now) }
{
    match Going::over(alloc, text) {
        Ok(going) => going.judged(alloc),
        Err(_refused) => Err(AsmFault::OutOfMemory),
    }
}
