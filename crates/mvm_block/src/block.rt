ghost use Rattle.std.specs.Prelude.{◌≡◌, ◌∷◌, ◌++◌, [], IsTrue, IfErr, IfOk, OnOk, OnErr, is_some, false};
ghost use Rattle.mvm_listing.specs.Blocks.{empty_block, placed, labelled, is_closed, unfit, code_made};
ghost use Rattle.mvm_block.specs.Ready.{fits_piece};
ghost use Rattle.mvm_block.specs.Labels.{with_label, with_row, IsTwice};

use crate::fit::{knows_pieces, knows_table};
use crate::labels::Labels;
use crate::length::end_behind;
use crate::made::{bytes_made, push_unfit_pieces, push_unfit_rows, rows_made};
use mvm_base::{List, Name, OutOfMemory};
use mvm_layout::Code;
use mvm_listing::{Catching, Piece, Placed, StepFault};
use mvm_statement::AsmKind;
use std::alloc::Global;
use std::marker::Model;

/// A code while its lines are read: its pieces at their places, its labels and the rows of its exception table.
#[derive(Drop)]
pub struct Block {
    max_stack: u16,
    max_locals: u16,
    end: u64,
    labels: Labels,
    pieces: List<Placed>,
    rows: List<Catching>,
}

impl Model for Block {
    ghost use Rattle.std.specs.Prelude.{◌≡◌, true};
    ghost use Rattle.std.specs.List.{list_all};
    ghost use Rattle.mvm_listing.specs.Blocks.{Block as BlockOf};
    ghost use Rattle.mvm_block.specs.Ready.{fits_piece};

    ghost Value = { BlockOf };

    ghost view = { λ b. record { max_stack = b.max_stack; max_locals = b.max_locals; end = b.end; labels = b.labels; pieces = b.pieces; rows = b.rows } };

    ghost invariant = { λ b. list_all (λ p. fits_piece p.piece) b.pieces ≡ true };
}

impl Block {
    /// A code without a line, for these sizes of its operand stack and its local variables. It takes no memory.
    pub fn new(alloc: Global, max_stack: u16, max_locals: u16) -> Block
        ensures { result ≡ empty_block max_stack max_locals }
    {
        Block {
            max_stack,
            max_locals,
            end: 0,
            labels: Labels::new(alloc),
            pieces: List::new(alloc),
            rows: List::new(alloc),
        }
    }

    /// Adds a piece behind all others.
    pub fn place(&mut self, line: u32, piece: Piece) -> Result<(), OutOfMemory>
        requires { IsTrue (fits_piece piece) }
        ensures ok { OnOk result (self.new ≡ placed line piece self.old) }
        ensures err { OnErr result (self.new ≡ self.old) }
    {
        let at = self.end;
        let end = end_behind(at, &piece)?;
        self.pieces.push(Placed { line, at, piece })?;
        self.end = end;
        Ok(())
    }

    /// Adds a label where the code so far ends. It is refused where one of this name was given before.
    pub fn label(&mut self, alloc: Global, name: Name) -> Result<(), StepFault>
        ensures new { OnOk result (is_some (labelled self.old.labels name) ≡ false) }
        ensures ok { OnOk result (self.new ≡ with_label name self.old) }
        ensures twice { IfErr result (λ fault. IsTwice fault self.old.labels name) }
        ensures err { OnErr result (self.new ≡ self.old) }
    {
        if self.labels.get(&name).is_some() {
            return Err(StepFault::Kind(AsmKind::Label));
        }
        match self.labels.add(alloc, name, self.end) {
            Ok(()) => Ok(()),
            Err(_refused) => Err(StepFault::OutOfMemory),
        }
    }

    /// Adds a row of the exception table behind all others.
    pub fn catch(&mut self, row: Catching) -> Result<(), OutOfMemory>
        ensures ok { OnOk result (self.new ≡ with_row row self.old) }
        ensures err { OnErr result (self.new ≡ self.old) }
    {
        self.rows.push(row)?;
        Ok(())
    }

    /// Whether each place of the code is known: each label that a piece or a row leads to was given.
    pub fn is_closed(&self) -> bool
        ensures { result ≡ is_closed self.now }
    {
        knows_pieces(&self.labels, self.pieces.as_slice())
            && knows_table(&self.labels, self.rows.as_slice())
    }

    /// The lines on which an offset or a place does not fit its field: first those of pieces and then those of rows, each in their order.
    /// A place that is not known is no fault here.
    #[tactic(auto, unfolding(mvm_listing::specs::Blocks::unfit))]
    pub fn unfit(&self, alloc: Global) -> Result<List<u32>, OutOfMemory>
        ensures { IfOk result (λ lines. lines ≡ unfit self.now) }
    {
        let mut lines = List::new(alloc);
        push_unfit_pieces(&mut lines, &self.labels, self.pieces.as_slice())?;
        push_unfit_rows(&mut lines, &self.labels, self.rows.as_slice())?;
        Ok(lines)
    }

    /// The code, where its places are known and fit.
    #[tactic(auto, unfolding(mvm_listing::specs::Blocks::code_made))]
    pub fn code(&self, alloc: Global) -> Result<Code, OutOfMemory>
        requires closed { IsTrue (is_closed self.now) }
        requires fits { unfit self.now ≡ [] }
        ensures { IfOk result (λ code. code ≡ code_made self.now) }
    {
        Ok(Code {
            max_stack: self.max_stack,
            max_locals: self.max_locals,
            bytes: bytes_made(alloc, &self.labels, self.pieces.as_slice())?,
            rows: rows_made(alloc, &self.labels, self.rows.as_slice())?,
        })
    }
}
