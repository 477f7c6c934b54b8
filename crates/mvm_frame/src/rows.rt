ghost use Rattle.std.specs.Prelude.{◌≡◌, [], ◌∷◌, ◌+◌, ◌<◌, ◌≤◌, ◌==◌, length, slice_get, Some, IfOk, MatchOption, MatchBool};

use crate::key::FrameKey;
use std::alloc::{AllocError, Global};
use std::marker::Model;

/// Where a frame lies in the array. Its operands grow downward from `bottom` and may reach `floor`; `sp` is the place of
/// the top one. Its local variables stand from `bottom` up to `base`, which is the floor of the caller.
#[derive(Clone, Copy, Debug, PartialEq, Eq)]
pub(crate) struct Row {
    pub key: FrameKey,
    pub pc: u32,
    pub floor: usize,
    pub sp: usize,
    pub bottom: usize,
    pub base: usize,
}

/// A stack of rows, with room for a fixed number of them.
#[derive(Debug, Drop)]
pub(crate) struct Rows {
    rows: Vec<Row>,
    len: usize,
}

impl Model for Rows {
    ghost use Rattle.std.specs.Prelude.{◌≤◌, take, reverse, length};
    ghost use Rattle.mvm_frame.specs.RowsParts.{RowsParts};

    ghost Value = { RowsParts };

    ghost view = { λ r. record { most = length r.rows.items; rows = reverse (take r.len r.rows.items) } };

    ghost invariant = { λ r. r.len ≤ length r.rows.items };
}

impl Rows {
    pub fn new(alloc: Global, most: usize, row: Row) -> Result<Rows, AllocError>
        ensures { IfOk result (λ r. r ≡ record { most = most; rows = [] }) }
    {
        Ok(Rows {
            rows: vec![in alloc; row; most]?,
            len: 0,
        })
    }

    pub fn is_empty(&self) -> bool
        ensures { result ≡ (length self.now.rows == 0) }
    {
        self.len == 0
    }

    pub fn len(&self) -> usize
        ensures is { result ≡ length self.now.rows }
        ensures within { result ≤ self.now.most }
    {
        self.len
    }

    pub fn is_full(&self) -> bool
        ensures { MatchBool result (length self.now.rows ≡ self.now.most) (length self.now.rows < self.now.most) }
    {
        self.len == self.rows.len()
    }

    pub fn push(&mut self, row: Row)
        requires { length self.old.rows < self.old.most }
        ensures { self.new ≡ record self.old { rows = row ∷ self.old.rows } }
    {
        self.rows[self.len] = row;
        self.len += 1;
    }

    pub fn pop(&mut self) -> Option<Row>
        ensures { MatchOption result
            ((self.old.rows ≡ []) × (self.new ≡ self.old))
            (λ row. (self.old.rows ≡ row ∷ self.new.rows) × (self.new.most ≡ self.old.most)) }
    {
        if self.len == 0 {
            return None;
        }
        self.len -= 1;
        Some(self.rows[self.len])
    }

    /// The row at a place counted from the last one, if there is another one beneath it.
    pub fn waiting(&self, at: usize) -> Option<Row>
        ensures { MatchOption result (length self.now.rows ≤ at + 1) (λ row. (at + 1 < length self.now.rows) × (slice_get self.now.rows at ≡ Some row)) }
    {
        if self.len < 2 || self.len - 2 < at {
            return None;
        }
        Some(self.rows[self.len - 1 - at])
    }
}
