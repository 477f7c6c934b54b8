ghost use Rattle.std.specs.Prelude.{◌≡◌, ◌<◌, length, slice_get, Some, unwrap_or};
ghost use Rattle.mvm_insn.specs.Rows.{KeysRise, target_in};

use crate::switch_rows::{Lookup, SwitchRow, Table};
use std::marker::Model;

#[derive(Debug, Drop)]
pub(crate) enum Rows<'a> {
    Table(Table<'a>),
    Lookup(Lookup<'a>),
}

/// A `tableswitch` or a `lookupswitch` (JVM Specification 6.5), whose rows stay where they stand in the code. Contracts
/// see it as the target for a key of no row, and the list of the rows in the rising order of their keys.
#[derive(Debug, Drop)]
pub struct Switch<'a> {
    otherwise: i64,
    rows: Rows<'a>,
}

impl<'a> Model for Switch<'a> {
    ghost use Rattle.mvm_insn.specs.Rows.{SwitchParts};
    ghost use Rattle.mvm_insn.specs.Switches.{rows_of};

    ghost Value = { SwitchParts };

    ghost view = { λ s. record { otherwise = s.otherwise; rows = rows_of s.rows } };
}

impl<'a> Switch<'a> {
    pub(crate) fn from_table(otherwise: i64, rows: Table<'a>) -> Switch<'a>
        ensures { result ≡ record { otherwise = otherwise; rows = rows.entry } }
    {
        Switch {
            otherwise,
            rows: Rows::Table(rows),
        }
    }

    pub(crate) fn from_lookup(otherwise: i64, rows: Lookup<'a>) -> Switch<'a>
        ensures { result ≡ record { otherwise = otherwise; rows = rows.entry } }
    {
        Switch {
            otherwise,
            rows: Rows::Lookup(rows),
        }
    }

    /// Where to go for a key: the target of the key's row, or where no row has the key, the one for such keys.
    pub fn target(&self, key: i32) -> i64
        ensures { result ≡ unwrap_or (target_in self.now.rows key) self.now.otherwise }
    {
        let found = match &self.rows {
            Rows::Table(rows) => rows.target(key),
            Rows::Lookup(rows) => rows.target(key),
        };
        found.unwrap_or(self.otherwise)
    }

    /// How many rows there are.
    pub fn rows(&self) -> u32
        ensures count { result ≡ length self.now.rows }
        // The key of each row is below those of all rows behind it (JVM Specification 6.5, tableswitch and lookupswitch).
        ensures rising { KeysRise self.now.rows }
    {
        match &self.rows {
            Rows::Table(rows) => rows.len(),
            Rows::Lookup(rows) => rows.len(),
        }
    }

    /// The row at a place, counted from 0, in the rising order of the keys.
    pub fn row(&self, at: u32) -> SwitchRow
        requires { at < length self.now.rows }
        ensures { slice_get self.now.rows at ≡ Some result }
    {
        match &self.rows {
            Rows::Table(rows) => rows.row(at),
            Rows::Lookup(rows) => rows.row(at),
        }
    }

    /// Where to go for a key of no row.
    pub fn otherwise(&self) -> i64
        ensures { result ≡ self.now.otherwise }
    {
        self.otherwise
    }
}
