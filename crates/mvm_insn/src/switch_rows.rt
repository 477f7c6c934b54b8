ghost use Rattle.std.specs.Prelude.{◌≡◌, ◌≢◌, ◌<◌, ◌≤◌, ℕ, ◌+◌, ◌-◌, ◌*◌, ◌^◌, pos, ◌+ℤ◌, ◌<ℤ◌, ◌≤ℤ◌, length, true, slice_get, Some, MatchOption};
ghost use Rattle.mvm_insn.specs.Rows.{word, rows, table_row, lookup_row, rising, KeysRise, target_in};

use byteorder::{BigEndian, ByteOrder};
use std::marker::Model;

/// A row of a switch: a key, and the place in the code to go to for it (JVM Specification 6.5, `lookupswitch`).
#[derive(Clone, Copy, Debug, PartialEq, Eq)]
pub struct SwitchRow {
    pub key: i32,
    pub target: i64,
}

/// The number in the four bytes behind so many times four.
#[tactic(auto, unfolding(crate::specs::Rows::word))]
fn word(text: &[u8], at: usize) -> i32
    requires { 4 * at + 4 ≤ length text.now }
    ensures { result ≡ word text.now at }
{
    BigEndian::read_i32(&text[4 * at..])
}

/// Whether the keys of a `lookupswitch` rise, up to the one at a place.
pub(crate) fn rises(text: &[u8], last: u32) -> bool
    requires { 8 * last + 8 ≤ length text.now }
    ensures { result ≡ rising last (λ i. word text.now (2 * i)) }
{
    for i in 0..last as usize {
        if word(text, 2 * i) >= word(text, 2 * (i + 1)) {
            return false;
        }
    }
    true
}

/// The place of the row with a key, among the rows of a `lookupswitch`, whose keys rise.
fn place_of(text: &[u8], count: u32, key: i32) -> Option<u32>
    requires whole { length text.now ≡ 8 * count }
    requires rising { rising (count - 1) (λ i. word text.now (2 * i)) ≡ true }
    ensures { MatchOption result ((j : ℕ) → j < count → word text.now (2 * j) ≢ key) (λ m. (m < count) × (word text.now (2 * m) ≡ key)) }
{
    let mut low = 0;
    let mut high = count;
    while low < high {
        let middle = low + (high - low) / 2;
        let here = word(text, 2 * (middle as usize));
        if here == key {
            return Some(middle);
        }
        if here < key {
            low = middle + 1;
        } else {
            high = middle;
        }
    }
    None
}

/// The place of the row with a key, among so many keys from the lowest on.
fn place_in(low: i32, count: u32, key: i32) -> Option<u32>
    ensures { MatchOption result ((j : ℕ) → j < count → (low +ℤ pos j) ≢ key) (λ m. (m < count) × ((low +ℤ pos m) ≡ key)) }
{
    let place = i64::from(key) - i64::from(low);
    if place < 0 {
        return None;
    }
    if i64::from(count) <= place {
        return None;
    }
    Some(place as u32)
}

fn key_of(low: i32, place: u32) -> i32
    requires { (low +ℤ pos place) <ℤ pos (2 ^ 31) }
    ensures { result ≡ low +ℤ pos place }
{
    (i64::from(low) + i64::from(place)) as i32
}

fn target_of(at: u32, offset: i32) -> i64
    ensures { result ≡ pos at +ℤ offset }
{
    i64::from(at) + i64::from(offset)
}

fn table_row(at: u32, low: i32, text: &[u8], place: u32) -> SwitchRow
    requires whole { 4 * place + 4 ≤ length text.now }
    requires high { (low +ℤ pos place) <ℤ pos (2 ^ 31) }
    ensures { result ≡ table_row at low text.now place }
{
    SwitchRow {
        key: key_of(low, place),
        target: target_of(at, word(text, place as usize)),
    }
}

fn lookup_row(at: u32, text: &[u8], place: u32) -> SwitchRow
    requires { 8 * place + 8 ≤ length text.now }
    ensures { result ≡ lookup_row at text.now place }
{
    let place = place as usize;
    SwitchRow {
        key: word(text, 2 * place),
        target: target_of(at, word(text, 2 * place + 1)),
    }
}

/// The rows of a `tableswitch` at a place: offsets for keys that are counted from the lowest.
#[derive(Debug, Drop)]
pub(crate) struct Table<'a> {
    at: u32,
    low: i32,
    count: u32,
    text: &'a [u8],
}

impl<'a> Model for Table<'a> {
    ghost use Rattle.std.specs.Prelude.{List, ◌≡◌, ◌*◌, ◌^◌, length, pos, ◌+ℤ◌, ◌≤ℤ◌};
    ghost use Rattle.mvm_insn.specs.Rows.{rows, table_row};
    ghost use Rattle.mvm_insn.specs.declared.switch_rows.SwitchRow.{SwitchRow};

    ghost Value = { List SwitchRow };

    ghost view = { λ t. rows t.count (table_row t.at t.low t.text.now) };

    ghost invariant = { λ t. (length t.text.now ≡ 4 * t.count) × ((t.low +ℤ pos t.count) ≤ℤ pos (2 ^ 31)) };
}

impl<'a> Table<'a> {
    pub(crate) fn new(at: u32, low: i32, count: u32, text: &'a [u8]) -> Table<'a>
        requires whole { length text.now ≡ 4 * count }
        requires high { (low +ℤ pos count) ≤ℤ pos (2 ^ 31) }
        ensures { result ≡ rows count (table_row at low text.now) }
    {
        Table {
            at,
            low,
            count,
            text,
        }
    }

    #[tactic(auto, using(crate::proofs::RowLaws::length_rows))]
    pub(crate) fn len(&self) -> u32
        ensures len { result ≡ length self.now }
        ensures rising { KeysRise self.now }
    {
        self.count
    }

    pub(crate) fn row(&self, at: u32) -> SwitchRow
        requires { at < length self.now }
        ensures { slice_get self.now at ≡ Some result }
    {
        table_row(self.at, self.low, self.text, at)
    }

    pub(crate) fn target(&self, key: i32) -> Option<i64>
        ensures { result ≡ target_in self.now key }
    {
        match place_in(self.low, self.count, key) {
            Some(place) => Some(self.row(place).target),
            None => None,
        }
    }
}

/// The rows of a `lookupswitch` at a place: pairs of a key and an offset, whose keys rise.
#[derive(Debug, Drop)]
pub(crate) struct Lookup<'a> {
    at: u32,
    count: u32,
    text: &'a [u8],
}

impl<'a> Model for Lookup<'a> {
    ghost use Rattle.std.specs.Prelude.{List, ◌≡◌, ◌*◌, ◌-◌, length, true};
    ghost use Rattle.mvm_insn.specs.Rows.{rows, lookup_row, rising, word};
    ghost use Rattle.mvm_insn.specs.declared.switch_rows.SwitchRow.{SwitchRow};

    ghost Value = { List SwitchRow };

    ghost view = { λ t. rows t.count (lookup_row t.at t.text.now) };

    ghost invariant = { λ t. (length t.text.now ≡ 8 * t.count) × (rising (t.count - 1) (λ i. word t.text.now (2 * i)) ≡ true) };
}

impl<'a> Lookup<'a> {
    pub(crate) fn new(at: u32, count: u32, text: &'a [u8]) -> Lookup<'a>
        requires whole { length text.now ≡ 8 * count }
        requires rising { rising (count - 1) (λ i. word text.now (2 * i)) ≡ true }
        ensures { result ≡ rows count (lookup_row at text.now) }
    {
        Lookup { at, count, text }
    }

    #[tactic(auto, using(crate::proofs::RowLaws::length_rows))]
    pub(crate) fn len(&self) -> u32
        ensures len { result ≡ length self.now }
        ensures rising { KeysRise self.now }
    {
        self.count
    }

    pub(crate) fn row(&self, at: u32) -> SwitchRow
        requires { at < length self.now }
        ensures { slice_get self.now at ≡ Some result }
    {
        lookup_row(self.at, self.text, at)
    }

    pub(crate) fn target(&self, key: i32) -> Option<i64>
        ensures { result ≡ target_in self.now key }
    {
        match place_of(self.text, self.count, key) {
            Some(place) => Some(self.row(place).target),
            None => None,
        }
    }
}
