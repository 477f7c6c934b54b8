ghost use Rattle.std.specs.Prelude.{◌≡◌, ◌<◌, ◌==◌, ℕ, List as Items, length, map, slice_set, if◌then◌else◌, IfOk};
ghost use Rattle.std.specs.Option.{option_copied};
ghost use Rattle.mvm_set.specs.Set.{look};
ghost use Rattle.mvm_table.specs.Files.{bytes_in, bytes_at};
ghost use Rattle.mvm_table.specs.Sources.{place_from, or_zero, first_of, no_bytes, AreLeft, told};

use crate::source::SourceRow;
use mvm_base::{List, OutOfMemory};
use std::alloc::Global;
use std::collections::BTreeMap;
use std::marker::Model;

/// The bytes of class files, in the order in which they were handed in. Equal bytes are kept once.
#[derive(Drop)]
pub(crate) struct Sources {
    /// The sources. One that has the bytes of an earlier one is empty.
    rows: List<SourceRow>,
    /// Of each source the place of the first that has its bytes.
    firsts: Vec<usize>,
}

impl Model for Sources {
    ghost use Rattle.std.specs.Prelude.{List as Items};
    ghost use Rattle.mvm_table.specs.Sources.{AreApart, told};
    ghost use Rattle.mvm_table.specs.declared.source.SourceRow.{SourceRow as RowOf};

    ghost Value = { Items RowOf };

    ghost view = { λ s. told s.rows s.firsts.items };

    ghost invariant = { λ s. AreApart s.rows };
}

/// The places of sources by their bytes, each the one of the first that has them.
fn places_of<'a>(
    alloc: Global,
    sources: &'a [SourceRow],
) -> Result<BTreeMap<&'a [u8], usize>, OutOfMemory>
    ensures { IfOk result (λ places. (bytes : Items ℕ) → look places (λ key. key.now) bytes ≡ place_from 0 bytes sources.now) }
{
    let mut places = BTreeMap::new(alloc);
    for i in (0..sources.len()).rev() {
        places.insert(sources[i].bytes.as_slice(), i)?;
    }
    Ok(places)
}

/// The place of bytes. None is the place 0.
fn place_in(places: &BTreeMap<&[u8], usize>, bytes: &[u8]) -> usize
    ensures { result ≡ or_zero (look places.now (λ key. key.now) bytes.now) }
{
    match places.get(bytes) {
        Some(place) => *place,
        None => 0,
    }
}

/// Of each source the place of the first that has its bytes.
fn firsts_of(alloc: Global, sources: &[SourceRow]) -> Result<Vec<usize>, OutOfMemory>
    ensures { IfOk result (λ firsts. firsts.items ≡ map (first_of sources.now) sources.now) }
{
    let places = places_of(alloc, sources)?;
    let mut firsts = Vec::new(alloc);
    for i in 0..sources.len() {
        firsts.push(place_in(&places, sources[i].bytes.as_slice()))?;
    }
    Ok(firsts)
}

/// Empties a source that is not the first of its bytes.
fn empty_later(alloc: Global, rows: &mut List<SourceRow>, place: usize, first: usize)
    requires { place < length rows.old }
    ensures { rows.new ≡ (if first == place then rows.old else slice_set rows.old place no_bytes) }
{
    if first != place {
        rows.set(
            place,
            SourceRow {
                bytes: List::new(alloc),
            },
        );
    }
}

/// Empties the sources that are not the first of their bytes.
fn empty_repeats(alloc: Global, rows: &mut List<SourceRow>, firsts: &[usize])
    requires { firsts.now ≡ map (first_of rows.old) rows.old }
    ensures { AreLeft rows.old rows.new }
{
    for i in 0..firsts.len() {
        empty_later(alloc, rows, i, firsts[i]);
    }
}

/// The bytes of a source.
fn bytes_of_row(row: Option<&SourceRow>) -> &[u8]
    ensures { result.now ≡ bytes_in (option_copied row.entry) }
{
    match row {
        Some(row) => row.bytes.as_slice(),
        None => &[],
    }
}

/// The bytes of a source by its place.
#[tactic(auto, using(crate::proofs::Distinct::bytes_by_first, crate::proofs::Distinct::no_bytes_there))]
fn bytes_told<'a>(rows: &'a List<SourceRow>, firsts: &[usize], place: u32) -> &'a [u8]
    ensures { result.now ≡ bytes_at (told rows.now firsts.now) place }
{
    match firsts.get(place as usize) {
        Some(first) => bytes_of_row(rows.get(*first)),
        None => &[],
    }
}

impl Sources {
    /// These sources. Those that have the bytes of an earlier one share them.
    pub(crate) fn new(alloc: Global, sources: List<SourceRow>) -> Result<Sources, OutOfMemory>
        ensures { IfOk result (λ made. made ≡ sources) }
    {
        let mut rows = sources;
        let firsts = firsts_of(alloc, rows.as_slice())?;
        empty_repeats(alloc, &mut rows, firsts.as_slice());
        Ok(Sources { rows, firsts })
    }

    /// The bytes of a source by its place. None has no other place.
    pub(crate) fn bytes(&self, place: u32) -> &[u8]
        ensures { result.now ≡ bytes_at self.now place }
    {
        bytes_told(&self.rows, self.firsts.as_slice(), place)
    }
}
