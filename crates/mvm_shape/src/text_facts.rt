ghost use Rattle.std.specs.Prelude.{◌≡◌, ◌<◌, ◌^◌, codes, not, length, slice_get, All, IfOk};
ghost use Rattle.std.specs.List.{list_all};
ghost use Rattle.std.specs.Option.{option_map};
ghost use Rattle.std.specs.Str.{bytes_eq};
ghost use Rattle.mvm_layout.specs.Bounds.{HasFewUnits};
ghost use Rattle.mvm_layout.specs.Pool.{text};
ghost use Rattle.mvm_shape.specs.Members.{is_one_of, is_unqualified, is_method_name};
ghost use Rattle.mvm_shape.specs.TextFacts.{as_field, as_method, facts_of, facts_of_item, all_facts, flattened};

use mvm_base::{DescFault, List, Name, OutOfMemory, parse_field, parse_method};
use mvm_layout::Item;
use mvm_layout::pool::{same_text, text};
use std::alloc::Global;

/// How a text was read as a descriptor.
#[derive(Clone, Copy, Debug, PartialEq, Eq)]
pub(crate) enum Descriptor {
    /// It spells a type, whose parameters take so many slots.
    Whole(u64),
    /// A type in it is `F` or `D`.
    Float,
    /// It spells none.
    Broken,
}

/// What members ask of a text.
#[derive(Clone, Copy, Debug, PartialEq, Eq)]
pub(crate) struct TextFacts {
    /// Whether a field may have it as its name.
    pub(crate) is_field_name: bool,
    /// Whether a method may.
    pub(crate) is_method_name: bool,
    /// How it reads as the descriptor of a field.
    pub(crate) field: Descriptor,
    /// How it reads as the descriptor of a method.
    pub(crate) method: Descriptor,
}

fn is_cut(unit: u16) -> bool
    ensures { result ≡ is_one_of (codes ".;[/") unit }
{
    unit == 0x2e || unit == 0x3b || unit == 0x5b || unit == 0x2f
}

fn is_bracket(unit: u16) -> bool
    ensures { result ≡ is_one_of (codes "<>") unit }
{
    unit == 0x3c || unit == 0x3e
}

fn has_no_cut(units: &[u16]) -> bool
    ensures { result ≡ list_all (λ unit. not (is_one_of (codes ".;[/") unit)) units.now }
{
    units.iter().all(|unit| !is_cut(*unit))
}

#[tactic(auto, unfolding(crate::specs::Members::is_unqualified))]
fn is_unqualified(units: &[u16]) -> bool
    ensures { result ≡ is_unqualified units.now }
{
    !units.is_empty() && has_no_cut(units)
}

fn has_no_bracket(units: &[u16]) -> bool
    ensures { result ≡ list_all (λ unit. not (is_one_of (codes "<>") unit)) units.now }
{
    units.iter().all(|unit| !is_bracket(*unit))
}

#[tactic(auto, unfolding(crate::specs::Members::is_method_name))]
fn is_method_name(units: &[u16]) -> bool
    ensures { result ≡ is_method_name units.now }
{
    same_text(units, b"<init>")
        || same_text(units, b"<clinit>")
        || (is_unqualified(units) && has_no_bracket(units))
}

#[tactic(auto, unfolding(crate::specs::TextFacts::as_field))]
fn as_field(alloc: Global, text: &Name) -> Result<Descriptor, OutOfMemory>
    requires { length text.now < 2 ^ 32 }
    ensures { IfOk result (λ found. found ≡ as_field text.now) }
{
    match parse_field(alloc, text) {
        Ok(_) => Ok(Descriptor::Whole(0)),
        Err(DescFault::Float) => Ok(Descriptor::Float),
        Err(DescFault::OutOfMemory) => Err(OutOfMemory),
        Err(DescFault::Empty) => Ok(Descriptor::Broken),
        Err(DescFault::BadLetter(_)) => Ok(Descriptor::Broken),
        Err(DescFault::Open) => Ok(Descriptor::Broken),
        Err(DescFault::Trailing) => Ok(Descriptor::Broken),
    }
}

#[tactic(auto, unfolding(crate::specs::TextFacts::as_method))]
fn as_method(alloc: Global, text: &Name) -> Result<Descriptor, OutOfMemory>
    requires { length text.now < 2 ^ 32 }
    ensures { IfOk result (λ found. found ≡ as_method text.now) }
{
    match parse_method(alloc, text) {
        Ok(method) => Ok(Descriptor::Whole(method.slots())),
        Err(DescFault::Float) => Ok(Descriptor::Float),
        Err(DescFault::OutOfMemory) => Err(OutOfMemory),
        Err(DescFault::Empty) => Ok(Descriptor::Broken),
        Err(DescFault::BadLetter(_)) => Ok(Descriptor::Broken),
        Err(DescFault::Open) => Ok(Descriptor::Broken),
        Err(DescFault::Trailing) => Ok(Descriptor::Broken),
    }
}

fn facts_of(alloc: Global, text: &Name) -> Result<TextFacts, OutOfMemory>
    requires { length text.now < 2 ^ 32 }
    ensures { IfOk result (λ facts. facts ≡ facts_of text.now) }
{
    let field = as_field(alloc, text)?;
    let method = as_method(alloc, text)?;
    Ok(TextFacts {
        is_field_name: is_unqualified(text.units()),
        is_method_name: is_method_name(text.units()),
        field,
        method,
    })
}

fn facts_of_item(alloc: Global, item: &Item) -> Result<Option<TextFacts>, OutOfMemory>
    requires { HasFewUnits item.now }
    ensures { IfOk result (λ facts. facts ≡ facts_of_item item.now) }
{
    match item {
        Item::Utf8(text) => {
            let facts = facts_of(alloc, text)?;
            Ok(Some(facts))
        }
        _ => Ok(None),
    }
}

/// What members ask of the texts, one row for each entry of the constant pool.
pub(crate) fn all_facts(
    alloc: Global,
    pool: &List<Item>,
) -> Result<Vec<Option<TextFacts>>, OutOfMemory>
    requires { All HasFewUnits pool.now }
    ensures { IfOk result (λ rows. rows.items ≡ all_facts pool.now) }
{
    let mut rows = Vec::new(alloc);
    for item in pool.as_slice() {
        let facts = facts_of_item(alloc, item)?;
        rows.push(facts)?;
    }
    Ok(rows)
}

fn row_at(rows: &[Option<TextFacts>], at: usize) -> Option<TextFacts>
    ensures { result ≡ flattened (slice_get rows.now at) }
{
    match rows.get(at) {
        Some(Some(facts)) => Some(*facts),
        Some(None) => None,
        None => None,
    }
}

/// What members ask of the text of an index, if it has one.
#[tactic(auto, using(crate::proofs::TextFacts::facts_from))]
pub(crate) fn facts_at(
    pool: &List<Item>,
    rows: &[Option<TextFacts>],
    index: u16,
) -> Option<TextFacts>
    requires { rows.now ≡ all_facts pool.now }
    ensures { result ≡ option_map facts_of (text pool.now index) }
{
    if index == 0 {
        return None;
    }
    row_at(rows, index as usize - 1)
}
