ghost use Rattle.std.specs.Prelude.{◌≡◌, ◌<◌, ◌^◌, ℕ, length, All, Option, IfOk, OnOk};
ghost use Rattle.mvm_layout.specs.Pool.{text};
ghost use Rattle.mvm_set.specs.Index.{AreNumbers, HasNumber, HasNumbers, KeepNumbers, number_in, place_of, AddsPlace, IsIndex};
ghost use Rattle.mvm_set.specs.IndexOf.{field_in, method_in, IsIndexOf};
ghost use Rattle.mvm_set.specs.Set.{look};

use mvm_base::{List, Name, OutOfMemory};
use mvm_classfile::{ClassFile, Item, Member, Parts};
use mvm_layout::pool::text;
use std::alloc::Global;
use std::collections::BTreeMap;

/// Gives the text of an index a number, which is the index.
fn add_text(
    alloc: Global,
    texts: &mut BTreeMap<Vec<u16>, u16>,
    pool: &List<Item>,
    index: u16,
) -> Result<(), OutOfMemory>
    ensures numbers { OnOk result (AreNumbers pool.now (look texts.old (λ key. key.items)) → AreNumbers pool.now (look texts.new (λ key. key.items))) }
    ensures kept { OnOk result (KeepNumbers (look texts.old (λ key. key.items)) (look texts.new (λ key. key.items))) }
    ensures has { OnOk result (HasNumber pool.now (look texts.new (λ key. key.items)) index) }
{
    match text(pool, index) {
        Some(name) => {
            let units = Vec::from_slice(alloc, name.units())?;
            texts.insert(units, index)?;
            Ok(())
        }
        None => Ok(()),
    }
}

/// Gives the names and the descriptors of these members numbers.
fn add_texts(
    alloc: Global,
    texts: &mut BTreeMap<Vec<u16>, u16>,
    pool: &List<Item>,
    members: &[Member],
) -> Result<(), OutOfMemory>
    ensures numbers { OnOk result (AreNumbers pool.now (look texts.old (λ key. key.items)) → AreNumbers pool.now (look texts.new (λ key. key.items))) }
    ensures kept { OnOk result (KeepNumbers (look texts.old (λ key. key.items)) (look texts.new (λ key. key.items))) }
    ensures have { OnOk result (All (HasNumbers pool.now (look texts.new (λ key. key.items))) members.now) }
{
    for i in 0..members.len() {
        let member = &members[i];
        add_text(alloc, texts, pool, member.name)?;
        add_text(alloc, texts, pool, member.desc)?;
    }
    Ok(())
}

/// A number for each name and each descriptor of a member.
fn texts_of(alloc: Global, parts: &Parts) -> Result<BTreeMap<Vec<u16>, u16>, OutOfMemory>
    ensures numbers { IfOk result (λ texts. AreNumbers parts.now.pool (look texts (λ key. key.items))) }
    ensures fields { IfOk result (λ texts. All (HasNumbers parts.now.pool (look texts (λ key. key.items))) parts.now.fields) }
    ensures methods { IfOk result (λ texts. All (HasNumbers parts.now.pool (look texts (λ key. key.items))) parts.now.methods) }
{
    let mut texts = BTreeMap::new(alloc);
    add_texts(alloc, &mut texts, &parts.pool, parts.fields.as_slice())?;
    add_texts(alloc, &mut texts, &parts.pool, parts.methods.as_slice())?;
    Ok(texts)
}

/// The number of a text.
fn number_of(texts: &BTreeMap<Vec<u16>, u16>, name: &Name) -> Option<u16>
    ensures { result ≡ look texts.now (λ key. key.items) name.now }
{
    match texts.get(name.units()) {
        Some(number) => Some(*number),
        None => None,
    }
}

/// The number of the text of an index.
fn number_at(texts: &BTreeMap<Vec<u16>, u16>, pool: &List<Item>, index: u16) -> Option<u16>
    ensures { result ≡ number_in (look texts.now (λ key. key.items)) (text pool.now index) }
{
    match text(pool, index) {
        Some(name) => number_of(texts, name),
        None => None,
    }
}

/// Gives a pair of numbers a place.
fn add_place(
    places: &mut BTreeMap<(u16, u16), u16>,
    name: Option<u16>,
    desc: Option<u16>,
    at: u16,
) -> Result<(), OutOfMemory>
    ensures { OnOk result (AddsPlace name desc at places.old places.new) }
{
    match name {
        Some(name) => match desc {
            Some(desc) => {
                places.insert((name, desc), at)?;
                Ok(())
            }
            None => Ok(()),
        },
        None => Ok(()),
    }
}

/// The places of these members, each the one of the first member of its name and descriptor.
fn places_of(
    alloc: Global,
    texts: &BTreeMap<Vec<u16>, u16>,
    pool: &List<Item>,
    members: &[Member],
) -> Result<BTreeMap<(u16, u16), u16>, OutOfMemory>
    requires numbers { AreNumbers pool.now (look texts.now (λ key. key.items)) }
    requires have { All (HasNumbers pool.now (look texts.now (λ key. key.items))) members.now }
    requires few { length members.now < 2 ^ 16 }
    ensures { IfOk result (λ places. IsIndex 0 (look texts.now (λ key. key.items)) places pool.now members.now) }
{
    let mut places = BTreeMap::new(alloc);
    for i in (0..members.len()).rev() {
        let member = &members[i];
        let name = number_at(texts, pool, member.name);
        let desc = number_at(texts, pool, member.desc);
        add_place(&mut places, name, desc, i as u16)?;
    }
    Ok(places)
}

/// The place of a pair of numbers.
fn place_at(places: &BTreeMap<(u16, u16), u16>, name: Option<u16>, desc: Option<u16>) -> Option<u16>
    ensures { result ≡ place_of places.now name desc }
{
    match name {
        Some(name) => match desc {
            Some(desc) => match places.get(&(name, desc)) {
                Some(place) => Some(*place),
                None => None,
            },
            None => None,
        },
        None => None,
    }
}

/// The members of a file, to be looked up by name and descriptor.
#[derive(Debug, Drop)]
pub(crate) struct Index {
    /// A number for each name and each descriptor of a member.
    texts: BTreeMap<Vec<u16>, u16>,
    /// The place of a field, by the numbers of its name and of its descriptor.
    fields: BTreeMap<(u16, u16), u16>,
    /// The same of methods.
    methods: BTreeMap<(u16, u16), u16>,
}

impl Index {
    /// The index of a file.
    pub(crate) fn new(alloc: Global, file: &ClassFile) -> Result<Index, OutOfMemory>
        ensures { IfOk result (λ index. IsIndexOf file.now index) }
    {
        let parts = file.parts();
        let texts = texts_of(alloc, parts)?;
        let fields = places_of(alloc, &texts, &parts.pool, parts.fields.as_slice())?;
        let methods = places_of(alloc, &texts, &parts.pool, parts.methods.as_slice())?;
        Ok(Index {
            texts,
            fields,
            methods,
        })
    }

    /// The place of the field of a name and descriptor.
    pub(crate) fn field(&self, name: &Name, desc: &Name) -> Option<u16>
        ensures { result ≡ field_in self.now name.now desc.now }
    {
        let name = number_of(&self.texts, name);
        let desc = number_of(&self.texts, desc);
        place_at(&self.fields, name, desc)
    }

    /// The place of the method of a name and descriptor.
    pub(crate) fn method(&self, name: &Name, desc: &Name) -> Option<u16>
        ensures { result ≡ method_in self.now name.now desc.now }
    {
        let name = number_of(&self.texts, name);
        let desc = number_of(&self.texts, desc);
        place_at(&self.methods, name, desc)
    }
}
