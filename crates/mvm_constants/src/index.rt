ghost use Rattle.std.specs.Prelude.{◌≡◌, ◌<◌, ◌≤◌, ◌+◌, [], ◌∷◌, ◌++◌, length, OnOk, IfOk, List as Items};
ghost use Rattle.mvm_constants.specs.NameMap.{row};
ghost use Rattle.mvm_constants.specs.Index.{has, key_sought, numbers_of};
ghost use Rattle.mvm_constants.specs.Settling.{IsIndexOf, numbered, Numbers, Places, PlacesEach, PlacesWaiting};
ghost use Rattle.mvm_constants.specs.Search.{means};
ghost use Rattle.mvm_listing.specs.Constants.{index_where};
ghost use Rattle.mvm_layout.specs.declared.parts.Item.{Item};

use crate::key::{Key, Lack, key_at, member_key};
use crate::name_map::NameMap;
use crate::rows::{found, put_lower, wait, waiting};
use crate::sought::Sought;
use mvm_base::{List, Name};
use mvm_layout::Item;
use std::alloc::{AllocError, Global};
use std::collections::BTreeMap;

/// The entries of a constant pool by what they mean.
#[derive(Drop)]
pub(crate) struct Index {
    alloc: Global,
    texts: NameMap<u16>,
    numbers: List<u16>,
    keyed: BTreeMap<Key, u16>,
    waiting: BTreeMap<u16, List<u16>>,
}

impl Index {
    /// The index of a pool without entries.
    pub(crate) fn new(alloc: Global) -> Index
        ensures { IsIndexOf [] result }
    {
        Index {
            alloc,
            texts: NameMap::new(alloc),
            numbers: List::new(alloc),
            keyed: BTreeMap::new(alloc),
            waiting: BTreeMap::new(alloc),
        }
    }

    /// Puts an entry behind the others of the pool whose index this is, and takes it in.
    pub(crate) fn append(&mut self, pool: &mut List<Item>, item: Item) -> Result<(), AllocError>
        requires index { IsIndexOf pool.old self.old }
        requires room { length pool.old < 65534 }
        ensures appended { OnOk result (pool.new ≡ pool.old ++ item ∷ []) }
        ensures index { OnOk result (IsIndexOf pool.new self.new) }
        ensures room { length pool.new ≤ length pool.old + 1 }
    {
        let at = pool.len() as u16 + 1;
        let number = number(&mut self.texts, self.alloc, &item, at)?;
        self.numbers.push(number)?;
        pool.push(item)?;
        self.place_waiting(pool, at)?;
        self.place(pool, at)
    }

    /// The lowest index at which a text stands.
    pub(crate) fn text(&self, wanted: &Name) -> Option<u16>
        ensures { result ≡ row wanted.now self.now.texts }
    {
        self.texts.get(wanted).copied()
    }

    /// The lowest index of an entry that means what is sought, in the pool whose index this is.
    pub(crate) fn find(&self, sought: Sought) -> Option<u16>
        ensures { (pool : Items Item) → IsIndexOf pool self.now → result ≡ index_where (means pool sought.entry) 1 pool }
    {
        found(&self.keyed, self.key_sought(sought)?)
    }

    /// The key of what is sought. There is none where one of its texts stands nowhere.
    fn key_sought(&self, sought: Sought) -> Option<Key>
        ensures { result ≡ key_sought (λ text. row text self.now.texts) sought.entry }
    {
        match sought {
            Sought::Class(name) => Some(Key::Class(self.text(name)?)),
            Sought::Str(units) => Some(Key::Str(self.text(units)?)),
            Sought::Integer(number) => Some(Key::Integer(number)),
            Sought::Long(number) => Some(Key::Long(number)),
            Sought::Pair(name, desc) => {
                let name = self.text(name)?;
                let desc = self.text(desc)?;
                Some(Key::Pair(name, desc))
            }
            Sought::Member(kind, class, name, desc) => {
                let class = self.text(class)?;
                let name = self.text(name)?;
                let desc = self.text(desc)?;
                member_key(kind, class, name, desc)
            }
        }
    }

    /// Lets the entry at an index be found by its key, or wait for what it leads to.
    fn place(&mut self, pool: &List<Item>, at: u16) -> Result<(), AllocError>
        ensures { OnOk result (Places pool.now at self.old self.new) }
    {
        match key_at(pool, &self.numbers, at) {
            Ok(key) => put_lower(&mut self.keyed, key, at),
            Err(Lack::Missing(index)) => wait(&mut self.waiting, self.alloc, index, at),
            Err(Lack::OtherKind) => Ok(()),
        }
    }

    /// The same for each of these.
    fn place_each(&mut self, pool: &List<Item>, entries: &[u16]) -> Result<(), AllocError>
        ensures { OnOk result (PlacesEach pool.now entries.now self.old self.new) }
    {
        for at in entries {
            self.place(pool, *at)?;
        }
        Ok(())
    }

    /// The same for those that wait for the entry at an index.
    fn place_waiting(&mut self, pool: &List<Item>, index: u16) -> Result<(), AllocError>
        ensures { OnOk result (PlacesWaiting pool.now index self.old self.new) }
    {
        let entries = waiting(&mut self.waiting, self.alloc, index);
        self.place_each(pool, entries.as_slice())
    }
}

/// The number of the text of an entry that is to stand at an index, or 0.
fn number(texts: &mut NameMap<u16>, alloc: Global, item: &Item, at: u16) -> Result<u16, AllocError>
    ensures number { IfOk result (λ n. n ≡ numbered texts.old item.now at) }
    ensures texts { OnOk result (Numbers texts.old item.now at texts.new) }
{
    let Item::Utf8(text) = item else {
        return Ok(0);
    };
    if let Some(number) = texts.get(text) {
        return Ok(*number);
    }
    texts.put(alloc, text, at)?;
    Ok(at)
}
