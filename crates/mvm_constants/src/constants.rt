//! Entries of the constant pool by what they mean (JVM Specification 4.4): the lowest that means it is taken; where there is none, it is
//! appended, its parts before it.

ghost use Rattle.std.specs.Prelude.{◌≡◌, ◌≤◌, ◌<◌, [], ◌∷◌, ◌++◌, length, OnOk, IfOk};
ghost use Rattle.mvm_listing.specs.Constants.{index_where, is_utf8_of, appended, text_entry, class_entry, string_entry, integer_entry, long_entry, pair_entry, pair_item, member_entry};
ghost use Rattle.mvm_constants.specs.Search.{Goes, means};

use crate::index::Index;
use crate::sought::Sought;
use mvm_base::{List, Name};
use mvm_layout::Item;
use mvm_listing::StepFault;
use mvm_statement::{AsmKind, PairKind};
use std::alloc::{AllocError, Global};
use std::marker::Model;

/// An entry that leads to two others.
fn pair_item(kind: PairKind, first: u16, second: u16) -> Item
    ensures { result ≡ pair_item kind first second }
{
    match kind {
        PairKind::Fieldref => Item::Fieldref(first, second),
        PairKind::Methodref => Item::Methodref(first, second),
        PairKind::InterfaceMethodref => Item::InterfaceMethodref(first, second),
        PairKind::NameAndType => Item::NameAndType(first, second),
    }
}

/// The constant pool of a class file that is being put together (JVM Specification 4.4). An entry is added by what it means: the lowest
/// entry that means it is taken; where there is none, it is appended, its parts before it. Indices are counted from 1, and the last is
/// 65,534 at most.
///
/// A call that adds an entry answers `AsmKind::Pool` where no index is left for it, or for a part of it; parts before that one may then have
/// been appended. Once memory has run out while an entry was added, each later call that adds one answers that it has.
#[derive(Drop)]
pub struct ConstantPool {
    entries: List<Item>,
    // `None` once memory has run out while an entry was added.
    index: Option<Index>,
}

impl Model for ConstantPool {
    ghost use Rattle.std.specs.Prelude.{List as Items};
    ghost use Rattle.mvm_layout.specs.declared.parts.Item.{Item};

    ghost Value = { Items Item };

    ghost view = { λ c. c.entries };

    ghost use Rattle.mvm_constants.specs.Settling.{IsPoolOf};

    ghost invariant = { λ c. IsPoolOf c.entries c.index };
}

impl ConstantPool {
    /// A pool without entries. It takes no memory.
    pub fn new(alloc: Global) -> ConstantPool
        ensures { result ≡ [] }
    {
        ConstantPool {
            entries: List::new(alloc),
            index: Some(Index::new(alloc)),
        }
    }

    /// The entries, in their order, with [`Item::Upper`] behind each long and double.
    pub fn entries(&self) -> &List<Item>
        ensures same { result.now ≡ self.now }
        ensures room { length self.now ≤ 65534 }
    {
        &self.entries
    }

    /// The same, where the pool is done with.
    pub fn into_entries(self) -> List<Item>
        ensures same { result ≡ self }
        ensures room { length self ≤ 65534 }
    {
        let ConstantPool {
            entries,
            index: _index,
        } = self;
        entries
    }

    /// Appends an entry, whatever stands before it. A long or a double takes two indices.
    pub fn append(&mut self, item: Item) -> Result<u16, StepFault>
        ensures { Goes result (appended item self.old) self.new }
    {
        let takes_two = matches!(&item, Item::Long(_) | Item::Double(_));
        let last = self.entries.len() + if takes_two { 2 } else { 1 };
        if last >= 65535 {
            return Err(StepFault::Kind(AsmKind::Pool));
        }
        let index = self.entries.len() as u16 + 1;
        self.push(item)?;
        if takes_two {
            self.push(Item::Upper)?;
        }
        Ok(index)
    }

    /// The entry of a text.
    pub fn text(&mut self, wanted: &Name) -> Result<u16, StepFault>
        ensures { Goes result (text_entry wanted.now self.old) self.new }
    {
        if let Some(index) = self.find_text(wanted)? {
            return Ok(index);
        }
        self.append(Item::Utf8(wanted.copy()?))
    }

    /// The entry of a class, by its name.
    pub fn class(&mut self, wanted: &Name) -> Result<u16, StepFault>
        ensures { Goes result (class_entry wanted.now self.old) self.new }
    {
        if let Some(index) = self.find(Sought::Class(wanted))? {
            return Ok(index);
        }
        let name = self.text(wanted)?;
        self.append(Item::Class(name))
    }

    /// The entry of a string constant, by its text.
    pub fn string(&mut self, wanted: &Name) -> Result<u16, StepFault>
        ensures { Goes result (string_entry wanted.now self.old) self.new }
    {
        if let Some(index) = self.find(Sought::Str(wanted))? {
            return Ok(index);
        }
        let units = self.text(wanted)?;
        self.append(Item::Str(units))
    }

    /// The entry of an int.
    pub fn integer(&mut self, wanted: i32) -> Result<u16, StepFault>
        ensures { Goes result (integer_entry wanted self.old) self.new }
    {
        if let Some(index) = self.find(Sought::Integer(wanted))? {
            return Ok(index);
        }
        self.append(Item::Integer(wanted))
    }

    /// The entry of a long.
    pub fn long(&mut self, wanted: i64) -> Result<u16, StepFault>
        ensures { Goes result (long_entry wanted self.old) self.new }
    {
        if let Some(index) = self.find(Sought::Long(wanted))? {
            return Ok(index);
        }
        self.append(Item::Long(wanted))
    }

    /// The entry of a field or a method of this kind, by the name of its class, its own name and its descriptor. A pair of a name and a
    /// descriptor is no member: under that kind none is found.
    pub fn member(
        &mut self,
        kind: PairKind,
        class: &Name,
        name: &Name,
        desc: &Name,
    ) -> Result<u16, StepFault>
        ensures { Goes result (member_entry kind class.now name.now desc.now self.old) self.new }
    {
        if let Some(index) = self.find(Sought::Member(kind, class, name, desc))? {
            return Ok(index);
        }
        let holder = self.class(class)?;
        let member = self.pair(name, desc)?;
        self.append(pair_item(kind, holder, member))
    }

    /// The entry of a name and a descriptor.
    fn pair(&mut self, name: &Name, desc: &Name) -> Result<u16, StepFault>
        ensures { Goes result (pair_entry name.now desc.now self.old) self.new }
    {
        if let Some(index) = self.find(Sought::Pair(name, desc))? {
            return Ok(index);
        }
        let one = self.text(name)?;
        let other = self.text(desc)?;
        self.append(Item::NameAndType(one, other))
    }

    /// The lowest index of a text.
    fn find_text(&self, wanted: &Name) -> Result<Option<u16>, AllocError>
        ensures { IfOk result (λ x. x ≡ index_where (is_utf8_of wanted.now) 1 self.now) }
    {
        match &self.index {
            Some(index) => Ok(index.text(wanted)),
            None => Err(AllocError),
        }
    }

    /// The lowest index of an entry that means what is sought.
    fn find(&self, sought: Sought) -> Result<Option<u16>, AllocError>
        ensures { IfOk result (λ x. x ≡ index_where (means self.now sought.entry) 1 self.now) }
    {
        match &self.index {
            Some(index) => Ok(index.find(sought)),
            None => Err(AllocError),
        }
    }

    /// Puts one entry behind the others.
    fn push(&mut self, item: Item) -> Result<(), AllocError>
        requires { length self.old < 65534 }
        ensures { OnOk result (self.new ≡ self.old ++ item ∷ []) }
    {
        let Some(mut index) = self.index.take() else {
            return Err(AllocError);
        };
        index.append(&mut self.entries, item)?;
        self.index = Some(index);
        Ok(())
    }
}
