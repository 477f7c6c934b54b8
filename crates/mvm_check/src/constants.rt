ghost use Rattle.std.specs.Prelude.{◌≡◌, map, slice_get, IfOk, IsTrue};
ghost use Rattle.std.specs.List.{AllPass};
ghost use Rattle.std.specs.Option.{option_flatten};
ghost use Rattle.mvm_classfile.specs.Writing.{fits_item};
ghost use Rattle.mvm_check.specs.Operands.{parameter_slots, slots_of_item};

use mvm_base::{DescFault, List, OutOfMemory, parse_method};
use mvm_layout::Item;
use std::alloc::Global;
use std::marker::Model;

/// The constant pool, and beside each entry the slots of the parameters of the method descriptor that it is, if it is one. So
/// each text is parsed once, however many methods and instructions use it.
#[derive(Debug, Drop)]
pub(crate) struct Constants<'a> {
    pool: &'a List<Item>,
    slots: List<Option<u64>>,
}

impl<'a> Model for Constants<'a> {
    ghost use Rattle.std.specs.Prelude.{List, ◌≡◌, map};
    ghost use Rattle.mvm_layout.specs.declared.parts.Item.{Item};
    ghost use Rattle.mvm_check.specs.Operands.{slots_of_item};

    ghost Value = { List Item };

    ghost view = { λ c. c.pool.now };

    ghost invariant = { λ c. c.slots ≡ map slots_of_item c.pool.now };
}

/// The slots of the parameters of the method descriptor that an entry is.
fn slots_of_item(alloc: Global, item: &Item) -> Result<Option<u64>, OutOfMemory>
    requires { IsTrue (fits_item item.now) }
    ensures { IfOk result (λ slots. slots ≡ slots_of_item item.now) }
{
    let text = match item {
        Item::Utf8(text) => text,
        _ => return Ok(None),
    };
    match parse_method(alloc, text) {
        Ok(method) => Ok(Some(method.slots())),
        Err(DescFault::OutOfMemory) => Err(OutOfMemory),
        Err(_) => Ok(None),
    }
}

fn all_slots(alloc: Global, pool: &List<Item>) -> Result<List<Option<u64>>, OutOfMemory>
    requires { AllPass fits_item pool.now }
    ensures { IfOk result (λ slots. slots ≡ map slots_of_item pool.now) }
{
    let items = pool.as_slice();
    let mut all = List::new(alloc);
    for i in 0..items.len() {
        let slots = slots_of_item(alloc, &items[i])?;
        all.push(slots)?;
    }
    Ok(all)
}

fn slots_at(slots: &[Option<u64>], at: usize) -> Option<u64>
    ensures { result ≡ option_flatten (slice_get slots.now at) }
{
    match slots.get(at) {
        Some(Some(slots)) => Some(*slots),
        Some(None) | None => None,
    }
}

impl<'a> Constants<'a> {
    /// The constants of a pool. It takes time and memory in proportion to it.
    pub(crate) fn of(alloc: Global, pool: &'a List<Item>) -> Result<Constants<'a>, OutOfMemory>
        requires { AllPass fits_item pool.now }
        ensures { IfOk result (λ constants. constants ≡ pool.now) }
    {
        let slots = all_slots(alloc, pool)?;
        Ok(Constants { pool, slots })
    }

    pub(crate) fn pool(&self) -> &'a List<Item>
        ensures { result.now ≡ self.now }
    {
        self.pool
    }

    /// The slots of the parameters of the descriptor of an index (JVM Specification 4.3.3).
    #[tactic(auto, unfolding(crate::specs::Operands::parameter_slots))]
    pub(crate) fn parameter_slots(&self, desc: u16) -> Option<u64>
        ensures { result ≡ parameter_slots self.now desc }
    {
        if desc == 0 {
            return None;
        }
        slots_at(self.slots.as_slice(), usize::from(desc) - 1)
    }
}
