ghost use Rattle.std.specs.Prelude.{◌≡◌, ℕ, ◌||◌, slice_index, Some, IfOk};
ghost use Rattle.mvm_layout.specs.Pool.{text_of};
ghost use Rattle.mvm_shape.specs.TextNumbers.{look, Numbered, AreNumbers, number_at, is_pair, has_pair, holds_pair, Adds};

use mvm_base::{List, OutOfMemory};
use mvm_layout::pool::text;
use mvm_layout::{Item, MemberInfo};
use std::alloc::Global;
use std::collections::{BTreeMap, BTreeSet};

/// The number of a text: the place of an equal text that came before, or else its own.
fn number<'a>(
    seen: &mut BTreeMap<&'a [u16], usize>,
    units: &'a [u16],
    at: usize,
) -> Result<usize, OutOfMemory>
    ensures { IfOk result (λ number. Numbered (Some units.now) at (look seen.old) number (look seen.new)) }
{
    match seen.get(&units) {
        Some(number) => return Ok(*number),
        None => {}
    }
    seen.insert(units, at)?;
    Ok(at)
}

fn number_of_item<'a>(
    seen: &mut BTreeMap<&'a [u16], usize>,
    item: &'a Item,
    at: usize,
) -> Result<usize, OutOfMemory>
    ensures { IfOk result (λ number. Numbered (text_of (Some item.now)) at (look seen.old) number (look seen.new)) }
{
    match item {
        Item::Utf8(name) => number(seen, name.units(), at),
        _ => Ok(at),
    }
}

/// A number for each entry of the constant pool. Two texts are equal exactly where their numbers are.
pub(crate) fn numbers(alloc: Global, pool: &List<Item>) -> Result<Vec<usize>, OutOfMemory>
    ensures { IfOk result (λ numbers. AreNumbers pool.now numbers.items) }
{
    let items = pool.as_slice();
    let mut seen = BTreeMap::new(alloc);
    let mut numbers = Vec::new(alloc);
    for i in 0..items.len() {
        let number = number_of_item(&mut seen, &items[i], i)?;
        numbers.push(number)?;
    }
    Ok(numbers)
}

fn number_in(numbers: &[usize], at: usize) -> usize
    ensures { result ≡ slice_index numbers.now at }
{
    match numbers.get(at) {
        Some(number) => *number,
        None => 0,
    }
}

fn number_at(pool: &List<Item>, numbers: &[usize], index: u16) -> Option<usize>
    ensures { result ≡ number_at pool.now numbers.now index }
{
    if index == 0 {
        return None;
    }
    match text(pool, index) {
        Some(_) => Some(number_in(numbers, index as usize - 1)),
        None => None,
    }
}

fn add_pair(
    pairs: &mut BTreeSet<(usize, usize)>,
    name: Option<usize>,
    desc: Option<usize>,
) -> Result<bool, OutOfMemory>
    ensures had { IfOk result (λ had. had ≡ has_pair (holds_pair pairs.old) name desc) }
    ensures next { IfOk result (λ had. (a : ℕ) → (b : ℕ) → holds_pair pairs.new a b ≡ (holds_pair pairs.old a b || is_pair name desc a b)) }
{
    match name {
        Some(name) => match desc {
            Some(desc) => {
                let is_new = pairs.insert((name, desc))?;
                Ok(!is_new)
            }
            None => Ok(false),
        },
        None => Ok(false),
    }
}

/// Whether a member before had the name and descriptor of this one, which are then among them.
pub(crate) fn is_repeated(
    pairs: &mut BTreeSet<(usize, usize)>,
    pool: &List<Item>,
    numbers: &[usize],
    member: &MemberInfo,
) -> Result<bool, OutOfMemory>
    requires { AreNumbers pool.now numbers.now }
    ensures { IfOk result (λ repeated. Adds pool.now numbers.now (holds_pair pairs.old) (holds_pair pairs.new) member.now repeated) }
{
    let name = number_at(pool, numbers, member.name);
    let desc = number_at(pool, numbers, member.desc);
    let repeated = add_pair(pairs, name, desc)?;
    Ok(repeated)
}
