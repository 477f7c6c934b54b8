//! Whether lists are short enough for the counts that stand before them.

ghost use Rattle.std.specs.Prelude.{◌≡◌, IfOk};
ghost use Rattle.std.specs.List.{list_all};
ghost use Rattle.mvm_classfile.specs.Writing.{fits_item, fits_code, lists_fit};

use mvm_base::{OutOfMemory, encode_mutf8};
use mvm_layout::{Code, Item, Member, Parts};
use std::alloc::Global;

/// Whether the modified UTF-8 of an entry has fewer than 2^16 bytes.
fn fits_item(alloc: Global, item: &Item) -> Result<bool, OutOfMemory>
    ensures { IfOk result (λ fits. fits ≡ fits_item item.now) }
{
    match item {
        Item::Utf8(text) => {
            let spelled = encode_mutf8(alloc, text)?;
            Ok(spelled.len() < 65536)
        }
        _ => Ok(true),
    }
}

/// Whether that holds of each entry.
fn pool_fits(alloc: Global, pool: &[Item]) -> Result<bool, OutOfMemory>
    ensures { IfOk result (λ fits. fits ≡ list_all fits_item pool.now) }
{
    for i in 0..pool.len() {
        if !fits_item(alloc, &pool[i])? {
            return Ok(false);
        }
    }
    Ok(true)
}

/// Whether a method has fewer than 2^16 rows in its exception table.
fn fits_code(code: &Option<Code>) -> bool
    ensures { result ≡ fits_code code.now }
{
    match code {
        Some(code) => code.rows.len() < 65536,
        None => true,
    }
}

/// Whether that holds of each method.
fn members_fit(members: &[Member]) -> bool
    ensures { result ≡ list_all (λ member. fits_code member.code) members.now }
{
    for i in 0..members.len() {
        if !fits_code(&members[i].code) {
            return false;
        }
    }
    true
}

/// Whether each list is short enough for its count.
#[tactic(auto, unfolding(crate::specs::Writing::lists_fit))]
pub(crate) fn lists_fit(alloc: Global, parts: &Parts) -> Result<bool, OutOfMemory>
    ensures { IfOk result (λ fits. fits ≡ lists_fit parts.now) }
{
    Ok(
        parts.pool.len() < 65535
            && pool_fits(alloc, parts.pool.as_slice())?
            && parts.interfaces.len() < 65536
            && parts.fields.len() < 65536
            && parts.methods.len() < 65536
            && members_fit(parts.fields.as_slice())
            && members_fit(parts.methods.as_slice()),
    )
}
