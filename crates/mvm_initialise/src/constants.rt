ghost use Rattle.std.specs.Prelude.{◌≡◌, ◌≢◌, ◌^◌, ◌||◌, ◌<◌, ℕ, List, suc, length, min, not, true, All, IfErr, IfOk, IfSome, IsOk, OnOk, Some, Ok, Err};
ghost use Rattle.std.specs.Option.{option_copied};
ghost use Rattle.std.specs.Str.{bytes_eq};
ghost use Rattle.mvm_heap.specs.Objects.{State};
ghost use Rattle.mvm_initialise.specs.Constants.{constant_text, constant_texts, field_set, is_interned, is_known, is_met, text_by, words_wanted, Counted, HasSlot, IsShort, IsThere, IsThrownAt, MayBeSet, MOST};
ghost use Rattle.mvm_isolate.specs.Initialise.{constant, constant_set, constants_set};
ghost use Rattle.mvm_isolate.specs.Interning.{MayIntern};
ghost use Rattle.mvm_isolate.specs.Isolate.{interned_text};
ghost use Rattle.mvm_isolate.specs.Numbered.{class_at, name_at, named, IsClass};
ghost use Rattle.mvm_isolate.specs.Sound.{Grows};
ghost use Rattle.mvm_isolate.specs.declared.stop.Stop.TheVariants as stop;
ghost use Rattle.mvm_layout.specs.Flags.{is_static};
ghost use Rattle.mvm_layout.specs.Pool.{entry, text};

use crate::words::{added, has_words};
use mvm_base::{List, Name, OutOfMemory, Word};
use mvm_classfile::{Item, Member, Parts};
use mvm_heap::{ObjectKind, words_needed};
use mvm_isolate::{Isolate, Stop};
use mvm_layout::flags::is_static;
use mvm_layout::pool::{entry, text};
use mvm_member::static_place;
use mvm_mirror::slot_law;
use mvm_set::Class;
use std::collections::BTreeMap;

/// The text of the constant of a static field, if it has one that is a text (JVM Specification 4.7.2).
fn constant_text<'a>(pool: &'a List<Item>, field: &Member) -> Option<&'a Name>
    ensures { option_copied result ≡ constant_text pool.now field.now }
{
    if !is_static(field.flags) {
        return None;
    }
    match field.constant {
        Some(index) => match entry(pool, index) {
            Some(Item::Str(units)) => text(pool, *units),
            _ => None,
        },
        None => None,
    }
}

/// Whether a text is met for the first time. It is met from then on.
fn is_first<'a>(met: &mut BTreeMap<&'a [u16], ()>, units: &'a [u16]) -> Result<bool, OutOfMemory>
    ensures first { IfOk result (λ first. first ≡ not (is_met met.old units.now)) }
    ensures next { OnOk result ((other : List ℕ) → is_met met.new other ≡ (bytes_eq units.now other || is_met met.old other)) }
{
    match met.get(&units) {
        Some(_) => return Ok(false),
        None => {}
    }
    met.insert(units, ())?;
    Ok(true)
}

/// The sum with the words of one text more, unless it is interned or was met.
fn words_with<'a>(
    isolate: &Isolate,
    met: &mut BTreeMap<&'a [u16], ()>,
    units: &'a [u16],
    sum: u64,
) -> Result<u64, OutOfMemory>
    ensures { IfOk result (λ after. Counted (named isolate.now).heap (is_known met.old (named isolate.now).heap) (is_known met.new (named isolate.now).heap) sum after (Some units.now)) }
{
    let Ok(count) = u32::try_from(units.len()) else {
        return Err(OutOfMemory);
    };
    match isolate.interned(units) {
        Some(_) => Ok(sum),
        None => {
            if is_first(met, units)? {
                Ok(added(sum, words_needed(ObjectKind::Text, count)))
            } else {
                Ok(sum)
            }
        }
    }
}

/// The sum with the words of the constant of one field more, if it is a text.
fn words_after<'a>(
    isolate: &Isolate,
    met: &mut BTreeMap<&'a [u16], ()>,
    pool: &'a List<Item>,
    field: &Member,
    sum: u64,
) -> Result<u64, OutOfMemory>
    ensures { IfOk result (λ after. Counted (named isolate.now).heap (is_known met.old (named isolate.now).heap) (is_known met.new (named isolate.now).heap) sum after (constant_text pool.now field.now)) }
{
    match constant_text(pool, field) {
        Some(name) => words_with(isolate, met, name.units(), sum),
        None => Ok(sum),
    }
}

/// How many words the texts of the constants of fields want, each counted once, and those not that are interned; or the most that there can be.
fn constant_words(
    isolate: &Isolate,
    pool: &List<Item>,
    fields: &[Member],
) -> Result<u64, OutOfMemory>
    ensures words { IfOk result (λ sum. sum ≡ min (words_wanted (is_interned (named isolate.now).heap) (constant_texts pool.now fields.now)) MOST) }
    // Each is short enough, and an interned one is there.
    ensures short { OnOk result (All IsShort (constant_texts pool.now fields.now)) }
    ensures there { OnOk result (All (IsThere (named isolate.now).heap) (constant_texts pool.now fields.now)) }
{
    let mut met = BTreeMap::new(isolate.alloc());
    let mut sum: u64 = 0;
    for i in 0..fields.len() {
        sum = words_after(isolate, &mut met, pool, &fields[i], sum)?;
    }
    Ok(sum)
}

/// Whether the words of the texts of a class's constants are there, each counted once, and those not that are interned.
pub(crate) fn constants_fit(isolate: &Isolate, parts: &Parts) -> Result<(), Stop>
    ensures ok { OnOk result (MayBeSet parts.now (named isolate.now).heap) }
    ensures fault { IfErr result (λ fault. fault ≢ stop.OutOfMemory → IsThrownAt parts.now (named isolate.now).heap fault) }
    ensures short { OnOk result (All IsShort (constant_texts parts.now.pool parts.now.fields)) }
{
    match constant_words(isolate, &parts.pool, parts.fields.as_slice()) {
        Ok(sum) => has_words(isolate, sum),
        Err(_) => Err(Stop::OutOfMemory),
    }
}

/// The interned text of these units, of which the words are there.
fn text_constant(isolate: &mut Isolate, units: &[u16]) -> u32
    requires short { IsShort units.now }
    requires fits { IsOk (interned_text units.now (named isolate.old)) }
    requires room { MayIntern isolate.old 1 }
    ensures does { interned_text units.now (named isolate.old) ≡ Ok (result, named isolate.new) }
    ensures fewer { (count : ℕ) → MayIntern isolate.old (suc count) → MayIntern isolate.new count }
    ensures links { isolate.new.env.links ≡ isolate.old.env.links }
    ensures grows { Grows isolate.old isolate.new }
{
    match isolate.interned_text(units) {
        Ok(object) => object,
        Err(_) => unreachable!(),
    }
}

/// The value of a constant, of which the words are there.
#[tactic(auto, using(crate::proofs::Setting::may_fewer))]
fn constant(isolate: &mut Isolate, pool: &List<Item>, index: u16) -> Word
    requires fits { IsOk (constant pool.now (entry pool.now index) (named isolate.old)) }
    requires short { IfSome (text_by pool.now (Some index)) IsShort }
    requires room { MayIntern isolate.old 1 }
    ensures does { constant pool.now (entry pool.now index) (named isolate.old) ≡ Ok (result, named isolate.new) }
    ensures fewer { (count : ℕ) → MayIntern isolate.old (suc count) → MayIntern isolate.new count }
    ensures links { isolate.new.env.links ≡ isolate.old.env.links }
    ensures grows { Grows isolate.old isolate.new }
{
    match entry(pool, index) {
        Some(Item::Integer(value)) => Word::Int(*value),
        Some(Item::Long(value)) => Word::Long(*value),
        Some(Item::Str(units)) => match text(pool, *units) {
            Some(name) => Word::Ref(text_constant(isolate, name.units())),
            None => Word::Null,
        },
        _ => Word::Null,
    }
}

/// Gives a static field of a class a value. It takes no memory.
fn give(isolate: &mut Isolate, mirror: u32, class: &Class, field: &Member, value: Word)
    requires there { IsClass isolate.old mirror }
    requires class { class_at isolate.old mirror ≡ Some class.now }
    requires slot { HasSlot class.now.file field.now }
    ensures named { named isolate.new ≡ constant_set (name_at isolate.old mirror) (text class.now.file.pool field.now.name) (text class.now.file.pool field.now.desc) (value, named isolate.old) }
    ensures env { isolate.new.env ≡ isolate.old.env }
    ensures links { isolate.new.env.links ≡ isolate.old.env.links }
    ensures grows { Grows isolate.old isolate.new }
{
    let pool = &class.file().parts().pool;
    let Some(name) = text(pool, field.name) else {
        return;
    };
    let Some(desc) = text(pool, field.desc) else {
        return;
    };
    let Some(slot) = static_place(class, name, desc) else {
        unreachable!()
    };
    slot_law();
    isolate.set_static(mirror, slot, desc, value);
}

/// Gives a static field its constant, if it has one, of which the words are there.
fn set_field(isolate: &mut Isolate, mirror: u32, class: &Class, field: &Member)
    requires there { IsClass isolate.old mirror }
    requires class { class_at isolate.old mirror ≡ Some class.now }
    requires slot { is_static field.now.flags ≡ true → HasSlot class.now.file field.now }
    requires fits { IsOk (field_set (name_at isolate.old mirror) class.now.file field.now (named isolate.old)) }
    requires short { IfSome (constant_text class.now.file.pool field.now) IsShort }
    requires room { MayIntern isolate.old 1 }
    ensures does { field_set (name_at isolate.old mirror) class.now.file field.now (named isolate.old) ≡ Ok (named isolate.new) }
    ensures fewer { (count : ℕ) → MayIntern isolate.old (suc count) → MayIntern isolate.new count }
    ensures links { isolate.new.env.links ≡ isolate.old.env.links }
    ensures grows { Grows isolate.old isolate.new }
{
    if !is_static(field.flags) {
        return;
    }
    let Some(index) = field.constant else {
        return;
    };
    let value = constant(isolate, &class.file().parts().pool, index);
    give(isolate, mirror, class, field, value);
}

/// Gives each static field of a class its constant, in the order of the file (JVM Specification 5.5, step 6), where the words of its texts are
/// there.
pub(crate) fn set_constants(isolate: &mut Isolate, mirror: u32, class: &Class)
    requires there { IsClass isolate.old mirror }
    requires class { class_at isolate.old mirror ≡ Some class.now }
    requires fits { IsOk (constants_set (name_at isolate.old mirror) class.now.file class.now.file.fields (named isolate.old)) }
    requires short { All IsShort (constant_texts class.now.file.pool class.now.file.fields) }
    requires room { MayIntern isolate.old (length class.now.file.fields) }
    ensures does { constants_set (name_at isolate.old mirror) class.now.file class.now.file.fields (named isolate.old) ≡ Ok (named isolate.new) }
    ensures links { isolate.new.env.links ≡ isolate.old.env.links }
    ensures grows { Grows isolate.old isolate.new }
{
    let fields = class.file().parts().fields.as_slice();
    for place in 0..fields.len() {
        set_field(isolate, mirror, class, &fields[place]);
    }
}
