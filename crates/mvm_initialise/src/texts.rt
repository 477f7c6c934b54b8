ghost use Rattle.std.specs.Prelude.{◌≡◌, ◌≢◌, ◌<◌, ◌≤◌, ◌+◌, ℕ, length, min, All, IfErr, IfOk, IsOk, OnOk, Err, Ok};
ghost use Rattle.mvm_heap.specs.Heap as heap;
ghost use Rattle.mvm_heap.specs.Heap.{words, words_of};
ghost use Rattle.mvm_heap.specs.Sorts.{words_needed};
ghost use Rattle.mvm_heap.specs.declared.kind.ObjectKind.TheVariants.{Object};
ghost use Rattle.mvm_initialise.specs.Words.{has_words};
ghost use Rattle.mvm_initialise.specs.Arguments.{arguments_made, arguments_words, text_put, texts_made, texts_words, IsArrayOf, IsPlace, STRINGS};
ghost use Rattle.mvm_initialise.specs.Constants.{IsShort, MOST};
ghost use Rattle.mvm_isolate.specs.Isolate.{new_text};
ghost use Rattle.mvm_isolate.specs.Numbered.{named, shape_at, IsArray};
ghost use Rattle.mvm_isolate.specs.declared.stop.Stop.TheVariants as stop;
ghost use Rattle.mvm_isolate.specs.Sound.{Grows};

use crate::words::{added, has_words};
use mvm_base::{Base, FieldShape, List, Name, OutOfMemory, Word};
use mvm_heap::{ItemKind, ObjectKind, bits_of, words_needed};
use mvm_isolate::{Isolate, Stop};
use std::alloc::Global;

/// The same names again.
pub(crate) fn copied(alloc: Global, names: &[Name]) -> Result<List<Name>, OutOfMemory>
    ensures { IfOk result (λ copies. copies ≡ names.now) }
{
    let mut copies = List::new(alloc);
    for i in 0..names.len() {
        copies.push(names[i].copy()?)?;
    }
    Ok(copies)
}

/// How many words a text of these units takes.
fn text_words(units: &[u16]) -> Result<u64, OutOfMemory>
    ensures words { IfOk result (λ words. words ≡ words_of (heap.text units.now)) }
    ensures short { OnOk result (IsShort units.now) }
{
    match u32::try_from(units.len()) {
        Ok(count) => Ok(words_needed(ObjectKind::Text, count)),
        Err(_) => Err(OutOfMemory),
    }
}

/// How many words these texts take, each made anew; or the most that there can be.
fn texts_words(texts: &[Name]) -> Result<u64, OutOfMemory>
    ensures words { IfOk result (λ sum. sum ≡ min (texts_words texts.now) MOST) }
    // Each is short enough.
    ensures short { OnOk result (All IsShort texts.now) }
{
    let mut sum: u64 = 0;
    for i in 0..texts.len() {
        sum = added(sum, text_words(texts[i].units())?);
    }
    Ok(sum)
}

/// How many words an array of these texts takes, with the texts; or the most that there can be.
fn arguments_words(texts: &[Name], count: u32) -> Result<u64, OutOfMemory>
    requires { count ≡ length texts.now }
    ensures words { IfOk result (λ sum. sum ≡ min (arguments_words texts.now) MOST) }
    ensures short { OnOk result (All IsShort texts.now) }
{
    let sum = texts_words(texts)?;
    Ok(added(words_needed(ObjectKind::Array(ItemKind::Ref), count), sum))
}

/// Whether the words of a class object and of an array of these texts are there, with the texts.
pub(crate) fn lock_fits(isolate: &Isolate, texts: &[Name], count: u32) -> Result<(), Stop>
    requires { count ≡ length texts.now }
    ensures ok { OnOk result (Ok tt ≡ has_words (words_needed Object 0 + arguments_words texts.now) (named isolate.now)) }
    ensures fault { IfErr result (λ fault. fault ≢ stop.OutOfMemory → Err fault ≡ has_words (words_needed Object 0 + arguments_words texts.now) (named isolate.now)) }
    ensures short { OnOk result (All IsShort texts.now) }
    ensures within { words (named isolate.now).heap.objects ≤ (named isolate.now).heap.size }
{
    // They are within the heap.
    let _left = isolate.words_left();
    match arguments_words(texts, count) {
        Ok(sum) => has_words(isolate, added(sum, words_needed(ObjectKind::Object, 0))),
        Err(_) => Err(Stop::OutOfMemory),
    }
}

/// Whether the words of an array of these texts are there, with the texts.
pub(crate) fn arguments_fit(isolate: &Isolate, texts: &[Name], count: u32) -> Result<(), Stop>
    requires { count ≡ length texts.now }
    ensures ok { OnOk result (IsOk (arguments_made texts.now (named isolate.now))) }
    ensures fault { IfErr result (λ fault. fault ≢ stop.OutOfMemory → arguments_made texts.now (named isolate.now) ≡ Err fault) }
    ensures short { OnOk result (All IsShort texts.now) }
    ensures within { OnOk result (words (named isolate.now).heap.objects ≤ (named isolate.now).heap.size) }
    ensures like { IfErr result (λ fault. fault ≢ stop.OutOfMemory → words (named isolate.now).heap.objects ≤ (named isolate.now).heap.size) }
{
    match arguments_words(texts, count) {
        Ok(sum) => has_words(isolate, sum),
        Err(_) => Err(Stop::OutOfMemory),
    }
}

/// The number of the array class of texts.
pub(crate) fn texts_class(isolate: &mut Isolate) -> Result<u32, OutOfMemory>
    ensures there { IfOk result (λ row. IsArray isolate.new row) }
    ensures shape { IfOk result (λ row. shape_at isolate.new row ≡ STRINGS) }
    // By names nothing changes.
    ensures same { named isolate.new ≡ named isolate.old }
    ensures links { isolate.new.env.links ≡ isolate.old.env.links }
    ensures grows { Grows isolate.old isolate.new }
{
    let name = Name::from_ascii(isolate.alloc(), "java/lang/String")?;
    let shape = FieldShape {
        dims: 1,
        base: Base::Object(name),
    };
    isolate.array_class(&shape)
}

/// Makes a text, of which the words are there, as an item of an array.
fn put_text(isolate: &mut Isolate, array: u32, place: u32, units: &[u16])
    requires short { IsShort units.now }
    requires fits { IsOk (new_text units.now (named isolate.old)) }
    requires place { IsPlace (named isolate.old) array place }
    ensures does { text_put array place units.now (named isolate.old) ≡ Ok (named isolate.new) }
    ensures keeps { (count : ℕ) → IsArrayOf count (named isolate.old) array → IsArrayOf count (named isolate.new) array }
    ensures links { isolate.new.env.links ≡ isolate.old.env.links }
    ensures grows { Grows isolate.old isolate.new }
{
    let object = match isolate.new_text(units) {
        Ok(object) => object,
        Err(_) => unreachable!(),
    };
    isolate.set_number(array, place, bits_of(Word::Ref(object)));
}

/// Makes texts, of which the words are there, as the items of an array.
fn make_texts(isolate: &mut Isolate, array: u32, count: u32, texts: &[Name])
    requires count { count ≡ length texts.now }
    requires array { IsArrayOf count (named isolate.old) array }
    requires short { All IsShort texts.now }
    requires fits { IsOk (texts_made array 0 texts.now (named isolate.old)) }
    ensures does { texts_made array 0 texts.now (named isolate.old) ≡ Ok (named isolate.new) }
    ensures array { IsArrayOf count (named isolate.new) array }
    ensures links { isolate.new.env.links ≡ isolate.old.env.links }
    ensures grows { Grows isolate.old isolate.new }
{
    for place in 0..count {
        put_text(isolate, array, place, texts[place as usize].units());
    }
}

/// Makes an array of texts, of which the words are there, with the texts.
pub(crate) fn make_arguments(isolate: &mut Isolate, row: u32, count: u32, texts: &[Name]) -> u32
    requires row { IsArray isolate.old row }
    requires shape { shape_at isolate.old row ≡ STRINGS }
    requires count { count ≡ length texts.now }
    requires short { All IsShort texts.now }
    requires fits { IsOk (arguments_made texts.now (named isolate.old)) }
    ensures does { arguments_made texts.now (named isolate.old) ≡ Ok (result, named isolate.new) }
    ensures there { result < length (named isolate.new).heap.objects }
    ensures links { isolate.new.env.links ≡ isolate.old.env.links }
    ensures grows { Grows isolate.old isolate.new }
{
    let array = match isolate.new_array(row, count) {
        Ok(array) => array,
        Err(_) => unreachable!(),
    };
    make_texts(isolate, array, count, texts);
    array
}
