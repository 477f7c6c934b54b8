ghost use Rattle.std.specs.Prelude.{◌≡◌, ◌<◌, length, min, IfOk, OnErr};
ghost use Rattle.mvm_base.specs.Answers.{Gives, GivesUnless};
ghost use Rattle.mvm_initialise.specs.Arrays.{array_words, arrays_made, counts_in, first_shape, AreDimensions};
ghost use Rattle.mvm_initialise.specs.Constants.{MOST};
ghost use Rattle.mvm_isolate.specs.Numbered.{named};
ghost use Rattle.mvm_isolate.specs.Sound.{Grows};
ghost use Rattle.mvm_isolate.specs.declared.stop.Stop.TheVariants as stop;

use crate::words::{added, has_words, times};
use mvm_base::{FieldShape, List, OutOfMemory, Word};
use mvm_heap::{ObjectKind, bits_of, words_needed};
use mvm_isolate::{Isolate, Stop, items_of};
use mvm_mirror::copy_shape;
use mvm_native::Thrown;

/// One dimension of an array that is made.
#[derive(Clone, Copy)]
struct Dimension {
    /// The number of its array class.
    row: u32,
    /// How many items it has.
    count: u32,
}

/// The dimensions of an array of these lengths, with the array class of each.
fn dimensions_of(
    isolate: &mut Isolate,
    shape: &FieldShape,
    counts: &[u32],
) -> Result<List<Dimension>, OutOfMemory>
    ensures are { IfOk result (λ dimensions. AreDimensions isolate.new shape.now dimensions) }
    ensures counts { IfOk result (λ dimensions. counts_in dimensions ≡ counts.now) }
    // By names nothing changes.
    ensures same { named isolate.new ≡ named isolate.old }
    ensures links { isolate.new.env.links ≡ isolate.old.env.links }
    ensures grows { Grows isolate.old isolate.new }
{
    let mut dimensions = List::new(isolate.alloc());
    let mut item = copy_shape(shape)?;
    for i in 0..counts.len() {
        let row = isolate.array_class(&item)?;
        let count = counts[i];
        dimensions.push(Dimension { row, count })?;
        item.dims = item.dims.saturating_sub(1);
    }
    Ok(dimensions)
}

/// How many words an array of these dimensions takes, with all its items; or the most that there can be.
fn array_words(isolate: &Isolate, dimensions: &[Dimension]) -> u64
    requires { AreDimensions isolate.now (first_shape isolate.now dimensions.now) dimensions.now }
    ensures { result ≡ min (array_words (first_shape isolate.now dimensions.now) (counts_in dimensions.now)) MOST }
{
    let [first, others @ ..] = dimensions else {
        return 0;
    };
    let kind = items_of(isolate.array_shape(first.row));
    let own = words_needed(ObjectKind::Array(kind), first.count);
    added(own, times(first.count, array_words(isolate, others)))
}

/// Makes an array of these dimensions, and its items.
fn arrays_made(isolate: &mut Isolate, dimensions: &[Dimension]) -> Result<u32, Stop>
    requires { AreDimensions isolate.old (first_shape isolate.old dimensions.now) dimensions.now }
    ensures does { Gives result (arrays_made (first_shape isolate.old dimensions.now) (counts_in dimensions.now) (named isolate.old)) (named isolate.new) }
    ensures there { IfOk result (λ array. array < length (named isolate.new).heap.objects) }
    ensures links { isolate.new.env.links ≡ isolate.old.env.links }
    ensures grows { Grows isolate.old isolate.new }
{
    let [first, others @ ..] = dimensions else {
        return Err(Stop::Throw(Thrown::VerifyError));
    };
    let array = isolate.new_array(first.row, first.count)?;
    if others.is_empty() {
        return Ok(array);
    }
    for place in 0..first.count {
        let item = arrays_made(isolate, others)?;
        isolate.set_number(array, place, bits_of(Word::Ref(item)));
    }
    Ok(array)
}

/// An array of these lengths, the first of them its own: its items are arrays of the others, each made anew, and of the last length items that are 0
/// or null (JVM Specification 6.5, under multianewarray).
///
/// # Errors
///
/// It throws `OutOfMemoryError` where words of the heap are missing for all of them together, and `VerifyError` where there is no length.
pub fn new_arrays(isolate: &mut Isolate, shape: &FieldShape, counts: &[u32]) -> Result<u32, Stop>
    ensures does { GivesUnless stop.OutOfMemory result (arrays_made shape.now counts.now (named isolate.old)) (named isolate.new) }
    ensures there { IfOk result (λ array. array < length (named isolate.new).heap.objects) }
    ensures err { OnErr result (named isolate.new ≡ named isolate.old) }
    ensures links { isolate.new.env.links ≡ isolate.old.env.links }
    ensures grows { Grows isolate.old isolate.new }
{
    if counts.is_empty() {
        return Err(Stop::Throw(Thrown::VerifyError));
    }
    let dimensions = match dimensions_of(isolate, shape, counts) {
        Ok(dimensions) => dimensions,
        Err(_) => return Err(Stop::OutOfMemory),
    };
    let sum = array_words(isolate, dimensions.as_slice());
    has_words(isolate, sum)?;
    match arrays_made(isolate, dimensions.as_slice()) {
        Ok(array) => Ok(array),
        Err(_) => unreachable!(),
    }
}
