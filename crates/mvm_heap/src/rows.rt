//! Objects by number: a directory leads from the number to the words.

ghost use Rattle.std.specs.Prelude.{◌≡◌, ◌+◌, ◌<◌, ◌≤◌, ◌^◌, length, slice_get, slice_set, IfSome, Some};
ghost use Rattle.mvm_heap.specs.Packed.{bits, object_in, objects_in, monitor_in, monitors_in, words_in, IsPacked, Laid};
ghost use Rattle.mvm_heap.specs.Heap.{object_at, number_at, written, nothing};

use crate::block::{number_at, put_monitor, put_number};
use crate::header::{class_at, length_at, monitor_at, sort_at};
use crate::kind::ObjectKind;
use mvm_region::{Monitor, Region};

/// Where an object begins.
fn start_of(directory: &[u32], object: u32) -> u32
    requires { object < length directory.now }
    ensures { slice_get directory.now object ≡ Some result }
{
    directory[object as usize]
}

/// The number at a place of an object.
pub fn number_in(region: &Region, directory: &[u32], object: u32, place: u32) -> u64
    requires there { place < length (object_at (objects_in region.now.words directory.now) object).contents }
    requires packed { IsPacked region.now.words region.now.carved directory.now }
    ensures number { result ≡ number_at (objects_in region.now.words directory.now) object place }
    ensures fits { result < 2 ^ bits (object_at (objects_in region.now.words directory.now) object).sort }
{
    let at = start_of(directory, object);
    number_at(region, at, sort_at(region, at), place)
}

/// Puts a number in a place of an object.
pub fn put_in(region: &mut Region, directory: &[u32], object: u32, place: u32, value: u64)
    requires there { place < length (object_at (objects_in region.old.words directory.now) object).contents }
    requires packed { IsPacked region.old.words region.old.carved directory.now }
    ensures objects { objects_in region.new.words directory.now ≡ written (objects_in region.old.words directory.now) object place value }
    ensures monitors { monitors_in region.new.words directory.now ≡ monitors_in region.old.words directory.now }
    ensures packed { IsPacked region.new.words region.new.carved directory.now }
    ensures length { length region.new.words ≡ length region.old.words }
{
    let at = start_of(directory, object);
    let sort = sort_at(region, at);
    put_number(region, at, sort, place, value);
}

/// The sort of an object.
pub fn sort_in(region: &Region, directory: &[u32], object: u32) -> ObjectKind
    requires there { object < length (objects_in region.now.words directory.now) }
    requires packed { IsPacked region.now.words region.now.carved directory.now }
    ensures { result ≡ (object_at (objects_in region.now.words directory.now) object).sort }
{
    sort_at(region, start_of(directory, object))
}

/// The class of an object.
pub fn class_in(region: &Region, directory: &[u32], object: u32) -> u32
    requires there { object < length (objects_in region.now.words directory.now) }
    requires packed { IsPacked region.now.words region.now.carved directory.now }
    ensures { result ≡ (object_at (objects_in region.now.words directory.now) object).class }
{
    class_at(region, start_of(directory, object))
}

/// How many places an object has.
pub fn length_in(region: &Region, directory: &[u32], object: u32) -> u32
    requires there { object < length (objects_in region.now.words directory.now) }
    requires packed { IsPacked region.now.words region.now.carved directory.now }
    ensures length { result ≡ length (object_at (objects_in region.now.words directory.now) object).contents }
    ensures few { result < 2 ^ 30 }
{
    length_at(region, start_of(directory, object))
}

/// The monitor of an object.
pub fn monitor_in(region: &Region, directory: &[u32], object: u32) -> Monitor
    requires there { object < length (objects_in region.now.words directory.now) }
    requires packed { IsPacked region.now.words region.now.carved directory.now }
    ensures { slice_get (monitors_in region.now.words directory.now) object ≡ Some result }
{
    monitor_at(region, start_of(directory, object))
}

/// Puts a monitor in the header of an object.
pub fn set_monitor_in(region: &mut Region, directory: &[u32], object: u32, monitor: Monitor)
    requires there { object < length (objects_in region.old.words directory.now) }
    requires packed { IsPacked region.old.words region.old.carved directory.now }
    requires owner { IfSome monitor.owner (λ thread. thread < 64) }
    requires count { monitor.count ≤ 2 ^ 32 }
    ensures objects { objects_in region.new.words directory.now ≡ objects_in region.old.words directory.now }
    ensures monitors { monitors_in region.new.words directory.now ≡ slice_set (monitors_in region.old.words directory.now) object monitor }
    ensures packed { IsPacked region.new.words region.new.carved directory.now }
    ensures length { length region.new.words ≡ length region.old.words }
{
    put_monitor(region, start_of(directory, object), monitor);
}
