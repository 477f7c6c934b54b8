ghost use Rattle.std.specs.Prelude.{◌≡◌, ◌≢◌, All, MatchOption};
ghost use Rattle.std.specs.Cmp.Lexicographic.{slice_cmp};
ghost use Rattle.std.specs.List.Sorted.{IsSortedBy};
ghost use Rattle.std.specs.Ordering.{nat_cmp};
ghost use Rattle.mvm_builtin.specs.Index.{is_below, entries_of, IsEntryOf};

use mvm_base::Name;
use std::cmp::Ordering;

/// The names of the built-in classes in rising order, each with the place of its line in the table, so that a class is found by
/// halving. The check compares it with the table.
pub static INDEX: [(&str, u16); 48] = [
    ("java/io/PrintStream", 34),
    ("java/lang/AbstractMethodError", 190),
    ("java/lang/ArithmeticException", 105),
    ("java/lang/ArrayIndexOutOfBoundsException", 141),
    ("java/lang/ArrayStoreException", 109),
    ("java/lang/Class", 50),
    ("java/lang/ClassCastException", 113),
    ("java/lang/ClassCircularityError", 170),
    ("java/lang/ClassFormatError", 174),
    ("java/lang/Error", 161),
    ("java/lang/Exception", 91),
    ("java/lang/ExceptionInInitializerError", 182),
    ("java/lang/IllegalAccessError", 194),
    ("java/lang/IllegalArgumentException", 117),
    ("java/lang/IllegalMonitorStateException", 129),
    ("java/lang/IllegalStateException", 133),
    ("java/lang/IllegalThreadStateException", 125),
    ("java/lang/IncompatibleClassChangeError", 186),
    ("java/lang/IndexOutOfBoundsException", 137),
    ("java/lang/InstantiationError", 198),
    ("java/lang/Integer", 47),
    ("java/lang/InterruptedException", 96),
    ("java/lang/LinkageError", 166),
    ("java/lang/NegativeArraySizeException", 149),
    ("java/lang/NoClassDefFoundError", 210),
    ("java/lang/NoSuchFieldError", 202),
    ("java/lang/NoSuchMethodError", 206),
    ("java/lang/NullPointerException", 153),
    ("java/lang/NumberFormatException", 121),
    ("java/lang/Object", 0),
    ("java/lang/OutOfMemoryError", 226),
    ("java/lang/Runnable", 52),
    ("java/lang/RuntimeException", 100),
    ("java/lang/StackOverflowError", 230),
    ("java/lang/String", 6),
    ("java/lang/StringBuilder", 18),
    ("java/lang/StringIndexOutOfBoundsException", 145),
    ("java/lang/System", 30),
    ("java/lang/Thread", 55),
    ("java/lang/Throwable", 82),
    ("java/lang/UnsatisfiedLinkError", 214),
    ("java/lang/UnsupportedClassVersionError", 178),
    ("java/lang/VerifyError", 218),
    ("java/lang/VirtualMachineError", 222),
    ("javax/isolate/ClosedLinkException", 157),
    ("javax/isolate/Isolate", 69),
    ("javax/isolate/Link", 74),
    ("mvm/Sys", 66),
];

/// How a text stands to units, letter by letter from the first on.
fn compare_text(text: &[u8], units: &[u16]) -> Ordering
    ensures { result ≡ slice_cmp nat_cmp text.now units.now }
{
    for i in 0..text.len() {
        if i >= units.len() {
            return Ordering::Greater;
        }
        let letter = u16::from(text[i]);
        if letter != units[i] {
            return letter.cmp(&units[i]);
        }
    }
    if text.len() < units.len() {
        Ordering::Less
    } else {
        Ordering::Equal
    }
}

/// The line that an index has for a name.
pub(crate) fn line_in(index: &[(&'static str, u16)], name: &Name) -> Option<u16>
    requires { IsSortedBy is_below (entries_of index.now) }
    ensures { MatchOption result (All (λ entry. entry.0 ≢ name.now) (entries_of index.now)) (IsEntryOf (entries_of index.now) name.now) }
{
    match index.binary_search_by(|entry| compare_text(entry.0.as_bytes(), name.units())) {
        Ok(at) => Some(index[at].1),
        Err(_) => None,
    }
}
