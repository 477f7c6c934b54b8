ghost use Rattle.std.specs.Prelude.{◌≡◌, slice_get};
ghost use Rattle.mvm_builtin.specs.Table.{lines_of};
ghost use Rattle.mvm_builtin.specs.Natives.{number, native_at, native_of, native_in, native_method, native_number};

use crate::natives::{NATIVES, Native};
use crate::rows::row_named;
use crate::table::Sort;
use mvm_base::Name;
use mvm_layout::pool::same_text;

impl Native {
    /// The number of the native method, below [`NATIVES`]`.len()`.
    #[tactic(auto, unfolding(crate::specs::Natives::number))]
    pub fn number(self) -> u16
        ensures { result ≡ number self }
    {
        self as u16
    }
}

/// The native method at a place of a list.
fn native_in_list(natives: &[Native], number: u16) -> Option<Native>
    ensures { result ≡ slice_get natives.now number }
{
    natives.get(usize::from(number)).copied()
}

/// The native method of a number, or `None` where no native method has it.
#[tactic(auto, unfolding(crate::specs::Natives::native_at))]
pub fn native_at(number: u16) -> Option<Native>
    ensures { result ≡ native_at number }
{
    native_in_list(&NATIVES, number)
}

/// The native method that a line of this sort tells.
fn native_of(sort: Sort) -> Option<Native>
    ensures { result ≡ native_of sort }
{
    match sort {
        Sort::Native(native) | Sort::Static(native) => Some(native),
        _ => None,
    }
}

/// The native method of a name and a descriptor among lines.
fn native_in(lines: &[(Sort, &str, &str)], name: &Name, desc: &Name) -> Option<Native>
    ensures { result ≡ native_in name.now desc.now (lines_of lines.now) }
{
    for i in 0..lines.len() {
        let line = lines[i];
        if same_text(name.units(), line.1.as_bytes())
            && same_text(desc.units(), line.2.as_bytes())
        {
            return native_of(line.0);
        }
    }
    None
}

/// The native method that a built-in class has under a name and a descriptor, or `None` where it has none.
#[tactic(auto, unfolding(crate::specs::Natives::native_method))]
pub fn native_method(class: &Name, name: &Name, desc: &Name) -> Option<Native>
    ensures { result ≡ native_method class.now name.now desc.now }
{
    match row_named(class) {
        Some(row) => native_in(row.lines, name, desc),
        None => None,
    }
}

/// The number of that native method.
pub fn native_number(class: &Name, name: &Name, desc: &Name) -> Option<u16>
    ensures { result ≡ native_number class.now name.now desc.now }
{
    let native = native_method(class, name, desc)?;
    Some(native.number())
}
