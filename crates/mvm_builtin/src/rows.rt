ghost use Rattle.std.specs.Prelude.{◌≡◌, slice_get, option_map, drop};
ghost use Rattle.mvm_builtin.specs.Table.{line_of, lines_of, until_class, rows_of, row_from, named, rows};
ghost use Rattle.mvm_builtin.specs.Rows.{row_of};

use crate::index::{INDEX, line_in};
use crate::parts::{Part, is_part};
use crate::table::{Sort, TABLE};
use mvm_base::Name;

/// A class of the table: its own line, and those behind it up to the next class.
#[derive(Clone, Copy)]
pub(crate) struct TableRow {
    pub(crate) head: (Sort, &'static str, &'static str),
    pub(crate) lines: &'static [(Sort, &'static str, &'static str)],
}

/// The lines up to the next class.
fn until_class(
    lines: &'static [(Sort, &'static str, &'static str)],
) -> &'static [(Sort, &'static str, &'static str)]
    ensures { lines_of result.now ≡ until_class (lines_of lines.now) }
{
    for i in 0..lines.len() {
        if is_part(Part::Head, lines[i].0) {
            return &lines[..i];
        }
    }
    lines
}

/// The class whose line stands at a place of lines.
fn row_from(lines: &'static [(Sort, &'static str, &'static str)], at: usize) -> Option<TableRow>
    ensures { option_map row_of result ≡ row_from (drop at (lines_of lines.now)) }
{
    if at >= lines.len() {
        return None;
    }
    let head = lines[at];
    let lines = until_class(&lines[at + 1..]);
    Some(TableRow { head, lines })
}

/// The built-in class of a name.
pub(crate) fn row_named(name: &Name) -> Option<TableRow>
    ensures { option_map row_of result ≡ named name.now rows }
{
    match line_in(&INDEX, name) {
        Some(line) => row_from(&TABLE, usize::from(line)),
        None => None,
    }
}

/// The class at a place among the classes of lines, from 0 on.
pub(crate) fn row_at(
    lines: &'static [(Sort, &'static str, &'static str)],
    place: usize,
) -> Option<TableRow>
    ensures { option_map row_of result ≡ slice_get (rows_of (lines_of lines.now)) place }
{
    let mut left = place;
    for i in 0..lines.len() {
        let head = lines[i];
        if is_part(Part::Head, head.0) {
            if left == 0 {
                let lines = until_class(&lines[i + 1..]);
                return Some(TableRow { head, lines });
            }
            left -= 1;
        }
    }
    None
}
