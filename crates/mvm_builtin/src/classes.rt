ghost use Rattle.std.specs.Prelude.{◌≡◌, IfOk, IfSome, option_map};
ghost use Rattle.mvm_builtin.specs.Rows.{row_of};
ghost use Rattle.mvm_builtin.specs.Classes.{made, builtin, builtin_at, IsReread};

use crate::make::made;
use crate::rows::{TableRow, row_at, row_named};
use crate::table::TABLE;
use mvm_base::{Name, OutOfMemory};
use mvm_classfile::ClassFile;
use std::alloc::Global;

/// The class file of a row, or `None` where there is no row. No row of the table is refused, so what is left is want of memory.
fn file_of(alloc: Global, row: Option<TableRow>) -> Result<Option<ClassFile>, OutOfMemory>
    requires { IfSome (option_map row_of row) IsReread }
    ensures { IfOk result (λ found. found ≡ option_map made (option_map row_of row)) }
{
    match row {
        Some(row) => match ClassFile::from_parts(alloc, made(alloc, &row)?) {
            Ok(file) => Ok(Some(file)),
            Err(_) => Err(OutOfMemory),
        },
        None => Ok(None),
    }
}

/// The built-in class of a name, or `None` where there is no such class.
pub fn builtin(alloc: Global, name: &Name) -> Result<Option<ClassFile>, OutOfMemory>
    ensures { IfOk result (λ found. found ≡ builtin name.now) }
{
    file_of(alloc, row_named(name))
}

/// The built-in class at a place of the table, counted from 0, or `None` from [`crate::CLASSES`] on. Each class stands behind its supers.
pub fn builtin_at(alloc: Global, place: usize) -> Result<Option<ClassFile>, OutOfMemory>
    ensures { IfOk result (λ found. found ≡ builtin_at place) }
{
    file_of(alloc, row_at(&TABLE, place))
}
