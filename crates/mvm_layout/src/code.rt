ghost use Rattle.std.specs.Prelude.{◌≡◌};
ghost use Rattle.mvm_base.specs.Answers.{Gives};
ghost use Rattle.mvm_base.specs.Answers.{GivesUnless};
ghost use Rattle.mvm_layout.specs.Format.{Format, times};
ghost use Rattle.mvm_layout.specs.Layout.{row, rows, instructions, code};

use crate::fault::ClassFault;
use crate::info::CodeInfo;
use crate::layout::{attributes, content};
use crate::numbers::u2;
use crate::parts::{Code, Row};
use mvm_base::{Cursor, List};
use std::alloc::Global;

#[tactic(auto, unfolding(crate::specs::Layout::row))]
fn row(cursor: &mut Cursor) -> Result<Row, ClassFault>
    ensures { Gives result (row.read cursor.old) cursor.new }
{
    let start = u2(cursor)?;
    let end = u2(cursor)?;
    let handler = u2(cursor)?;
    let catch_class = u2(cursor)?;
    Ok(Row {
        start,
        end,
        handler,
        catch_class,
    })
}

fn row_list(alloc: Global, cursor: &mut Cursor, count: u16) -> Result<List<Row>, ClassFault>
    ensures { GivesUnless ClassFault.OutOfMemory result ((times count row).read cursor.old) cursor.new }
{
    let mut all = List::new(alloc);
    for i in 0..count {
        let one = row(cursor)?;
        all.push(one)?;
    }
    Ok(all)
}

#[tactic(auto, unfolding(crate::specs::Layout::rows))]
fn rows(alloc: Global, cursor: &mut Cursor) -> Result<List<Row>, ClassFault>
    ensures { GivesUnless ClassFault.OutOfMemory result (rows.read cursor.old) cursor.new }
{
    let count = u2(cursor)?;
    row_list(alloc, cursor, count)
}

#[tactic(auto, unfolding(crate::specs::Layout::instructions))]
fn instructions(alloc: Global, cursor: &mut Cursor) -> Result<List<u8>, ClassFault>
    ensures { GivesUnless ClassFault.OutOfMemory result (instructions.read cursor.old) cursor.new }
{
    let at = cursor.place();
    let bytes = content(cursor)?;
    if bytes.is_empty() || bytes.len() > 65535 {
        return Err(ClassFault::Shape(at));
    }
    Ok(List::from_slice(alloc, bytes)?)
}

/// The code that stands at the place of the cursor, which is left behind it.
#[tactic(auto, unfolding(crate::specs::Layout::code))]
pub(crate) fn code<'a>(alloc: Global, cursor: &mut Cursor<'a>) -> Result<CodeInfo<'a>, ClassFault>
    ensures { GivesUnless ClassFault.OutOfMemory result (code.read cursor.old) cursor.new }
{
    let max_stack = u2(cursor)?;
    let max_locals = u2(cursor)?;
    let bytes = instructions(alloc, cursor)?;
    let rows = rows(alloc, cursor)?;
    let attributes = attributes(alloc, cursor)?;
    let code = Code {
        max_stack,
        max_locals,
        bytes,
        rows,
    };
    Ok(CodeInfo { code, attributes })
}
