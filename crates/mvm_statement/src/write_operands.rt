//! Operands, each written behind a blank at the end of a line.
#![tactic(auto)]

ghost use Rattle.std.specs.Prelude.{◌≡◌, ◌++◌, ◌∷◌, OnOk};
ghost use Rattle.std.specs.List.{flat_map};
ghost use Rattle.mvm_statement.specs.Tokens.{behind_blank, spelled_word};
ghost use Rattle.mvm_statement.specs.Operands.{spelled_number, spelled_index, spelled_reference, spelled_member, spelled_name, spelled_loadable, spelled_long, spelled_initial, spelled_place};
ghost use Rattle.mvm_statement.specs.Lines.{spelled_places, spelled_rows, spelled_default};
ghost use Rattle.mvm_statement.specs.declared.token.Token.TheVariants.{Bare, Quoted};

use crate::operand::{Initial, KeyRow, Loadable, LongConstant, Member, Place, Reference};
use crate::write_tokens::{push_number, push_quoted, push_text, push_word};
use mvm_base::{Line, Name};
use std::alloc::AllocError;

/// Adds a word.
pub(crate) fn write_text(out: &mut Line, word: &str) -> Result<(), AllocError>
    ensures ok { OnOk result (out.new ≡ out.old ++ behind_blank (Bare word.now)) }
{
    out.push_str(" ")?;
    push_text(out, word)
}

/// Adds a word.
fn write_name(out: &mut Line, name: &Name) -> Result<(), AllocError>
    ensures ok { OnOk result (out.new ≡ out.old ++ behind_blank (Bare name.now)) }
{
    out.push_str(" ")?;
    push_word(out, name.units())
}

/// Adds a quoted text.
pub(crate) fn write_quoted(out: &mut Line, text: &Name) -> Result<(), AllocError>
    ensures ok { OnOk result (out.new ≡ out.old ++ behind_blank (Quoted text.now)) }
{
    out.push_str(" ")?;
    push_quoted(out, text.units())
}

/// Adds a number.
pub(crate) fn write_number(out: &mut Line, number: i128) -> Result<(), AllocError>
    ensures ok { OnOk result (out.new ≡ out.old ++ behind_blank (spelled_number number)) }
{
    out.push_str(" ")?;
    push_number(out, number)
}

/// Adds `#n`.
pub(crate) fn write_index(out: &mut Line, index: i128) -> Result<(), AllocError>
    ensures ok { OnOk result (out.new ≡ out.old ++ behind_blank (spelled_index index)) }
{
    out.push_str(" #")?;
    push_number(out, index)
}

/// Adds a class, a name or a descriptor.
pub(crate) fn write_reference(out: &mut Line, reference: &Reference) -> Result<(), AllocError>
    ensures ok { OnOk result (out.new ≡ out.old ++ behind_blank (spelled_reference reference.now)) }
{
    match reference {
        Reference::Indexed(index) => write_index(out, *index),
        Reference::Named(name) => write_name(out, name),
    }
}

/// Adds `Class.name:desc`.
#[tactic(auto, using(crate::proofs::Written::name_spelled))]
fn push_member(out: &mut Line, class: &Name, name: &Name, desc: &Name) -> Result<(), AllocError>
    ensures ok { OnOk result (out.new ≡ out.old ++ spelled_word (spelled_name class.now name.now desc.now)) }
{
    push_word(out, class.units())?;
    out.push_str(".")?;
    push_word(out, name.units())?;
    out.push_str(":")?;
    push_word(out, desc.units())
}

/// Adds a field or a method.
pub(crate) fn write_member(out: &mut Line, member: &Member) -> Result<(), AllocError>
    ensures ok { OnOk result (out.new ≡ out.old ++ behind_blank (spelled_member member.now)) }
{
    match member {
        Member::Indexed(index) => write_index(out, *index),
        Member::Named { class, name, desc } => {
            out.push_str(" ")?;
            push_member(out, class, name, desc)
        }
    }
}

/// Adds what `ldc` pushes.
pub(crate) fn write_loadable(out: &mut Line, constant: &Loadable) -> Result<(), AllocError>
    ensures ok { OnOk result (out.new ≡ out.old ++ behind_blank (spelled_loadable constant.now)) }
{
    match constant {
        Loadable::Indexed(index) => write_index(out, *index),
        Loadable::Integer(number) => write_number(out, *number),
        Loadable::Text(text) => write_quoted(out, text),
        Loadable::Class(name) => write_name(out, name),
    }
}

/// Adds what `ldc2_w` pushes.
pub(crate) fn write_long(out: &mut Line, constant: &LongConstant) -> Result<(), AllocError>
    ensures ok { OnOk result (out.new ≡ out.old ++ behind_blank (spelled_long constant.now)) }
{
    match constant {
        LongConstant::Indexed(index) => write_index(out, *index),
        LongConstant::Long(number) => write_number(out, *number),
    }
}

/// Adds the value that a field has at first.
pub(crate) fn write_initial(out: &mut Line, constant: &Initial) -> Result<(), AllocError>
    ensures ok { OnOk result (out.new ≡ out.old ++ behind_blank (spelled_initial constant.now)) }
{
    match constant {
        Initial::Indexed(index) => write_index(out, *index),
        Initial::Number(number) => write_number(out, *number),
        Initial::Text(text) => write_quoted(out, text),
    }
}

/// Adds a place in code.
pub(crate) fn write_place(out: &mut Line, place: &Place) -> Result<(), AllocError>
    ensures ok { OnOk result (out.new ≡ out.old ++ behind_blank (spelled_place place.now)) }
{
    match place {
        Place::At(number) => {
            out.push_str(" @")?;
            push_number(out, *number)
        }
        Place::Label(name) => write_name(out, name),
    }
}

/// Adds places.
pub(crate) fn write_places(out: &mut Line, places: &[Place]) -> Result<(), AllocError>
    ensures ok { OnOk result (out.new ≡ out.old ++ flat_map behind_blank (spelled_places places.now)) }
{
    for place in places {
        write_place(out, place)?;
    }
    Ok(())
}

/// Adds keys with a place for each.
pub(crate) fn write_rows(out: &mut Line, rows: &[KeyRow]) -> Result<(), AllocError>
    ensures ok { OnOk result (out.new ≡ out.old ++ flat_map behind_blank (spelled_rows rows.now)) }
{
    for row in rows {
        write_number(out, row.key)?;
        write_place(out, &row.target)?;
    }
    Ok(())
}

/// Adds `default` and the place for all other keys.
pub(crate) fn write_default(out: &mut Line, otherwise: &Place) -> Result<(), AllocError>
    ensures ok { OnOk result (out.new ≡ out.old ++ flat_map behind_blank (spelled_default otherwise.now)) }
{
    write_text(out, "default")?;
    write_place(out, otherwise)
}
