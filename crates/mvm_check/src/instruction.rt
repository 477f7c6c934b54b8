ghost use Rattle.std.specs.Prelude.{◌≡◌, ◌<◌, ◌^◌, length};
ghost use Rattle.std.specs.List.{list_all};
ghost use Rattle.mvm_base.specs.Rules.{expect};
ghost use Rattle.mvm_check.specs.Starts.{starts_of, begins};
ghost use Rattle.mvm_check.specs.Instructions.{kind_of, stands, targets_of_rows, has_targets, is_last, locals_at, has_locals, stays_in_code, kept, keeps};

use crate::constants::Constants;
use crate::fault::CheckKind;
use crate::locals::locals_of;
use crate::operands::has_operands;
use crate::starts::Starts;
use mvm_insn::{At, Insn, InsnFault, Switch, insn_at, opcodes};
use mvm_layout::Code;

fn kind_of(fault: InsnFault) -> CheckKind
    ensures { result ≡ kind_of fault }
{
    match fault {
        InsnFault::Unknown(_) => CheckKind::BadOpcode,
        InsnFault::OffEnd => CheckKind::BadOpcode,
        InsnFault::Unsupported(_) => CheckKind::Unsupported,
        InsnFault::Switch => CheckKind::BadSwitch,
    }
}

/// The kinds 1 to 3: an instruction stands at the place.
#[tactic(auto, unfolding(crate::specs::Instructions::stands))]
pub(crate) fn stands(code: &[u8], pc: u32) -> Result<(), CheckKind>
    requires { length code.now < 2 ^ 32 }
    ensures { result ≡ stands code.now pc }
{
    match insn_at(code, pc) {
        Ok(_) => Ok(()),
        Err(fault) => Err(kind_of(fault)),
    }
}

fn rows_begin(starts: &Starts, choice: &Switch) -> bool
    ensures { result ≡ list_all (begins starts.now) (targets_of_rows choice.now.rows) }
{
    for i in 0..choice.rows() {
        if !starts.begins(choice.row(i).target) {
            return false;
        }
    }
    true
}

fn has_targets(starts: &Starts, insn: &Insn) -> bool
    ensures { result ≡ has_targets starts.now insn.now }
{
    match insn {
        Insn::Jump { target, .. } => starts.begins(*target),
        Insn::Choice { rows, .. } => starts.begins(rows.otherwise()) && rows_begin(starts, rows),
        _ => true,
    }
}

#[tactic(auto, unfolding(crate::specs::Instructions::is_last))]
fn is_last(insn: &Insn) -> bool
    ensures { result ≡ is_last insn.now }
{
    match insn {
        Insn::Jump { op, .. } => matches!(*op, opcodes::GOTO | opcodes::GOTO_W),
        Insn::Choice { .. } => true,
        Insn::Plain { op } =>
            matches!(*op, opcodes::IRETURN..=opcodes::LRETURN | opcodes::ARETURN..=opcodes::RETURN | opcodes::ATHROW),
        _ => false,
    }
}

fn locals_at(parameters: u128, pc: u32, insn: &Insn) -> u128
    ensures { result ≡ locals_at parameters pc insn.now }
{
    let locals = u128::from(locals_of(insn));
    if pc == 0 {
        parameters.max(locals)
    } else {
        locals
    }
}

fn has_locals(parameters: u128, code: &Code, pc: u32, insn: &Insn) -> bool
    ensures { result ≡ has_locals parameters code.now pc insn.now }
{
    locals_at(parameters, pc, insn) <= u128::from(code.max_locals)
}

fn stays_in_code(code: &Code, found: &At) -> bool
    ensures { result ≡ stays_in_code code.now found.now }
{
    found.next as usize != code.bytes.len() || is_last(&found.insn)
}

/// The first fault of the kinds 4 to 7 of the instruction at a place.
#[tactic(auto, unfolding(crate::specs::Instructions::kept))]
fn kept(
    constants: &Constants,
    parameters: u128,
    code: &Code,
    starts: &Starts,
    pc: u32,
    found: &At,
) -> Result<(), CheckKind>
    requires { starts.now ≡ starts_of code.now.bytes }
    ensures { result ≡ kept constants.now parameters code.now pc found.now }
{
    if !has_targets(starts, &found.insn) {
        return Err(CheckKind::BadTarget);
    }
    if !has_operands(constants, &found.insn) {
        return Err(CheckKind::BadIndex);
    }
    if !has_locals(parameters, code, pc, &found.insn) {
        return Err(CheckKind::BadLocal);
    }
    if !stays_in_code(code, found) {
        return Err(CheckKind::OffEnd);
    }
    Ok(())
}

/// The kinds 4 to 7: the instruction at a place keeps the rules.
#[tactic(auto, unfolding(crate::specs::Instructions::keeps))]
pub(crate) fn keeps(
    constants: &Constants,
    parameters: u128,
    code: &Code,
    starts: &Starts,
    pc: u32,
) -> Result<(), CheckKind>
    requires short { length code.now.bytes < 2 ^ 32 }
    requires starts { starts.now ≡ starts_of code.now.bytes }
    ensures { result ≡ keeps constants.now parameters code.now pc }
{
    match insn_at(code.bytes.as_slice(), pc) {
        Ok(found) => kept(constants, parameters, code, starts, pc, &found),
        Err(_) => Ok(()),
    }
}
