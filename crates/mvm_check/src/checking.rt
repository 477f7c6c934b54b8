ghost use Rattle.std.specs.Prelude.{◌≡◌, ◌≤◌, length, IsTrue, OnOk};
ghost use Rattle.std.specs.List.{AllPass};
ghost use Rattle.mvm_classfile.specs.Writing.{fits_code, has_few_bytes, is_countable};
ghost use Rattle.mvm_layout.specs.Pool.{entry, is_class};
ghost use Rattle.mvm_base.specs.Rules.{each, each_from};
ghost use Rattle.mvm_base.specs.Answers.{AnswersUnless};
ghost use Rattle.mvm_check.specs.Check.{told};
ghost use Rattle.mvm_check.specs.declared.fault.CheckFault.TheVariants.{OutOfMemory};
ghost use Rattle.mvm_check.specs.Starts.{starts_of};
ghost use Rattle.mvm_check.specs.Sound.{IsSound};
ghost use Rattle.mvm_check.specs.Check.{covers, is_row, row_rule, stands_rule, keeps_rule, code_rule, method_rule, check_of};

use crate::constants::Constants;
use crate::fault::{CheckFault, CheckKind};
use crate::instruction::{keeps, stands};
use crate::locals::parameter_locals;
use crate::starts::Starts;
use mvm_base::List;
use mvm_classfile::ClassFile;
use mvm_layout::pool::is_class;
use mvm_layout::{Code, Item, Member, Parts, Row};
use std::alloc::Global;

fn told(method: u16, at: u32, answer: Result<(), CheckKind>) -> Result<(), CheckFault>
    ensures { result ≡ told method at answer }
{
    match answer {
        Ok(()) => Ok(()),
        Err(kind) => Err(CheckFault::Bad { method, at, kind }),
    }
}

#[tactic(auto, unfolding(crate::specs::Check::stands_rule))]
fn stands_rule(method: u16, code: &[u8], pc: u32) -> Result<(), CheckFault>
    requires { length code.now ≤ 65535 }
    ensures { result ≡ stands_rule method code.now pc }
{
    told(method, pc, stands(code, pc))
}

fn all_stand(method: u16, code: &[u8], starts: &Starts) -> Result<(), CheckFault>
    requires { length code.now ≤ 65535 }
    ensures { result ≡ each (stands_rule method code.now) starts.now }
{
    let places = starts.places();
    for i in 0..places.len() {
        stands_rule(method, code, places[i])?;
    }
    Ok(())
}

#[tactic(auto, unfolding(crate::specs::Check::keeps_rule))]
fn keeps_rule(
    constants: &Constants,
    method: u16,
    parameters: u128,
    code: &Code,
    starts: &Starts,
    pc: u32,
) -> Result<(), CheckFault>
    requires short { length code.now.bytes ≤ 65535 }
    requires starts { starts.now ≡ starts_of code.now.bytes }
    ensures { result ≡ keeps_rule constants.now method parameters code.now pc }
{
    told(method, pc, keeps(constants, parameters, code, starts, pc))
}

fn all_keep(
    constants: &Constants,
    method: u16,
    parameters: u128,
    code: &Code,
    starts: &Starts,
) -> Result<(), CheckFault>
    requires short { length code.now.bytes ≤ 65535 }
    requires starts { starts.now ≡ starts_of code.now.bytes }
    ensures { result ≡ each (keeps_rule constants.now method parameters code.now) starts.now }
{
    let places = starts.places();
    for i in 0..places.len() {
        keeps_rule(constants, method, parameters, code, starts, places[i])?;
    }
    Ok(())
}

#[tactic(auto, unfolding(crate::specs::Check::covers))]
fn covers(starts: &Starts, end: usize, row: &Row) -> bool
    ensures { result ≡ covers starts.now end row.now }
{
    row.start < row.end
        && starts.has(u32::from(row.start))
        && (usize::from(row.end) == end || starts.has(u32::from(row.end)))
}

#[tactic(auto, unfolding(crate::specs::Check::is_row))]
fn is_row(pool: &List<Item>, code: &Code, starts: &Starts, row: &Row) -> bool
    requires { starts.now ≡ starts_of code.now.bytes }
    ensures { result ≡ is_row pool.now code.now row.now }
{
    0 < code.max_stack
        && covers(starts, code.bytes.len(), row)
        && starts.has(u32::from(row.handler))
        && (row.catch_class == 0 || is_class(pool, row.catch_class))
}

#[tactic(auto, unfolding(crate::specs::Check::row_rule))]
fn row_rule(
    pool: &List<Item>,
    method: u16,
    code: &Code,
    starts: &Starts,
    number: u32,
    row: &Row,
) -> Result<(), CheckFault>
    requires { starts.now ≡ starts_of code.now.bytes }
    ensures { result ≡ row_rule pool.now method code.now number row.now }
{
    if !is_row(pool, code, starts, row) {
        return told(method, number, Err(CheckKind::BadHandler));
    }
    Ok(())
}

fn all_rows(pool: &List<Item>, method: u16, code: &Code, starts: &Starts) -> Result<(), CheckFault>
    requires few { length code.now.rows ≤ 65535 }
    requires starts { starts.now ≡ starts_of code.now.bytes }
    ensures { result ≡ each_from 0 (row_rule pool.now method code.now) code.now.rows }
{
    let rows = code.rows.as_slice();
    for i in 0..rows.len() {
        row_rule(pool, method, code, starts, i as u32, &rows[i])?;
    }
    Ok(())
}

/// The first fault of the code of a method. It takes time and memory in proportion to the code and its rows.
#[tactic(auto, unfolding(crate::specs::Check::code_rule))]
fn code_rule(
    alloc: Global,
    constants: &Constants,
    method: u16,
    parameters: u128,
    code: &Code,
) -> Result<(), CheckFault>
    requires short { length code.now.bytes ≤ 65535 }
    requires few { length code.now.rows ≤ 65535 }
    ensures { AnswersUnless OutOfMemory result (code_rule constants.now method parameters code.now) }
{
    let bytes = code.bytes.as_slice();
    let starts = Starts::of(alloc, bytes)?;
    all_stand(method, bytes, &starts)?;
    all_keep(constants, method, parameters, code, &starts)?;
    all_rows(constants.pool(), method, code, &starts)
}

#[tactic(auto, unfolding(crate::specs::Check::method_rule))]
fn method_rule(
    alloc: Global,
    constants: &Constants,
    number: u16,
    method: &Member,
) -> Result<(), CheckFault>
    requires rows { IsTrue (fits_code method.now.code) }
    requires bytes { IsTrue (has_few_bytes method.now.code) }
    ensures { AnswersUnless OutOfMemory result (method_rule constants.now number method.now) }
{
    let code = match &method.code {
        Some(code) => code,
        None => return Ok(()),
    };
    let slots = constants.parameter_slots(method.desc);
    let parameters = parameter_locals(method.flags, slots);
    code_rule(alloc, constants, number, parameters, code)
}

fn all_methods(
    alloc: Global,
    constants: &Constants,
    methods: &List<Member>,
) -> Result<(), CheckFault>
    requires few { length methods.now ≤ 65535 }
    requires rows { AllPass (λ member. fits_code member.code) methods.now }
    requires bytes { AllPass (λ member. has_few_bytes member.code) methods.now }
    ensures { AnswersUnless OutOfMemory result (each_from 0 (method_rule constants.now) methods.now) }
{
    let members = methods.as_slice();
    for i in 0..members.len() {
        method_rule(alloc, constants, i as u16, &members[i])?;
    }
    Ok(())
}

/// The first fault of what a class file says, whose lists are short enough for their counts.
#[tactic(auto, unfolding(crate::specs::Check::check_of))]
fn check_parts(alloc: Global, parts: &Parts) -> Result<(), CheckFault>
    requires { IsTrue (is_countable parts.now) }
    ensures { AnswersUnless OutOfMemory result (check_of parts.now) }
{
    let constants = Constants::of(alloc, &parts.pool)?;
    all_methods(alloc, &constants, &parts.methods)
}

/// Checks the code of each method of a class file against the static constraints on code (JVM Specification 4.9.1), and that
/// no code ends behind an instruction that goes on (4.9.2): where it answers `Ok`, the code is sound, as
/// `specs/Sound.antt` says. It is meant to take time and memory in proportion to the class file; no clause says it.
///
/// # Errors
///
/// The first fault: of the methods in their order; in one first the places that hold no instruction, by place; then the rules of
/// each instruction, by place and at one by the order of `CheckKind`; then the rows of the exception table.
pub fn check(alloc: Global, class: &ClassFile) -> Result<(), CheckFault>
    ensures sound { OnOk result (IsSound class.now) }
    ensures answer { AnswersUnless OutOfMemory result (check_of class.now) }
{
    check_parts(alloc, class.parts())
}
