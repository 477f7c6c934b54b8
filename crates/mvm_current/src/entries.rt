//! What the constant pool of the class of the current frame has, resolved (JVM Specification 5.4.3).

ghost use Rattle.std.specs.Prelude.{◌≡◌, ◌≢◌, List, Some, Ok, Err, IsSome, IfOk, IfErr, OnOk};
ghost use Rattle.std.specs.Str.{bytes_eq};
ghost use Rattle.mvm_base.specs.Answers.{AnswersUnless, Fails};
ghost use Rattle.mvm_isolate.specs.Numbered.{class_at, look_of, IsClass};
ghost use Rattle.mvm_member.specs.Members.{MemberName as MemberNameOf};
ghost use Rattle.mvm_select.specs.Names.{on_ok};
ghost use Rattle.mvm_set.specs.declared.class.Lineage.{Lineage};
ghost use Rattle.mvm_table.specs.Files.{File};
ghost use Rattle.mvm_table.specs.Loads.{IsLoaded};
ghost use Rattle.mvm_table.specs.Resolve.{HasLoaded};
ghost use Rattle.mvm_current.specs.Entries.{a_type, entry_at, field_entry, field_in, is_method_of, may_store, name_of, type_entry};
ghost use Rattle.mvm_current.specs.Found.{HasField, HasType, IsLoadedType};
ghost use Rattle.mvm_current.specs.Keys.{top_named, AreKeys, IsPlaceOf};

use crate::code::{declared_at, method_key};
use mvm_base::{FieldShape, Name, Steps};
use mvm_frame::Stack;
use mvm_isolate::{Isolate, Stop};
use mvm_layout::flags::{FINAL, has_flag, is_static};
use mvm_layout::pool::{same_text, text};
use mvm_member::{MemberName, field_named};
use mvm_native::Thrown;
use mvm_set::{Class, Shared, own_name};
use mvm_table::{FieldAt, Resolved, Table};
use std::sync::ledger::Ledger;

/// A type that an entry names: a class, or an array class by its shape (JVM Specification 4.4.1).
#[derive(Debug, Drop)]
pub enum TypeEntry {
    /// A class or an interface.
    Class(Shared<Class>),
    /// An array class.
    Array(FieldShape),
}

/// The entry of an index of the constant pool of the current frame's class.
///
/// # Errors
///
/// What is thrown for the first fault of the resolution; a `VerifyError` where the frame runs no method.
pub fn entry_at<L: Ledger>(
    isolate: &Isolate,
    table: &Table,
    stack: &Stack,
    index: u16,
    steps: &mut Steps<L>,
) -> Result<Resolved, Stop>
    requires files { table.now.files ≡ isolate.now.files }
    requires frame { IsSome stack.now.rest.below.key }
    requires keys { AreKeys isolate.now stack.now }
    ensures answer { AnswersUnless Stop.OutOfMemory result (entry_at (look_of isolate.now) index (top_named isolate.now stack.now)) }
    ensures loaded { IfOk result (λ found. HasLoaded isolate.now.files found) }
{
    match method_key(stack) {
        Some(key) => isolate.entry(table, key.mirror, index, steps),
        None => Err(Stop::Throw(Thrown::VerifyError)),
    }
}

/// The name of a class.
///
/// # Errors
///
/// A `VerifyError` where its file has none, which no class file is.
pub fn name_of(class: &Class) -> Result<&Name, Stop>
    ensures { on_ok (λ name. name.now) result ≡ name_of class.now }
{
    match own_name(class.file()) {
        Some(name) => Ok(name),
        None => Err(Stop::Throw(Thrown::VerifyError)),
    }
}

/// The type that an entry stands for.
fn type_in(found: Resolved) -> Result<TypeEntry, Stop>
    ensures ok { IfOk result (λ entry. HasType entry (a_type found)) }
    ensures err { IfErr result (λ stop. a_type found ≡ Err stop) }
    ensures loaded { (files : List (List File)) → HasLoaded files found → IfOk result (IsLoadedType files) }
{
    match found {
        Resolved::Class(class) => match own_name(class.get().file()) {
            Some(_) => Ok(TypeEntry::Class(class)),
            None => Err(Stop::Throw(Thrown::VerifyError)),
        },
        Resolved::Array(shape) => Ok(TypeEntry::Array(shape)),
        _ => Err(Stop::Throw(Thrown::VerifyError)),
    }
}

/// The type that the entry of an index names.
///
/// # Errors
///
/// Those of [`entry_at`], and a `VerifyError` where it names none.
#[tactic(auto, unfolding(crate::specs::Entries::type_entry))]
pub fn type_entry<L: Ledger>(
    isolate: &Isolate,
    table: &Table,
    stack: &Stack,
    index: u16,
    steps: &mut Steps<L>,
) -> Result<TypeEntry, Stop>
    requires files { table.now.files ≡ isolate.now.files }
    requires frame { IsSome stack.now.rest.below.key }
    requires keys { AreKeys isolate.now stack.now }
    ensures ok { IfOk result (λ entry. HasType entry (type_entry (look_of isolate.now) index (top_named isolate.now stack.now))) }
    ensures err { IfErr result (λ stop. Fails Stop.OutOfMemory stop (type_entry (look_of isolate.now) index (top_named isolate.now stack.now))) }
    ensures loaded { IfOk result (λ entry. IsLoadedType isolate.now.files entry) }
{
    match entry_at(isolate, table, stack, index, steps) {
        Ok(found) => type_in(found),
        Err(stop) => Err(stop),
    }
}

/// Whether a field is static, or is not, as it is wanted.
///
/// # Errors
///
/// An `IncompatibleClassChangeError` where it is the other.
fn must_be(is_static_wanted: bool, field: &FieldAt) -> Result<(), Stop>
    ensures ok { OnOk result (HasField field.now (field_in is_static_wanted (Resolved.Field field.now))) }
    ensures err { IfErr result (λ stop. field_in is_static_wanted (Resolved.Field field.now) ≡ Err stop) }
{
    match field_named(field) {
        Some(member) => {
            if is_static(member.flags()) == is_static_wanted {
                Ok(())
            } else {
                Err(Stop::Throw(Thrown::IncompatibleClassChangeError))
            }
        }
        None => Err(Stop::Throw(Thrown::VerifyError)),
    }
}

/// The field that an entry stands for, which is static or is not.
fn field_in(is_static_wanted: bool, found: Resolved) -> Result<FieldAt, Stop>
    ensures ok { IfOk result (λ field. HasField field (field_in is_static_wanted found)) }
    ensures err { IfErr result (λ stop. field_in is_static_wanted found ≡ Err stop) }
    ensures loaded { (files : List (List File)) → HasLoaded files found → IfOk result (λ field. IsLoaded files field.class) }
{
    match found {
        Resolved::Field(field) => match must_be(is_static_wanted, &field) {
            Ok(()) => Ok(field),
            Err(stop) => Err(stop),
        },
        _ => Err(Stop::Throw(Thrown::VerifyError)),
    }
}

/// The field that the entry of an index names, which is static or is not.
///
/// # Errors
///
/// Those of [`entry_at`]; a `VerifyError` where it names no field, an `IncompatibleClassChangeError` where the field is not as it is wanted.
#[tactic(auto, unfolding(crate::specs::Entries::field_entry))]
pub fn field_entry<L: Ledger>(
    isolate: &Isolate,
    table: &Table,
    is_static_wanted: bool,
    stack: &Stack,
    index: u16,
    steps: &mut Steps<L>,
) -> Result<FieldAt, Stop>
    requires files { table.now.files ≡ isolate.now.files }
    requires frame { IsSome stack.now.rest.below.key }
    requires keys { AreKeys isolate.now stack.now }
    // It has the names that the definition gives.
    ensures ok { IfOk result (λ field. HasField field (field_entry (look_of isolate.now) is_static_wanted index (top_named isolate.now stack.now))) }
    ensures err { IfErr result (λ stop. Fails Stop.OutOfMemory stop (field_entry (look_of isolate.now) is_static_wanted index (top_named isolate.now stack.now))) }
    ensures loaded { IfOk result (λ field. IsLoaded isolate.now.files field.class) }
{
    match entry_at(isolate, table, stack, index, steps) {
        Ok(found) => field_in(is_static_wanted, found),
        Err(stop) => Err(stop),
    }
}

/// Whether the method of a place among those of the class of a number has this name.
fn is_named(isolate: &Isolate, mirror: u32, place: u16, name: &str) -> bool
    requires { IsClass isolate.now mirror }
    ensures { (class : Lineage) (member : MemberNameOf) → class_at isolate.now mirror ≡ Some class → IsPlaceOf place class member → result ≡ bytes_eq member.name name.now }
{
    match declared_at(isolate, mirror, place) {
        Some(method) => {
            let pool = &isolate.class(mirror).get().file().parts().pool;
            match text(pool, method.name) {
                Some(called) => same_text(called.units(), name.as_bytes()),
                None => false,
            }
        }
        None => false,
    }
}

/// Whether the current frame runs a method of this name that the class of this name declares.
fn is_method_of(isolate: &Isolate, stack: &Stack, class: &Name, name: &str) -> bool
    requires frame { IsSome stack.now.rest.below.key }
    requires keys { AreKeys isolate.now stack.now }
    ensures { result ≡ is_method_of class.now name.now (top_named isolate.now stack.now).runs }
{
    match method_key(stack) {
        Some(key) => {
            class.same(isolate.class_name(key.mirror))
                && is_named(isolate, key.mirror, key.method, name)
        }
        None => false,
    }
}

/// Whether the current frame may store to a field: to a final one only a method of this name of the field's own class may (JVM Specification
/// 6.5, under putfield and putstatic).
///
/// # Errors
///
/// An `IllegalAccessError` where it may not.
#[tactic(auto, unfolding(crate::specs::Entries::may_store))]
pub fn may_store(
    isolate: &Isolate,
    stack: &Stack,
    name: &str,
    member: &MemberName<'_>,
) -> Result<(), Stop>
    requires frame { IsSome stack.now.rest.below.key }
    requires keys { AreKeys isolate.now stack.now }
    ensures is { result ≡ may_store name.now member.now (top_named isolate.now stack.now) }
    ensures memory { IfErr result (λ stop. stop ≢ Stop.OutOfMemory) }
{
    if has_flag(FINAL, member.flags()) && !is_method_of(isolate, stack, member.class(), name) {
        Err(Stop::Throw(Thrown::IllegalAccessError))
    } else {
        Ok(())
    }
}
