//! Handlers, and what catches an object (JVM Specification 2.10, 4.7.3).

ghost use Rattle.std.specs.Prelude.{◌≡◌, codes, slice_get, IfSome};
ghost use Rattle.std.specs.List.{list_any};
ghost use Rattle.std.specs.Option.{option_copied, option_map};
ghost use Rattle.mvm_current.specs.Keys.{runs_of, IsKey};
ghost use Rattle.mvm_isolate.specs.Look.{extends};
ghost use Rattle.mvm_isolate.specs.Numbered.{look_of, name_at, type_of, IsClass, IsType};
ghost use Rattle.mvm_isolate.specs.Receivers.{is_thrown_as};
ghost use Rattle.mvm_set.specs.Names.{is_called};
ghost use Rattle.mvm_throwing.specs.Throwing.{catches, covers, handler_for, handler_in, is_error};

use mvm_base::{List, Name};
use mvm_classfile::{ClassFile, Item, Member, Row};
use mvm_current::NO_METHOD;
use mvm_frame::FrameKey;
use mvm_instance::catches as is_caught_at;
use mvm_isolate::{Isolate, TypeAt};
use mvm_layout::pool::{class_name, is_class_named};
use mvm_set::{Class, Own, Shared};

/// Whether an object of this type, if it has one, is caught as one of the class of a name.
fn is_caught(isolate: &Isolate, name: &Name, at: Option<TypeAt>) -> bool
    requires { IfSome at (IsType isolate.now) }
    ensures { result ≡ is_thrown_as (look_of isolate.now) name.now (option_map (type_of isolate.now) at) }
{
    match at {
        Some(at) => is_caught_at(isolate, name, at),
        None => false,
    }
}

/// Whether a row catches an object of this type.
fn catches(isolate: &Isolate, pool: &List<Item>, at: Option<TypeAt>, row: Row) -> bool
    requires { IfSome at (IsType isolate.now) }
    ensures { result ≡ catches (look_of isolate.now) pool.now (option_map (type_of isolate.now) at) row }
{
    if row.catch_class == 0 {
        return true;
    }
    match class_name(pool, row.catch_class) {
        Some(name) => is_caught(isolate, name, at),
        None => false,
    }
}

/// Whether a row covers the pc; its end does not belong to it.
fn covers(pc: u32, row: Row) -> bool
    ensures { result ≡ covers pc row }
{
    u32::from(row.start) <= pc && pc < u32::from(row.end)
}

/// The handler of the first of these rows that covers the pc and catches an object of this type.
fn handler_in(
    isolate: &Isolate,
    pool: &List<Item>,
    at: Option<TypeAt>,
    pc: u32,
    rows: &[Row],
) -> Option<u32>
    requires { IfSome at (IsType isolate.now) }
    ensures { result ≡ handler_in (look_of isolate.now) pool.now (option_map (type_of isolate.now) at) pc rows.now }
{
    for i in 0..rows.len() {
        let row = rows[i];
        if covers(pc, row) && catches(isolate, pool, at, row) {
            return Some(u32::from(row.handler));
        }
    }
    None
}

/// The constant pool of a class.
fn pool_of(class: &Class) -> &List<Item>
    ensures { result.now ≡ class.now.file.pool }
{
    &class.file().parts().pool
}

/// The method of a place among those that a class declares.
fn declared_at(class: &Class, place: u16) -> Option<&Member>
    ensures { option_copied result ≡ slice_get class.now.file.methods place }
{
    class.file().parts().methods.get(usize::from(place))
}

/// Where the frame of a key goes on with an object of this type that is thrown at its pc, if it has a handler for it.
pub(crate) fn handler_for(
    isolate: &Isolate,
    key: FrameKey,
    pc: u32,
    at: Option<TypeAt>,
) -> Option<u32>
    requires key { IsKey isolate.now key }
    requires typed { IfSome at (IsType isolate.now) }
    ensures { result ≡ handler_for (look_of isolate.now) (runs_of isolate.now key pc) pc (option_map (type_of isolate.now) at) }
{
    if key.method == NO_METHOD {
        return None;
    }
    let class = isolate.class(key.mirror);
    match declared_at(class.get(), key.method) {
        Some(method) => match &method.code {
            Some(code) => handler_in(isolate, pool_of(class.get()), at, pc, code.rows.as_slice()),
            None => None,
        },
        None => None,
    }
}

/// Whether a file defines `java/lang/Error`.
fn defines_error(file: &ClassFile) -> bool
    ensures { result ≡ is_called (codes "java/lang/Error") file.now }
{
    let parts = file.parts();
    is_class_named(&parts.pool, parts.this_class, b"java/lang/Error")
}

/// Whether one of these defines `java/lang/Error`.
fn has_error(line: &[Shared<Own>]) -> bool
    ensures { result ≡ list_any (λ own. is_called (codes "java/lang/Error") own.file) line.now }
{
    for i in 0..line.len() {
        if defines_error(line[i].get().file()) {
            return true;
        }
    }
    false
}

/// Whether the class of a number is `java/lang/Error`, or has it as a superclass.
#[tactic(auto, unfolding(mvm_isolate::specs::Look::extends), using(mvm_instance::proofs::Sets::found))]
fn extends_error(isolate: &Isolate, mirror: u32) -> bool
    requires { IsClass isolate.now mirror }
    ensures { result ≡ extends (look_of isolate.now) (name_at isolate.now mirror) (codes "java/lang/Error") }
{
    has_error(isolate.class(mirror).get().line())
}

/// Whether an object of this type is an `Error`.
#[tactic(auto, unfolding(mvm_isolate::specs::Numbered::type_of))]
pub(crate) fn is_error(isolate: &Isolate, at: Option<TypeAt>) -> bool
    requires { IfSome at (IsType isolate.now) }
    ensures { result ≡ is_error (look_of isolate.now) (option_map (type_of isolate.now) at) }
{
    match at {
        Some(TypeAt::Class(mirror)) => extends_error(isolate, mirror),
        _ => false,
    }
}
