ghost use Rattle.std.specs.Prelude.{◌≡◌};
ghost use Rattle.mvm_builtin.specs.Natives.{native_at};
ghost use Rattle.mvm_native.specs.Calls.{called, called_in, Fits, FitsIn};
ghost use Rattle.mvm_native.specs.Machine.{machine_of, Called};

use crate::arguments::{int_arg, ref_arg, word_arg};
use crate::env::Env;
use crate::integer::parse_int;
use crate::isolate::{halt_isolate, isolate_number, start_isolate};
use crate::link::{Sendable, close, receive, send};
use crate::object::{notify, object_equals, wait};
use crate::out::{Out, gives};
use crate::print_stream::{print, println, println_nothing};
use crate::string::{char_at, hash_code, string_equals, string_length, substring, value_of};
use crate::string_builder::{append, builder_length, builder_to_string, init_builder};
use crate::texts::ValueKind;
use crate::thread::{init_thread, join, start};
use crate::throwable::{init_throwable, reference_in};
use mvm_base::{OutOfMemory, Word};
use mvm_builtin::{Native, native_at};

/// Calls a native method.
#[tactic(auto, unfolding(crate::specs::Calls::called, crate::specs::Calls::Fits))]
fn call_native(env: &mut Env, native: Native, args: &[Word]) -> Result<Out, OutOfMemory>
    requires { Fits native args.now (machine_of env.old) }
    ensures { Called result (called native args.now (machine_of env.old)) (machine_of env.old) (machine_of env.new) }
{
    match native {
        Native::InitObject => Ok(Out::Value(None)),
        Native::ObjectEquals => Ok(object_equals(word_arg(args, 0), word_arg(args, 1))),
        Native::Wait => Ok(wait(env, ref_arg(args, 0))),
        Native::Notify => Ok(notify(env, false, ref_arg(args, 0))),
        Native::NotifyAll => Ok(notify(env, true, ref_arg(args, 0))),
        Native::StringLength => Ok(string_length(env, ref_arg(args, 0))),
        Native::CharAt => Ok(char_at(env, ref_arg(args, 0), int_arg(args, 1))),
        Native::Substring => substring(env, ref_arg(args, 0), int_arg(args, 1), int_arg(args, 2)),
        Native::StringEquals => Ok(string_equals(env, ref_arg(args, 0), word_arg(args, 1))),
        Native::HashCode => Ok(hash_code(env, ref_arg(args, 0))),
        Native::StringToString => Ok(gives(word_arg(args, 0))),
        Native::ValueOfInt => value_of(env, ValueKind::Int, word_arg(args, 0)),
        Native::ValueOfLong => value_of(env, ValueKind::Long, word_arg(args, 0)),
        Native::ValueOfChar => value_of(env, ValueKind::Char, word_arg(args, 0)),
        Native::ValueOfBoolean => value_of(env, ValueKind::Boolean, word_arg(args, 0)),
        Native::InitBuilder => init_builder(env, ref_arg(args, 0)),
        Native::AppendInt => append(env, ref_arg(args, 0), ValueKind::Int, word_arg(args, 1)),
        Native::AppendLong => append(env, ref_arg(args, 0), ValueKind::Long, word_arg(args, 1)),
        Native::AppendChar => append(env, ref_arg(args, 0), ValueKind::Char, word_arg(args, 1)),
        Native::AppendBoolean => append(
            env,
            ref_arg(args, 0),
            ValueKind::Boolean,
            word_arg(args, 1),
        ),
        Native::AppendText => append(env, ref_arg(args, 0), ValueKind::Text, word_arg(args, 1)),
        Native::BuilderLength => Ok(builder_length(env, ref_arg(args, 0))),
        Native::BuilderToString => builder_to_string(env, ref_arg(args, 0)),
        Native::Exit => Ok(Out::Exit(int_arg(args, 0))),
        Native::PrintInt => print(env, ValueKind::Int, word_arg(args, 1)),
        Native::PrintLong => print(env, ValueKind::Long, word_arg(args, 1)),
        Native::PrintChar => print(env, ValueKind::Char, word_arg(args, 1)),
        Native::PrintBoolean => print(env, ValueKind::Boolean, word_arg(args, 1)),
        Native::PrintText => print(env, ValueKind::Text, word_arg(args, 1)),
        Native::PrintlnInt => println(env, ValueKind::Int, word_arg(args, 1)),
        Native::PrintlnLong => println(env, ValueKind::Long, word_arg(args, 1)),
        Native::PrintlnChar => println(env, ValueKind::Char, word_arg(args, 1)),
        Native::PrintlnBoolean => println(env, ValueKind::Boolean, word_arg(args, 1)),
        Native::PrintlnText => println(env, ValueKind::Text, word_arg(args, 1)),
        Native::Println => println_nothing(env),
        Native::ParseInt => parse_int(env, word_arg(args, 0)),
        Native::InitThread => Ok(init_thread(env, ref_arg(args, 0), Word::Null)),
        Native::InitTarget => Ok(init_thread(env, ref_arg(args, 0), word_arg(args, 1))),
        Native::StartThread => Ok(start(env, ref_arg(args, 0))),
        Native::Join => Ok(join(env, ref_arg(args, 0))),
        Native::CurrentThread => Ok(Out::Current),
        Native::SysPrintln => println(env, ValueKind::Int, word_arg(args, 0)),
        Native::IsolateNumber => Ok(isolate_number(env)),
        Native::StartIsolate => Ok(start_isolate(env, int_arg(args, 0))),
        Native::HaltIsolate => Ok(halt_isolate(env, int_arg(args, 0), int_arg(args, 1))),
        Native::SendInts => send(env, Sendable::Ints, int_arg(args, 0), word_arg(args, 1)),
        Native::SendLongs => send(env, Sendable::Longs, int_arg(args, 0), word_arg(args, 1)),
        Native::SendBytes => send(env, Sendable::Bytes, int_arg(args, 0), word_arg(args, 1)),
        Native::SendText => send(env, Sendable::Units, int_arg(args, 0), word_arg(args, 1)),
        Native::Receive => Ok(receive(env, int_arg(args, 0))),
        Native::CloseLink => Ok(close(env, int_arg(args, 0))),
        Native::InitThrowable => Ok(init_throwable(env, ref_arg(args, 0), Word::Null, Word::Null)),
        Native::InitMessage => {
            Ok(init_throwable(env, ref_arg(args, 0), word_arg(args, 1), Word::Null))
        }
        Native::InitCause => {
            Ok(init_throwable(env, ref_arg(args, 0), word_arg(args, 1), word_arg(args, 2)))
        }
        Native::GetMessage => Ok(reference_in(env, ref_arg(args, 0), 0)),
        Native::GetCause => Ok(reference_in(env, ref_arg(args, 0), 1)),
    }
}

/// Calls the native method of a number.
pub fn call(env: &mut Env, number: u16, args: &[Word]) -> Result<Out, OutOfMemory>
    requires { FitsIn (native_at number) args.now (machine_of env.old) }
    ensures { Called result (called_in (native_at number) args.now (machine_of env.old)) (machine_of env.old) (machine_of env.new) }
{
    match native_at(number) {
        Some(native) => call_native(env, native, args),
        None => unreachable!(),
    }
}
