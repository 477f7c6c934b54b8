ghost use Rattle.std.specs.Prelude.{◌≡◌};
ghost use Rattle.mvm_native.specs.Machine.{machine_of, Called};
ghost use Rattle.mvm_native.specs.Prints.{print, printed, println, println_nothing};
ghost use Rattle.mvm_native.specs.Texts.{text_of, HasText};

use crate::characters::push_units;
use crate::env::Env;
use crate::out::Out;
use crate::texts::{ValueKind, text_of as units_of};
use mvm_base::{Line, OutOfMemory, Word};
use mvm_history::LimitKind;

/// Adds a line to the output, unless that would pass its limit.
#[tactic(auto, unfolding(crate::specs::Prints::printed))]
fn printed(env: &mut Env, line: &Line) -> Result<Out, OutOfMemory>
    ensures { Called result (printed line.now (machine_of env.old)) (machine_of env.old) (machine_of env.new) }
{
    let whole = env.output.as_bytes().len() as u64 + line.as_bytes().len() as u64;
    if env.launch.limits.output < whole {
        return Ok(Out::Limit(LimitKind::Output));
    }
    env.output.push_str(line.as_str())?;
    Ok(Out::Value(None))
}

/// `PrintStream.print` of a value.
pub fn print(env: &mut Env, kind: ValueKind, value: Word) -> Result<Out, OutOfMemory>
    requires { HasText env.old.heap.state.objects kind value }
    ensures { Called result (print (text_of env.old.heap.state.objects kind value) (machine_of env.old)) (machine_of env.old) (machine_of env.new) }
{
    let units = units_of(env.alloc, &env.heap, kind, value)?;
    let mut line = Line::new(env.alloc);
    push_units(&mut line, &units)?;
    printed(env, &line)
}

/// `PrintStream.println` of a value: a line feed ends the line.
pub fn println(env: &mut Env, kind: ValueKind, value: Word) -> Result<Out, OutOfMemory>
    requires { HasText env.old.heap.state.objects kind value }
    ensures { Called result (println (text_of env.old.heap.state.objects kind value) (machine_of env.old)) (machine_of env.old) (machine_of env.new) }
{
    let units = units_of(env.alloc, &env.heap, kind, value)?;
    let mut line = Line::new(env.alloc);
    push_units(&mut line, &units)?;
    line.push_str("\n")?;
    printed(env, &line)
}

/// `PrintStream.println` of nothing.
pub fn println_nothing(env: &mut Env) -> Result<Out, OutOfMemory>
    ensures { Called result (println_nothing (machine_of env.old)) (machine_of env.old) (machine_of env.new) }
{
    let mut line = Line::new(env.alloc);
    line.push_str("\n")?;
    printed(env, &line)
}
