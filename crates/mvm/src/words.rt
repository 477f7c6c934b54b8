ghost use Rattle.std.specs.Prelude.{◌≡◌, ◌↔◌, map, string_bytes, Some};
ghost use Rattle.mvm.specs.Launch.{AsksFor, name_of};
ghost use Rattle.mvm.specs.declared.words.Command.{Command as CommandOf};

/// What the words of the command line ask for.
#[derive(Clone, Copy, Debug, PartialEq, Eq)]
pub enum Command {
    /// `run`: a class file is run, and its report written.
    Run,
    /// `asm`: the text of a class file is read, and the class file written.
    Assemble,
    /// `dump`: a class file is read, and its text written.
    Disassemble,
}

/// The command that the words ask for: its name, and nothing else.
pub(crate) fn command_of(words: &[String]) -> Option<Command>
    ensures { (command : CommandOf) → (result ≡ Some command) ↔ AsksFor (map string_bytes words.now) command }
{
    match words {
        [word] => command_named(word.as_str()),
        _ => None,
    }
}

/// The command of this name.
#[tactic(auto, using(crate::proofs::CommandNames::of_name, crate::proofs::CommandNames::of_no_name))]
fn command_named(name: &str) -> Option<Command>
    ensures { (command : CommandOf) → (result ≡ Some command) ↔ name.now ≡ name_of command }
{
    if name == "run" {
        Some(Command::Run)
    } else if name == "asm" {
        Some(Command::Assemble)
    } else if name == "dump" {
        Some(Command::Disassemble)
    } else {
        None
    }
}
