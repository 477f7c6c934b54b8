ghost use Rattle.std.specs.Prelude.{◌≡◌, ◌≤◌, ◌∷◌, [], ℕ, List as Items, length, map, string_bytes, IfOk, IfSome, OnOk};
ghost use Rattle.mvm_base.specs.Answers.{AnswersUnless};
ghost use Rattle.mvm_base.specs.ModifiedUtf8.{AreUnits, spelled_all};
ghost use Rattle.mvm_table.specs.Files.{File};
ghost use Rattle.mvm_classes.specs.Words.{path_of, IsMore, AreOf};

use crate::refusal::Refusal;
use crate::set_files::SetFiles;
use mvm_base::{Line, List, Name, Utf8Fault, decode_mutf8};
use mvm_outside::{MOST_FILE_BYTES, Store};
use mvm_table::Table;
use std::alloc::Global;

/// How many bytes the name of a class has at most in a class file (JVM Specification 4.4.7).
const MOST_NAME_BYTES: usize = 65_535;

/// The name that a word is, in the spelling of class files (JVM Specification 4.4.7). A word that is longer, or no such spelling, is none.
pub fn name_of(alloc: Global, word: &str) -> Result<Name, Refusal>
    ensures found { IfOk result (λ name. AreUnits name × (word.now ≡ spelled_all name)) }
    ensures only { (units : Items ℕ) → AreUnits units → word.now ≡ spelled_all units → length word.now ≤ MOST_NAME_BYTES → AnswersUnless Refusal.OutOfMemory result (Ok units) }
{
    if word.len() > MOST_NAME_BYTES {
        return Err(Refusal::Usage);
    }
    match decode_mutf8(alloc, word.as_bytes()) {
        Ok(name) => Ok(name),
        Err(Utf8Fault::OutOfMemory) => Err(Refusal::OutOfMemory),
        Err(Utf8Fault::Bad(_)) => Err(Refusal::Usage),
    }
}

/// What the store has at the name of the class file of a word.
fn file_of<S: Store>(alloc: Global, store: &mut S, word: &str) -> Result<Option<List<u8>>, Refusal>
    ensures kept { S.files store.new ≡ S.files store.old }
    ensures within { IfOk result (λ file. IfSome file (λ bytes. length bytes ≤ MOST_FILE_BYTES)) }
    ensures found { IfOk result (λ file. IfSome (S.files store.old) (λ files. file ≡ files (path_of word.now))) }
{
    let mut path = Line::new(alloc);
    path.push_str(word)?;
    path.push_str(".class")?;
    match store.read_file(alloc, &path) {
        Ok(file) => Ok(file),
        Err(fault) => Err(Refusal::from(fault)),
    }
}

/// Adds the class of a word, if the store has a class file of it.
fn add_word<S: Store>(
    alloc: Global,
    store: &mut S,
    word: &str,
    classes: &mut SetFiles,
) -> Result<(), Refusal>
    ensures kept { S.files store.new ≡ S.files store.old }
    ensures more { OnOk result (IfSome (S.files store.old) (λ files. IsMore files word.now classes.old classes.new)) }
{
    if let Some(bytes) = file_of(alloc, store, word)? {
        classes.add(name_of(alloc, word)?, bytes)?;
    }
    Ok(())
}

/// The table of one set, which has the classes of these names that the store has class files of.
pub fn table_of<S: Store>(alloc: Global, store: &mut S, words: &[String]) -> Result<Table, Refusal>
    ensures files { IfOk result (λ table. (classes : Items File) × (table.files ≡ classes ∷ []) × IfSome (S.files store.old) (λ files. AreOf files (map string_bytes words.now) classes)) }
{
    let mut classes = SetFiles::new(alloc);
    for i in 0..words.len() {
        add_word(alloc, store, words[i].as_str(), &mut classes)?;
    }
    classes.table()
}
