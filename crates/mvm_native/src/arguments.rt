ghost use Rattle.std.specs.Prelude.{◌≡◌};
ghost use Rattle.mvm_native.specs.Arguments.{int_arg, int_of, long_of, ref_arg, ref_of, word_arg};

use mvm_base::Word;

/// The argument at a place; null behind the last.
pub fn word_arg(args: &[Word], place: usize) -> Word
    ensures { result ≡ word_arg args.now place }
{
    match args.get(place) {
        Some(word) => *word,
        None => Word::Null,
    }
}

/// The object that is referred to, 0 where none is.
pub fn ref_of(word: Word) -> u32
    ensures { result ≡ ref_of word }
{
    match word {
        Word::Ref(object) => object,
        Word::Int(_) | Word::Long(_) | Word::Null => 0,
    }
}

/// The object that the argument at a place refers to, 0 where it refers to none.
pub fn ref_arg(args: &[Word], place: usize) -> u32
    ensures { result ≡ ref_arg args.now place }
{
    ref_of(word_arg(args, place))
}

/// An int, 0 where it is none.
pub fn int_of(word: Word) -> i32
    ensures { result ≡ int_of word }
{
    match word {
        Word::Int(value) => value,
        Word::Long(_) | Word::Ref(_) | Word::Null => 0,
    }
}

/// The int at a place, 0 where there is none.
pub fn int_arg(args: &[Word], place: usize) -> i32
    ensures { result ≡ int_arg args.now place }
{
    int_of(word_arg(args, place))
}

/// A long, 0 where it is none.
pub fn long_of(word: Word) -> i64
    ensures { result ≡ long_of word }
{
    match word {
        Word::Long(value) => value,
        Word::Int(_) | Word::Ref(_) | Word::Null => 0,
    }
}
