ghost use Rattle.std.specs.Prelude.{◌≡◌};
ghost use Rattle.mvm_constants.specs.Index.{text_number, class_number, both_numbers, pair_numbers, member_numbers, key_of, key_at, member_key};

use mvm_base::List;
use mvm_layout::Item;
use mvm_layout::pool::entry;
use mvm_statement::PairKind;

/// What an entry means, by the numbers of its texts. The number of a text is the lowest index at which it stands.
#[derive(Clone, Copy, PartialEq, Eq, PartialOrd, Ord)]
pub(crate) enum Key {
    /// A class, by its name.
    Class(u16),
    /// A string constant, by its text.
    Str(u16),
    /// An int.
    Integer(i32),
    /// A long.
    Long(i64),
    /// A name and a descriptor.
    Pair(u16, u16),
    /// A field, by the name of its class, its own name and its descriptor.
    Field(u16, u16, u16),
    /// A method of a class, likewise.
    Method(u16, u16, u16),
    /// A method of an interface, likewise.
    InterfaceMethod(u16, u16, u16),
}

/// Why an entry has no key.
#[derive(Clone, Copy)]
pub(crate) enum Lack {
    /// There is no entry yet at this index, to which it leads.
    Missing(u16),
    /// It leads to an entry of another kind, or is itself of a kind that is not looked for.
    OtherKind,
}

/// The number of the text at an index.
fn text_number(numbers: &List<u16>, index: u16) -> Result<u16, Lack>
    ensures { result ≡ text_number numbers.now index }
{
    if index == 0 {
        return Err(Lack::Missing(index));
    }
    match numbers.get(usize::from(index) - 1) {
        None => Err(Lack::Missing(index)),
        Some(0) => Err(Lack::OtherKind),
        Some(number) => Ok(*number),
    }
}

/// The number of the name of the class at an index.
fn class_number(pool: &List<Item>, numbers: &List<u16>, index: u16) -> Result<u16, Lack>
    ensures { result ≡ class_number pool.now numbers.now index }
{
    match entry(pool, index) {
        None => Err(Lack::Missing(index)),
        Some(Item::Class(name)) => text_number(numbers, *name),
        Some(_) => Err(Lack::OtherKind),
    }
}

/// The numbers of a name and a descriptor.
fn both_numbers(numbers: &List<u16>, name: u16, desc: u16) -> Result<(u16, u16), Lack>
    ensures { result ≡ both_numbers numbers.now name desc }
{
    let first = text_number(numbers, name)?;
    let second = text_number(numbers, desc)?;
    Ok((first, second))
}

/// The numbers of the name and the descriptor at an index.
fn pair_numbers(pool: &List<Item>, numbers: &List<u16>, index: u16) -> Result<(u16, u16), Lack>
    ensures { result ≡ pair_numbers pool.now numbers.now index }
{
    match entry(pool, index) {
        None => Err(Lack::Missing(index)),
        Some(Item::NameAndType(name, desc)) => both_numbers(numbers, *name, *desc),
        Some(_) => Err(Lack::OtherKind),
    }
}

/// The numbers of the name of a class, and of the name and the descriptor of its member.
fn member_numbers(
    pool: &List<Item>,
    numbers: &List<u16>,
    class: u16,
    member: u16,
) -> Result<(u16, (u16, u16)), Lack>
    ensures { result ≡ member_numbers pool.now numbers.now class member }
{
    let holder = class_number(pool, numbers, class)?;
    let pair = pair_numbers(pool, numbers, member)?;
    Ok((holder, pair))
}

/// What an entry means.
fn key_of(pool: &List<Item>, numbers: &List<u16>, item: &Item) -> Result<Key, Lack>
    ensures { result ≡ key_of pool.now numbers.now item.now }
{
    match item {
        Item::Integer(number) => Ok(Key::Integer(*number)),
        Item::Long(number) => Ok(Key::Long(*number)),
        Item::Class(name) => Ok(Key::Class(text_number(numbers, *name)?)),
        Item::Str(units) => Ok(Key::Str(text_number(numbers, *units)?)),
        Item::NameAndType(name, desc) => {
            let (name, desc) = both_numbers(numbers, *name, *desc)?;
            Ok(Key::Pair(name, desc))
        }
        Item::Fieldref(class, member) => {
            let (class, (name, desc)) = member_numbers(pool, numbers, *class, *member)?;
            Ok(Key::Field(class, name, desc))
        }
        Item::Methodref(class, member) => {
            let (class, (name, desc)) = member_numbers(pool, numbers, *class, *member)?;
            Ok(Key::Method(class, name, desc))
        }
        Item::InterfaceMethodref(class, member) => {
            let (class, (name, desc)) = member_numbers(pool, numbers, *class, *member)?;
            Ok(Key::InterfaceMethod(class, name, desc))
        }
        _ => Err(Lack::OtherKind),
    }
}

/// What the entry at an index means.
pub(crate) fn key_at(pool: &List<Item>, numbers: &List<u16>, at: u16) -> Result<Key, Lack>
    ensures { result ≡ key_at pool.now numbers.now at }
{
    match entry(pool, at) {
        None => Err(Lack::OtherKind),
        Some(item) => key_of(pool, numbers, item),
    }
}

/// The key of a field or a method of this kind; a pair of a name and a descriptor is neither.
pub(crate) fn member_key(kind: PairKind, class: u16, name: u16, desc: u16) -> Option<Key>
    ensures { result ≡ member_key kind class name desc }
{
    match kind {
        PairKind::Fieldref => Some(Key::Field(class, name, desc)),
        PairKind::Methodref => Some(Key::Method(class, name, desc)),
        PairKind::InterfaceMethodref => Some(Key::InterfaceMethod(class, name, desc)),
        PairKind::NameAndType => None,
    }
}
