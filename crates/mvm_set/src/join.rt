ghost use Rattle.std.specs.Prelude.{◌≡◌, ◌<◌, ℕ, [], ◌∷◌, ◌++◌, ◌||◌, ◌+◌, ◌&&◌, not, true, if◌then◌else◌, length, take, drop, map, List as Items, All, Option, Some, IfOk, OnOk};
ghost use Rattle.mvm_shape.specs.Members.{same_text};
ghost use Rattle.mvm_set.specs.ClassOf.{own_walk_name};
ghost use Rattle.mvm_set.specs.Names.{own_name};
ghost use Rattle.mvm_set.specs.Once.{once};
ghost use Rattle.mvm_set.specs.Over.{file_of, others_than, own_of, lines_of, walks_of, checked_of, enumerated_of};
ghost use Rattle.mvm_set.specs.Seen.{is_seen, is_met, is_among, joined, IsOnce, AreSingle, unmet, Keeps};

use crate::class::Class;
use crate::names::own_name;
use crate::own::{Own, OwnWalk};
use crate::shared::Shared;
use mvm_base::{List, OutOfMemory};
use mvm_classfile::ClassFile;
use std::alloc::Global;
use std::collections::BTreeSet;

/// Puts a name among others, and says whether it is new there.
fn meet<'a>(names: &mut BTreeSet<&'a [u16]>, units: &'a [u16]) -> Result<bool, OutOfMemory>
    ensures new { IfOk result (λ new. new ≡ not (is_seen names.old (Some units.now))) }
    ensures next { IfOk result (λ new. (other : Option (Items ℕ)) → is_seen names.new other ≡ (is_seen names.old other || same_text (Some units.now) other)) }
{
    let is_new = names.insert(units)?;
    Ok(is_new)
}

/// The same of the name of the class of a file, if it has one.
fn meet_file<'a>(names: &mut BTreeSet<&'a [u16]>, file: &'a ClassFile) -> Result<(), OutOfMemory>
    ensures { OnOk result ((other : Option (Items ℕ)) → is_seen names.new other ≡ (is_seen names.old other || same_text (own_name file.now) other)) }
{
    match own_name(file) {
        Some(name) => {
            meet(names, name.units())?;
            Ok(())
        }
        None => Ok(()),
    }
}

/// The same of the classes of a list.
fn meet_list<'a>(
    names: &mut BTreeSet<&'a [u16]>,
    owns: &'a [Shared<Own>],
) -> Result<(), OutOfMemory>
    ensures { OnOk result ((other : Option (Items ℕ)) → is_seen names.new other ≡ (is_seen names.old other || is_among other owns.now)) }
{
    for i in 0..owns.len() {
        meet_file(names, owns[i].get().file())?;
    }
    Ok(())
}

/// The same of the classes of some lists.
fn meet_lists<'a>(
    names: &mut BTreeSet<&'a [u16]>,
    lists: &[&'a [Shared<Own>]],
) -> Result<(), OutOfMemory>
    ensures { OnOk result ((other : Option (Items ℕ)) → is_seen names.new other ≡ (is_seen names.old other || is_among other (joined lists.now))) }
{
    for i in 0..lists.len() {
        meet_list(names, lists[i])?;
    }
    Ok(())
}

/// The place of the longest of these lists, if there are any. No clause says that it is the longest: any place will do.
fn longest(lists: &[&[Shared<Own>]]) -> usize
    ensures { 0 < length lists.now → result < length lists.now }
{
    let mut place = 0;
    for i in 0..lists.len() {
        if lists[i].len() > lists[place].len() {
            place = i;
        }
    }
    place
}

/// The lists before a place.
fn lists_before<'a, 'b>(lists: &'b [&'a [Shared<Own>]], place: usize) -> &'b [&'a [Shared<Own>]]
    requires { place < length lists.now }
    ensures { result.now ≡ take place lists.now }
{
    &lists[..place]
}

/// The lists behind a place.
fn lists_behind<'a, 'b>(lists: &'b [&'a [Shared<Own>]], place: usize) -> &'b [&'a [Shared<Own>]]
    requires { place < length lists.now }
    ensures value { result.now ≡ drop (place + 1) lists.now }
    ensures within { place < length lists.now }
{
    &lists[place + 1..]
}

/// The names that may stand twice in these lists, where each stands once in each of them: the names of all of them but the longest.
fn repeats_of<'a>(
    alloc: Global,
    lists: &[&'a [Shared<Own>]],
) -> Result<BTreeSet<&'a [u16]>, OutOfMemory>
    requires { All IsOnce lists.now }
    ensures { IfOk result (λ repeats. AreSingle (is_seen repeats) (joined lists.now)) }
{
    let mut repeats = BTreeSet::new(alloc);
    if lists.is_empty() {
        return Ok(repeats);
    }
    let place = longest(lists);
    meet_lists(&mut repeats, lists_before(lists, place))?;
    meet_lists(&mut repeats, lists_behind(lists, place))?;
    Ok(repeats)
}

/// Whether a name was not met yet. One that does not stand twice is new each time.
fn is_new<'a>(
    repeats: &BTreeSet<&'a [u16]>,
    seen: &mut BTreeSet<&'a [u16]>,
    units: &'a [u16],
) -> Result<bool, OutOfMemory>
    ensures new { IfOk result (λ new. new ≡ not (is_met (is_seen repeats.now) (is_seen seen.old) (Some units.now))) }
    ensures next { IfOk result (λ new. (other : Option (Items ℕ)) → is_met (is_seen repeats.now) (is_seen seen.new) other ≡ (is_met (is_seen repeats.now) (is_seen seen.old) other || (is_seen repeats.now (Some units.now) && same_text (Some units.now) other))) }
{
    if repeats.contains(units) {
        meet(seen, units)
    } else {
        Ok(true)
    }
}

/// The same of the name of the class of a file. One without a name is new each time.
fn is_new_file<'a>(
    repeats: &BTreeSet<&'a [u16]>,
    seen: &mut BTreeSet<&'a [u16]>,
    file: &'a ClassFile,
) -> Result<bool, OutOfMemory>
    ensures new { IfOk result (λ new. new ≡ not (is_met (is_seen repeats.now) (is_seen seen.old) (own_name file.now))) }
    ensures next { IfOk result (λ new. (other : Option (Items ℕ)) → is_met (is_seen repeats.now) (is_seen seen.new) other ≡ (is_met (is_seen repeats.now) (is_seen seen.old) other || (is_seen repeats.now (own_name file.now) && same_text (own_name file.now) other))) }
{
    match own_name(file) {
        Some(name) => is_new(repeats, seen, name.units()),
        None => Ok(true),
    }
}

/// Adds the class of a file at the end where its name is new.
fn add_new<'a>(
    repeats: &BTreeSet<&'a [u16]>,
    seen: &mut BTreeSet<&'a [u16]>,
    others: &mut Vec<Shared<Own>>,
    own: &'a Shared<Own>,
) -> Result<(), OutOfMemory>
    ensures next { OnOk result ((other : Option (Items ℕ)) → is_met (is_seen repeats.now) (is_seen seen.new) other ≡ (is_met (is_seen repeats.now) (is_seen seen.old) other || (is_seen repeats.now (own_walk_name own.now) && same_text (own_walk_name own.now) other))) }
    ensures kept { OnOk result (others.new.items ≡ (if is_met (is_seen repeats.now) (is_seen seen.old) (own_walk_name own.now) then others.old.items else others.old.items ++ own.now ∷ [])) }
{
    if is_new_file(repeats, seen, own.get().file())? {
        others.push(own.share()?)?;
    }
    Ok(())
}

/// Adds the classes of a list at the end whose names are new.
fn add_list<'a>(
    repeats: &BTreeSet<&'a [u16]>,
    seen: &mut BTreeSet<&'a [u16]>,
    others: &mut Vec<Shared<Own>>,
    owns: &'a [Shared<Own>],
) -> Result<(), OutOfMemory>
    ensures { OnOk result (Keeps (is_seen repeats.now) owns.now (is_seen seen.old) others.old.items (is_seen seen.new) others.new.items) }
{
    for i in 0..owns.len() {
        add_new(repeats, seen, others, &owns[i])?;
    }
    Ok(())
}

/// Adds the classes of some lists at the end whose names are new.
fn add_lists<'a>(
    repeats: &BTreeSet<&'a [u16]>,
    seen: &mut BTreeSet<&'a [u16]>,
    others: &mut Vec<Shared<Own>>,
    lists: &[&'a [Shared<Own>]],
) -> Result<(), OutOfMemory>
    requires { AreSingle (is_seen repeats.now) (joined lists.now) }
    ensures { OnOk result (others.new.items ≡ others.old.items ++ unmet (is_seen repeats.now) (is_seen seen.old) (joined lists.now)) }
{
    for i in 0..lists.len() {
        add_list(repeats, seen, others, lists[i])?;
    }
    Ok(())
}

/// The classes of these lists, each name once, at its first place. In each list each name stands once.
fn each_once(alloc: Global, lists: &[&[Shared<Own>]]) -> Result<List<Shared<Own>>, OutOfMemory>
    requires { All IsOnce lists.now }
    ensures { IfOk result (λ owns. owns ≡ once own_walk_name (joined lists.now)) }
{
    let repeats = repeats_of(alloc, lists)?;
    let mut seen = BTreeSet::new(alloc);
    let mut owns = Vec::new(alloc);
    add_lists(&repeats, &mut seen, &mut owns, lists)?;
    Ok(List::from_vec(owns))
}

/// Those of another class than the file's in these lists, each name once, at its first place. In each list each name stands once.
fn others_than<'a>(
    alloc: Global,
    file: &'a ClassFile,
    lists: &[&'a [Shared<Own>]],
) -> Result<Vec<Shared<Own>>, OutOfMemory>
    requires { All IsOnce lists.now }
    ensures { IfOk result (λ others. others.items ≡ others_than file.now (joined lists.now)) }
{
    let mut repeats = repeats_of(alloc, lists)?;
    meet_file(&mut repeats, file)?;
    let mut seen = BTreeSet::new(alloc);
    meet_file(&mut seen, file)?;
    let mut others = Vec::new(alloc);
    add_lists(&repeats, &mut seen, &mut others, lists)?;
    Ok(others)
}

/// Adds the walks of these classes at the end.
fn add_walks<'a>(
    lists: &mut Vec<&'a [Shared<Own>]>,
    classes: &'a [Shared<Class>],
) -> Result<(), OutOfMemory>
    ensures joined { OnOk result (joined lists.new.items ≡ joined lists.old.items ++ walks_of classes.now) }
    ensures once { OnOk result (All IsOnce lists.old.items → All IsOnce lists.new.items) }
{
    for i in 0..classes.len() {
        lists.push(classes[i].get().walk())?;
    }
    Ok(())
}

/// Adds the orders of verification of these classes at the end.
fn add_checked<'a>(
    lists: &mut Vec<&'a [Shared<Own>]>,
    classes: &'a [Shared<Class>],
) -> Result<(), OutOfMemory>
    ensures joined { OnOk result (joined lists.new.items ≡ joined lists.old.items ++ checked_of classes.now) }
    ensures once { OnOk result (All IsOnce lists.old.items → All IsOnce lists.new.items) }
{
    for i in 0..classes.len() {
        lists.push(classes[i].get().checked())?;
    }
    Ok(())
}

/// Adds at the end, for each of these classes, its superinterfaces in the order of initialisation, and then the class itself.
fn add_enumerated<'a>(
    lists: &mut Vec<&'a [Shared<Own>]>,
    classes: &'a [Shared<Class>],
) -> Result<(), OutOfMemory>
    ensures joined { OnOk result (joined lists.new.items ≡ joined lists.old.items ++ enumerated_of classes.now) }
    ensures once { OnOk result (All IsOnce lists.old.items → All IsOnce lists.new.items) }
{
    for i in 0..classes.len() {
        let class = classes[i].get();
        lists.push(class.superinterfaces())?;
        lists.push(class.itself())?;
    }
    Ok(())
}

/// The superinterfaces of a class in the order of initialisation, from its direct superinterfaces.
pub(crate) fn superinterfaces_of(
    alloc: Global,
    across: &[Shared<Class>],
) -> Result<List<Shared<Own>>, OutOfMemory>
    ensures { IfOk result (λ owns. owns ≡ once own_walk_name (enumerated_of across.now)) }
{
    let mut lists = Vec::new(alloc);
    add_enumerated(&mut lists, across)?;
    each_once(alloc, lists.as_slice())
}

/// What stands in the walk of a file behind it: what its superinterfaces have, then what its superclass has.
pub(crate) fn other_walks(
    alloc: Global,
    file: &ClassFile,
    above: &[Shared<Class>],
    across: &[Shared<Class>],
) -> Result<Vec<Shared<Own>>, OutOfMemory>
    ensures { IfOk result (λ others. others.items ≡ others_than file.now (walks_of across.now ++ walks_of above.now)) }
{
    let mut lists = Vec::new(alloc);
    add_walks(&mut lists, across)?;
    add_walks(&mut lists, above)?;
    others_than(alloc, file, lists.as_slice())
}

/// What stands in the order of verification behind a file: what its superclass has, then what its superinterfaces have.
pub(crate) fn other_checked(
    alloc: Global,
    file: &ClassFile,
    above: &[Shared<Class>],
    across: &[Shared<Class>],
) -> Result<Vec<Shared<Own>>, OutOfMemory>
    ensures { IfOk result (λ others. others.items ≡ others_than file.now (checked_of above.now ++ checked_of across.now)) }
{
    let mut lists = Vec::new(alloc);
    add_checked(&mut lists, above)?;
    add_checked(&mut lists, across)?;
    others_than(alloc, file, lists.as_slice())
}

/// The class at the front, and the others behind it.
pub(crate) fn in_front(
    own: &Shared<Own>,
    mut others: Vec<Shared<Own>>,
) -> Result<List<Shared<Own>>, OutOfMemory>
    ensures { IfOk result (λ owns. owns ≡ own.now ∷ others.items) }
{
    others.insert(0, own.share()?)?;
    Ok(List::from_vec(others))
}

/// Adds these at the end.
fn append(onto: &mut List<Shared<Own>>, owns: &[Shared<Own>]) -> Result<(), OutOfMemory>
    ensures { OnOk result (onto.new ≡ onto.old ++ owns.now) }
{
    for i in 0..owns.len() {
        onto.push(owns[i].share()?)?;
    }
    Ok(())
}

/// Adds the lines of these classes at the end.
fn append_lines(onto: &mut List<Shared<Own>>, classes: &[Shared<Class>]) -> Result<(), OutOfMemory>
    ensures { OnOk result (onto.new ≡ onto.old ++ lines_of classes.now) }
{
    for i in 0..classes.len() {
        append(onto, classes[i].get().line())?;
    }
    Ok(())
}

/// The class at the front of the lines of the classes above it.
pub(crate) fn in_front_of_lines(
    alloc: Global,
    own: &Shared<Own>,
    above: &[Shared<Class>],
) -> Result<List<Shared<Own>>, OutOfMemory>
    ensures { IfOk result (λ owns. owns ≡ own.now ∷ lines_of above.now) }
{
    let mut owns = List::new(alloc);
    owns.push(own.share()?)?;
    append_lines(&mut owns, above)?;
    Ok(owns)
}

/// Adds the files of these classes at the end.
fn append_files(
    files: &mut List<Shared<ClassFile>>,
    owns: &[Shared<Own>],
) -> Result<(), OutOfMemory>
    ensures { OnOk result (files.new ≡ files.old ++ map file_of owns.now) }
{
    for i in 0..owns.len() {
        files.push(owns[i].get().shared_file().share()?)?;
    }
    Ok(())
}

/// A file with its walk: the file itself, then those of the others.
pub(crate) fn own_of(
    alloc: Global,
    file: Shared<ClassFile>,
    others: &[Shared<Own>],
) -> Result<Shared<Own>, OutOfMemory>
    ensures { IfOk result (λ own. own ≡ own_of file others.now) }
{
    let mut walk = List::new(alloc);
    walk.push(file.share()?)?;
    append_files(&mut walk, others)?;
    let own = Own::new(alloc, OwnWalk { file, walk })?;
    Ok(Shared::new(alloc, own)?)
}
