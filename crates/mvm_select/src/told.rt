ghost use Rattle.std.specs.Prelude.{◌≡◌, ◌<◌, ◌^◌, length, Some, IfOk};
ghost use Rattle.mvm_select.specs.Told.{IsPlace, or_fault, place_from, place_of, named_in, named};

use mvm_base::Name;
use mvm_classfile::Member;
use mvm_layout::pool::text;
use mvm_set::{Found, LinkFault, MethodAt, Own, Shared, is_same};
use std::marker::Model;

/// Where the method of this name and descriptor of a class is found in a walk.
#[tactic(auto, unfolding(crate::specs::Told::place_of))]
fn place_of(name: &Name, desc: &Name, walk: &[Shared<Own>], own: &Own) -> Option<Found>
    requires { length walk.now < 2 ^ 32 }
    ensures { result ≡ place_of name.now desc.now walk.now own.now.file }
{
    for i in 0..walk.len() {
        let other = walk[i].get();
        if is_same(other.file(), own.file()) {
            return match other.method_at(name, desc) {
                Some(index) => Some(Found {
                    holder: i as u32,
                    index,
                }),
                None => None,
            };
        }
    }
    None
}

/// The method of this name and descriptor of a class, by its places in a walk.
pub(crate) fn told(
    missing: LinkFault,
    name: &Name,
    desc: &Name,
    walk: &[Shared<Own>],
    own: &Own,
) -> Result<Found, LinkFault>
    requires { length walk.now < 2 ^ 32 }
    ensures exact { result ≡ or_fault missing (place_of name.now desc.now walk.now own.now.file) }
    ensures places { IfOk result (λ found. IsPlace walk.now found) }
{
    match place_of(name, desc, walk, own) {
        Some(found) => Ok(found),
        None => Err(missing),
    }
}

/// A method by the class that declares it, its name and its descriptor.
#[derive(Drop)]
pub(crate) struct NamedMethod<'a> {
    holder: &'a Own,
    name: &'a Name,
    desc: &'a Name,
}

impl<'a> Model for NamedMethod<'a> {
    ghost use Rattle.mvm_select.specs.Told.{Named as NamedOf};

    ghost Value = { NamedOf };

    ghost view = { λ n. record { holder = n.holder.now.file; name = n.name.now; desc = n.desc.now } };
}

impl<'a> NamedMethod<'a> {
    /// The class that declares it.
    pub(crate) fn holder(&self) -> &'a Own
        ensures { result.now.file ≡ self.now.holder }
    {
        self.holder
    }

    /// Its name.
    pub(crate) fn name(&self) -> &'a Name
        ensures { result.now ≡ self.now.name }
    {
        self.name
    }

    /// Its descriptor.
    pub(crate) fn desc(&self) -> &'a Name
        ensures { result.now ≡ self.now.desc }
    {
        self.desc
    }
}

/// The method of a class by its name and descriptor.
fn named_in<'a>(own: &'a Own, method: &Member) -> Option<NamedMethod<'a>>
    ensures { result ≡ named_in own.now.file (Some method.now) }
{
    let pool = &own.file().parts().pool;
    match text(pool, method.name) {
        Some(name) => match text(pool, method.desc) {
            Some(desc) => Some(NamedMethod {
                holder: own,
                name,
                desc,
            }),
            None => None,
        },
        None => None,
    }
}

/// What a resolved method names.
#[tactic(auto, unfolding(crate::specs::Told::named))]
pub(crate) fn named(resolved: &MethodAt) -> Option<NamedMethod<'_>>
    ensures { result ≡ named resolved.now }
{
    match resolved
        .class
        .get()
        .walk()
        .get(resolved.found.holder as usize)
    {
        Some(own) => {
            let own = own.get();
            match own
                .file()
                .parts()
                .methods
                .get(usize::from(resolved.found.index))
            {
                Some(method) => named_in(own, method),
                None => None,
            }
        }
        None => None,
    }
}
