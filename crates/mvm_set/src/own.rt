ghost use Rattle.std.specs.Prelude.{◌≡◌, false, IfOk};
ghost use Rattle.std.specs.List.{list_any};
ghost use Rattle.mvm_set.specs.FieldPlaces.{count_of, fields_before, ArePlaces};
ghost use Rattle.mvm_set.specs.Members.{field_at, method_at, flags_at, is_concrete_instance_method, declares_concrete_instance_method};

use crate::field_places::FieldPlaces;
use crate::index::Index;
use crate::shared::Shared;
use mvm_base::{List, Name, OutOfMemory};
use mvm_classfile::{ClassFile, Member};
use mvm_layout::flags::{ABSTRACT, has_flag, is_static};
use std::alloc::Global;
use std::marker::Model;

/// A file with the walk of its own class.
#[derive(Debug, Drop)]
pub struct OwnWalk {
    /// The file.
    pub file: Shared<ClassFile>,
    /// The order of field resolution of its class (JVM Specification 5.4.3.2): the file itself, then the others, each class once,
    /// at its first place.
    pub walk: List<Shared<ClassFile>>,
}

/// A file with the walk of its own class, an index of the file's members, its fields counted by sort, and whether a method of the file
/// is neither abstract nor static.
#[derive(Debug, Drop)]
pub struct Own {
    own: OwnWalk,
    index: Index,
    places: FieldPlaces,
    concrete: bool,
}

impl Model for Own {
    ghost use Rattle.mvm_set.specs.declared.own.OwnWalk.{OwnWalk as OwnWalkOf};
    ghost use Rattle.std.specs.Prelude.{◌≡◌};
    ghost use Rattle.mvm_set.specs.FieldPlaces.{ArePlaces};
    ghost use Rattle.mvm_set.specs.IndexOf.{IsIndexOf};
    ghost use Rattle.mvm_set.specs.Members.{declares_concrete_instance_method};

    ghost Value = { OwnWalkOf };

    ghost view = { λ o. o.own };

    ghost invariant = { λ o. IsIndexOf o.own.file o.index × ArePlaces o.own.file.fields o.places × (o.concrete ≡ declares_concrete_instance_method o.own.file) };
}

/// The fields of a file, counted by sort.
fn field_places(alloc: Global, file: &ClassFile) -> Result<FieldPlaces, OutOfMemory>
    ensures { IfOk result (λ places. ArePlaces file.now.fields places) }
{
    FieldPlaces::new(alloc, file.parts().fields.as_slice())
}

/// Whether one of these methods is neither abstract nor static.
fn has_concrete_instance_method(methods: &[Member]) -> bool
    ensures { result ≡ list_any is_concrete_instance_method methods.now }
{
    for i in 0..methods.len() {
        let flags = methods[i].flags;
        if !(has_flag(ABSTRACT, flags) || is_static(flags)) {
            return true;
        }
    }
    false
}

/// Whether a file declares a method that is neither abstract nor static.
#[tactic(auto, unfolding(crate::specs::Members::declares_concrete_instance_method))]
fn declares_concrete_instance_method(file: &ClassFile) -> bool
    ensures { result ≡ declares_concrete_instance_method file.now }
{
    has_concrete_instance_method(file.parts().methods.as_slice())
}

impl Own {
    pub(crate) fn new(alloc: Global, own: OwnWalk) -> Result<Own, OutOfMemory>
        ensures { IfOk result (λ made. made ≡ own) }
    {
        let index = Index::new(alloc, own.file.get())?;
        let places = field_places(alloc, own.file.get())?;
        let concrete = declares_concrete_instance_method(own.file.get());
        Ok(Own {
            own,
            index,
            places,
            concrete,
        })
    }

    /// The file, as one owner of it.
    pub fn shared_file(&self) -> &Shared<ClassFile>
        ensures { result.now ≡ self.now.file }
    {
        &self.own.file
    }

    /// The file.
    pub fn file(&self) -> &ClassFile
        ensures { result.now ≡ self.now.file }
    {
        self.own.file.get()
    }

    /// The walk of its class.
    pub fn walk(&self) -> &[Shared<ClassFile>]
        ensures { result.now ≡ self.now.walk }
    {
        self.own.walk.as_slice()
    }

    /// The place of the file's field of this name and descriptor (JVM Specification 4.5).
    #[tactic(auto, unfolding(crate::specs::Members::field_at))]
    pub fn field_at(&self, name: &Name, desc: &Name) -> Option<u16>
        ensures { result ≡ field_at name.now desc.now self.now.file }
    {
        self.index.field(name, desc)
    }

    /// The place of the file's method of this name and descriptor (JVM Specification 4.6).
    #[tactic(auto, unfolding(crate::specs::Members::method_at))]
    pub fn method_at(&self, name: &Name, desc: &Name) -> Option<u16>
        ensures { result ≡ method_at name.now desc.now self.now.file }
    {
        self.index.method(name, desc)
    }

    /// The access flags of the file's method of this name and descriptor (JVM Specification 4.6), where it has one.
    #[tactic(auto, unfolding(crate::specs::Members::flags_at))]
    pub fn flags_at(&self, name: &Name, desc: &Name) -> Option<u16>
        ensures { result ≡ flags_at name.now desc.now self.now.file }
    {
        match self.method_at(name, desc) {
            Some(at) => match self.file().parts().methods.get(usize::from(at)) {
                Some(method) => Some(method.flags),
                None => None,
            },
            None => None,
        }
    }

    /// How many fields of the same sort, static fields or instance fields, stand before the field of this place in the list of the file's
    /// fields (JVM Specification 4.5), or `None` where the file has no field of this place.
    #[tactic(auto, unfolding(crate::specs::FieldPlaces::fields_before))]
    pub fn fields_before(&self, index: u16) -> Option<u16>
        ensures { result ≡ fields_before self.now.file.fields index }
    {
        self.places.before(index)
    }

    /// How many instance fields the file has (JVM Specification 4.5).
    pub fn instance_fields(&self) -> u16
        ensures { result ≡ count_of false self.now.file.fields }
    {
        self.places.instance()
    }

    /// Whether the file declares a method that is neither abstract nor static. A superinterface that does is initialised with a class
    /// (JVM Specification 5.5, step 7).
    pub fn declares_concrete_instance_method(&self) -> bool
        ensures { result ≡ declares_concrete_instance_method self.now.file }
    {
        self.concrete
    }
}
