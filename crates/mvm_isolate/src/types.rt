ghost use Rattle.std.specs.Prelude.{◌≡◌, ◌<◌, length, IfSome, Some};
ghost use Rattle.std.specs.Option.{option_map};
ghost use Rattle.mvm_heap.specs.Heap.{object_at};
ghost use Rattle.mvm_heap.specs.declared.kind.ObjectKind.TheVariants.{Array};
ghost use Rattle.mvm_isolate.specs.Isolate.{type_at};
ghost use Rattle.mvm_isolate.specs.Numbered.{name_at, named, type_of, IsClass, IsType};
ghost use Rattle.mvm_isolate.specs.Types.{items_of, CLASS, OBJECT};

use crate::isolate::Isolate;
use crate::type_at::TypeAt;
use mvm_base::{Base, FieldShape};
use mvm_heap::{ItemKind, ObjectKind};

/// What the items of an array of a shape are (JVM Specification 2.4).
#[tactic(auto, unfolding(crate::specs::Types::items_of))]
pub fn items_of(shape: &FieldShape) -> ItemKind
    ensures { result ≡ items_of shape.now }
{
    if shape.dims == 1 {
        match shape.base {
            Base::Boolean => ItemKind::Boolean,
            Base::Byte => ItemKind::Byte,
            Base::Char => ItemKind::Char,
            Base::Short => ItemKind::Short,
            Base::Int => ItemKind::Int,
            Base::Long => ItemKind::Long,
            Base::Object(_) => ItemKind::Ref,
        }
    } else {
        ItemKind::Ref
    }
}

impl Isolate {
    /// The number of the class `java/lang/Object`.
    pub fn object_class(&self) -> u32
        ensures there { IsClass self.now result }
        ensures name { name_at self.now result ≡ OBJECT }
    {
        self.known.object
    }

    /// The number of the class `java/lang/Class`.
    pub(crate) fn class_class(&self) -> u32
        ensures there { IsClass self.now result }
        ensures name { name_at self.now result ≡ CLASS }
    {
        self.known.class
    }

    /// What an array is whose items are these.
    #[tactic(auto, using(crate::proofs::Typing::array_type, crate::proofs::Typing::array_there, crate::proofs::Typing::numbers_type, crate::proofs::Typing::numbers_there))]
    fn array_type_at(&self, object: u32, kind: ItemKind) -> TypeAt
        requires there { object < length self.now.env.heap.state.objects }
        requires kind { (object_at self.now.env.heap.state.objects object).sort ≡ Array kind }
        ensures value { type_at (named self.now) object ≡ Some (type_of self.now result) }
        ensures is { IsType self.now result }
    {
        match kind {
            ItemKind::Ref => TypeAt::Array(self.env.heap.class_of(object)),
            _ => TypeAt::Numbers(kind),
        }
    }

    /// What an object is, by its sort.
    #[tactic(auto, using(crate::proofs::Typing::class_type, crate::proofs::Typing::class_there, crate::proofs::Typing::text_type, crate::proofs::Typing::text_there))]
    fn known_type_at(&self, object: u32) -> TypeAt
        requires { object < length self.now.env.heap.state.objects }
        ensures value { type_at (named self.now) object ≡ Some (type_of self.now result) }
        ensures is { IsType self.now result }
    {
        match self.env.heap.kind_of(object) {
            ObjectKind::Object => TypeAt::Class(self.env.heap.class_of(object)),
            ObjectKind::Array(kind) => self.array_type_at(object, kind),
            ObjectKind::Text => TypeAt::Class(self.known.string),
        }
    }

    /// What an object is (JVM Specification 2.4), or `None` where there is none of this number.
    #[tactic(auto, using(crate::proofs::Typing::type_beyond))]
    pub fn type_at(&self, object: u32) -> Option<TypeAt>
        ensures value { option_map (type_of self.now) result ≡ type_at (named self.now) object }
        ensures there { IfSome result (λ at. IsType self.now at) }
    {
        if object < self.env.heap.count() {
            Some(self.known_type_at(object))
        } else {
            None
        }
    }
}
