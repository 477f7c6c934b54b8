//! What holds of the members of a file, over the definitions alone.

ghost use Rattle.std.specs.Prelude.{◌≡◌, ◌<◌, ℕ, List, length, slice_get, Some};
ghost use Rattle.mvm_layout.specs.Pool.{text};
ghost use Rattle.mvm_layout.specs.declared.parts.Member.{Member as MemberOf};
ghost use Rattle.mvm_layout.specs.declared.parts.Parts.{Parts as PartsOf};
ghost use Rattle.mvm_set.specs.Members.{method_at};
ghost use Rattle.mvm_member.specs.Members.{method_declared};

/// The place of a name and descriptor gives the method that is declared (JVM Specification 4.6).
pub fn place_law()
    // A method stands there ..
    ensures within { (name desc : List ℕ) (file : PartsOf) (place : ℕ) → method_at name desc file ≡ Some place → place < length file.methods }
    // .. which is the one that the file declares ..
    ensures declared { (name desc : List ℕ) (file : PartsOf) (place : ℕ) → method_at name desc file ≡ Some place → method_declared name desc file ≡ slice_get file.methods place }
    // .. and has this name and this descriptor.
    ensures named { (name desc : List ℕ) (file : PartsOf) (method : MemberOf) → method_declared name desc file ≡ Some method → (text file.pool method.name ≡ Some name) × (text file.pool method.desc ≡ Some desc) }
{}
