ghost use Rattle.std.specs.Prelude.{◌≡◌, ◌↔◌, ◌<◌, ℕ, List, All, Some, IsSome, Ok, true, false};
ghost use Rattle.mvm_layout.specs.Flags.{has_flag};
ghost use Rattle.mvm_layout.specs.Pool.{class_name};
ghost use Rattle.mvm_layout.specs.declared.flags.TheConstants.{PUBLIC};
ghost use Rattle.mvm_layout.specs.declared.parts.Parts.{Parts};
ghost use Rattle.mvm_check.specs.Check.{check_of};
ghost use Rattle.mvm_builtin.specs.Classes.{builtin, builtin_at};
ghost use Rattle.mvm_builtin.specs.Natives.{number, native_at, IsMethodOf};
ghost use Rattle.mvm_builtin.specs.Order.{place_of, own_name, StandsBefore};
ghost use Rattle.mvm_builtin.specs.declared.natives.Native.{Native};

use crate::table::CLASSES;

/// What holds of all built-in classes.
pub fn builtin_law()
    // There is one at each place below so many, and at no other.
    ensures count { (place : ℕ) → IsSome (builtin_at place) ↔ (place < CLASSES) }
    // The class of a name is the one at the place of that name.
    ensures placed { (name : List ℕ) → builtin name ≡ builtin_at (place_of name) }
    // Each has a name, and its place is that of the name: so no two have one name.
    ensures apart { (place : ℕ) (file : Parts) → builtin_at place ≡ Some file → (name : List ℕ) × (own_name file ≡ Some name) × (place_of name ≡ place) }
    // Each calls itself by the name by which it is found.
    ensures named { (name : List ℕ) (file : Parts) → builtin name ≡ Some file → own_name file ≡ Some name }
    // Each is public.
    ensures public { (name : List ℕ) (file : Parts) → builtin name ≡ Some file → has_flag PUBLIC file.flags ≡ true }
    // Its code keeps the static constraints on code, so that linking it finds no fault.
    ensures checked { (name : List ℕ) (file : Parts) → builtin name ≡ Some file → check_of file ≡ Ok tt }
    // The superclass of each is a built-in class, no interface, that stands before it.
    ensures superclass { (name super : List ℕ) (file : Parts) → builtin name ≡ Some file → class_name file.pool file.super_class ≡ Some super → StandsBefore false super name }
    // Each superinterface is a built-in interface that stands before it.
    ensures superinterfaces { (name : List ℕ) (file : Parts) → builtin name ≡ Some file → All (λ index. (super : List ℕ) → class_name file.pool index ≡ Some super → StandsBefore true super name) file.interfaces }
{}

/// What holds of all native methods.
pub fn native_law()
    // A native method is the one of its number,
    ensures at { (native : Native) → native_at (number native) ≡ Some native }
    // and has the only number that gives it.
    ensures only { (place : ℕ) (native : Native) → native_at place ≡ Some native → number native ≡ place }
    // Two have different numbers.
    ensures apart { (one other : Native) → number one ≡ number other → one ≡ other }
    // A method of a built-in class has a number exactly where its flags say that it is native. Its number alone tells its name, its
    // descriptor, and whether it is static.
    ensures methods { (class : List ℕ) (file : Parts) → builtin class ≡ Some file → All (IsMethodOf class file.pool) file.methods }
{}
