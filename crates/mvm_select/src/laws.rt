//! What the finds and the selections mean for a class with all from which it inherits, over the definitions alone. The premises on
//! such a class are what a load keeps of it: `IsWhole` of `specs/Families.antt`.

ghost use Rattle.std.specs.Prelude.{◌≡◌, ℕ, List, Option, Some, true, false, map};
ghost use Rattle.mvm_layout.specs.declared.parts.Parts.{Parts as PartsOf};
ghost use Rattle.mvm_set.specs.ClassOf.{own_walk, class_of};
ghost use Rattle.mvm_set.specs.Family.{Family, Inherits, file, name, visited, walk};
ghost use Rattle.mvm_set.specs.Members.{flags_at};
ghost use Rattle.mvm_set.specs.Names.{is_interface};
ghost use Rattle.mvm_set.specs.Once.{AreKept};
ghost use Rattle.mvm_set.specs.declared.found.MethodAt.{MethodAt as MethodAtOf};
ghost use Rattle.mvm_select.specs.Families.{Stands, IsOneAtMost, class_above, IsWhole, IsKnown};
ghost use Rattle.mvm_select.specs.Meaning.{IsThere, IsOfInterface, IsInstance, IsOverriding, IsOfStart, Resolves, not_abstract, public_not_abstract, Selects, IsAt, Answered};
ghost use Rattle.mvm_select.specs.Methods.{Methods};
ghost use Rattle.mvm_select.specs.MostSpecific.{IsConcrete, IsRuled, is_concrete, supers, ruled};
ghost use Rattle.mvm_select.specs.Overriding.{OverridesThat, overrides};
ghost use Rattle.mvm_select.specs.Told.{method_found, interface_method_found, Named, named, virtual_selection, interface_selection, special_selection};

/// A class is whole where each of those that stand at or above it is the one that is kept under its name, and has one superclass at most.
pub fn whole_law()
    ensures { (kept : List ℕ → Option Family) (class : Family) → AreKept name kept (visited class) → ((one : Family) → Stands class one → IsOneAtMost (class_above one)) → IsWhole class }
{}

/// However many methods stand between one and another that it overrides (JVM Specification 5.4.5), one between is enough: the test
/// over a class's lists passes exactly where the method overrides that of the base.
pub fn overriding_law()
    // It passes only there ..
    ensures only { (flags : Methods) (base : PartsOf) (class one : Family) → IsWhole class → IsKnown base class → Stands class one → overrides flags (map own_walk (walk class)) (own_walk one) base ≡ true → OverridesThat flags base one }
    // .. and everywhere there.
    ensures all { (flags : Methods) (base : PartsOf) (class one : Family) → IsWhole class → IsKnown base class → Stands class one → OverridesThat flags base one → overrides flags (map own_walk (walk class)) (own_walk one) base ≡ true }
{}

/// The most specific methods of superinterfaces (JVM Specification 5.4.3.3), over a class's list: the test of one passes exactly where
/// it is one of them and not abstract, and the rule of one takes what it should.
pub fn most_law()
    ensures only { (flags : Methods) (class one : Family) → IsWhole class → Inherits class one → is_concrete flags (map own_walk (supers (walk class))) (file one) ≡ true → IsConcrete flags class one }
    ensures all { (flags : Methods) (class one : Family) → IsWhole class → IsConcrete flags class one → is_concrete flags (map own_walk (supers (walk class))) (file one) ≡ true }
    ensures rule { (flags : Methods) (set : ℕ) (class : Family) → IsWhole class → IsRuled flags class (ruled flags (class_of set class).walk) }
{}

/// What the finds answer (JVM Specification 5.4.3.3, 5.4.3.4), as the rules say it of a class with all from which it inherits; and the
/// answer's places are those of that method.
pub fn resolution_law()
    ensures class { (name desc : List ℕ) (set : ℕ) (class : Family) → IsWhole class → is_interface (file class) ≡ false → Answered name desc (class_of set class) (Resolves (flags_at name desc) (IsThere (flags_at name desc)) class) (method_found name desc (class_of set class)) }
    ensures interface { (name desc : List ℕ) (set : ℕ) (class : Family) → IsWhole class → is_interface (file class) ≡ true → Answered name desc (class_of set class) (Resolves (flags_at name desc) (IsOfInterface (flags_at name desc)) class) (interface_method_found name desc (class_of set class)) }
{}

/// A resolved method at the places of a method, as a find tells them, names that method: the file that declares it, its name and its
/// descriptor.
pub fn named_law()
    ensures { (method : MethodAtOf) (name desc : List ℕ) (base : PartsOf) → IsAt name desc method.class base method.found → named method ≡ Some (record { holder = base; name = name; desc = desc }) }
{}

/// What the selections answer (JVM Specification 6.5), as the rules say it of a class with all from which it inherits; and the answer's
/// places are those of that method. For `select` the file of the resolved method is that of its class's name.
pub fn select_law()
    // `select`, as invokevirtual does
    ensures invokevirtual { (method : MethodAtOf) (resolved : Named) (set : ℕ) (class : Family) → named method ≡ Some resolved → IsWhole class → IsKnown resolved.holder class → Answered resolved.name resolved.desc (class_of set class) (Selects (flags_at resolved.name resolved.desc) (IsOverriding (flags_at resolved.name resolved.desc) resolved.holder) (not_abstract (flags_at resolved.name resolved.desc)) class) (virtual_selection (class_of set class) method) }
    // `select_interface`, as invokeinterface does
    ensures invokeinterface { (method : MethodAtOf) (resolved : Named) (set : ℕ) (class : Family) → named method ≡ Some resolved → IsWhole class → Answered resolved.name resolved.desc (class_of set class) (Selects (flags_at resolved.name resolved.desc) (IsInstance (flags_at resolved.name resolved.desc)) (public_not_abstract (flags_at resolved.name resolved.desc)) class) (interface_selection (class_of set class) method) }
    // `select_from`, as invokespecial does
    ensures invokespecial { (method : MethodAtOf) (resolved : Named) (set : ℕ) (start : Family) → named method ≡ Some resolved → IsWhole start → Answered resolved.name resolved.desc (class_of set start) (Selects (flags_at resolved.name resolved.desc) (IsOfStart (flags_at resolved.name resolved.desc) start) (not_abstract (flags_at resolved.name resolved.desc)) start) (special_selection (class_of set start) method) }
{}
