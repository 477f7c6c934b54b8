//! What holds of classes and their lists, over the definitions alone.

ghost use Rattle.std.specs.Prelude.{◌≡◌, ◌⊎◌, ℕ, List, ◌∷◌, ◌++◌, Option, true};
ghost use Rattle.std.specs.List.{list_any};
ghost use Rattle.mvm_layout.specs.declared.parts.Parts.{Parts as PartsOf};
ghost use Rattle.mvm_set.specs.Names.{is_called};
ghost use Rattle.mvm_set.specs.Once.{AreKept, first};
ghost use Rattle.mvm_set.specs.Family.{Family, Families, family, file, name, visited, walk, Inherits, IsSuperinterface, fault_in, superinterfaces};
ghost use Rattle.mvm_set.specs.ClassOf.{class_of, classes_of};
ghost use Rattle.mvm_set.specs.Over.{class_over};
ghost use Rattle.mvm_set.specs.Fields.{first_in, declared_by, found_in, told};
ghost use Rattle.mvm_set.specs.Access.{is_subclass};

/// What is put together from a file and the classes above it is the class of the whole family.
pub fn class_law()
    ensures { (set : ℕ) (parts : PartsOf) (above across : Families) → class_over set parts (classes_of set above) (classes_of set across) ≡ class_of set (family parts above across) }
{}

/// What is found first in the walk of a class is what the rule finds (JVM Specification 5.4.3.2): in the class, then in its
/// direct superinterfaces in order by this rule, then in its superclass by this rule; where those of one name are one.
pub fn walk_law()
    ensures { (look : PartsOf → Option ℕ) (kept : List ℕ → Option Family) (set : ℕ) (one : Family) → AreKept name kept (visited one) → told (walk one) (found_in look (class_of set one)) ≡ first_in (declared_by look) one }
{}

/// The first fault in the order of verification, each class once, is that of the rule (JVM Specification 5.4.1): of the class, then
/// of its superclass by this rule, then of its direct superinterfaces in order by this rule; where those of one name are one.
pub fn checked_law()
    ensures { (check : PartsOf → Option ℕ) (kept : List ℕ → Option Family) (set : ℕ) (one : Family) → AreKept name kept (visited one) → first (λ own. check own.file) (class_of set one).checked ≡ fault_in (λ other. check (file other)) one }
{}

/// A class is a subclass exactly of itself and of those that it inherits from, each by its name.
pub fn subclass_law()
    ensures only { (set : ℕ) (one : Family) (n : List ℕ) → is_subclass (class_of set one) n ≡ true → (other : Family) × ((other ≡ one) ⊎ Inherits one other) × (is_called n (file other) ≡ true) }
    ensures itself { (set : ℕ) (one : Family) (n : List ℕ) → is_called n (file one) ≡ true → is_subclass (class_of set one) n ≡ true }
    ensures inherited { (set : ℕ) (one other : Family) (n : List ℕ) → Inherits one other → is_called n (file other) ≡ true → is_subclass (class_of set one) n ≡ true }
{}

/// The superinterfaces that a class has by its direct superinterfaces are listed, and no others, each by its name; and each stands
/// behind its own superinterfaces (JVM Specification 5.5, step 7).
pub fn superinterfaces_law()
    ensures only { (set : ℕ) (one : Family) (n : List ℕ) → list_any (λ own. is_called n own.file) (class_of set one).superinterfaces ≡ true → (other : Family) × IsSuperinterface other one × (is_called n (file other) ≡ true) }
    ensures all { (set : ℕ) (one other : Family) (n : List ℕ) → IsSuperinterface other one → is_called n (file other) ≡ true → list_any (λ own. is_called n own.file) (class_of set one).superinterfaces ≡ true }
    ensures behind { (one other over : Family) (before behind : List Family) (n : List ℕ) → superinterfaces one ≡ before ++ other ∷ behind → IsSuperinterface over other → is_called n (file over) ≡ true → list_any (λ (earlier : Family). is_called n (file earlier)) before ≡ true }
{}
