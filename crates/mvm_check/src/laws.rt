ghost use Rattle.std.specs.Prelude.{◌≡◌, ◌↔◌, ℕ, List, true, Ok};
ghost use Rattle.std.specs.List.Sorted.{IsStrictlyIncreasing};
ghost use Rattle.mvm_layout.specs.declared.parts.Parts.{Parts};
ghost use Rattle.mvm_check.specs.Starts.{IsStart, starts_of, is_start};
ghost use Rattle.mvm_check.specs.Check.{check_of};
ghost use Rattle.mvm_check.specs.Sound.{IsSound};

/// What holds of all code.
pub fn check_law()
    // The list of starts has the places at which an instruction begins, and no others.
    ensures starts { (code : List ℕ) (place : ℕ) → (is_start (starts_of code) place ≡ true) ↔ IsStart code place }
    // They rise.
    ensures ordered { (code : List ℕ) → IsStrictlyIncreasing (starts_of code) }
    // No fault is found exactly where the code of each method is sound.
    ensures sound { (parts : Parts) → (check_of parts ≡ Ok tt) ↔ IsSound parts }
{}
