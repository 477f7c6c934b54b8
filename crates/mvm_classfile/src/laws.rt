ghost use Rattle.std.specs.Prelude.{◌≡◌, ◌≢◌, ◌≤◌, ℕ, ◌⊎◌, List, [], ◌++◌, length, Some};
ghost use Rattle.std.specs.List.{AllZip};
ghost use Rattle.mvm_layout.specs.declared.fault.ClassFault.{ClassFault};
ghost use Rattle.mvm_layout.specs.declared.fault.ClassFault.TheVariants.{Truncated, Trailing};
ghost use Rattle.mvm_layout.specs.declared.parts.Parts.{Parts};
ghost use Rattle.mvm_shape.specs.Lowest.{rank};
ghost use Rattle.mvm_classfile.specs.Reading.{Reads, ReadsMethod, HasFault, HasWrong, IsParts, fault_of};

/// What holds of all bytes.
pub fn reading_law()
    // No bytes read as two classes.
    ensures one { (text : List ℕ) (a b : Parts) → Reads text a → Reads text b → a ≡ b }
    // No bytes that read as a class have a fault.
    ensures never_both { (text : List ℕ) (parts : Parts) (fault : ClassFault) → Reads text parts → fault_of text ≡ Some fault → ⊥ }
    // All bytes read as a class or have a fault.
    ensures either { (text : List ℕ) → IsParts text ⊎ HasFault text }
    // Of what is wrong behind the constant pool the lowest place is told, and there Shape first.
    ensures lowest { (text : List ℕ) (fault other : ClassFault) → HasWrong text other → fault_of text ≡ Some fault → HasWrong text fault × (rank fault ≤ rank other) }
    // Every proper beginning of a class file is truncated.
    ensures cut { (text more : List ℕ) (parts : Parts) → Reads (text ++ more) parts → more ≢ [] → (place : ℕ) × (place ≤ length text) × (fault_of text ≡ Some (Truncated place)) }
    // What follows a class file is trailing, from its first byte on.
    ensures longer { (text more : List ℕ) (parts : Parts) → Reads text parts → more ≢ [] → fault_of (text ++ more) ≡ Some (Trailing (length text)) }
    // Each method is read from what stands in the file: its code is what the content of its one Code attribute spells, in its place.
    ensures methods { (text : List ℕ) (parts : Parts) (reads : Reads text parts) → AllZip (ReadsMethod parts.pool) reads.info.methods parts.methods }
{}
