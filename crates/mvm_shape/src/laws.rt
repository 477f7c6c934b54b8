ghost use Rattle.std.specs.Prelude.{◌≡◌, ◌≤◌, ℕ, List, Ok, Err};
ghost use Rattle.mvm_layout.specs.Format.{Format};
ghost use Rattle.mvm_layout.specs.Layout.{layout};
ghost use Rattle.mvm_layout.specs.declared.fault.ClassFault.{ClassFault};
ghost use Rattle.mvm_layout.specs.declared.info.ClassInfo.{ClassInfo};
ghost use Rattle.mvm_shape.specs.Lowest.{rank, IsWrong};
ghost use Rattle.mvm_shape.specs.Shape.{rules};

/// What holds of all class files that are laid out: of all that is wrong behind the constant pool the lowest place is told,
/// and there Shape before Unsupported.
pub fn shape_law()
    // The fault that is told is one that the file has.
    ensures told { (text : List ℕ) (info : ClassInfo) (fault : ClassFault) → layout.spells info 0 text → rules info ≡ Err fault → IsWrong info fault }
    // No fault that the file has is lower than the one that is told.
    ensures lowest { (text : List ℕ) (info : ClassInfo) (fault other : ClassFault) → layout.spells info 0 text → rules info ≡ Err fault → IsWrong info other → rank fault ≤ rank other }
    // Where no fault is told the file has none.
    ensures none { (text : List ℕ) (info : ClassInfo) (fault : ClassFault) → layout.spells info 0 text → rules info ≡ Ok tt → IsWrong info fault → ⊥ }
{}
