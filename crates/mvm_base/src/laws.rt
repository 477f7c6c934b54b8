ghost use Rattle.std.specs.Prelude.{◌≡◌, ◌↔◌, ℕ, List, Err};
ghost use Rattle.mvm_base.specs.Descriptor.{field_of, method_of};
ghost use Rattle.mvm_base.specs.DescriptorFaults.{IsFieldText, IsMethodText, HasFault};

use crate::descriptor::DescFault;

/// What holds of all texts: the fault that a reader of descriptors tells is the one that the text has, seen beside
/// all descriptors (JVM Specification 4.3.2 and 4.3.3).
pub fn descriptor_law()
    // Field descriptors.
    ensures field { (text : List ℕ) (fault : DescFault) → (field_of text ≡ Err fault) ↔ HasFault IsFieldText text fault }
    // Method descriptors.
    ensures method { (text : List ℕ) (fault : DescFault) → (method_of text ≡ Err fault) ↔ HasFault IsMethodText text fault }
{}
