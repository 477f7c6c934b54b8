//! What holds of static fields, of classes by number and of shapes, over the definitions alone.

ghost use Rattle.std.specs.Prelude.{◌≡◌, ◌<◌, ◌↔◌, ℕ, List, length, slice_get, take, true, Some};
ghost use Rattle.mvm_base.specs.declared.descriptor.FieldShape.{FieldShape as ShapeOf};
ghost use Rattle.mvm_layout.specs.Flags.{is_static};
ghost use Rattle.mvm_layout.specs.declared.parts.Member.{Member as MemberOf};
ghost use Rattle.mvm_layout.specs.declared.parts.Parts.{Parts as PartsOf};
ghost use Rattle.mvm_set.specs.FieldPlaces.{count_of, fields_before};
ghost use Rattle.mvm_set.specs.Members.{field_at};
ghost use Rattle.mvm_set.specs.declared.class.Lineage.{Lineage as LineageOf};
ghost use Rattle.mvm_mirror.specs.Arrays.{number_of as array_number, shapes_of, with_array};
ghost use Rattle.mvm_mirror.specs.Seen.{number_of, with_class};
ghost use Rattle.mvm_mirror.specs.Shapes.{is_shape};
ghost use Rattle.mvm_mirror.specs.Statics.{slot_of, statics_of};
ghost use Rattle.mvm_mirror.specs.declared.arrays.ArrayRow.{ArrayRow as RowOf};

/// The slot of a static field is how many static fields stand before it in the file (JVM Specification 4.5).
pub fn slot_law()
    // The first field of a name and descriptor, where it is static, has this slot.
    ensures place { (name desc : List ℕ) (file : PartsOf) (index : ℕ) (field : MemberOf) → field_at name desc file ≡ Some index → slice_get file.fields index ≡ Some field → is_static field.flags ≡ true → slot_of name desc file ≡ Some (count_of true (take index file.fields)) }
    // The same, where the fields of its sort before it are counted.
    ensures counted { (name desc : List ℕ) (file : PartsOf) (index slot : ℕ) (field : MemberOf) → field_at name desc file ≡ Some index → slice_get file.fields index ≡ Some field → is_static field.flags ≡ true → fields_before file.fields index ≡ Some slot → slot_of name desc file ≡ Some slot }
    // A slot is below the number of static fields.
    ensures within { (name desc : List ℕ) (file : PartsOf) (slot : ℕ) → slot_of name desc file ≡ Some slot → slot < length (statics_of file) }
{}

/// Two shapes are one by the test exactly where they are one (JVM Specification 4.3.2).
pub fn shape_law()
    ensures { (one other : ShapeOf) → (is_shape one other ≡ true) ↔ (one ≡ other) }
{}

/// A number stays that of its class, and of its array class, when others are added.
pub fn number_law()
    ensures class { (class other : LineageOf) (classes : List LineageOf) (number : ℕ) → slice_get classes number ≡ Some other → slice_get (with_class class classes) number ≡ Some other }
    ensures name { (class : LineageOf) (classes : List LineageOf) (name : List ℕ) (number : ℕ) → number_of name classes ≡ Some number → number_of name (with_class class classes) ≡ Some number }
    ensures shape { (shape other : ShapeOf) (rows : List RowOf) (number : ℕ) → slice_get (shapes_of rows) number ≡ Some other → slice_get (shapes_of (with_array shape rows)) number ≡ Some other }
    ensures array { (shape other : ShapeOf) (rows : List RowOf) (number : ℕ) → array_number other rows ≡ Some number → array_number other (with_array shape rows) ≡ Some number }
{}
