ghost use Rattle.std.specs.Prelude.{◌≡◌, ◌≢◌, [], ◌∷◌, ◌++◌, ◌<◌, ◌^◌, length, List, Option, ℕ, ℤ, pos, decimal, true, Decides, Some};
ghost use Rattle.std.specs.Fmt.{signed_decimal};
ghost use Rattle.mvm_base.specs.declared.value.Word.{Word};
ghost use Rattle.mvm_base.specs.declared.value.Word.TheVariants.{Ref};
ghost use Rattle.mvm_builtin.specs.declared.natives.Native.{Native};
ghost use Rattle.mvm_heap.specs.Heap.{object_at};
ghost use Rattle.mvm_native.specs.Builders.{append, array_of, built, init_builder, Holds, IsBuilder};
ghost use Rattle.mvm_native.specs.Calls.{called, Fits};
ghost use Rattle.mvm_native.specs.Integers.{is_int, parsed, PLUS};
ghost use Rattle.mvm_native.specs.Machine.{Machine};
ghost use Rattle.mvm_native.specs.Needs.{fits};
ghost use Rattle.mvm_native.specs.Throwables.{HasTwo};
ghost use Rattle.mvm_native.specs.Unclassed.{unclassed, Keeps};
ghost use Rattle.mvm_native.specs.declared.out.Out.TheVariants.{Value};

/// What holds of the texts of numbers.
pub fn native_law()
    // parseInt gives back the int whose decimal text it reads,
    ensures inverse { (value : ℤ) → is_int value ≡ true → parsed (signed_decimal value) ≡ Some value }
    // also where a plus sign stands before one that is not below 0.
    ensures plus { (value : ℕ) → value < 2 ^ 31 → parsed (PLUS ∷ decimal value) ≡ Some (pos value) }
{}

/// What holds of a StringBuilder, whatever array it has.
pub fn builder_law()
    // A new one has no units.
    ensures begun { (n : ℕ) (m new : Machine) (value : Option Word) → HasTwo m.heap.objects n → length m.heap.objects < 2 ^ 32 → init_builder n m ≡ (Value value, new) → Holds new.heap.objects n [] }
    // One that was appended to has the units that it had, and the others behind them.
    ensures appended { (n : ℕ) (units : List ℕ) (m new : Machine) (value : Option Word) → IsBuilder m.heap.objects n → length m.heap.objects < 2 ^ 32 → append n units m ≡ (Value value, new) → Holds new.heap.objects n (built m.heap.objects n ++ units) }
    // The other objects are as they were, but for its array.
    ensures others { (n k : ℕ) (units : List ℕ) (m new : Machine) (value : Option Word) → k < length m.heap.objects → k ≢ n → array_of m.heap.objects n ≢ Ref k → append n units m ≡ (Value value, new) → object_at new.heap.objects k ≡ object_at m.heap.objects k }
{}

/// What `fits` of `specs/Needs.antt` finds out.
pub fn fits_law()
    // It is true exactly where the arguments are what the method takes them for,
    ensures exact { (native : Native) (args : List Word) (m : Machine) → Decides (fits native args m) (Fits native args m) }
    // and it looks at no class number.
    ensures unclassed { (native : Native) (args : List Word) (m : Machine) → fits native args (unclassed m) ≡ fits native args m }
{}

/// What a native method has to do with class numbers.
pub fn unclassed_law()
    // It looks at none: where objects have none, it answers and does the same.
    ensures same { (native : Native) (args : List Word) (m : Machine) → called native args (unclassed m) ≡ ((called native args m).0, unclassed (called native args m).1) }
    // It leaves the old objects what they are; those that it makes are texts and arrays of chars of class number 0, and their monitors are free.
    ensures kept { (native : Native) (args : List Word) (m : Machine) → Keeps m (called native args m).1 }
{}
