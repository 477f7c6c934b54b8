ghost use Rattle.std.specs.Prelude.{◌≡◌, ◌<◌, ◌≤◌, ℕ, List, length, Ok};
ghost use Rattle.mvm_insn.specs.Insns.{insn};
ghost use Rattle.mvm_insn.specs.Rows.{SwitchParts, KeysRise};
ghost use Rattle.mvm_insn.specs.declared.insn.At.{At};
ghost use Rattle.mvm_insn.specs.declared.insn.Insn.TheVariants.{Choice};

/// What holds of every instruction that stands in a method's code.
pub fn insn_law()
    // It takes a byte at least, and ends inside the code.
    ensures inside { (code : List ℕ) (pc : ℕ) (x : At) → insn code pc ≡ Ok x → (pc < x.next) × (x.next ≤ length code) }
    // The keys of a switch rise from row to row (JVM Specification 6.5, tableswitch and lookupswitch).
    ensures keys { (code : List ℕ) (pc op : ℕ) (rows : SwitchParts) (x : At) → insn code pc ≡ Ok x → x.insn ≡ Choice op rows → KeysRise rows.rows }
{}
