use mvm_base::Kind;
use mvm_heap::ItemKind;

/// What an instruction does that reaches beyond its frame (JVM Specification 6.5).
#[derive(Clone, Copy, Debug, PartialEq, Eq)]
pub enum Action {
    /// `iaload` to `saload`: an item of an array of these is pushed.
    LoadItem(ItemKind),
    /// `iastore` to `sastore`: a value is popped into an item of an array of these.
    StoreItem(ItemKind),
    /// `arraylength`.
    ArrayLength,
    /// `athrow`.
    Throw,
    /// `monitorenter`.
    EnterMonitor,
    /// `monitorexit`.
    ExitMonitor,
    /// `ireturn`, `lreturn`, `areturn`: a value of this kind is returned.
    Return(Kind),
    /// `return`.
    ReturnNothing,
    /// `ldc`, `ldc_w`, `ldc2_w`.
    Constant,
    /// `getstatic`.
    GetStatic,
    /// `putstatic`.
    PutStatic,
    /// `getfield`.
    GetField,
    /// `putfield`.
    PutField,
    /// `invokevirtual`.
    InvokeVirtual,
    /// `invokespecial`.
    InvokeSpecial,
    /// `invokestatic`.
    InvokeStatic,
    /// `new`.
    New,
    /// `anewarray`.
    NewReferences,
    /// `checkcast`.
    CheckCast,
    /// `instanceof`.
    InstanceOf,
    /// It is done elsewhere, or there is no such instruction.
    Absent,
}
