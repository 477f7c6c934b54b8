ghost use Rattle.std.specs.Prelude.{◌≡◌, IfOk};

use mvm_base::{Base, FieldShape, OutOfMemory};

/// The same base again.
fn copy_base(base: &Base) -> Result<Base, OutOfMemory>
    ensures { IfOk result (λ copy. copy ≡ base.now) }
{
    match base {
        Base::Boolean => Ok(Base::Boolean),
        Base::Byte => Ok(Base::Byte),
        Base::Char => Ok(Base::Char),
        Base::Short => Ok(Base::Short),
        Base::Int => Ok(Base::Int),
        Base::Long => Ok(Base::Long),
        Base::Object(name) => Ok(Base::Object(name.copy()?)),
    }
}

/// The same shape again (JVM Specification 4.3.2).
///
/// # Errors
///
/// `OutOfMemory`.
pub fn copy_shape(shape: &FieldShape) -> Result<FieldShape, OutOfMemory>
    ensures { IfOk result (λ copy. copy ≡ shape.now) }
{
    let base = copy_base(&shape.base)?;
    Ok(FieldShape {
        dims: shape.dims,
        base,
    })
}
