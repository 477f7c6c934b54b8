ghost use Rattle.std.specs.Prelude.{◌≡◌, ◌<◌, ◌+◌, ◌*◌, ◌^◌, length};
ghost use Rattle.mvm_base.specs.Answers.{AnswersUnless};
ghost use Rattle.mvm_layout.specs.declared.fault.ClassFault.TheVariants.{Shape};
ghost use Rattle.mvm_layout.specs.Pool.{entry, is_class};
ghost use Rattle.mvm_base.specs.Rules.{expect, each_from};
ghost use Rattle.mvm_shape.specs.Shape.{names_object, has_superclass, are_interfaces, header};

use crate::faults::shape_fault;
use mvm_base::List;
use mvm_layout::flags::is_interface;
use mvm_layout::pool::{is_class, is_class_named};
use mvm_layout::{ClassFault, ClassInfo, Item};

fn interface_fault(at: u32, n: usize) -> ClassFault
    requires { at + 8 + 2 * n < 2 ^ 32 }
    ensures { result ≡ Shape (at + 8 + 2 * n) }
{
    ClassFault::Shape(at + 8 + 2 * n as u32)
}

fn names_object(pool: &List<Item>, index: u16) -> bool
    ensures { result ≡ names_object pool.now index }
{
    is_class_named(pool, index, b"java/lang/Object")
}

#[tactic(auto, unfolding(crate::specs::Shape::has_superclass))]
fn has_superclass(info: &ClassInfo) -> bool
    ensures { result ≡ has_superclass info.now }
{
    let pool = &info.pool;
    (is_class(pool, info.super_class)
        || (info.super_class == 0 && names_object(pool, info.this_class)))
        && (!is_interface(info.flags) || names_object(pool, info.super_class))
}

#[tactic(auto, unfolding(crate::specs::Shape::are_interfaces))]
fn test_interfaces(info: &ClassInfo) -> Result<(), ClassFault>
    requires { info.now.at + 8 + 2 * length info.now.interfaces < 2 ^ 32 }
    ensures { result ≡ are_interfaces info.now }
{
    let indices = info.interfaces.as_slice();
    for i in 0..indices.len() {
        if !is_class(&info.pool, indices[i]) {
            return Err(interface_fault(info.at, i));
        }
    }
    Ok(())
}

/// The class itself, its superclass and its interfaces.
#[tactic(auto, unfolding(crate::specs::Shape::header))]
pub(crate) fn test_header(info: &ClassInfo) -> Result<(), ClassFault>
    requires { info.now.at + 8 + 2 * length info.now.interfaces < 2 ^ 32 }
    ensures { result ≡ header info.now }
{
    if !is_class(&info.pool, info.this_class) {
        return Err(shape_fault(info.at, 2));
    }
    if !has_superclass(info) {
        return Err(shape_fault(info.at, 4));
    }
    test_interfaces(info)
}
