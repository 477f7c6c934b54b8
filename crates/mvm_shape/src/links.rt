ghost use Rattle.std.specs.Prelude.{◌≡◌, ◌<◌, ◌+◌, ◌&&◌, length};
ghost use Rattle.mvm_layout.specs.Pool.{entry, is_class, is_name_and_type};
ghost use Rattle.mvm_layout.specs.declared.fault.ClassFault.TheVariants.{Pool};
ghost use Rattle.mvm_shape.specs.Links.{is_linked};
ghost use Rattle.mvm_shape.specs.Shape.{linked};

use mvm_base::List;
use mvm_layout::pool::{is_class, is_name_and_type, is_utf8};
use mvm_layout::{ClassFault, Item};

fn is_member(pool: &List<Item>, class: u16, member: u16) -> bool
    ensures { result ≡ (is_class (entry pool.now class) && is_name_and_type (entry pool.now member)) }
{
    is_class(pool, class) && is_name_and_type(pool, member)
}

/// Whether each index in an entry names an entry of the kind that it should.
fn is_linked(pool: &List<Item>, item: &Item) -> bool
    ensures { result ≡ is_linked pool.now item.now }
{
    match item {
        Item::Class(name) => is_utf8(pool, *name),
        Item::Str(text) => is_utf8(pool, *text),
        Item::MethodType(descriptor) => is_utf8(pool, *descriptor),
        Item::Fieldref(class, member) => is_member(pool, *class, *member),
        Item::Methodref(class, member) => is_member(pool, *class, *member),
        Item::InterfaceMethodref(class, member) => is_member(pool, *class, *member),
        Item::NameAndType(name, descriptor) => is_utf8(pool, *name) && is_utf8(pool, *descriptor),
        Item::InvokeDynamic(_, member) => is_name_and_type(pool, *member),
        Item::Utf8(_) => true,
        Item::Integer(_) => true,
        Item::Float(_) => true,
        Item::Long(_) => true,
        Item::Double(_) => true,
        Item::Upper => true,
        Item::MethodHandle(_, _) => true,
    }
}

fn pool_fault(n: usize) -> ClassFault
    requires { n < 65535 }
    ensures { result ≡ Pool (n + 1) }
{
    ClassFault::Pool(n as u16 + 1)
}

/// Whether each entry of the constant pool names entries of the kind that it should. The fault is of the lowest.
#[tactic(auto, unfolding(crate::specs::Shape::linked))]
pub(crate) fn test_links(pool: &List<Item>) -> Result<(), ClassFault>
    requires { length pool.now < 65535 }
    ensures { result ≡ linked pool.now }
{
    let items = pool.as_slice();
    for i in 0..items.len() {
        if !is_linked(pool, &items[i]) {
            return Err(pool_fault(i));
        }
    }
    Ok(())
}
