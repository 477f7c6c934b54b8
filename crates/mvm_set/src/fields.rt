ghost use Rattle.std.specs.Prelude.{◌≡◌};
ghost use Rattle.mvm_set.specs.Fields.{field_found};

use crate::class::Class;
use crate::fault::LinkFault;
use crate::found::Found;
use mvm_base::Name;

/// The field of this name and descriptor (JVM Specification 5.4.3.2): the first that a class of the walk declares. Whether it may
/// be accessed is not looked at.
///
/// # Errors
///
/// `NoField` where no class of the walk declares it.
#[tactic(auto, unfolding(crate::specs::Fields::field_found, crate::specs::Fields::found_in))]
pub fn find_field(class: &Class, name: &Name, desc: &Name) -> Result<Found, LinkFault>
    ensures { result ≡ field_found class.now name.now desc.now }
{
    let walk = class.walk();
    for i in 0..walk.len() {
        match walk[i].get().field_at(name, desc) {
            Some(index) => {
                let holder = i as u32;
                return Ok(Found { holder, index });
            }
            None => {}
        }
    }
    Err(LinkFault::NoField)
}
