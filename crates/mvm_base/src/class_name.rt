ghost use Rattle.std.specs.Prelude.{◌≡◌};
ghost use Rattle.mvm_base.specs.ClassName.{is_name_unit, is_binary_name};

fn is_name_unit(unit: u16) -> bool
    ensures { result ≡ is_name_unit unit }
{
    unit != 0x2e && unit != 0x3b && unit != 0x5b
}

/// Whether these units are the name of a class as class files spell it (JVM Specification 4.2.1): parts with a
/// slash between each two, each of which has a unit at least, and none of `.`, `;` and `[`.
pub fn is_binary_name(name: &[u16]) -> bool
    ensures { result ≡ is_binary_name name.now }
{
    let mut is_open = true;
    for unit in name {
        if *unit == 0x2f {
            if is_open {
                return false;
            }
            is_open = true;
        } else {
            if !is_name_unit(*unit) {
                return false;
            }
            is_open = false;
        }
    }
    !is_open
}
