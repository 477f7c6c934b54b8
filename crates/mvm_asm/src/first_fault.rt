//! Of the faults of a text the first: of the lowest line, and in that line of the lowest number.

ghost use Rattle.std.specs.Prelude.{◌≡◌, map};
ghost use Rattle.mvm_statement.specs.declared.fault.AsmKind.TheVariants.{Range};
ghost use Rattle.mvm_listing.specs.Assembly.{kind_number, is_before, earlier, earliest};

use mvm_statement::AsmKind;

/// The number of a kind of fault.
fn kind_number(kind: AsmKind) -> u8
    ensures { result ≡ kind_number kind }
{
    match kind {
        AsmKind::Word => 1,
        AsmKind::Operand => 2,
        AsmKind::Range => 3,
        AsmKind::Label => 4,
        AsmKind::Order => 5,
        AsmKind::Pool => 6,
    }
}

/// Whether the one is of the lower line, or in a line of the lower number.
fn is_before(one: (u32, AsmKind), other: (u32, AsmKind)) -> bool
    ensures { result ≡ is_before one other }
{
    one.0 < other.0 || (one.0 == other.0 && kind_number(one.1) < kind_number(other.1))
}

/// The first of two.
pub(crate) fn earlier(
    first: Option<(u32, AsmKind)>,
    other: (u32, AsmKind),
) -> Option<(u32, AsmKind)>
    ensures { result ≡ earlier first other }
{
    match first {
        Some(one) => {
            if is_before(one, other) {
                Some(one)
            } else {
                Some(other)
            }
        }
        None => Some(other),
    }
}

/// The first of a fault and of an offset or a place on each of these lines that does not fit.
pub(crate) fn earliest_unfit(first: Option<(u32, AsmKind)>, lines: &[u32]) -> Option<(u32, AsmKind)>
    ensures { result ≡ earliest first (map (λ line. (line, Range)) lines.now) }
{
    let mut least = first;
    for line in lines {
        least = earlier(least, (*line, AsmKind::Range));
    }
    least
}
