//! Where lines may stand.

ghost use Rattle.std.specs.Prelude.{◌≡◌};
ghost use Rattle.mvm_listing.specs.Order.{next, is_whole};

use crate::phase::Phase;
use mvm_statement::Statement;

/// Where a line leads to, if it may stand behind the lines before it.
pub fn next(phase: Phase, line: &Statement) -> Option<Phase>
    ensures { result ≡ next phase line.now }
{
    match (phase, line) {
        (Phase::Start, Statement::Version { .. }) => Some(Phase::Pool),
        (Phase::Start | Phase::Pool, Statement::Entry { .. }) => Some(Phase::Pool),
        (Phase::Start | Phase::Pool, Statement::Class { .. }) => Some(Phase::Class),
        (Phase::Class, Statement::Implements { .. }) => Some(Phase::Class),
        (Phase::Class | Phase::Fields, Statement::Field { .. }) => Some(Phase::Fields),
        (Phase::Class | Phase::Fields | Phase::Method | Phase::Methods, Statement::Method { .. }) =>
            Some(Phase::Method),
        (Phase::Method, Statement::Code { .. }) => Some(Phase::Code),
        (
            Phase::Code,
            Statement::Label { .. }
            | Statement::Instruction { .. }
            | Statement::Byte { .. }
            | Statement::Catch { .. },
        ) => Some(Phase::Code),
        (Phase::Code, Statement::End) => Some(Phase::Methods),
        _ => None,
    }
}

/// Whether a text may end here.
pub fn is_whole(phase: Phase) -> bool
    ensures { result ≡ is_whole phase }
{
    matches!(
        phase,
        Phase::Class | Phase::Fields | Phase::Method | Phase::Methods
    )
}
