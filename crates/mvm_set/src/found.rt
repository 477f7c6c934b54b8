use crate::class::Class;
use crate::shared::Shared;

/// Where a member was found.
#[derive(Clone, Copy, Debug, PartialEq, Eq)]
pub struct Found {
    /// The place, from 0, in the walk of the class in which was looked, of the file that declares the member.
    pub holder: u32,
    /// The place, from 0, of the member in that file's list of fields or of methods.
    pub index: u16,
}

/// A resolved method (JVM Specification 5.4.3.3, 5.4.3.4).
#[derive(Debug, Drop)]
pub struct MethodAt {
    /// The class in which it was resolved.
    pub class: Shared<Class>,
    /// Where it was found there.
    pub found: Found,
}
