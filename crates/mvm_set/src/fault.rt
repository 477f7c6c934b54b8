/// Why a name is not resolved, or no method is selected (JVM Specification 5.4.3, 5.4.4, 6.5).
#[derive(Clone, Copy, Debug, PartialEq, Eq)]
pub enum LinkFault {
    /// There is no field of that name and descriptor (5.4.3.2).
    NoField,
    /// There is no method of that name and descriptor (5.4.3.3, 5.4.3.4).
    NoMethod,
    /// It is there, and access to it is not allowed (5.4.4).
    Access,
    /// A class stands where an interface should, or an interface where a class should, or several methods are as specific.
    Change,
    /// No method with code is selected.
    Abstract,
}
