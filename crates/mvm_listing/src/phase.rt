/// Where in a text a line stands.
#[derive(Clone, Copy, Debug, PartialEq, Eq)]
pub enum Phase {
    /// Before all lines.
    Start,
    /// Behind the version or an entry of the constant pool.
    Pool,
    /// Behind the class or a superinterface.
    Class,
    /// Behind a field.
    Fields,
    /// Behind the head of a method, which may have a code.
    Method,
    /// Behind the code of a method.
    Methods,
    /// In the code of a method.
    Code,
}
