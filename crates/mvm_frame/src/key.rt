/// What a frame runs, and the object whose monitor its call entered.
#[derive(Clone, Copy, Debug, PartialEq, Eq)]
pub struct FrameKey {
    /// The number of the class's mirror; 0 in a start frame.
    pub mirror: u32,
    /// The place of the method among its class's methods, or 65,535, which no class has, for a start frame or an
    /// initialisation frame.
    pub method: u16,
    /// The object whose monitor the call entered, if it entered one.
    pub lock: Option<u32>,
}
