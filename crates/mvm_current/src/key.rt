/// The place of a method in the key of a frame that runs none: of the start of a thread, or of an initialisation. No class has so many.
pub const NO_METHOD: u16 = 65_535;
