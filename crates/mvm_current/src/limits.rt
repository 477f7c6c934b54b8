/// How many words the local variables and operands of all frames of a thread may have room for.
pub const MOST_FRAME_WORDS: u32 = 8_192;
