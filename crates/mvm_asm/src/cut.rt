//! A text is cut behind its first line.

ghost use Rattle.std.specs.Prelude.{◌≡◌, ◌+◌, ◌≤◌, ◌∷◌, max, length};
ghost use Rattle.std.specs.Option.{option_copied};
ghost use Rattle.mvm_listing.specs.Assembly.{lines_of};
ghost use Rattle.mvm_asm.specs.Cutting.{line_length, lines_behind, room};

/// How many bytes stand before the first line feed.
fn line_length(text: &[u8]) -> usize
    ensures value { result ≡ line_length text.now }
    ensures within { result ≤ length text.now }
{
    for (i, byte) in text.iter().enumerate() {
        if *byte == b'\n' {
            return i;
        }
    }
    text.len()
}

/// The first line of a text, without its end, and what follows it, where more than its end does.
pub(crate) fn cut(text: &[u8]) -> (&[u8], Option<&[u8]>)
    ensures lines { lines_of text.now ≡ result.0.now ∷ lines_behind (option_copied result.1) }
    ensures shorter { room (option_copied result.1) + 1 ≤ max (length text.now) 1 }
{
    let end = line_length(text);
    let line = &text[..end];
    if text.len() - end > 1 {
        (line, Some(&text[end + 1..]))
    } else {
        (line, None)
    }
}
