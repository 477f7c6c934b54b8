use crate::refusal::Refusal;

/// What the words of the command line ask for.
#[derive(Clone, Copy, Debug, PartialEq, Eq)]
pub enum Wish {
    /// To tell of each class.
    All,
    /// To tell of the first class alone.
    First,
    /// To tell nothing, and to ask so many times for the first class.
    Times(u32),
}

/// What the words ask for, and the names behind that.
///
/// # Errors
///
/// `Usage` where no number of 32 bits stands behind `--times`.
pub(crate) fn wish_of(words: &[String]) -> Result<(Wish, &[String]), Refusal> {
    match words.first() {
        Some(word) if word.as_str() == "--first" => Ok((Wish::First, &words[1..])),
        Some(word) if word.as_str() == "--times" => match words.get(1) {
            Some(times) => match times.parse::<u32>() {
                Ok(times) => Ok((Wish::Times(times), &words[2..])),
                Err(_) => Err(Refusal::Usage),
            },
            None => Err(Refusal::Usage),
        },
        _ => Ok((Wish::All, words)),
    }
}
