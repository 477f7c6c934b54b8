use mvm_base::List;

/// A token of a line, in units of UTF-16.
#[derive(Debug, Drop)]
pub(crate) enum Token {
    /// A word.
    Bare(List<u16>),
    /// A quoted text.
    Quoted(List<u16>),
    /// A quoted text that is ill-formed; it takes what is left of the line.
    Broken,
}

/// Where in a line its reading stands.
#[derive(Debug, Drop)]
pub(crate) enum Mode {
    /// Between tokens.
    Between,
    /// In a word, of which these units have been read.
    InWord(List<u16>),
    /// In a quoted text, of which these units have been read.
    InQuotes(List<u16>),
    /// Behind a backslash.
    Escaped(List<u16>),
    /// Behind `\u` and some digits: how many stand behind the next one, and what the digits so far come to.
    InUnit {
        more: u8,
        value: u16,
        units: List<u16>,
    },
    /// Behind the closing quote.
    Closed(List<u16>),
}

/// What the next character makes of it.
#[derive(Debug, Drop)]
pub(crate) enum Step {
    /// The reading goes on.
    Goes(Mode),
    /// A token ends here.
    Gives(Token),
    /// The line says no more, but for this token.
    Ends(Option<Token>),
}
