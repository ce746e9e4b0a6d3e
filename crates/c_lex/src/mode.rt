//! Where the reading stands.

/// What stands before a place in its line: nothing, text, `#`, `# include`, or more of a preprocessor line.
#[derive(Clone, Copy, Debug, PartialEq, Eq)]
pub enum Line {
    Fresh,
    Text,
    Hash,
    Include,
    Directive,
}

/// Where the reading stands: between tokens, or in one that begins at a byte of the text. A string, a character constant
/// and a header name begin behind their first quote.
#[derive(Clone, Copy, Debug, PartialEq, Eq)]
pub enum Mode {
    Between(Line),
    InWord(Line, usize),
    InSign(Line, usize),
    InQuotes(Line, u8, usize),
    AfterBackslash(Line, u8, usize),
    InHeader(usize),
}
