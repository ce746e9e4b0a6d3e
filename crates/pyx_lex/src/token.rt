use cy_base::{Span, Text};
use sqlite_items::Items;

/// The tokens of a file, in order. The last one is `End`.
#[derive(Debug, Drop)]
pub struct Tokens {
    pub list: Items<Token>,
}

/// A token, and the bytes that spell it; `Indent`, `Dedent` and `End` have none.
#[derive(Debug, Drop)]
pub struct Token {
    pub kind: TokenKind,
    pub span: Span,
}

/// The kinds of tokens (Python language reference, section 2). A `Word` is a reserved word, a `Sign` an operator or a
/// delimiter, and a `Str` has the text that its spelling stands for.
#[derive(Debug, Drop)]
pub enum TokenKind {
    Name(Text),
    Word(Text),
    Int(u128),
    Str(Text),
    Sign(Text),
    Newline,
    Indent,
    Dedent,
    End,
}
