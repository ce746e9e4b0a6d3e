ghost use Rattle.std.specs.Prelude.{◌≡◌};
ghost use Rattle.expr_grammar.specs.Words as words;

use crate::set::TokenSet;
use token_class::TokenClass;

/// The sets that the grammar of expressions asks for. The project's own.
#[derive(Clone, Copy, Debug, PartialEq, Eq)]
pub enum ExprSet {
    Name,
    PlainName,
    Int,
    Str,
    None,
    True,
    False,
    If,
    Else,
    Or,
    And,
    Not,
    Is,
    In,
    Const,
    Dot,
    Comma,
    Colon,
    QuestionMark,
    Less,
    Greater,
    OpenParenthesis,
    CloseParenthesis,
    OpenBracket,
    CloseBracket,
    OpenBrace,
    CloseBrace,
    Bar,
    Caret,
    Ampersand,
    Shift,
    Sum,
    Term,
    Prefix,
    Order,
    Signed,
    Unsigned,
    Char,
    Short,
    IntWord,
    Long,
    Lone,
    BeginsExpr,
    BeginsNumber,
    BeginsCop,
    BeginsIndex,
    Trails,
    Opens,
}

impl TokenSet for ExprSet {
    ghost use Rattle.token_input.specs.Has.{has, has-end};

    ghost classes = { has };

    fn has(self, class: TokenClass) -> bool {
        match self {
            ExprSet::Name => is_name(class),
            ExprSet::PlainName => matches!(class, TokenClass::Name),
            ExprSet::Int => matches!(class, TokenClass::Int),
            ExprSet::Str => matches!(class, TokenClass::Str),
            ExprSet::None => matches!(class, TokenClass::None),
            ExprSet::True => matches!(class, TokenClass::True),
            ExprSet::False => matches!(class, TokenClass::False),
            ExprSet::If => matches!(class, TokenClass::If),
            ExprSet::Else => matches!(class, TokenClass::Else),
            ExprSet::Or => matches!(class, TokenClass::Or),
            ExprSet::And => matches!(class, TokenClass::And),
            ExprSet::Not => matches!(class, TokenClass::Not),
            ExprSet::Is => matches!(class, TokenClass::Is),
            ExprSet::In => matches!(class, TokenClass::In),
            ExprSet::Const => matches!(class, TokenClass::Const),
            ExprSet::Dot => matches!(class, TokenClass::Dot),
            ExprSet::Comma => matches!(class, TokenClass::Comma),
            ExprSet::Colon => matches!(class, TokenClass::Colon),
            ExprSet::QuestionMark => matches!(class, TokenClass::QuestionMark),
            ExprSet::Less => matches!(class, TokenClass::Less),
            ExprSet::Greater => matches!(class, TokenClass::Greater),
            ExprSet::OpenParenthesis => matches!(class, TokenClass::OpenParenthesis),
            ExprSet::CloseParenthesis => matches!(class, TokenClass::CloseParenthesis),
            ExprSet::OpenBracket => matches!(class, TokenClass::OpenBracket),
            ExprSet::CloseBracket => matches!(class, TokenClass::CloseBracket),
            ExprSet::OpenBrace => matches!(class, TokenClass::OpenBrace),
            ExprSet::CloseBrace => matches!(class, TokenClass::CloseBrace),
            ExprSet::Bar => matches!(class, TokenClass::Bar),
            ExprSet::Caret => matches!(class, TokenClass::Caret),
            ExprSet::Ampersand => matches!(class, TokenClass::Ampersand),
            ExprSet::Shift => matches!(class, TokenClass::ShiftLeft | TokenClass::ShiftRight),
            ExprSet::Sum => matches!(class, TokenClass::Plus | TokenClass::Minus),
            ExprSet::Term => is_term(class),
            ExprSet::Prefix => matches!(
                class,
                TokenClass::Plus | TokenClass::Minus | TokenClass::Tilde
            ),
            ExprSet::Order => is_order(class),
            ExprSet::Signed => matches!(class, TokenClass::Signed),
            ExprSet::Unsigned => matches!(class, TokenClass::Unsigned),
            ExprSet::Char => matches!(class, TokenClass::Char),
            ExprSet::Short => matches!(class, TokenClass::Short),
            ExprSet::IntWord => matches!(class, TokenClass::IntWord),
            ExprSet::Long => matches!(class, TokenClass::Long),
            ExprSet::Lone => is_lone(class),
            ExprSet::BeginsExpr => begins_expr(class),
            ExprSet::BeginsNumber => begins_number(class),
            ExprSet::BeginsCop => begins_cop(class),
            ExprSet::BeginsIndex => begins_index(class),
            ExprSet::Trails => matches!(
                class,
                TokenClass::Dot | TokenClass::OpenParenthesis | TokenClass::OpenBracket
            ),
            ExprSet::Opens => opens(class),
        }
    }

    ghost no_end = { has-end };
}

fn is_name(class: TokenClass) -> bool
    ensures { result ≡ words.is_name class }
{
    matches!(
        class,
        TokenClass::Name
            | TokenClass::Signed
            | TokenClass::Unsigned
            | TokenClass::Char
            | TokenClass::Short
            | TokenClass::IntWord
            | TokenClass::Long
            | TokenClass::PySsizeT
            | TokenClass::SizeT
            | TokenClass::Bint
            | TokenClass::Void
    )
}

fn is_term(class: TokenClass) -> bool
    ensures { result ≡ words.is_term class }
{
    matches!(
        class,
        TokenClass::Star | TokenClass::Slash | TokenClass::FloorDivide | TokenClass::Percent
    )
}

fn is_order(class: TokenClass) -> bool
    ensures { result ≡ words.is_order class }
{
    matches!(
        class,
        TokenClass::Less
            | TokenClass::LessEqual
            | TokenClass::Equal
            | TokenClass::NotEqual
            | TokenClass::Greater
            | TokenClass::GreaterEqual
    )
}

fn is_lone(class: TokenClass) -> bool
    ensures { result ≡ words.is_lone class }
{
    matches!(
        class,
        TokenClass::PySsizeT | TokenClass::SizeT | TokenClass::Bint | TokenClass::Void
    )
}

fn begins_expr(class: TokenClass) -> bool
    ensures { result ≡ words.begins_expr class }
{
    matches!(
        class,
        TokenClass::Name
            | TokenClass::Signed
            | TokenClass::Unsigned
            | TokenClass::Char
            | TokenClass::Short
            | TokenClass::IntWord
            | TokenClass::Long
            | TokenClass::PySsizeT
            | TokenClass::SizeT
            | TokenClass::Bint
            | TokenClass::Void
            | TokenClass::Int
            | TokenClass::Str
            | TokenClass::None
            | TokenClass::True
            | TokenClass::False
            | TokenClass::OpenParenthesis
            | TokenClass::OpenBracket
            | TokenClass::OpenBrace
            | TokenClass::Plus
            | TokenClass::Minus
            | TokenClass::Tilde
            | TokenClass::Less
            | TokenClass::Not
    )
}

fn begins_number(class: TokenClass) -> bool
    ensures { result ≡ words.begins_number class }
{
    matches!(
        class,
        TokenClass::Signed
            | TokenClass::Unsigned
            | TokenClass::Short
            | TokenClass::IntWord
            | TokenClass::Long
            | TokenClass::PySsizeT
            | TokenClass::SizeT
            | TokenClass::Bint
            | TokenClass::Void
    )
}

fn begins_cop(class: TokenClass) -> bool
    ensures { result ≡ words.begins_cop class }
{
    matches!(
        class,
        TokenClass::Less
            | TokenClass::LessEqual
            | TokenClass::Equal
            | TokenClass::NotEqual
            | TokenClass::Greater
            | TokenClass::GreaterEqual
            | TokenClass::Is
            | TokenClass::In
            | TokenClass::Not
    )
}

fn begins_index(class: TokenClass) -> bool
    ensures { result ≡ words.begins_index class }
{
    matches!(
        class,
        TokenClass::Name
            | TokenClass::Signed
            | TokenClass::Unsigned
            | TokenClass::Char
            | TokenClass::Short
            | TokenClass::IntWord
            | TokenClass::Long
            | TokenClass::PySsizeT
            | TokenClass::SizeT
            | TokenClass::Bint
            | TokenClass::Void
            | TokenClass::Int
            | TokenClass::Str
            | TokenClass::None
            | TokenClass::True
            | TokenClass::False
            | TokenClass::OpenParenthesis
            | TokenClass::OpenBracket
            | TokenClass::OpenBrace
            | TokenClass::Plus
            | TokenClass::Minus
            | TokenClass::Tilde
            | TokenClass::Less
            | TokenClass::Not
            | TokenClass::Colon
    )
}

fn opens(class: TokenClass) -> bool
    ensures { result ≡ words.opens class }
{
    matches!(
        class,
        TokenClass::OpenParenthesis
            | TokenClass::OpenBracket
            | TokenClass::OpenBrace
            | TokenClass::Plus
            | TokenClass::Minus
            | TokenClass::Tilde
            | TokenClass::Less
            | TokenClass::Not
    )
}
