ghost use Rattle.std.specs.Prelude.{◌≡◌};
ghost use Rattle.expr_grammar.specs.Words as expr_words;
ghost use Rattle.decl_grammar.specs.Words as words;
ghost use Rattle.decl_grammar.specs.Reading as reading;

use token_class::TokenClass;
use token_input::TokenSet;

/// The sets that the grammar of statements and declarations asks for. The project's own.
#[derive(Clone, Copy, Debug, PartialEq, Eq)]
pub enum StmtSet {
    Pass,
    Break,
    Continue,
    Return,
    Raise,
    Del,
    Global,
    Import,
    From,
    Cimport,
    Cdef,
    Cpdef,
    Class,
    Def,
    As,
    Elif,
    While,
    For,
    Try,
    Except,
    Finally,
    With,
    Nogil,
    Noexcept,
    Assign,
    Star,
    Minus,
    Semicolon,
    Newline,
    Indent,
    Dedent,
    Lock,
    Access,
    CWord,
    Augop,
    BeginsWord,
    BeginsCompound,
    BeginsSimple,
    BeginsStmt,
    BeginsChange,
    BeginsClause,
    BeginsType,
    Definite,
    GoesOn,
    BeginsPxdMember,
    BeginsMember,
    BeginsTop,
    BeginsItem,
    CimportOrFrom,
}

impl TokenSet for StmtSet {
    ghost use Rattle.pyx_stmt.specs.Has.{has, has-end};

    ghost classes = { has };

    fn has(self, class: TokenClass) -> bool {
        match self {
            StmtSet::Pass => matches!(class, TokenClass::Pass),
            StmtSet::Break => matches!(class, TokenClass::Break),
            StmtSet::Continue => matches!(class, TokenClass::Continue),
            StmtSet::Return => matches!(class, TokenClass::Return),
            StmtSet::Raise => matches!(class, TokenClass::Raise),
            StmtSet::Del => matches!(class, TokenClass::Del),
            StmtSet::Global => matches!(class, TokenClass::Global),
            StmtSet::Import => matches!(class, TokenClass::Import),
            StmtSet::From => matches!(class, TokenClass::From),
            StmtSet::Cimport => matches!(class, TokenClass::Cimport),
            StmtSet::Cdef => matches!(class, TokenClass::Cdef),
            StmtSet::Cpdef => matches!(class, TokenClass::Cpdef),
            StmtSet::Class => matches!(class, TokenClass::Class),
            StmtSet::Def => matches!(class, TokenClass::Def),
            StmtSet::As => matches!(class, TokenClass::As),
            StmtSet::Elif => matches!(class, TokenClass::Elif),
            StmtSet::While => matches!(class, TokenClass::While),
            StmtSet::For => matches!(class, TokenClass::For),
            StmtSet::Try => matches!(class, TokenClass::Try),
            StmtSet::Except => matches!(class, TokenClass::Except),
            StmtSet::Finally => matches!(class, TokenClass::Finally),
            StmtSet::With => matches!(class, TokenClass::With),
            StmtSet::Nogil => matches!(class, TokenClass::Nogil),
            StmtSet::Noexcept => matches!(class, TokenClass::Noexcept),
            StmtSet::Assign => matches!(class, TokenClass::Assign),
            StmtSet::Star => matches!(class, TokenClass::Star),
            StmtSet::Minus => matches!(class, TokenClass::Minus),
            StmtSet::Semicolon => matches!(class, TokenClass::Semicolon),
            StmtSet::Newline => matches!(class, TokenClass::Newline),
            StmtSet::Indent => matches!(class, TokenClass::Indent),
            StmtSet::Dedent => matches!(class, TokenClass::Dedent),
            StmtSet::Lock => matches!(class, TokenClass::Nogil | TokenClass::Gil),
            StmtSet::Access => matches!(class, TokenClass::Public | TokenClass::Readonly),
            StmtSet::CWord => matches!(class, TokenClass::Cdef | TokenClass::Cpdef),
            StmtSet::Augop => is_augop(class),
            StmtSet::BeginsWord => begins_word(class),
            StmtSet::BeginsCompound => begins_compound(class),
            StmtSet::BeginsSimple => begins_simple(class),
            StmtSet::BeginsStmt => begins_simple(class) || begins_compound(class),
            StmtSet::BeginsChange => is_augop(class) || matches!(class, TokenClass::Assign),
            StmtSet::BeginsClause => matches!(class, TokenClass::Except | TokenClass::Noexcept),
            StmtSet::BeginsType => begins_type(class),
            StmtSet::Definite => begins_type(class) && !matches!(class, TokenClass::Name),
            StmtSet::GoesOn => matches!(
                class,
                TokenClass::Dot | TokenClass::OpenBracket | TokenClass::Name
            ),
            StmtSet::BeginsPxdMember => begins_pxd_member(class),
            StmtSet::BeginsMember => begins_pxd_member(class)
                || matches!(class, TokenClass::Str | TokenClass::Def),
            StmtSet::BeginsTop => begins_simple(class)
                || begins_compound(class)
                || matches!(
                    class,
                    TokenClass::Cimport | TokenClass::Cpdef | TokenClass::Def
                ),
            StmtSet::BeginsItem => matches!(class, TokenClass::Cimport | TokenClass::From)
                || begins_pxd_member(class),
            StmtSet::CimportOrFrom => matches!(class, TokenClass::Cimport | TokenClass::From),
        }
    }

    ghost no_end = { has-end };
}

fn is_augop(class: TokenClass) -> bool
    ensures { result ≡ words.is_augop class }
{
    matches!(
        class,
        TokenClass::PlusAssign
            | TokenClass::MinusAssign
            | TokenClass::StarAssign
            | TokenClass::SlashAssign
            | TokenClass::FloorDivideAssign
            | TokenClass::PercentAssign
            | TokenClass::ShiftLeftAssign
            | TokenClass::ShiftRightAssign
            | TokenClass::AmpersandAssign
            | TokenClass::BarAssign
            | TokenClass::CaretAssign
    )
}

fn begins_word(class: TokenClass) -> bool
    ensures { result ≡ words.begins_word class }
{
    matches!(
        class,
        TokenClass::Pass
            | TokenClass::Break
            | TokenClass::Continue
            | TokenClass::Return
            | TokenClass::Raise
            | TokenClass::Del
            | TokenClass::Global
            | TokenClass::Import
    )
}

fn begins_compound(class: TokenClass) -> bool
    ensures { result ≡ words.begins_compound class }
{
    matches!(
        class,
        TokenClass::If | TokenClass::While | TokenClass::For | TokenClass::Try | TokenClass::With
    )
}

fn begins_type(class: TokenClass) -> bool
    ensures { result ≡ expr_words.begins_type class }
{
    matches!(
        class,
        TokenClass::Const
            | TokenClass::Name
            | TokenClass::Signed
            | TokenClass::Unsigned
            | TokenClass::Short
            | TokenClass::IntWord
            | TokenClass::Long
            | TokenClass::PySsizeT
            | TokenClass::SizeT
            | TokenClass::Bint
            | TokenClass::Void
    )
}

fn begins_pxd_member(class: TokenClass) -> bool
    ensures { result ≡ reading.begins_pxd_member class }
{
    matches!(
        class,
        TokenClass::Pass | TokenClass::Cdef | TokenClass::Cpdef
    )
}

fn begins_expr(class: TokenClass) -> bool
    ensures { result ≡ expr_words.begins_expr class }
{
    matches!(
        class,
        TokenClass::Name
            | TokenClass::Signed
            | TokenClass::Unsigned
            | TokenClass::Char
            | TokenClass::Short
            | TokenClass::IntWord
            | TokenClass::Long
            | TokenClass::PySsizeT
            | TokenClass::SizeT
            | TokenClass::Bint
            | TokenClass::Void
            | TokenClass::Int
            | TokenClass::Str
            | TokenClass::None
            | TokenClass::True
            | TokenClass::False
            | TokenClass::OpenParenthesis
            | TokenClass::OpenBracket
            | TokenClass::OpenBrace
            | TokenClass::Plus
            | TokenClass::Minus
            | TokenClass::Tilde
            | TokenClass::Less
            | TokenClass::Not
    )
}

fn begins_simple(class: TokenClass) -> bool
    ensures { result ≡ words.begins_simple class }
{
    begins_word(class) || matches!(class, TokenClass::From | TokenClass::Cdef) || begins_expr(class)
}
