ghost use Rattle.std.specs.Prelude.{◌≡◌};
ghost use Rattle.token_class.specs.Classes as spec;

use pyx_lex::TokenKind;

/// The class of a token: each reserved word, each sign and each number word has one of its own (Python language
/// reference, section 2; Cython documentation, "Language Basics"). A number word is a NAME too.
#[derive(Clone, Copy, Debug, PartialEq, Eq)]
pub enum TokenClass {
    False,
    None,
    True,
    And,
    As,
    Assert,
    Async,
    Await,
    Break,
    Cdef,
    Cimport,
    Class,
    Const,
    Continue,
    Cpdef,
    Ctypedef,
    Def,
    Del,
    Elif,
    Else,
    Except,
    Finally,
    For,
    From,
    Gil,
    Global,
    If,
    Import,
    In,
    Include,
    Is,
    Lambda,
    Noexcept,
    Nogil,
    Nonlocal,
    Not,
    Or,
    Pass,
    Public,
    Raise,
    Readonly,
    Return,
    Try,
    While,
    With,
    Yield,
    ShiftLeftAssign,
    ShiftRightAssign,
    FloorDivideAssign,
    Equal,
    NotEqual,
    LessEqual,
    GreaterEqual,
    ShiftLeft,
    ShiftRight,
    FloorDivide,
    PlusAssign,
    MinusAssign,
    StarAssign,
    SlashAssign,
    PercentAssign,
    AmpersandAssign,
    BarAssign,
    CaretAssign,
    Plus,
    Minus,
    Star,
    Slash,
    Percent,
    Ampersand,
    Bar,
    Caret,
    Tilde,
    Less,
    Greater,
    Assign,
    OpenParenthesis,
    CloseParenthesis,
    OpenBracket,
    CloseBracket,
    OpenBrace,
    CloseBrace,
    Comma,
    Colon,
    Semicolon,
    Dot,
    QuestionMark,
    Signed,
    Unsigned,
    Char,
    Short,
    IntWord,
    Long,
    PySsizeT,
    SizeT,
    Bint,
    Void,
    Name,
    Int,
    Str,
    Newline,
    Indent,
    Dedent,
    End,
    /// a word or a sign that no token of a text has
    Other,
}

fn words_to_await(text: &[u8]) -> Option<TokenClass>
    ensures { result ≡ spec.class_among text.now spec.words_to_await }
{
    if text == b"False".as_slice() {
        return Some(TokenClass::False);
    }
    if text == b"None".as_slice() {
        return Some(TokenClass::None);
    }
    if text == b"True".as_slice() {
        return Some(TokenClass::True);
    }
    if text == b"and".as_slice() {
        return Some(TokenClass::And);
    }
    if text == b"as".as_slice() {
        return Some(TokenClass::As);
    }
    if text == b"assert".as_slice() {
        return Some(TokenClass::Assert);
    }
    if text == b"async".as_slice() {
        return Some(TokenClass::Async);
    }
    if text == b"await".as_slice() {
        return Some(TokenClass::Await);
    }
    None
}

fn words_to_ctypedef(text: &[u8]) -> Option<TokenClass>
    ensures { result ≡ spec.class_among text.now spec.words_to_ctypedef }
{
    if text == b"break".as_slice() {
        return Some(TokenClass::Break);
    }
    if text == b"cdef".as_slice() {
        return Some(TokenClass::Cdef);
    }
    if text == b"cimport".as_slice() {
        return Some(TokenClass::Cimport);
    }
    if text == b"class".as_slice() {
        return Some(TokenClass::Class);
    }
    if text == b"const".as_slice() {
        return Some(TokenClass::Const);
    }
    if text == b"continue".as_slice() {
        return Some(TokenClass::Continue);
    }
    if text == b"cpdef".as_slice() {
        return Some(TokenClass::Cpdef);
    }
    if text == b"ctypedef".as_slice() {
        return Some(TokenClass::Ctypedef);
    }
    None
}

fn words_to_from(text: &[u8]) -> Option<TokenClass>
    ensures { result ≡ spec.class_among text.now spec.words_to_from }
{
    if text == b"def".as_slice() {
        return Some(TokenClass::Def);
    }
    if text == b"del".as_slice() {
        return Some(TokenClass::Del);
    }
    if text == b"elif".as_slice() {
        return Some(TokenClass::Elif);
    }
    if text == b"else".as_slice() {
        return Some(TokenClass::Else);
    }
    if text == b"except".as_slice() {
        return Some(TokenClass::Except);
    }
    if text == b"finally".as_slice() {
        return Some(TokenClass::Finally);
    }
    if text == b"for".as_slice() {
        return Some(TokenClass::For);
    }
    if text == b"from".as_slice() {
        return Some(TokenClass::From);
    }
    None
}

fn words_to_lambda(text: &[u8]) -> Option<TokenClass>
    ensures { result ≡ spec.class_among text.now spec.words_to_lambda }
{
    if text == b"gil".as_slice() {
        return Some(TokenClass::Gil);
    }
    if text == b"global".as_slice() {
        return Some(TokenClass::Global);
    }
    if text == b"if".as_slice() {
        return Some(TokenClass::If);
    }
    if text == b"import".as_slice() {
        return Some(TokenClass::Import);
    }
    if text == b"in".as_slice() {
        return Some(TokenClass::In);
    }
    if text == b"include".as_slice() {
        return Some(TokenClass::Include);
    }
    if text == b"is".as_slice() {
        return Some(TokenClass::Is);
    }
    if text == b"lambda".as_slice() {
        return Some(TokenClass::Lambda);
    }
    None
}

fn words_to_raise(text: &[u8]) -> Option<TokenClass>
    ensures { result ≡ spec.class_among text.now spec.words_to_raise }
{
    if text == b"noexcept".as_slice() {
        return Some(TokenClass::Noexcept);
    }
    if text == b"nogil".as_slice() {
        return Some(TokenClass::Nogil);
    }
    if text == b"nonlocal".as_slice() {
        return Some(TokenClass::Nonlocal);
    }
    if text == b"not".as_slice() {
        return Some(TokenClass::Not);
    }
    if text == b"or".as_slice() {
        return Some(TokenClass::Or);
    }
    if text == b"pass".as_slice() {
        return Some(TokenClass::Pass);
    }
    if text == b"public".as_slice() {
        return Some(TokenClass::Public);
    }
    if text == b"raise".as_slice() {
        return Some(TokenClass::Raise);
    }
    None
}

fn words_to_yield(text: &[u8]) -> Option<TokenClass>
    ensures { result ≡ spec.class_among text.now spec.words_to_yield }
{
    if text == b"readonly".as_slice() {
        return Some(TokenClass::Readonly);
    }
    if text == b"return".as_slice() {
        return Some(TokenClass::Return);
    }
    if text == b"try".as_slice() {
        return Some(TokenClass::Try);
    }
    if text == b"while".as_slice() {
        return Some(TokenClass::While);
    }
    if text == b"with".as_slice() {
        return Some(TokenClass::With);
    }
    if text == b"yield".as_slice() {
        return Some(TokenClass::Yield);
    }
    None
}

fn signs_to_greater_equal(text: &[u8]) -> Option<TokenClass>
    ensures { result ≡ spec.class_among text.now spec.signs_to_greater_equal }
{
    if text == b"<<=".as_slice() {
        return Some(TokenClass::ShiftLeftAssign);
    }
    if text == b">>=".as_slice() {
        return Some(TokenClass::ShiftRightAssign);
    }
    if text == b"//=".as_slice() {
        return Some(TokenClass::FloorDivideAssign);
    }
    if text == b"==".as_slice() {
        return Some(TokenClass::Equal);
    }
    if text == b"!=".as_slice() {
        return Some(TokenClass::NotEqual);
    }
    if text == b"<=".as_slice() {
        return Some(TokenClass::LessEqual);
    }
    if text == b">=".as_slice() {
        return Some(TokenClass::GreaterEqual);
    }
    None
}

fn signs_to_slash_assign(text: &[u8]) -> Option<TokenClass>
    ensures { result ≡ spec.class_among text.now spec.signs_to_slash_assign }
{
    if text == b"<<".as_slice() {
        return Some(TokenClass::ShiftLeft);
    }
    if text == b">>".as_slice() {
        return Some(TokenClass::ShiftRight);
    }
    if text == b"//".as_slice() {
        return Some(TokenClass::FloorDivide);
    }
    if text == b"+=".as_slice() {
        return Some(TokenClass::PlusAssign);
    }
    if text == b"-=".as_slice() {
        return Some(TokenClass::MinusAssign);
    }
    if text == b"*=".as_slice() {
        return Some(TokenClass::StarAssign);
    }
    if text == b"/=".as_slice() {
        return Some(TokenClass::SlashAssign);
    }
    None
}

fn signs_to_star(text: &[u8]) -> Option<TokenClass>
    ensures { result ≡ spec.class_among text.now spec.signs_to_star }
{
    if text == b"%=".as_slice() {
        return Some(TokenClass::PercentAssign);
    }
    if text == b"&=".as_slice() {
        return Some(TokenClass::AmpersandAssign);
    }
    if text == b"|=".as_slice() {
        return Some(TokenClass::BarAssign);
    }
    if text == b"^=".as_slice() {
        return Some(TokenClass::CaretAssign);
    }
    if text == b"+".as_slice() {
        return Some(TokenClass::Plus);
    }
    if text == b"-".as_slice() {
        return Some(TokenClass::Minus);
    }
    if text == b"*".as_slice() {
        return Some(TokenClass::Star);
    }
    None
}

fn signs_to_less(text: &[u8]) -> Option<TokenClass>
    ensures { result ≡ spec.class_among text.now spec.signs_to_less }
{
    if text == b"/".as_slice() {
        return Some(TokenClass::Slash);
    }
    if text == b"%".as_slice() {
        return Some(TokenClass::Percent);
    }
    if text == b"&".as_slice() {
        return Some(TokenClass::Ampersand);
    }
    if text == b"|".as_slice() {
        return Some(TokenClass::Bar);
    }
    if text == b"^".as_slice() {
        return Some(TokenClass::Caret);
    }
    if text == b"~".as_slice() {
        return Some(TokenClass::Tilde);
    }
    if text == b"<".as_slice() {
        return Some(TokenClass::Less);
    }
    None
}

fn signs_to_open_brace(text: &[u8]) -> Option<TokenClass>
    ensures { result ≡ spec.class_among text.now spec.signs_to_open_brace }
{
    if text == b">".as_slice() {
        return Some(TokenClass::Greater);
    }
    if text == b"=".as_slice() {
        return Some(TokenClass::Assign);
    }
    if text == b"(".as_slice() {
        return Some(TokenClass::OpenParenthesis);
    }
    if text == b")".as_slice() {
        return Some(TokenClass::CloseParenthesis);
    }
    if text == b"[".as_slice() {
        return Some(TokenClass::OpenBracket);
    }
    if text == b"]".as_slice() {
        return Some(TokenClass::CloseBracket);
    }
    if text == b"{".as_slice() {
        return Some(TokenClass::OpenBrace);
    }
    None
}

fn signs_to_question_mark(text: &[u8]) -> Option<TokenClass>
    ensures { result ≡ spec.class_among text.now spec.signs_to_question_mark }
{
    if text == b"}".as_slice() {
        return Some(TokenClass::CloseBrace);
    }
    if text == b",".as_slice() {
        return Some(TokenClass::Comma);
    }
    if text == b":".as_slice() {
        return Some(TokenClass::Colon);
    }
    if text == b";".as_slice() {
        return Some(TokenClass::Semicolon);
    }
    if text == b".".as_slice() {
        return Some(TokenClass::Dot);
    }
    if text == b"?".as_slice() {
        return Some(TokenClass::QuestionMark);
    }
    None
}

fn number_words_to_int_word(text: &[u8]) -> Option<TokenClass>
    ensures { result ≡ spec.class_among text.now spec.number_words_to_int_word }
{
    if text == b"signed".as_slice() {
        return Some(TokenClass::Signed);
    }
    if text == b"unsigned".as_slice() {
        return Some(TokenClass::Unsigned);
    }
    if text == b"char".as_slice() {
        return Some(TokenClass::Char);
    }
    if text == b"short".as_slice() {
        return Some(TokenClass::Short);
    }
    if text == b"int".as_slice() {
        return Some(TokenClass::IntWord);
    }
    None
}

fn number_words_to_void(text: &[u8]) -> Option<TokenClass>
    ensures { result ≡ spec.class_among text.now spec.number_words_to_void }
{
    if text == b"long".as_slice() {
        return Some(TokenClass::Long);
    }
    if text == b"Py_ssize_t".as_slice() {
        return Some(TokenClass::PySsizeT);
    }
    if text == b"size_t".as_slice() {
        return Some(TokenClass::SizeT);
    }
    if text == b"bint".as_slice() {
        return Some(TokenClass::Bint);
    }
    if text == b"void".as_slice() {
        return Some(TokenClass::Void);
    }
    None
}

#[tactic(auto, unfolding(crate::specs::Classes::word_class))]
fn word_class(text: &[u8]) -> TokenClass
    ensures { result ≡ spec.word_class text.now }
{
    if let Some(class) = words_to_await(text) {
        return class;
    }
    if let Some(class) = words_to_ctypedef(text) {
        return class;
    }
    if let Some(class) = words_to_from(text) {
        return class;
    }
    if let Some(class) = words_to_lambda(text) {
        return class;
    }
    if let Some(class) = words_to_raise(text) {
        return class;
    }
    if let Some(class) = words_to_yield(text) {
        return class;
    }
    TokenClass::Other
}

#[tactic(auto, unfolding(crate::specs::Classes::sign_class))]
fn sign_class(text: &[u8]) -> TokenClass
    ensures { result ≡ spec.sign_class text.now }
{
    if let Some(class) = signs_to_greater_equal(text) {
        return class;
    }
    if let Some(class) = signs_to_slash_assign(text) {
        return class;
    }
    if let Some(class) = signs_to_star(text) {
        return class;
    }
    if let Some(class) = signs_to_less(text) {
        return class;
    }
    if let Some(class) = signs_to_open_brace(text) {
        return class;
    }
    if let Some(class) = signs_to_question_mark(text) {
        return class;
    }
    TokenClass::Other
}

#[tactic(auto, unfolding(crate::specs::Classes::name_class))]
fn name_class(text: &[u8]) -> TokenClass
    ensures { result ≡ spec.name_class text.now }
{
    if let Some(class) = number_words_to_int_word(text) {
        return class;
    }
    if let Some(class) = number_words_to_void(text) {
        return class;
    }
    TokenClass::Name
}

/// The class of a token of this kind. It takes no memory.
pub fn class_of(kind: &TokenKind) -> TokenClass
    ensures { result ≡ spec.class_of kind.now }
{
    match kind {
        TokenKind::Name(text) => name_class(text.bytes()),
        TokenKind::Word(text) => word_class(text.bytes()),
        TokenKind::Sign(text) => sign_class(text.bytes()),
        TokenKind::Int(_) => TokenClass::Int,
        TokenKind::Str(_) => TokenClass::Str,
        TokenKind::Newline => TokenClass::Newline,
        TokenKind::Indent => TokenClass::Indent,
        TokenKind::Dedent => TokenClass::Dedent,
        TokenKind::End => TokenClass::End,
    }
}
