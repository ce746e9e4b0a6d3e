use crate::{TokenClass, class_of};
use cy_base::{OutOfMemory, Text};
use pyx_lex::TokenKind;
use std::alloc::Global;
use std::process::Abort;
use std::test::Fail;

fn word(alloc: Global, text: &str) -> Result<TokenKind, OutOfMemory> {
    Ok(TokenKind::Word(Text::from_str(alloc, text)?))
}

fn sign(alloc: Global, text: &str) -> Result<TokenKind, OutOfMemory> {
    Ok(TokenKind::Sign(Text::from_str(alloc, text)?))
}

fn name(alloc: Global, text: &str) -> Result<TokenKind, OutOfMemory> {
    Ok(TokenKind::Name(Text::from_str(alloc, text)?))
}

// Tokens that differ in kind or in a letter, and their classes.
#[test]
fn tokens_have_their_classes(rt: HostRuntime) -> Result<(), Fail> {
    let alloc = rt.alloc();
    let table = [
        (word(alloc, "not")?, TokenClass::Not),
        (word(alloc, "nonlocal")?, TokenClass::Nonlocal),
        (name(alloc, "Not")?, TokenClass::Name),
        (name(alloc, "unsigned")?, TokenClass::Unsigned),
        (name(alloc, "int")?, TokenClass::IntWord),
        (name(alloc, "char")?, TokenClass::Char),
        (name(alloc, "ssize_t")?, TokenClass::Name),
        (sign(alloc, "<")?, TokenClass::Less),
        (sign(alloc, "<<")?, TokenClass::ShiftLeft),
        (sign(alloc, "<<=")?, TokenClass::ShiftLeftAssign),
        (sign(alloc, "]")?, TokenClass::CloseBracket),
        (sign(alloc, "?")?, TokenClass::QuestionMark),
        (sign(alloc, "!")?, TokenClass::Other),
        (word(alloc, "int")?, TokenClass::Other),
        (TokenKind::Int(0), TokenClass::Int),
        (
            TokenKind::Str(Text::from_str(alloc, "if")?),
            TokenClass::Str,
        ),
        (TokenKind::Newline, TokenClass::Newline),
        (TokenKind::Indent, TokenClass::Indent),
        (TokenKind::Dedent, TokenClass::Dedent),
        (TokenKind::End, TokenClass::End),
    ];
    for (kind, class) in &table {
        assert!(&rt; class_of(kind) == *class);
    }
    Ok(())
}
