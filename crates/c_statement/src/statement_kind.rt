//! What the first tokens of a statement say of it.
ghost use Rattle.std.specs.Prelude.{◌≡◌};
ghost use Rattle.c_statement.specs.Statements.{named_seen, place_seen, statement_seen};

use crate::seen::{sees_sign, sees_word};
use c_input::Input;

/// How a statement is read.
#[derive(Clone, Copy, Debug, PartialEq, Eq)]
pub enum StatementKind {
    Goto,
    Return,
    Element,
    Method,
    Table,
    Place,
    Assigned,
    Free,
    Call,
}

fn place_kind(input: &Input) -> StatementKind
    ensures { result ≡ place_seen input.now }
{
    if sees_word(input, b"const", 2) {
        return StatementKind::Method;
    }
    if sees_word(input, b"cyc_root", 3) {
        StatementKind::Table
    } else {
        StatementKind::Place
    }
}

fn named_kind(input: &Input) -> StatementKind
    ensures { result ≡ named_seen input.now }
{
    if sees_sign(input, b"=", 1) {
        return StatementKind::Assigned;
    }
    if sees_sign(input, b".", 1) {
        return StatementKind::Place;
    }
    if sees_sign(input, b")", 3) && sees_sign(input, b"->", 4) {
        StatementKind::Free
    } else {
        StatementKind::Call
    }
}

pub fn statement_kind(input: &Input) -> StatementKind
    ensures { result ≡ statement_seen input.now }
{
    if sees_word(input, b"goto", 0) {
        return StatementKind::Goto;
    }
    if sees_word(input, b"if", 0) {
        return StatementKind::Goto;
    }
    if sees_word(input, b"return", 0) {
        return StatementKind::Return;
    }
    if sees_sign(input, b"*", 0) {
        return StatementKind::Element;
    }
    if sees_sign(input, b"(", 0) {
        place_kind(input)
    } else {
        named_kind(input)
    }
}
