//! What the first tokens say of what stands behind `x =`.
ghost use Rattle.std.specs.Prelude.{◌≡◌};
ghost use Rattle.c_statement.specs.Sources.{bracket_seen, call_seen, source_seen};

use crate::seen::{sees_sign, sees_word};
use c_input::Input;

/// How what stands behind `x =` is read.
#[derive(Clone, Copy, Debug, PartialEq, Eq)]
pub enum SourceKind {
    Operand,
    Invert,
    Cast,
    Call,
    Place,
    Method,
    Native,
    HeapType,
    Buffer,
    Format,
    Element,
}

fn bracket_kind(input: &Input) -> SourceKind
    ensures { result ≡ bracket_seen input.now }
{
    if sees_sign(input, b"(", 1) {
        return if sees_word(input, b"const", 2) {
            SourceKind::Method
        } else {
            SourceKind::Place
        };
    }
    if sees_sign(input, b"-", 1) {
        return SourceKind::Operand;
    }
    // A class as an object is an operand, and the module's definition is cast.
    if sees_word(input, b"PyObject", 1)
        && sees_sign(input, b"&", 4)
        && !sees_word(input, b"cyc_def", 5)
    {
        SourceKind::Operand
    } else {
        SourceKind::Cast
    }
}

fn call_kind(input: &Input) -> SourceKind
    ensures { result ≡ call_seen input.now }
{
    if sees_sign(input, b"(", 3) {
        return if sees_word(input, b"cyc_fmt", 0) {
            SourceKind::Format
        } else {
            SourceKind::HeapType
        };
    }
    if !sees_sign(input, b")", 3) {
        return SourceKind::Call;
    }
    if sees_sign(input, b"&&", 4) {
        return SourceKind::Native;
    }
    if sees_sign(input, b"->", 4) {
        return SourceKind::Buffer;
    }
    SourceKind::Call
}

pub fn source_kind(input: &Input) -> SourceKind
    ensures { result ≡ source_seen input.now }
{
    if sees_sign(input, b"(", 0) {
        return bracket_kind(input);
    }
    if sees_sign(input, b"~", 0) {
        return SourceKind::Invert;
    }
    if sees_sign(input, b"*", 0) {
        return SourceKind::Element;
    }
    if sees_sign(input, b"(", 1) {
        return call_kind(input);
    }
    if sees_sign(input, b".", 1) {
        return SourceKind::Place;
    }
    SourceKind::Operand
}
