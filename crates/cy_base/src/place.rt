/// The number of a file in its set, from 0. The project's own.
pub type FileId = u32;

/// The bytes of a file from `start` up to `end`, without `end`. The project's own.
#[derive(Clone, Copy, Debug, PartialEq, Eq)]
pub struct Span {
    pub start: u32,
    pub end: u32,
}

/// The phases that refuse, in their order. The project's own.
#[derive(Clone, Copy, Debug, PartialEq, Eq)]
pub enum Phase {
    Lex,
    Parse,
    Load,
    Name,
    Static,
    Lock,
}

/// A rule of a phase, by its number, from 1. The project's own.
#[derive(Clone, Copy, Debug, PartialEq, Eq)]
pub struct Rule {
    pub phase: Phase,
    pub number: u8,
}

/// A broken rule, and the byte of the file at which it is broken. The project's own.
#[derive(Clone, Copy, Debug, PartialEq, Eq)]
pub struct Refusal {
    pub rule: Rule,
    pub file: FileId,
    pub offset: u32,
}
