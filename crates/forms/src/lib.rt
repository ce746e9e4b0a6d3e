//! Forms of a grammar over marked tokens, and what reads them from the left with one token of lookahead.
//! The crate has definitions (specs/) and their laws (proofs/), for tokens of any type, and one worked example.
#![tactic(auto)]

ghost use Rattle.forms.specs.Example.{PacksAreRead};

/// The tokens of the worked example.
#[derive(Clone, Copy, Debug, PartialEq, Eq)]
pub enum Sample {
    Item,
    Comma,
    Open,
    Close,
}

/// Of any tokens the reader of packs, `( item , item , )` with at most two items, answers the one value of the longest
/// run, or the first token that is wrong or is a third item. A law; it does nothing.
pub fn packs_are_read()
    ensures { PacksAreRead }
{}
