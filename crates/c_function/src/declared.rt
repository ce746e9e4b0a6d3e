//! Declarations of a function's variables.
ghost use Rattle.std.specs.Prelude.{◌≡◌, ◌++◌, List, Some, IfOk, false, ⊤};
ghost use Rattle.std.specs.List.{flat_map, AllByRecursion};
ghost use Rattle.c_token.specs.CTokens.{CToken};
ghost use Rattle.c_tree.specs.declared.item.Declaration.{Declaration as DeclarationTree};
ghost use Rattle.c_tree.specs.Forms.{IsDeclaration};
ghost use Rattle.c_tree.specs.Items.{declaration_spelling};
ghost use Rattle.c_input.specs.Reads.{Finds, ReadsEvery};
ghost use Rattle.c_function.specs.Parts.{initial_tokens, is_declared, is_place, is_type_word};

use c_input::{Input, Piece, kind};
use c_tree::{Declaration, InitialValue, Variable};
use cy_base::OutOfMemory;
use sqlite_items::Items;
use std::alloc::Global;

// Whether a type begins with the word.
fn is_type_word(word: &[u8]) -> bool
    ensures { result ≡ is_type_word word.now }
{
    (word == b"signed".as_slice()
        || (word == b"unsigned".as_slice()
            || (word == b"short".as_slice()
                || (word == b"int".as_slice() || word == b"long".as_slice()))))
        || ((word == b"Py_ssize_t".as_slice()
            || (word == b"PyObject".as_slice() || word == b"cyc_view".as_slice()))
            || (word == b"PyThreadState".as_slice()
                || (word == b"PyGILState_STATE".as_slice() || word == b"PyTypeObject".as_slice())))
}

// Whether a declaration begins here: a type's word with `(` behind it is called.
fn is_declared(input: &Input) -> bool
    ensures { result ≡ is_declared input.now }
{
    match input.next_word() {
        Some(word) => is_type_word(word) && !input.sees(Piece::Sign(b"("), 1),
        None => false,
    }
}

// What a variable begins with, and `;`.
fn initial(input: &mut Input) -> Option<InitialValue>
    ensures some { Finds (λ _. ⊤) initial_tokens input.old result input.new }
    ensures every { ReadsEvery (λ _. ⊤) initial_tokens input.old result }
{
    if input.fixed(&[Piece::Sign(b";")]) {
        return Some(InitialValue::Nothing);
    }
    if input.fixed(&[Piece::Sign(b"="), Piece::Word(b"0"), Piece::Sign(b";")]) {
        return Some(InitialValue::Zero);
    }
    if input.fixed(&[Piece::Sign(b"="), Piece::Word(b"NULL"), Piece::Sign(b";")]) {
        return Some(InitialValue::Null);
    }
    if input.fixed(&[
        Piece::Sign(b"="),
        Piece::Sign(b"{"),
        Piece::Word(b"0"),
        Piece::Sign(b"}"),
        Piece::Sign(b";"),
    ]) {
        return Some(InitialValue::Zeros);
    }
    None
}

// Whether the variable is a place of the file.
fn is_place(variable: Variable) -> bool
    ensures { result ≡ is_place variable }
{
    matches!(variable, Variable::Place(_))
}

// `T x;`, `T x = 0;`, `T x = NULL;` or `T x = {0};`, where x is no place of the file.
#[tactic(auto, using(crate::proofs::Texts::initials))]
fn declaration(input: &mut Input) -> Option<Declaration>
    ensures some { Finds IsDeclaration declaration_spelling input.old result input.new }
    ensures every { ReadsEvery IsDeclaration declaration_spelling input.old result }
{
    let kind = kind(input)?;
    let variable = input.variable()?;
    if is_place(variable) {
        return None;
    }
    let initial = initial(input)?;
    Some(Declaration {
        kind,
        variable,
        initial,
    })
}

/// Reads declarations, up to the first token that begins none.
pub fn declarations(
    alloc: Global,
    input: &mut Input,
) -> Result<Option<Items<Declaration>>, OutOfMemory>
    ensures some { IfOk result (λ found. Finds (AllByRecursion IsDeclaration) (flat_map declaration_spelling) input.old found input.new) }
    ensures every { IfOk result (λ found. (all : List DeclarationTree) (rest : List CToken) → AllByRecursion IsDeclaration all → is_declared rest ≡ false → input.old ≡ flat_map declaration_spelling all ++ rest → found ≡ Some all) }
{
    let mut all = Vec::new(alloc);
    while is_declared(input) {
        let Some(next) = declaration(input) else {
            return Ok(None);
        };
        all.push(next)?;
    }
    Ok(Some(Items::from_vec(all)))
}
