//! The parts of structs and rows.
ghost use Rattle.std.specs.Prelude.{◌≡◌, ◌++◌, ◌∷◌, [], List, Some, IfOk, ⊤};
ghost use Rattle.c_token.specs.CTokens.{CToken, Word};
ghost use Rattle.c_tree.specs.Forms.{IsBase, IsFieldNumber, IsProperty, IsSetter, IsTableName};
ghost use Rattle.c_tree.specs.Names.{methods_name};
ghost use Rattle.c_input.specs.Reads.{Finds, ReadsEvery};
ghost use Rattle.c_word.specs.Numbers.{two_numbers};
ghost use Rattle.std.specs.Prelude.{codes, decimal};
ghost use Rattle.c_table.specs.Parts.{base_tokens, field_tokens, method_tokens, property_tokens, setter_tokens, IsMethod};

use c_input::{Input, Piece, kind};
use c_tree::{Base, CType, FieldNumber, MethodRow, PropertyRow, TableName};
use cy_base::OutOfMemory;
use std::alloc::Global;

/// Reads what the struct of an instance begins with.
pub fn base(input: &mut Input) -> Option<Base>
    ensures some { Finds IsBase base_tokens input.old result input.new }
    ensures every { ReadsEvery IsBase base_tokens input.old result }
{
    if input.fixed(&[
        Piece::Word(b"struct"),
        Piece::Word(b"cyc_root"),
        Piece::Word(b"b"),
        Piece::Sign(b";"),
    ]) {
        return Some(Base::Root);
    }
    if !input.fixed(&[Piece::Word(b"struct")]) {
        return None;
    }
    let class = input.numbered(b"cyc_o_")?;
    if input.fixed(&[Piece::Word(b"b"), Piece::Sign(b";")]) {
        Some(Base::Class(class))
    } else {
        None
    }
}

/// Reads the field with this number.
pub fn field(number: u32, input: &mut Input) -> Option<CType>
    ensures some { Finds (λ _. ⊤) (field_tokens number) input.old result input.new }
    ensures every { ReadsEvery (λ _. ⊤) (field_tokens number) input.old result }
{
    let kind = kind(input)?;
    let found = input.lettered(b"f")?;
    if found != number {
        return None;
    }
    if input.fixed(&[Piece::Sign(b";")]) {
        Some(kind)
    } else {
        None
    }
}

/// Reads the name of a table of methods.
pub fn table(input: &mut Input) -> Option<TableName>
    ensures some { Finds IsTableName (λ x. Word (methods_name x) ∷ []) input.old result input.new }
    ensures every { ReadsEvery IsTableName (λ x. Word (methods_name x) ∷ []) input.old result }
{
    let word = input.word()?;
    c_word::table(word)
}

/// Reads the name of what a field has.
pub fn of_field(letters: &[u8], input: &mut Input) -> Option<FieldNumber>
    ensures some { Finds IsFieldNumber (λ f. Word ((letters.now ++ two_numbers f.class.module f.class.index) ++ (codes "_" ++ decimal f.field)) ∷ []) input.old result input.new }
    ensures every { ReadsEvery IsFieldNumber (λ f. Word ((letters.now ++ two_numbers f.class.module f.class.index) ++ (codes "_" ++ decimal f.field)) ∷ []) input.old result }
{
    let word = input.word()?;
    c_word::of_field(letters, word)
}
