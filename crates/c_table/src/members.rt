//! Tables of one or two members.
ghost use Rattle.std.specs.Prelude.{◌≡◌, ◌≢◌, ◌++◌, ◌∷◌, [], List, Option, Some};
ghost use Rattle.c_token.specs.CTokens.{CToken};
ghost use Rattle.c_tree.specs.declared.name.Numbered.{Numbered as NumberedValue};
ghost use Rattle.c_tree.specs.Forms.{AreMembers, IsMember, IsNumbered};
ghost use Rattle.c_input.specs.Reads.{pieces_shown, Finds, ReadsEvery};
ghost use Rattle.c_table.specs.Parts.{assigned, dotted, end_tokens, member_tokens, pair_tokens};
ghost use Rattle.c_table.specs.Tables.{item_tokens, IsMapping, IsSequence};

use c_input::{Input, Piece};
use c_tree::{CItem, Numbered};

/// Reads a member where the tokens before its name are next.
pub fn member(before: &[Piece], letters: &[u8], input: &mut Input) -> Option<Option<Numbered>>
    ensures some { Finds IsMember (member_tokens (pieces_shown before.now) letters.now) input.old result input.new }
    ensures every { (m : Option NumberedValue) (rest : List CToken) → IsMember m → ((r : List CToken) → rest ≢ pieces_shown before.now ++ r) → input.old ≡ member_tokens (pieces_shown before.now) letters.now m ++ rest → result ≡ Some m }
{
    if !input.fixed(before) {
        return Some(None);
    }
    let class = input.numbered(letters)?;
    Some(Some(class))
}

// A member of a table: its name, and the letters before the number of what it names.
#[derive(Clone, Copy)]
struct Named {
    name: &'static [u8],
    letters: &'static [u8],
}

// Reads a member that stands alone, and the end of the braces.
fn only(member: Named, input: &mut Input) -> Option<Numbered>
    ensures some { Finds IsNumbered (λ n. member_tokens (dotted member.name.now) member.letters.now (Some n) ++ end_tokens) input.old result input.new }
    ensures every { ReadsEvery IsNumbered (λ n. member_tokens (dotted member.name.now) member.letters.now (Some n) ++ end_tokens) input.old result }
{
    if !input.fixed(&[
        Piece::Sign(b"."),
        Piece::Word(member.name),
        Piece::Sign(b"="),
    ]) {
        return None;
    }
    let class = input.numbered(member.letters)?;
    if input.fixed(&[Piece::Sign(b"}"), Piece::Sign(b";")]) {
        Some(class)
    } else {
        None
    }
}

// Reads a member behind another one, where it is there, and the end of the braces.
fn last(named: Named, input: &mut Input) -> Option<Option<Numbered>>
    ensures some { Finds IsMember (λ m. member_tokens (assigned named.name.now) named.letters.now m ++ end_tokens) input.old result input.new }
    ensures every { ReadsEvery IsMember (λ m. member_tokens (assigned named.name.now) named.letters.now m ++ end_tokens) input.old result }
{
    let before = [
        Piece::Sign(b","),
        Piece::Sign(b"."),
        Piece::Word(named.name),
        Piece::Sign(b"="),
    ];
    let found = member(&before, named.letters, input)?;
    if input.fixed(&[Piece::Sign(b"}"), Piece::Sign(b";")]) {
        Some(found)
    } else {
        None
    }
}

// Reads one or two members of different names, with a comma between them where both are there.
fn pair(
    first: Named,
    second: Named,
    input: &mut Input,
) -> Option<(Option<Numbered>, Option<Numbered>)>
    ensures some { Finds (λ r. AreMembers r.0 r.1) (λ r. pair_tokens first.name.now first.letters.now second.name.now second.letters.now r.0 r.1) input.old result input.new }
    ensures every { first.name.now ≢ second.name.now → ReadsEvery (λ r. AreMembers r.0 r.1) (λ r. pair_tokens first.name.now first.letters.now second.name.now second.letters.now r.0 r.1) input.old result }
{
    let dotted = [
        Piece::Sign(b"."),
        Piece::Word(first.name),
        Piece::Sign(b"="),
    ];
    let one = member(&dotted, first.letters, input)?;
    match one {
        Some(class) => {
            let two = last(second, input)?;
            Some((Some(class), two))
        }
        None => {
            let two = only(second, input)?;
            Some((None, Some(two)))
        }
    }
}

/// Reads the table of a sequence, without the `static` before it.
pub fn sequence(is_static: bool, input: &mut Input) -> Option<CItem>
    ensures some { Finds (IsSequence is_static) item_tokens input.old result input.new }
    ensures every { ReadsEvery (IsSequence is_static) item_tokens input.old result }
{
    if !input.fixed(&[Piece::Word(b"PySequenceMethods")]) {
        return None;
    }
    let class = input.numbered(b"cyc_sq_")?;
    if !input.fixed(&[Piece::Sign(b"="), Piece::Sign(b"{")]) {
        return None;
    }
    let length = Named {
        name: b"sq_length",
        letters: b"cyc_len_",
    };
    let contains = Named {
        name: b"sq_contains",
        letters: b"cyc_has_",
    };
    let (length, contains) = pair(length, contains, input)?;
    Some(CItem::Sequence(is_static, class, length, contains))
}

/// Reads the table of a mapping, without the `static` before it.
pub fn mapping(is_static: bool, input: &mut Input) -> Option<CItem>
    ensures some { Finds (IsMapping is_static) item_tokens input.old result input.new }
    ensures every { ReadsEvery (IsMapping is_static) item_tokens input.old result }
{
    if !input.fixed(&[Piece::Word(b"PyMappingMethods")]) {
        return None;
    }
    let class = input.numbered(b"cyc_mp_")?;
    if !input.fixed(&[Piece::Sign(b"="), Piece::Sign(b"{")]) {
        return None;
    }
    let length = Named {
        name: b"mp_length",
        letters: b"cyc_len_",
    };
    let subscript = Named {
        name: b"mp_subscript",
        letters: b"cyc_item_",
    };
    let (length, subscript) = pair(length, subscript, input)?;
    Some(CItem::Mapping(is_static, class, length, subscript))
}
