//! Where a token stands in its item.
ghost use Rattle.std.specs.Prelude.{◌≡◌, suc, IfOk};
ghost use Rattle.std.specs.Option.{option_map};
ghost use Rattle.c_token.specs.Cutting.{place_after, role_of};
ghost use Rattle.c_token.specs.CTokens.{Sign};
ghost use Rattle.c_cut.specs.Shown.{place_shown, role_shown, token_shown};

use crate::token::Token;
use cy_base::OutOfMemory;

/// What a token is to the cutting of items.
#[derive(Clone, Copy, Debug, PartialEq, Eq)]
pub enum Role {
    Opens,
    Closes,
    Parenthesis,
    Semicolon,
    EndsLine,
    Plain,
}

/// Where a token stands: outside braces, right after a `)` or not; or in braces, within so many further ones, where the
/// outermost was opened right after a `)` or not.
#[derive(Clone, Copy, Debug, PartialEq, Eq)]
pub enum Place {
    Outside(bool),
    Inside(usize, bool),
}

/// What a token is to the cutting of items.
pub fn role_of(token: &Token) -> Role
    ensures { role_shown result ≡ role_of (token_shown token.now) }
{
    match token {
        Token::Sign(bytes) => role_of_sign(bytes.as_slice()),
        Token::LineEnd => Role::EndsLine,
        _ => Role::Plain,
    }
}

fn role_of_sign(bytes: &[u8]) -> Role
    ensures { role_shown result ≡ role_of (Sign bytes.now) }
{
    if bytes == b"{".as_slice() {
        Role::Opens
    } else if bytes == b"}".as_slice() {
        Role::Closes
    } else if bytes == b")".as_slice() {
        Role::Parenthesis
    } else if bytes == b";".as_slice() {
        Role::Semicolon
    } else {
        Role::Plain
    }
}

fn after_outside(role: Role, closed: bool) -> Option<Place>
    ensures { option_map place_shown result ≡ place_after (role_shown role) (place_shown (Place.Outside closed)) }
{
    match role {
        Role::EndsLine | Role::Semicolon => None,
        Role::Opens => Some(Place::Inside(0, closed)),
        Role::Parenthesis => Some(Place::Outside(true)),
        Role::Closes | Role::Plain => Some(Place::Outside(false)),
    }
}

// Behind a brace that closes.
fn after_brace(depth: usize, body: bool) -> Option<Place>
    ensures { option_map place_shown result ≡ place_after (role_shown Role.Closes) (place_shown (Place.Inside depth body)) }
{
    if depth > 0 {
        return Some(Place::Inside(depth - 1, body));
    }
    if body {
        None
    } else {
        Some(Place::Outside(false))
    }
}

fn after_inside(role: Role, depth: usize, body: bool) -> Result<Option<Place>, OutOfMemory>
    ensures { IfOk result (λ next. option_map place_shown next ≡ place_after (role_shown role) (place_shown (Place.Inside depth body))) }
{
    match role {
        Role::EndsLine => Ok(None),
        Role::Opens => Ok(Some(Place::Inside(deeper(depth)?, body))),
        Role::Closes => Ok(after_brace(depth, body)),
        Role::Parenthesis | Role::Semicolon | Role::Plain => Ok(Some(Place::Inside(depth, body))),
    }
}

// No text has so many braces that there is no next number.
fn deeper(depth: usize) -> Result<usize, OutOfMemory>
    ensures { IfOk result (λ next. next ≡ suc depth) }
{
    if depth == usize::MAX {
        return Err(OutOfMemory);
    }
    Ok(depth + 1)
}

/// The place after a token, or none where the token ends its item.
pub fn place_after(role: Role, place: Place) -> Result<Option<Place>, OutOfMemory>
    ensures { IfOk result (λ next. option_map place_shown next ≡ place_after (role_shown role) (place_shown place)) }
{
    match place {
        Place::Outside(closed) => Ok(after_outside(role, closed)),
        Place::Inside(depth, body) => after_inside(role, depth, body),
    }
}
