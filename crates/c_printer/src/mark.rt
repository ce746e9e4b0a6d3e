//! Signs and words that are the same everywhere, with the blanks that stand around them.
ghost use Rattle.std.specs.Prelude.{◌≡◌, ◌++◌, ◌∷◌, [], IfOk};
ghost use Rattle.c_token.specs.CTokens.{sign};
ghost use Rattle.c_tree.specs.Names.{text};

use c_writer::Writer;
use std::alloc::AllocError;

pub(crate) type Put = Result<Writer, AllocError>;

#[tactic(auto, unfolding(c_token::specs::CTokens::c_tokens, c_token::specs::CTokens::tokens_from))]
pub(crate) fn equals(out: Writer) -> Put
    ensures { IfOk result (λ new. new ≡ out ++ sign "=" ∷ []) }
{
    out.text(b" = ")
}

#[tactic(auto, unfolding(c_token::specs::CTokens::c_tokens, c_token::specs::CTokens::tokens_from))]
pub(crate) fn semicolon(out: Writer) -> Put
    ensures { IfOk result (λ new. new ≡ out ++ sign ";" ∷ []) }
{
    out.text(b";")
}

#[tactic(auto, unfolding(c_token::specs::CTokens::c_tokens, c_token::specs::CTokens::tokens_from))]
pub(crate) fn comma(out: Writer) -> Put
    ensures { IfOk result (λ new. new ≡ out ++ sign "," ∷ []) }
{
    out.text(b", ")
}

#[tactic(auto, unfolding(c_token::specs::CTokens::c_tokens, c_token::specs::CTokens::tokens_from))]
pub(crate) fn open(out: Writer) -> Put
    ensures { IfOk result (λ new. new ≡ out ++ sign "(" ∷ []) }
{
    out.text(b"(")
}

#[tactic(auto, unfolding(c_token::specs::CTokens::c_tokens, c_token::specs::CTokens::tokens_from))]
pub(crate) fn close(out: Writer) -> Put
    ensures { IfOk result (λ new. new ≡ out ++ sign ")" ∷ []) }
{
    out.text(b")")
}

#[tactic(auto, unfolding(c_token::specs::CTokens::c_tokens, c_token::specs::CTokens::tokens_from))]
pub(crate) fn open_bracket(out: Writer) -> Put
    ensures { IfOk result (λ new. new ≡ out ++ sign "[" ∷ []) }
{
    out.text(b"[")
}

#[tactic(auto, unfolding(c_token::specs::CTokens::c_tokens, c_token::specs::CTokens::tokens_from))]
pub(crate) fn close_bracket(out: Writer) -> Put
    ensures { IfOk result (λ new. new ≡ out ++ sign "]" ∷ []) }
{
    out.text(b"]")
}

#[tactic(auto, unfolding(c_token::specs::CTokens::c_tokens, c_token::specs::CTokens::tokens_from))]
pub(crate) fn open_brace(out: Writer) -> Put
    ensures { IfOk result (λ new. new ≡ out ++ sign "{" ∷ []) }
{
    out.text(b"{")
}

#[tactic(auto, unfolding(c_token::specs::CTokens::c_tokens, c_token::specs::CTokens::tokens_from))]
pub(crate) fn close_brace(out: Writer) -> Put
    ensures { IfOk result (λ new. new ≡ out ++ sign "}" ∷ []) }
{
    out.text(b"}")
}

#[tactic(auto, unfolding(c_token::specs::CTokens::c_tokens, c_token::specs::CTokens::tokens_from))]
pub(crate) fn tilde(out: Writer) -> Put
    ensures { IfOk result (λ new. new ≡ out ++ sign "~" ∷ []) }
{
    out.text(b"~")
}

#[tactic(auto, unfolding(c_token::specs::CTokens::c_tokens, c_token::specs::CTokens::tokens_from))]
pub(crate) fn minus(out: Writer) -> Put
    ensures { IfOk result (λ new. new ≡ out ++ sign "-" ∷ []) }
{
    out.text(b"-")
}

#[tactic(auto, unfolding(c_token::specs::CTokens::c_tokens, c_token::specs::CTokens::tokens_from))]
pub(crate) fn ampersand(out: Writer) -> Put
    ensures { IfOk result (λ new. new ≡ out ++ sign "&" ∷ []) }
{
    out.text(b"&")
}

#[tactic(auto, unfolding(c_token::specs::CTokens::c_tokens, c_token::specs::CTokens::tokens_from))]
pub(crate) fn dot(out: Writer) -> Put
    ensures { IfOk result (λ new. new ≡ out ++ sign "." ∷ []) }
{
    out.text(b".")
}

#[tactic(auto, unfolding(c_token::specs::CTokens::c_tokens, c_token::specs::CTokens::tokens_from))]
pub(crate) fn colon(out: Writer) -> Put
    ensures { IfOk result (λ new. new ≡ out ++ sign ":" ∷ []) }
{
    out.text(b":")
}

#[tactic(auto, unfolding(c_token::specs::CTokens::c_tokens, c_token::specs::CTokens::tokens_from))]
pub(crate) fn member_end(out: Writer) -> Put
    ensures { IfOk result (λ new. new ≡ out ++ sign ";" ∷ []) }
{
    out.text(b"; ")
}

#[tactic(auto, unfolding(c_token::specs::CTokens::c_tokens, c_token::specs::CTokens::tokens_from))]
pub(crate) fn open_apart(out: Writer) -> Put
    ensures { IfOk result (λ new. new ≡ out ++ sign "{" ∷ []) }
{
    out.text(b" { ")
}

#[tactic(auto, unfolding(c_token::specs::CTokens::c_tokens, c_token::specs::CTokens::tokens_from))]
pub(crate) fn open_inner(out: Writer) -> Put
    ensures { IfOk result (λ new. new ≡ out ++ sign "{" ∷ []) }
{
    out.text(b"{ ")
}

#[tactic(auto, unfolding(c_token::specs::CTokens::c_tokens, c_token::specs::CTokens::tokens_from))]
pub(crate) fn close_inner(out: Writer) -> Put
    ensures { IfOk result (λ new. new ≡ out ++ sign "}" ∷ []) }
{
    out.text(b" }")
}

#[tactic(auto, unfolding(c_token::specs::CTokens::c_tokens, c_token::specs::CTokens::tokens_from))]
pub(crate) fn ends_here(out: Writer) -> Put
    ensures { IfOk result (λ new. new ≡ out ++ text "};") }
{
    out.text(b" };")
}

/// A comma, and a line further in.
#[tactic(auto, unfolding(c_token::specs::CTokens::c_tokens, c_token::specs::CTokens::tokens_from))]
pub(crate) fn comma_line(out: Writer) -> Put
    ensures { IfOk result (λ new. new ≡ out ++ sign "," ∷ []) }
{
    out.text(b",\n    ")
}

/// Begins a line, which belongs to no token.
pub(crate) fn line(out: Writer) -> Put
    ensures { IfOk result (λ new. new ≡ out ++ []) }
{
    out.fresh()
}

#[tactic(auto, unfolding(c_token::specs::CTokens::c_tokens, c_token::specs::CTokens::tokens_from))]
pub(crate) fn gives(out: Writer) -> Put
    ensures { IfOk result (λ new. new ≡ out ++ text "=") }
{
    out.text(b" = ")
}

#[tactic(auto, unfolding(c_token::specs::CTokens::c_tokens, c_token::specs::CTokens::tokens_from))]
pub(crate) fn points(out: Writer) -> Put
    ensures { IfOk result (λ new. new ≡ out ++ text "= &") }
{
    out.text(b" = &")
}

#[tactic(auto, unfolding(c_token::specs::CTokens::c_tokens, c_token::specs::CTokens::tokens_from))]
pub(crate) fn ends(out: Writer) -> Put
    ensures { IfOk result (λ new. new ≡ out ++ text "};") }
{
    out.text(b"\n};")
}

/// Begins a line further in.
#[tactic(auto, unfolding(c_token::specs::CTokens::c_tokens, c_token::specs::CTokens::tokens_from))]
pub(crate) fn indent(out: Writer) -> Put
    ensures { IfOk result (λ new. new ≡ out ++ []) }
{
    out.fresh()?.text(b"    ")
}

#[tactic(auto, unfolding(c_token::specs::CTokens::c_tokens, c_token::specs::CTokens::tokens_from))]
pub(crate) fn blank(out: Writer) -> Put
    ensures { IfOk result (λ new. new ≡ out ++ []) }
{
    out.text(b" ")
}
