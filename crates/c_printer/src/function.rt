//! Functions.
ghost use Rattle.std.specs.Prelude.{◌≡◌, ◌++◌, ◌∷◌, [], IfOk};
ghost use Rattle.std.specs.List.{flat_map, AllByRecursion};
ghost use Rattle.c_token.specs.CTokens.{sign};
ghost use Rattle.c_tree.specs.Names.{letter_token, variable_token};
ghost use Rattle.c_tree.specs.Forms.{IsFunction, IsLine};
ghost use Rattle.c_tree.specs.Items.{declaration_spelling, function_spelling, initial_spelling, line_spelling};

use crate::head::head;
use crate::mark::{Put, close_brace, colon, open_brace};
use crate::name::variable;
use crate::statement::statement;
use crate::value::kind;
use c_tree::{CFunction, Declaration, InitialValue, Line};
use c_writer::Writer;

#[tactic(auto, unfolding(c_token::specs::CTokens::c_tokens, c_token::specs::CTokens::tokens_from))]
fn initial(out: Writer, it: InitialValue) -> Put
    ensures { IfOk result (λ new. new ≡ out ++ initial_spelling it) }
{
    match it {
        InitialValue::Nothing => out.text(b";"),
        InitialValue::Zero => out.text(b" = 0;"),
        InitialValue::Null => out.text(b" = NULL;"),
        InitialValue::Zeros => out.text(b" = {0};"),
    }
}

// A blank that belongs to no token, where it looks well.
#[tactic(auto, unfolding(c_token::specs::CTokens::c_tokens, c_token::specs::CTokens::tokens_from))]
fn indent(out: Writer) -> Put
    ensures { IfOk result (λ new. new ≡ out) }
{
    out.fresh()?.text(b"    ")
}

fn declaration(out: Writer, it: Declaration) -> Put
    ensures { IfOk result (λ new. new ≡ out ++ declaration_spelling it) }
{
    let out = kind(indent(out)?, it.kind)?;
    initial(variable(out, it.variable)?, it.initial)
}

fn declarations(out: Writer, all: &[Declaration]) -> Put
    ensures { IfOk result (λ new. new ≡ out ++ flat_map declaration_spelling all.now) }
{
    let mut out = out;
    for it in all {
        out = declaration(out, *it)?;
    }
    Ok(out)
}

fn label(out: Writer, number: u32) -> Put
    ensures { IfOk result (λ new. new ≡ out ++ (letter_token "L" number ∷ sign ":" ∷ [])) }
{
    colon(out.fresh()?.lettered(b"L", number)?)
}

fn line(out: Writer, it: &Line) -> Put
    requires { IsLine it.now }
    ensures { IfOk result (λ new. new ≡ out ++ line_spelling it.now) }
{
    match it {
        Line::Label(number) => label(out, *number),
        Line::Statement(s) => statement(indent(out)?, s),
    }
}

fn lines(out: Writer, all: &[Line]) -> Put
    requires { AllByRecursion IsLine all.now }
    ensures { IfOk result (λ new. new ≡ out ++ flat_map line_spelling all.now) }
{
    let mut out = out;
    for it in all {
        out = line(out, it)?;
    }
    Ok(out)
}

fn inside(out: Writer, f: &CFunction) -> Put
    requires { AllByRecursion IsLine f.now.lines }
    ensures { IfOk result (λ new. new ≡ out ++ (flat_map declaration_spelling f.now.declarations ++ flat_map line_spelling f.now.lines)) }
{
    lines(
        declarations(out, f.declarations.as_slice())?,
        f.lines.as_slice(),
    )
}

/// Writes a function. Its braces stand on lines of their own.
pub(crate) fn function_item(out: Writer, f: &CFunction) -> Put
    requires { IsFunction f.now }
    ensures { IfOk result (λ new. new ≡ out ++ function_spelling f.now) }
{
    let out = open_brace(head(out, &f.head)?.fresh()?)?;
    close_brace(inside(out, f)?.fresh()?)
}
