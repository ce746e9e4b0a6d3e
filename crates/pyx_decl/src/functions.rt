//! Functions (Cython documentation, "Python functions vs. C functions").
ghost use Rattle.std.specs.Prelude.{◌≡◌, ◌≢◌, ◌∷◌, []};
ghost use Rattle.forms.specs.Readers.{and_then, did, read_both, read_one, read_or, read_many};
ghost use Rattle.forms.specs.Lists.{first, second, pair, itself};
ghost use Rattle.token_class.specs.Sets.{of};
ghost use Rattle.expr_grammar.specs.Words as set;
ghost use Rattle.expr_grammar.specs.Nodes as expr_node;
ghost use Rattle.expr_grammar.specs.Grammar.{pair_of_three};
ghost use Rattle.expr_grammar.specs.Reading as expr_spec;
ghost use Rattle.decl_grammar.specs.Words as words;
ghost use Rattle.decl_grammar.specs.Nodes as node;
ghost use Rattle.decl_grammar.specs.Factored as factored;
ghost use Rattle.decl_grammar.specs.Reading as spec;
ghost use Rattle.decl_grammar.specs.Files.{in_brackets};
ghost use Rattle.pyx_lex.specs.declared.token.Token.{Token};
ghost use Rattle.token_input.specs.Reads.{Reads};

use cy_tree::{CFunction, CKind, Def, Header, Param, Suite};
use pyx_head::{IN_FILE, Typed, header, heading, parameters, typed_in_file};
use pyx_stmt::StmtSet;
use pyx_suite::body;
use sqlite_items::Items;
use std::alloc::Global;
use token_input::{ExprSet, Halt, Input};

pub(crate) fn c_function(
    kind: CKind,
    at: u32,
    typed: Typed,
    header: Header,
    body: Suite,
) -> CFunction
    ensures { result ≡ node.c_function kind at typed header body }
{
    CFunction {
        heading: heading(kind, at, typed, header),
        body,
    }
}

// ---- functions

#[tactic(auto, unfolding(forms::specs::Readers::read_both))]
fn behind_def(alloc: Global, input: &mut Input<'_>) -> Result<(Items<Param>, Suite), Halt>
    ensures { Reads (read_both pair (spec.read_parameters in_brackets) (spec.read_body_at 100) input.old) result input.new }
{
    let params = parameters(alloc, input)?;
    let body = body(alloc, input, IN_FILE)?;
    Ok((params, body))
}

/// Reads a `def` function.
#[tactic(auto, unfolding(decl_grammar::specs::Reading::read_def, forms::specs::Readers::read_both))]
pub(crate) fn def(alloc: Global, input: &mut Input<'_>) -> Result<Def, Halt>
    ensures { Reads (spec.read_def in_brackets input.old) result input.new }
{
    let at = input.expect(StmtSet::Def)?.token.span.start;
    let name = input.ident(alloc, ExprSet::Name)?;
    let (params, body) = behind_def(alloc, input)?;
    Ok(Def {
        at,
        name,
        params,
        body,
    })
}

/// Reads the head of a function behind its name, and its suite.
#[tactic(auto, unfolding(forms::specs::Readers::read_both))]
pub(crate) fn header_and_body(alloc: Global, input: &mut Input<'_>) -> Result<(Header, Suite), Halt>
    ensures { Reads (read_both pair (spec.read_header in_brackets) (spec.read_body_at 100) input.old) result input.new }
{
    let header = header(alloc, input)?;
    let body = body(alloc, input, IN_FILE)?;
    Ok((header, body))
}

/// Reads a C function behind its first word.
#[tactic(auto, unfolding(forms::specs::Readers::read_both))]
pub(crate) fn behind_cpdef(
    alloc: Global,
    input: &mut Input<'_>,
) -> Result<(Typed, Header, Suite), Halt>
    ensures { Reads (read_both pair_of_three (spec.read_typed_name 100) (read_both pair (spec.read_header in_brackets) (spec.read_body_at 100)) input.old) result input.new }
{
    let typed = typed_in_file(alloc, input)?;
    let (header, body) = header_and_body(alloc, input)?;
    Ok((typed, header, body))
}
