//! Items that are the same in every file.
ghost use Rattle.std.specs.Prelude.{◌≡◌, ◌++◌, IfOk};
ghost use Rattle.c_tree.specs.Names.{text};
ghost use Rattle.c_tree.specs.Items.{item_spelling};

use crate::mark::{Put, line};
use c_tree::CItem;
use c_writer::Writer;

#[tactic(auto, unfolding(c_token::specs::CTokens::c_tokens, c_token::specs::CTokens::tokens_from))]
fn default_letter(out: Writer) -> Put
    ensures { IfOk result (λ new. new ≡ out ++ text "{ if (f == NULL) f = \"B\";") }
{
    out.text(b"{\n    if (f == NULL) f = \"B\";\n    ")
}

#[tactic(auto, unfolding(c_token::specs::CTokens::c_tokens, c_token::specs::CTokens::tokens_from))]
fn native_letter(out: Writer) -> Put
    ensures { IfOk result (λ new. new ≡ out ++ text "if (f[0] == '@') f = f + 1;") }
{
    out.text(b"if (f[0] == '@') f = f + 1;\n    ")
}

fn one_letter(out: Writer) -> Put
    ensures { IfOk result (λ new. new ≡ out ++ text "return f[0] != 0 && f[1] == 0 && strchr(set, f[0]) != NULL;") }
{
    out.text(b"return f[0] != 0 && f[1] == 0 && strchr(set, f[0]) != NULL;")
}

pub(crate) fn format_test(out: Writer) -> Put
    ensures { IfOk result (λ new. new ≡ out ++ item_spelling CItem.FormatTest) }
{
    let out = line(out.text(b"static int cyc_fmt(const char *f, const char *set)")?)?;
    let out = one_letter(native_letter(default_letter(out)?)?)?;
    line(out)?.text(b"}")
}

pub(crate) fn view_type(out: Writer) -> Put
    ensures { IfOk result (λ new. new ≡ out ++ item_spelling CItem.ViewType) }
{
    out.text(
        b"typedef struct { PyObject *mv; char *buf; Py_ssize_t n[3]; Py_ssize_t s[3]; } cyc_view;",
    )
}

pub(crate) fn root_struct(out: Writer) -> Put
    ensures { IfOk result (λ new. new ≡ out ++ item_spelling CItem.RootStruct) }
{
    out.text(b"struct cyc_root { PyObject_HEAD const void *vt; };")
}
