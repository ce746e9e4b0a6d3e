//! Heads of functions, and prototypes.
ghost use Rattle.std.specs.Prelude.{◌≡◌, ◌++◌, ◌∷◌, [], IfOk};
ghost use Rattle.std.specs.List.{flat_map};
ghost use Rattle.c_token.specs.CTokens.{sign};
ghost use Rattle.c_token.specs.Spelled.{AreWordBytes};
ghost use Rattle.c_tree.specs.Names.{listed, text};
ghost use Rattle.c_tree.specs.Values.{type_spelling};
ghost use Rattle.c_tree.specs.Forms.{IsHead};
ghost use Rattle.c_tree.specs.Items.{fixed_head, head_spelling, parameter_spelling, plain_head, types_spelling, void_or};
ghost use Rattle.c_tree.specs.declared.name.FunctionName.TheVariants as name;

use crate::mark::{Put, close, comma, open};
use crate::name::{getter, numbered, setter, variable};
use crate::value::{given, kind};
use c_tree::{CHead, CResult, CType, FieldNumber, Numbered, Parameter, Variable};
use c_writer::Writer;

fn parameter(out: Writer, p: Parameter) -> Put
    ensures { IfOk result (λ new. new ≡ out ++ parameter_spelling p) }
{
    variable(kind(out, p.kind)?, Variable::Parameter(p.number))
}

fn next_parameter(out: Writer, p: Parameter) -> Put
    ensures { IfOk result (λ new. new ≡ out ++ sign "," ∷ parameter_spelling p) }
{
    parameter(comma(out)?, p)
}

fn more_parameters(out: Writer, all: &[Parameter]) -> Put
    ensures { IfOk result (λ new. new ≡ out ++ flat_map (λ p. sign "," ∷ parameter_spelling p) all.now) }
{
    let mut out = out;
    for p in all {
        out = next_parameter(out, *p)?;
    }
    Ok(out)
}

fn parameters(out: Writer, all: &[Parameter]) -> Put
    ensures { IfOk result (λ new. new ≡ out ++ void_or (listed parameter_spelling all.now)) }
{
    match all.split_first() {
        None => out.text(b"void"),
        Some((first, more)) => more_parameters(parameter(out, *first)?, more),
    }
}

fn next_type(out: Writer, it: CType) -> Put
    ensures { IfOk result (λ new. new ≡ out ++ sign "," ∷ type_spelling it) }
{
    kind(comma(out)?, it)
}

fn more_types(out: Writer, all: &[CType]) -> Put
    ensures { IfOk result (λ new. new ≡ out ++ flat_map (λ k. sign "," ∷ type_spelling k) all.now) }
{
    let mut out = out;
    for it in all {
        out = next_type(out, *it)?;
    }
    Ok(out)
}

fn some_types(out: Writer, all: &[CType]) -> Put
    ensures { IfOk result (λ new. new ≡ out ++ void_or (listed type_spelling all.now)) }
{
    match all.split_first() {
        None => out.text(b"void"),
        Some((first, more)) => more_types(kind(out, *first)?, more),
    }
}

pub(crate) fn types(out: Writer, all: &[CType]) -> Put
    ensures { IfOk result (λ new. new ≡ out ++ types_spelling all.now) }
{
    close(some_types(open(out)?, all)?)
}

fn plain(out: Writer, n: Numbered, what: CResult, all: &[Parameter]) -> Put
    ensures { IfOk result (λ new. new ≡ out ++ plain_head (name.Plain n) what all.now) }
{
    let out = numbered(given(out, what)?, b"cyc_f_", n)?;
    close(parameters(open(out)?, all)?)
}

fn overridable(out: Writer, n: Numbered, what: CResult, all: &[Parameter]) -> Put
    ensures { IfOk result (λ new. new ≡ out ++ plain_head (name.Overridable n) what all.now) }
{
    let out = numbered(given(out, what)?, b"cyc_x_", n)?;
    close(parameters(open(out)?, all)?)
}

fn wrapper(out: Writer, n: Numbered) -> Put
    ensures { IfOk result (λ new. new ≡ out ++ fixed_head "static PyObject *" (name.Wrapper n) "(PyObject *self, PyObject *const *args, Py_ssize_t nargs)") }
{
    let out = numbered(out.text(b"static PyObject *")?, b"cyc_w_", n)?;
    out.text(b"(PyObject *self, PyObject *const *args, Py_ssize_t nargs)")
}

fn new_object(out: Writer, n: Numbered) -> Put
    ensures { IfOk result (λ new. new ≡ out ++ fixed_head "static PyObject *" (name.New n) "(PyTypeObject *type, PyObject *args, PyObject *kwds)") }
{
    let out = numbered(out.text(b"static PyObject *")?, b"cyc_new_", n)?;
    out.text(b"(PyTypeObject *type, PyObject *args, PyObject *kwds)")
}

fn init(out: Writer, n: Numbered) -> Put
    ensures { IfOk result (λ new. new ≡ out ++ fixed_head "static int" (name.Init n) "(PyObject *self, PyObject *args, PyObject *kwds)") }
{
    let out = numbered(out.text(b"static int")?, b"cyc_init_", n)?;
    out.text(b"(PyObject *self, PyObject *args, PyObject *kwds)")
}

fn dealloc(out: Writer, n: Numbered) -> Put
    ensures { IfOk result (λ new. new ≡ out ++ fixed_head "static void" (name.Dealloc n) "(PyObject *self)") }
{
    let out = numbered(out.text(b"static void")?, b"cyc_dealloc_", n)?;
    out.text(b"(PyObject *self)")
}

fn len(out: Writer, n: Numbered) -> Put
    ensures { IfOk result (λ new. new ≡ out ++ fixed_head "static Py_ssize_t" (name.Len n) "(PyObject *self)") }
{
    let out = numbered(out.text(b"static Py_ssize_t")?, b"cyc_len_", n)?;
    out.text(b"(PyObject *self)")
}

fn item(out: Writer, n: Numbered) -> Put
    ensures { IfOk result (λ new. new ≡ out ++ fixed_head "static PyObject *" (name.Item n) "(PyObject *self, PyObject *k)") }
{
    let out = numbered(out.text(b"static PyObject *")?, b"cyc_item_", n)?;
    out.text(b"(PyObject *self, PyObject *k)")
}

fn has(out: Writer, n: Numbered) -> Put
    ensures { IfOk result (λ new. new ≡ out ++ fixed_head "static int" (name.Has n) "(PyObject *self, PyObject *k)") }
{
    let out = numbered(out.text(b"static int")?, b"cyc_has_", n)?;
    out.text(b"(PyObject *self, PyObject *k)")
}

fn getting(out: Writer, n: FieldNumber) -> Put
    ensures { IfOk result (λ new. new ≡ out ++ fixed_head "static PyObject *" (name.Getter n) "(PyObject *self, void *closure)") }
{
    let out = getter(out.text(b"static PyObject *")?, n)?;
    out.text(b"(PyObject *self, void *closure)")
}

fn setting(out: Writer, n: FieldNumber) -> Put
    ensures { IfOk result (λ new. new ≡ out ++ fixed_head "static int" (name.Setter n) "(PyObject *self, PyObject *value, void *closure)") }
{
    let out = setter(out.text(b"static int")?, n)?;
    out.text(b"(PyObject *self, PyObject *value, void *closure)")
}

fn body(out: Writer) -> Put
    ensures { IfOk result (λ new. new ≡ out ++ fixed_head "static int" name.Body "(void)") }
{
    let out = out.text(b"static int")?.word(b"cyc_body", b"")?;
    out.text(b"(void)")
}

fn initializer(out: Writer, letters: &[u8]) -> Put
    requires { AreWordBytes letters.now }
    ensures { IfOk result (λ new. new ≡ out ++ fixed_head "PyMODINIT_FUNC" (name.Initializer letters.now) "(void)") }
{
    let out = out.text(b"PyMODINIT_FUNC")?.word(b"PyInit_", letters)?;
    out.text(b"(void)")
}

pub(crate) fn head(out: Writer, it: &CHead) -> Put
    requires { IsHead it.now }
    ensures { IfOk result (λ new. new ≡ out ++ head_spelling it.now) }
{
    match it {
        CHead::Plain(n, what, all) => plain(out, *n, *what, all.as_slice()),
        CHead::Overridable(n, what, all) => overridable(out, *n, *what, all.as_slice()),
        CHead::Wrapper(n) => wrapper(out, *n),
        CHead::New(n) => new_object(out, *n),
        CHead::Init(n) => init(out, *n),
        CHead::Dealloc(n) => dealloc(out, *n),
        CHead::Len(n) => len(out, *n),
        CHead::Item(n) => item(out, *n),
        CHead::Has(n) => has(out, *n),
        CHead::Getter(n) => getting(out, *n),
        CHead::Setter(n) => setting(out, *n),
        CHead::Body => body(out),
        CHead::Initializer(letters) => initializer(out, letters.as_slice()),
    }
}
