//! Heads that are fixed but for the numbers in a function's name.
ghost use Rattle.std.specs.Prelude.{◌≡◌, ◌++◌, ◌∷◌, [], codes, decimal};
ghost use Rattle.c_token.specs.CTokens.{Word};
ghost use Rattle.c_tree.specs.Forms.{IsFieldNumber};
ghost use Rattle.c_word.specs.Numbers.{two_numbers};
ghost use Rattle.c_input.specs.Reads.{Finds, Reads, ReadsEvery, Takes};
ghost use Rattle.c_function.specs.Heads.{behind_static, named, self_parameter, Completes, IsDealloc, IsIntHead, IsLen, IsObjectHead, IsStaticHead};

use c_input::{Input, Piece};
use c_tree::{CHead, FieldNumber, Numbered};

// Takes the next token, where it is a class and a field of it behind the letters.
fn field(input: &mut Input, letters: &[u8]) -> Option<FieldNumber>
    ensures some { Reads IsFieldNumber (λ f. Word ((letters.now ++ two_numbers f.class.module f.class.index) ++ (codes "_" ++ decimal f.field)) ∷ []) input.old result input.new }
    ensures every { ReadsEvery IsFieldNumber (λ f. Word ((letters.now ++ two_numbers f.class.module f.class.index) ++ (codes "_" ++ decimal f.field)) ∷ []) input.old result }
{
    let word = input.next_word()?;
    let found = c_word::of_field(letters, word)?;
    input.word()?;
    Some(found)
}

// `cyc_w_0_1(PyObject *self, PyObject *const *args, Py_ssize_t nargs)`, behind the name
fn wrapper(input: &mut Input, number: Numbered) -> Option<CHead>
    ensures { Completes (CHead.Wrapper number) input.old result input.new }
{
    let parameters = [
        Piece::Sign(b"("),
        Piece::Word(b"PyObject"),
        Piece::Sign(b"*"),
        Piece::Word(b"self"),
        Piece::Sign(b","),
        Piece::Word(b"PyObject"),
        Piece::Sign(b"*"),
        Piece::Word(b"const"),
        Piece::Sign(b"*"),
        Piece::Word(b"args"),
        Piece::Sign(b","),
        Piece::Word(b"Py_ssize_t"),
        Piece::Word(b"nargs"),
        Piece::Sign(b")"),
    ];
    if input.fixed(&parameters) {
        Some(CHead::Wrapper(number))
    } else {
        None
    }
}

// `cyc_new_0_1(PyTypeObject *type, PyObject *args, PyObject *kwds)`, behind the name
fn new(input: &mut Input, number: Numbered) -> Option<CHead>
    ensures { Completes (CHead.New number) input.old result input.new }
{
    let parameters = [
        Piece::Sign(b"("),
        Piece::Word(b"PyTypeObject"),
        Piece::Sign(b"*"),
        Piece::Word(b"type"),
        Piece::Sign(b","),
        Piece::Word(b"PyObject"),
        Piece::Sign(b"*"),
        Piece::Word(b"args"),
        Piece::Sign(b","),
        Piece::Word(b"PyObject"),
        Piece::Sign(b"*"),
        Piece::Word(b"kwds"),
        Piece::Sign(b")"),
    ];
    if input.fixed(&parameters) {
        Some(CHead::New(number))
    } else {
        None
    }
}

// `cyc_init_0_1(PyObject *self, PyObject *args, PyObject *kwds)`, behind the name
fn init(input: &mut Input, number: Numbered) -> Option<CHead>
    ensures { Completes (CHead.Init number) input.old result input.new }
{
    let parameters = [
        Piece::Sign(b"("),
        Piece::Word(b"PyObject"),
        Piece::Sign(b"*"),
        Piece::Word(b"self"),
        Piece::Sign(b","),
        Piece::Word(b"PyObject"),
        Piece::Sign(b"*"),
        Piece::Word(b"args"),
        Piece::Sign(b","),
        Piece::Word(b"PyObject"),
        Piece::Sign(b"*"),
        Piece::Word(b"kwds"),
        Piece::Sign(b")"),
    ];
    if input.fixed(&parameters) {
        Some(CHead::Init(number))
    } else {
        None
    }
}

// `cyc_item_0_1(PyObject *self, PyObject *k)`, behind the name
fn item(input: &mut Input, number: Numbered) -> Option<CHead>
    ensures { Completes (CHead.Item number) input.old result input.new }
{
    let parameters = [
        Piece::Sign(b"("),
        Piece::Word(b"PyObject"),
        Piece::Sign(b"*"),
        Piece::Word(b"self"),
        Piece::Sign(b","),
        Piece::Word(b"PyObject"),
        Piece::Sign(b"*"),
        Piece::Word(b"k"),
        Piece::Sign(b")"),
    ];
    if input.fixed(&parameters) {
        Some(CHead::Item(number))
    } else {
        None
    }
}

// `cyc_has_0_1(PyObject *self, PyObject *k)`, behind the name
fn has(input: &mut Input, number: Numbered) -> Option<CHead>
    ensures { Completes (CHead.Has number) input.old result input.new }
{
    let parameters = [
        Piece::Sign(b"("),
        Piece::Word(b"PyObject"),
        Piece::Sign(b"*"),
        Piece::Word(b"self"),
        Piece::Sign(b","),
        Piece::Word(b"PyObject"),
        Piece::Sign(b"*"),
        Piece::Word(b"k"),
        Piece::Sign(b")"),
    ];
    if input.fixed(&parameters) {
        Some(CHead::Has(number))
    } else {
        None
    }
}

// `cyc_get_0_1_2(PyObject *self, void *closure)`, behind the name
fn getter(input: &mut Input, number: FieldNumber) -> Option<CHead>
    ensures { Completes (CHead.Getter number) input.old result input.new }
{
    let parameters = [
        Piece::Sign(b"("),
        Piece::Word(b"PyObject"),
        Piece::Sign(b"*"),
        Piece::Word(b"self"),
        Piece::Sign(b","),
        Piece::Word(b"void"),
        Piece::Sign(b"*"),
        Piece::Word(b"closure"),
        Piece::Sign(b")"),
    ];
    if input.fixed(&parameters) {
        Some(CHead::Getter(number))
    } else {
        None
    }
}

// `cyc_set_0_1_2(PyObject *self, PyObject *value, void *closure)`, behind the name
fn setter(input: &mut Input, number: FieldNumber) -> Option<CHead>
    ensures { Completes (CHead.Setter number) input.old result input.new }
{
    let parameters = [
        Piece::Sign(b"("),
        Piece::Word(b"PyObject"),
        Piece::Sign(b"*"),
        Piece::Word(b"self"),
        Piece::Sign(b","),
        Piece::Word(b"PyObject"),
        Piece::Sign(b"*"),
        Piece::Word(b"value"),
        Piece::Sign(b","),
        Piece::Word(b"void"),
        Piece::Sign(b"*"),
        Piece::Word(b"closure"),
        Piece::Sign(b")"),
    ];
    if input.fixed(&parameters) {
        Some(CHead::Setter(number))
    } else {
        None
    }
}

// A head behind `static PyObject *`.
fn object_head(input: &mut Input) -> Option<CHead>
    ensures some { Finds IsObjectHead named input.old result input.new }
    ensures every { ReadsEvery IsObjectHead named input.old result }
{
    if let Some(number) = input.numbered(b"cyc_w_") {
        return wrapper(input, number);
    }
    if let Some(number) = input.numbered(b"cyc_new_") {
        return new(input, number);
    }
    if let Some(number) = input.numbered(b"cyc_item_") {
        return item(input, number);
    }
    let number = field(input, b"cyc_get_")?;
    getter(input, number)
}

// A head behind `static int`.
fn int_head(input: &mut Input) -> Option<CHead>
    ensures some { Finds IsIntHead named input.old result input.new }
    ensures every { ReadsEvery IsIntHead named input.old result }
{
    if let Some(number) = input.numbered(b"cyc_init_") {
        return init(input, number);
    }
    if let Some(number) = input.numbered(b"cyc_has_") {
        return has(input, number);
    }
    if let Some(number) = field(input, b"cyc_set_") {
        return setter(input, number);
    }
    if input.fixed(&[
        Piece::Word(b"cyc_body"),
        Piece::Sign(b"("),
        Piece::Word(b"void"),
        Piece::Sign(b")"),
    ]) {
        Some(CHead::Body)
    } else {
        None
    }
}

// Takes `(PyObject *self)`.
fn takes_self(input: &mut Input) -> bool
    ensures { Takes self_parameter input.old result input.new }
{
    input.fixed(&[
        Piece::Sign(b"("),
        Piece::Word(b"PyObject"),
        Piece::Sign(b"*"),
        Piece::Word(b"self"),
        Piece::Sign(b")"),
    ])
}

// `cyc_dealloc_0_1(PyObject *self)`
fn dealloc(input: &mut Input) -> Option<CHead>
    ensures some { Finds IsDealloc named input.old result input.new }
    ensures every { ReadsEvery IsDealloc named input.old result }
{
    let number = input.numbered(b"cyc_dealloc_")?;
    if takes_self(input) {
        Some(CHead::Dealloc(number))
    } else {
        None
    }
}

// `cyc_len_0_1(PyObject *self)`
fn len(input: &mut Input) -> Option<CHead>
    ensures some { Finds IsLen named input.old result input.new }
    ensures every { ReadsEvery IsLen named input.old result }
{
    let number = input.numbered(b"cyc_len_")?;
    if takes_self(input) {
        Some(CHead::Len(number))
    } else {
        None
    }
}

// A head behind `static`.
pub fn static_head(input: &mut Input) -> Option<CHead>
    ensures some { Finds IsStaticHead behind_static input.old result input.new }
    ensures every { ReadsEvery IsStaticHead behind_static input.old result }
{
    if input.fixed(&[Piece::Word(b"PyObject"), Piece::Sign(b"*")]) {
        return object_head(input);
    }
    if input.fixed(&[Piece::Word(b"int")]) {
        return int_head(input);
    }
    if input.fixed(&[Piece::Word(b"void")]) {
        return dealloc(input);
    }
    if input.fixed(&[Piece::Word(b"Py_ssize_t")]) {
        return len(input);
    }
    None
}
