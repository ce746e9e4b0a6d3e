use crate::{callee, exception, function, is_keyword, number, table, variable};
use c_token::Exception;
use c_tree::{Callee, FixedParameter, FunctionName, Numbered, Place, TableName, Variable};
use std::test::Fail;

#[test]
fn words_as_numbers(rt: HostRuntime) {
    let rows = [
        ("0", Some(0)),
        ("42", Some(42)),
        ("4294967295", Some(4294967295)),
        ("4294967296", None),
        ("18446744073709551616", None),
        ("01", None),
        ("+1", None),
        ("", None),
        ("1a", None),
    ];
    for (word, wanted) in rows.iter() {
        assert!(rt; number(word.as_bytes()) == *wanted, "{word}");
    }
}

// Names as the written C has them, and names that are nearly so.
#[test]
fn words_as_variables(rt: HostRuntime) {
    let rows = [
        ("p0", Some(Variable::Parameter(0))),
        ("v10", Some(Variable::Local(10))),
        ("t4294967295", Some(Variable::Temporary(4294967295))),
        ("r", Some(Variable::Returned)),
        ("self", Some(Variable::Fixed(FixedParameter::SelfObject))),
        ("k", Some(Variable::Fixed(FixedParameter::Key))),
        ("value", Some(Variable::Fixed(FixedParameter::Value))),
        ("type", Some(Variable::Fixed(FixedParameter::Type))),
        ("closure", Some(Variable::Fixed(FixedParameter::Closure))),
        ("cyc_m", Some(Variable::Place(Place::Module))),
        ("cyc_c_7", Some(Variable::Place(Place::Constant(7)))),
        ("cyc_g_0", Some(Variable::Place(Place::Global(0)))),
        ("p01", None),
        ("p", None),
        ("p4294967296", None),
        ("r0", None),
        ("cyc_c_", None),
        ("cyc_c_07", None),
        ("cyc_f_0_1", None),
    ];
    for (word, wanted) in rows.iter() {
        assert!(rt; variable(word.as_bytes()) == *wanted, "{word}");
    }
}

// What a function is, and its numbers.
fn shown(name: &FunctionName) -> (&'static str, u32, u32, u32) {
    match name {
        FunctionName::Plain(n) => ("plain", n.module, n.index, 0),
        FunctionName::Wrapper(n) => ("wrapper", n.module, n.index, 0),
        FunctionName::Overridable(n) => ("overridable", n.module, n.index, 0),
        FunctionName::New(n) => ("new", n.module, n.index, 0),
        FunctionName::Init(n) => ("init", n.module, n.index, 0),
        FunctionName::Dealloc(n) => ("dealloc", n.module, n.index, 0),
        FunctionName::Len(n) => ("len", n.module, n.index, 0),
        FunctionName::Item(n) => ("item", n.module, n.index, 0),
        FunctionName::Has(n) => ("has", n.module, n.index, 0),
        FunctionName::Getter(f) => ("getter", f.class.module, f.class.index, f.field),
        FunctionName::Setter(f) => ("setter", f.class.module, f.class.index, f.field),
        FunctionName::Body => ("body", 0, 0, 0),
        FunctionName::Initializer(_) => ("initializer", 0, 0, 0),
    }
}

#[test]
fn words_as_functions(rt: HostRuntime) -> Result<(), Fail> {
    let rows = [
        ("cyc_f_0_1", Some(("plain", 0, 1, 0))),
        ("cyc_w_2_3", Some(("wrapper", 2, 3, 0))),
        ("cyc_x_4_0", Some(("overridable", 4, 0, 0))),
        ("cyc_new_1_2", Some(("new", 1, 2, 0))),
        ("cyc_init_1_2", Some(("init", 1, 2, 0))),
        ("cyc_dealloc_1_2", Some(("dealloc", 1, 2, 0))),
        ("cyc_len_1_2", Some(("len", 1, 2, 0))),
        ("cyc_item_1_2", Some(("item", 1, 2, 0))),
        ("cyc_has_1_2", Some(("has", 1, 2, 0))),
        ("cyc_get_0_1_2", Some(("getter", 0, 1, 2))),
        ("cyc_set_10_11_12", Some(("setter", 10, 11, 12))),
        ("cyc_body", Some(("body", 0, 0, 0))),
        ("PyInit_m", Some(("initializer", 0, 0, 0))),
        ("PyInit_", None),
        ("PyInit_1", None),
        ("cyc_f_0", None),
        ("cyc_f_0_01", None),
        ("cyc_f_0_1_2", None),
        ("cyc_get_0_1", None),
        ("cyc_f__1", None),
        ("int", None),
        ("self", None),
    ];
    for (word, wanted) in rows.iter() {
        match (function(rt.alloc(), word.as_bytes())?, wanted) {
            (Some(name), Some(parts)) => assert!(rt; shown(&name) == *parts, "{word}"),
            (None, None) => {}
            _ => assert!(rt; false, "{word}"),
        }
    }
    Ok(())
}

#[test]
fn words_as_callees(rt: HostRuntime) -> Result<(), Fail> {
    let rows = [
        ("cyc_f_0_1", "function"),
        ("PyErr_Occurred", "named"),
        ("cyc_f_0", "named"),
        ("int", "none"),
        ("_Thread_local", "none"),
        ("1a", "none"),
        ("", "none"),
    ];
    for (word, wanted) in rows.iter() {
        let found = match callee(rt.alloc(), word.as_bytes())? {
            Some(Callee::Function(_)) => "function",
            Some(Callee::Named(_)) => "named",
            None => "none",
        };
        assert!(rt; found == *wanted, "{word}");
    }
    Ok(())
}

#[test]
fn other_words(rt: HostRuntime) {
    let class = Numbered {
        module: 3,
        index: 4,
    };
    assert!(rt; table(b"cyc_md") == Some(TableName::OfFile));
    assert!(rt; table(b"cyc_ms_3_4") == Some(TableName::OfClass(class)));
    assert!(rt; table(b"cyc_ms_3").is_none());
    assert!(rt; exception(b"PyExc_ValueError") == Some(Exception::ValueError));
    assert!(rt; exception(b"PyExc_Value").is_none());
    assert!(rt; is_keyword(b"while") && !is_keyword(b"whiles"));
}
