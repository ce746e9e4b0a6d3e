//! Equality of names.
ghost use Rattle.std.specs.Prelude.{◌≡◌};
ghost use Rattle.c_value.specs.Names.{same_field, same_fixed, same_function, same_item, same_number, same_place, same_table, same_variable};

use crate::ItemPlace;
use c_tree::{FieldNumber, FixedParameter, FunctionName, Numbered, Place, TableName, Variable};

pub fn same_number(a: Numbered, b: Numbered) -> bool
    ensures { result ≡ same_number a b }
{
    a.module == b.module && a.index == b.index
}

pub fn same_field(a: FieldNumber, b: FieldNumber) -> bool
    ensures { result ≡ same_field a b }
{
    same_number(a.class, b.class) && a.field == b.field
}

pub fn same_item(a: ItemPlace, b: ItemPlace) -> bool
    ensures { result ≡ same_item a b }
{
    a.file == b.file && a.item == b.item
}

pub fn same_fixed(a: FixedParameter, b: FixedParameter) -> bool
    ensures { result ≡ same_fixed a b }
{
    match (a, b) {
        (FixedParameter::SelfObject, FixedParameter::SelfObject) => true,
        (FixedParameter::Arguments, FixedParameter::Arguments) => true,
        (FixedParameter::ArgumentCount, FixedParameter::ArgumentCount) => true,
        (FixedParameter::Type, FixedParameter::Type) => true,
        (FixedParameter::Keywords, FixedParameter::Keywords) => true,
        (FixedParameter::Key, FixedParameter::Key) => true,
        (FixedParameter::Value, FixedParameter::Value) => true,
        (FixedParameter::Closure, FixedParameter::Closure) => true,
        _ => false,
    }
}

pub fn same_place(a: Place, b: Place) -> bool
    ensures { result ≡ same_place a b }
{
    match (a, b) {
        (Place::Module, Place::Module) => true,
        (Place::Dictionary, Place::Dictionary) => true,
        (Place::Builtins, Place::Builtins) => true,
        (Place::Ready, Place::Ready) => true,
        (Place::Constant(i), Place::Constant(j)) => i == j,
        (Place::Global(i), Place::Global(j)) => i == j,
        _ => false,
    }
}

pub fn same_variable(a: Variable, b: Variable) -> bool
    ensures { result ≡ same_variable a b }
{
    match (a, b) {
        (Variable::Parameter(i), Variable::Parameter(j)) => i == j,
        (Variable::Local(i), Variable::Local(j)) => i == j,
        (Variable::Temporary(i), Variable::Temporary(j)) => i == j,
        (Variable::Returned, Variable::Returned) => true,
        (Variable::Fixed(p), Variable::Fixed(q)) => same_fixed(p, q),
        (Variable::Place(p), Variable::Place(q)) => same_place(p, q),
        _ => false,
    }
}

pub fn same_table(a: TableName, b: TableName) -> bool
    ensures { result ≡ same_table a b }
{
    match (a, b) {
        (TableName::OfFile, TableName::OfFile) => true,
        (TableName::OfClass(n), TableName::OfClass(m)) => same_number(n, m),
        _ => false,
    }
}

pub fn same_function(a: &FunctionName, b: &FunctionName) -> bool
    ensures { result ≡ same_function a.now b.now }
{
    match (a, b) {
        (FunctionName::Plain(n), FunctionName::Plain(m)) => same_number(*n, *m),
        (FunctionName::Wrapper(n), FunctionName::Wrapper(m)) => same_number(*n, *m),
        (FunctionName::Overridable(n), FunctionName::Overridable(m)) => same_number(*n, *m),
        (FunctionName::New(n), FunctionName::New(m)) => same_number(*n, *m),
        (FunctionName::Init(n), FunctionName::Init(m)) => same_number(*n, *m),
        (FunctionName::Dealloc(n), FunctionName::Dealloc(m)) => same_number(*n, *m),
        (FunctionName::Len(n), FunctionName::Len(m)) => same_number(*n, *m),
        (FunctionName::Item(n), FunctionName::Item(m)) => same_number(*n, *m),
        (FunctionName::Has(n), FunctionName::Has(m)) => same_number(*n, *m),
        (FunctionName::Getter(n), FunctionName::Getter(m)) => same_field(*n, *m),
        (FunctionName::Setter(n), FunctionName::Setter(m)) => same_field(*n, *m),
        (FunctionName::Body, FunctionName::Body) => true,
        (FunctionName::Initializer(n), FunctionName::Initializer(m)) => {
            n.as_slice() == m.as_slice()
        }
        _ => false,
    }
}
