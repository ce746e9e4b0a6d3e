//! Variables, tables and exceptions.
ghost use Rattle.std.specs.Prelude.{◌≡◌, IfSome};
ghost use Rattle.c_token.specs.declared.exception.Exception.{Exception as ExceptionValue};
ghost use Rattle.c_tree.specs.declared.name.FixedParameter.{FixedParameter as FixedValue};
ghost use Rattle.c_tree.specs.declared.name.Place.{Place as PlaceValue};
ghost use Rattle.c_tree.specs.declared.name.TableName.{TableName as TableValue};
ghost use Rattle.c_tree.specs.declared.name.Variable.{Variable as VariableValue};
ghost use Rattle.c_tree.specs.Forms.{IsPlace, IsTableName, IsVariable};
ghost use Rattle.c_tree.specs.Names.{fixed_name, methods_name, place_name, variable_name};
ghost use Rattle.c_tree.specs.Values.{exception_name};

use crate::numbers::{lettered, numbered};
use c_token::Exception;
use c_tree::{FixedParameter, Place, TableName, Variable};

// The parameter of a fixed head with this name.
fn fixed(bytes: &[u8]) -> Option<FixedParameter>
    ensures some { IfSome result (λ x. fixed_name x ≡ bytes.now) }
    ensures every { (x : FixedValue) → fixed_name x ≡ bytes.now → result ≡ Some x }
{
    match bytes {
        b"self" => Some(FixedParameter::SelfObject),
        b"args" => Some(FixedParameter::Arguments),
        b"nargs" => Some(FixedParameter::ArgumentCount),
        b"type" => Some(FixedParameter::Type),
        b"kwds" => Some(FixedParameter::Keywords),
        b"k" => Some(FixedParameter::Key),
        b"value" => Some(FixedParameter::Value),
        b"closure" => Some(FixedParameter::Closure),
        _ => None,
    }
}

// The place of a file with this name.
fn place(bytes: &[u8]) -> Option<Place>
    ensures some { IfSome result (λ x. IsPlace x × (place_name x ≡ bytes.now)) }
    ensures every { (x : PlaceValue) → IsPlace x → place_name x ≡ bytes.now → result ≡ Some x }
{
    if let Some(number) = lettered(b"cyc_c_", bytes) {
        return Some(Place::Constant(number));
    }
    if let Some(number) = lettered(b"cyc_g_", bytes) {
        return Some(Place::Global(number));
    }
    if bytes == b"cyc_m".as_slice() {
        return Some(Place::Module);
    }
    if bytes == b"cyc_d".as_slice() {
        return Some(Place::Dictionary);
    }
    if bytes == b"cyc_b".as_slice() {
        return Some(Place::Builtins);
    }
    if bytes == b"cyc_r".as_slice() {
        return Some(Place::Ready);
    }
    None
}

/// The variable with this name.
pub fn variable(bytes: &[u8]) -> Option<Variable>
    ensures some { IfSome result (λ x. IsVariable x × (variable_name x ≡ bytes.now)) }
    ensures every { (x : VariableValue) → IsVariable x → variable_name x ≡ bytes.now → result ≡ Some x }
{
    if let Some(number) = lettered(b"p", bytes) {
        return Some(Variable::Parameter(number));
    }
    if let Some(number) = lettered(b"v", bytes) {
        return Some(Variable::Local(number));
    }
    if let Some(number) = lettered(b"t", bytes) {
        return Some(Variable::Temporary(number));
    }
    if bytes == b"r".as_slice() {
        return Some(Variable::Returned);
    }
    if let Some(parameter) = fixed(bytes) {
        return Some(Variable::Fixed(parameter));
    }
    if let Some(place) = place(bytes) {
        return Some(Variable::Place(place));
    }
    None
}

/// The table of methods with this name.
pub fn table(bytes: &[u8]) -> Option<TableName>
    ensures some { IfSome result (λ x. IsTableName x × (methods_name x ≡ bytes.now)) }
    ensures every { (x : TableValue) → IsTableName x → methods_name x ≡ bytes.now → result ≡ Some x }
{
    if bytes == b"cyc_md".as_slice() {
        return Some(TableName::OfFile);
    }
    if let Some(class) = numbered(b"cyc_ms_", bytes) {
        return Some(TableName::OfClass(class));
    }
    None
}

/// The exception type with this name.
pub fn exception(bytes: &[u8]) -> Option<Exception>
    ensures some { IfSome result (λ e. exception_name e ≡ bytes.now) }
    ensures every { (e : ExceptionValue) → exception_name e ≡ bytes.now → result ≡ Some e }
{
    if bytes == b"PyExc_BaseException".as_slice() {
        return Some(Exception::BaseException);
    }
    if bytes == b"PyExc_TypeError".as_slice() {
        return Some(Exception::TypeError);
    }
    if bytes == b"PyExc_NotImplementedError".as_slice() {
        return Some(Exception::NotImplementedError);
    }
    if bytes == b"PyExc_OverflowError".as_slice() {
        return Some(Exception::OverflowError);
    }
    if bytes == b"PyExc_ZeroDivisionError".as_slice() {
        return Some(Exception::ZeroDivisionError);
    }
    if bytes == b"PyExc_ValueError".as_slice() {
        return Some(Exception::ValueError);
    }
    if bytes == b"PyExc_IndexError".as_slice() {
        return Some(Exception::IndexError);
    }
    if bytes == b"PyExc_AttributeError".as_slice() {
        return Some(Exception::AttributeError);
    }
    if bytes == b"PyExc_SystemError".as_slice() {
        return Some(Exception::SystemError);
    }
    if bytes == b"PyExc_NameError".as_slice() {
        return Some(Exception::NameError);
    }
    if bytes == b"PyExc_UnboundLocalError".as_slice() {
        return Some(Exception::UnboundLocalError);
    }
    None
}
