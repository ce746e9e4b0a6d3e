//! The C trees that are written for a thin file.
#![tactic(auto)]

ghost use Rattle.std.specs.Prelude.{◌≡◌, ◌+◌, ◌^◌, ◌<◌, ◌≤◌, List, ℕ, [], ◌∷◌, length, map, replicate, IfOk, IfSome};
ghost use Rattle.thin_code.specs.ThinC.{numbers_below, object_parameter, null_object, leave_if_null, sum_lines, sum_function, wrong_count, wrapper_lines, wrapper_function, methods_item, place_items, header_items, module_items, thin_files, position_of, number_of, ask, temporary, keep, module_lines, builtins_lines, ready_lines, initialiser_lines, initialiser_function};
ghost use Rattle.cy_mean.specs.Texts.{arity_text};

use c_token::{Bytes, Exception};
use cy_mean::ThinFunction;
use itoa::Buffer;
use sqlite_items::Items;
use std::alloc::{AllocError, Global};
use thin_state::{
    ApiRow, BinaryOp, CFile, CFunction, CHead, CItem, CStmt, CType, CValue, Comparison,
    Declaration, FunctionName, InitialValue, Line, MethodRow, Parameter, Place, Target, Variable,
};

fn null_object(variable: Variable) -> Declaration
    ensures { result ≡ null_object variable }
{
    Declaration {
        kind: CType::PyObject,
        variable,
        initial: InitialValue::Null,
    }
}

fn temporary(number: u32) -> CValue
    ensures { result ≡ temporary number }
{
    CValue::Variable(Variable::Temporary(number))
}

fn leave_if_null(number: u32) -> Line
    ensures { result ≡ leave_if_null number }
{
    Line::Statement(CStmt::GotoIf(temporary(number), Comparison::Equal, CValue::Null, 0))
}

fn returned() -> CValue
    ensures { result ≡ CValue.Variable Variable.Returned }
{
    CValue::Variable(Variable::Returned)
}

fn sum_lines(alloc: Global, left: u32, right: u32) -> Result<Items<Line>, AllocError>
    ensures { IfOk result (λ lines. lines ≡ sum_lines left right) }
{
    let operands = vec![in alloc;
        CValue::Variable(Variable::Parameter(left)),
        CValue::Variable(Variable::Parameter(right)),
    ]?;
    let add = ApiRow::Number(BinaryOp::Add);
    let sum = CStmt::Api(Some(Variable::Temporary(0)), add, Items::from_vec(operands));
    let test = leave_if_null(0);
    let lines = vec![in alloc;
        Line::Statement(sum),
        test,
        Line::Statement(CStmt::Assign(Target::Variable(Variable::Returned), temporary(0))),
        Line::Label(0),
        Line::Statement(CStmt::Return(returned())),
    ]?;
    Ok(Items::from_vec(lines))
}

fn object_parameters(alloc: Global, count: u32) -> Result<Items<Parameter>, AllocError>
    ensures { IfOk result (λ parameters. parameters ≡ map object_parameter (numbers_below count)) }
{
    let mut parameters = Vec::new(alloc);
    for number in 0..count {
        parameters.push(Parameter {
            kind: CType::PyObject,
            number,
        })?;
    }
    Ok(Items::from_vec(parameters))
}

fn sum_function(alloc: Global, count: u32, left: u32, right: u32) -> Result<CFunction, AllocError>
    ensures { IfOk result (λ function. function ≡ sum_function count left right) }
{
    let parameters = object_parameters(alloc, count)?;
    let declarations = vec![in alloc;
        null_object(Variable::Returned),
        null_object(Variable::Temporary(0)),
    ]?;
    Ok(CFunction {
        head: CHead::Plain(0, 0, CType::PyObject, parameters),
        declarations: Items::from_vec(declarations),
        lines: sum_lines(alloc, left, right)?,
    })
}

fn arguments(alloc: Global, count: u32) -> Result<Items<CValue>, AllocError>
    ensures { IfOk result (λ values. values ≡ map CValue.Argument (numbers_below count)) }
{
    let mut values = Vec::new(alloc);
    for number in 0..count {
        values.push(CValue::Argument(number))?;
    }
    Ok(Items::from_vec(values))
}

fn arity_text(alloc: Global, name: &[u8], count: u32) -> Result<Bytes, AllocError>
    ensures { IfOk result (λ text. text ≡ arity_text name.now count) }
{
    let mut text = Vec::from_slice(alloc, name)?;
    text.extend_from_slice(b"() takes ")?;
    text.extend_from_slice(Buffer::new().format(count).as_bytes())?;
    text.extend_from_slice(b" arguments")?;
    Ok(Bytes::new(text))
}

fn wrong_count(alloc: Global, name: &[u8], count: u32) -> Result<Line, AllocError>
    ensures { IfOk result (λ line. line ≡ wrong_count name.now count) }
{
    let values = vec![in alloc;
        CValue::ExceptionType(Exception::TypeError),
        CValue::Str(arity_text(alloc, name, count)?),
    ]?;
    Ok(Line::Statement(CStmt::Api(None, ApiRow::ErrSetString, Items::from_vec(values))))
}

fn wrapper_lines(alloc: Global, name: &[u8], count: u32) -> Result<Items<Line>, AllocError>
    ensures { IfOk result (λ lines. lines ≡ wrapper_lines name.now count) }
{
    let given = CValue::Variable(Variable::ArgumentCount);
    let values = arguments(alloc, count)?;
    let call = CStmt::Call(Some(Variable::Returned), FunctionName::Plain(0, 0), values);
    let lines = vec![in alloc;
        Line::Statement(CStmt::GotoIf(given, Comparison::NotEqual, CValue::Int(count), 0)),
        Line::Statement(call),
        Line::Statement(CStmt::Return(returned())),
        Line::Label(0),
        wrong_count(alloc, name, count)?,
        Line::Statement(CStmt::Return(returned())),
    ]?;
    Ok(Items::from_vec(lines))
}

fn wrapper_function(alloc: Global, name: &[u8], count: u32) -> Result<CFunction, AllocError>
    ensures { IfOk result (λ function. function ≡ wrapper_function name.now count) }
{
    let declarations = vec![in alloc; null_object(Variable::Returned)]?;
    Ok(CFunction {
        head: CHead::Wrapper(0, 0),
        declarations: Items::from_vec(declarations),
        lines: wrapper_lines(alloc, name, count)?,
    })
}

fn ask(alloc: Global, number: u32, row: ApiRow, value: CValue) -> Result<Line, AllocError>
    ensures { IfOk result (λ line. line ≡ ask number row value) }
{
    let values = vec![in alloc; value]?;
    let destination = Some(Variable::Temporary(number));
    Ok(Line::Statement(CStmt::Api(destination, row, Items::from_vec(values))))
}

fn keep(place: Place, number: u32) -> Line
    ensures { result ≡ keep place number }
{
    Line::Statement(CStmt::Assign(Target::Place(place), temporary(number)))
}

fn module_lines(alloc: Global) -> Result<Vec<Line>, AllocError>
    ensures { IfOk result (λ lines. lines.items ≡ module_lines) }
{
    Ok(vec![in alloc;
        ask(alloc, 0, ApiRow::ModuleCreate, CValue::Definition)?,
        leave_if_null(0),
        keep(Place::Module, 0),
        ask(
            alloc,
            0,
            ApiRow::ModuleGetDict,
            CValue::Place(Place::Module)
        )?,
        Line::Statement(CStmt::Incref(temporary(0))),
        keep(Place::Dictionary, 0),
    ]?)
}

fn builtins_lines(alloc: Global) -> Result<Vec<Line>, AllocError>
    ensures { IfOk result (λ lines. lines.items ≡ builtins_lines) }
{
    let name = Bytes::new(Vec::from_slice(alloc, b"builtins")?);
    Ok(vec![in alloc;
        ask(alloc, 0, ApiRow::ImportModule, CValue::Str(name))?,
        leave_if_null(0),
        ask(alloc, 1, ApiRow::ModuleGetDict, temporary(0))?,
        Line::Statement(CStmt::Incref(temporary(1))),
        keep(Place::Builtins, 1),
        Line::Statement(CStmt::Decref(temporary(0))),
    ]?)
}

fn ready_lines(alloc: Global) -> Result<Vec<Line>, AllocError>
    ensures { IfOk result (λ lines. lines.items ≡ ready_lines) }
{
    let returned_place = Target::Variable(Variable::Returned);
    Ok(vec![in alloc;
        Line::Statement(CStmt::Assign(Target::Place(Place::Ready), CValue::Int(1))),
        Line::Statement(CStmt::Incref(CValue::Place(Place::Module))),
        Line::Statement(CStmt::Assign(returned_place, CValue::Place(Place::Module))),
        Line::Label(0),
        Line::Statement(CStmt::Return(returned())),
    ]?)
}

fn initialiser_lines(alloc: Global) -> Result<Items<Line>, AllocError>
    ensures { IfOk result (λ lines. lines ≡ initialiser_lines) }
{
    let mut lines = module_lines(alloc)?;
    lines.append(&mut builtins_lines(alloc)?)?;
    lines.append(&mut ready_lines(alloc)?)?;
    Ok(Items::from_vec(lines))
}

fn initialiser_function(alloc: Global, name: &[u8]) -> Result<CFunction, AllocError>
    ensures { IfOk result (λ function. function ≡ initialiser_function name.now) }
{
    let declarations = vec![in alloc;
        null_object(Variable::Returned),
        null_object(Variable::Temporary(0)),
        null_object(Variable::Temporary(1)),
    ]?;
    Ok(CFunction {
        head: CHead::Initializer(Bytes::new(Vec::from_slice(alloc, name)?)),
        declarations: Items::from_vec(declarations),
        lines: initialiser_lines(alloc)?,
    })
}

fn objects(alloc: Global, count: u32) -> Result<Items<CType>, AllocError>
    ensures { IfOk result (λ kinds. kinds ≡ replicate count CType.PyObject) }
{
    Ok(Items::from_vec(vec![in alloc; CType::PyObject; count as usize]?))
}

fn header(alloc: Global, count: u32) -> Result<CFile, AllocError>
    ensures { IfOk result (λ file. file.items ≡ header_items count) }
{
    let items = vec![in alloc;
        CItem::DefineClean,
        CItem::IncludePython,
        CItem::ViewType,
        CItem::RootStruct,
        CItem::FormatTest,
        CItem::Prototype(CType::PyObject, 0, 0, objects(alloc, count)?),
    ]?;
    Ok(CFile {
        items: Items::from_vec(items),
    })
}

fn place_items(alloc: Global) -> Result<Vec<CItem>, AllocError>
    ensures { IfOk result (λ items. items.items ≡ place_items) }
{
    Ok(vec![in alloc;
        CItem::IncludeSet,
        CItem::Static(CType::PyObject, Place::Module),
        CItem::Static(CType::PyObject, Place::Dictionary),
        CItem::Static(CType::PyObject, Place::Builtins),
        CItem::Static(CType::Int, Place::Ready),
    ]?)
}

fn methods(alloc: Global, name: &[u8]) -> Result<CItem, AllocError>
    ensures { IfOk result (λ item. item ≡ methods_item name.now) }
{
    let row = MethodRow {
        name: Bytes::new(Vec::from_slice(alloc, name)?),
        module: 0,
        index: 0,
    };
    Ok(CItem::Methods(Items::from_vec(vec![in alloc; row]?)))
}

fn definition(alloc: Global, name: &[u8]) -> Result<CItem, AllocError>
    ensures { IfOk result (λ item. item ≡ CItem.ModuleDefinition name.now) }
{
    Ok(CItem::ModuleDefinition(Bytes::new(Vec::from_slice(alloc, name)?)))
}

// The place of a name among the parameters.
fn position_of(name: &[u8], parameters: &[Bytes]) -> Option<usize>
    ensures value { result ≡ position_of name.now parameters.now }
    ensures within { IfSome result (λ place. place < length parameters.now) }
{
    parameters
        .iter()
        .position(|parameter| parameter.as_slice() == name)
}

fn number_of(name: &[u8], parameters: &[Bytes]) -> u32
    requires { length parameters.now < 2 ^ 32 }
    ensures { result ≡ number_of name.now parameters.now }
{
    match position_of(name, parameters) {
        Some(place) => place as u32,
        None => 0,
    }
}

fn module_file(alloc: Global, name: &[u8], thin: &ThinFunction) -> Result<CFile, AllocError>
    requires { length thin.now.parameters < 2 ^ 32 }
    ensures { IfOk result (λ file. file.items ≡ module_items name.now thin.now) }
{
    let parameters = thin.parameters.as_slice();
    let count = parameters.len() as u32;
    let left = number_of(thin.left.as_slice(), parameters);
    let right = number_of(thin.right.as_slice(), parameters);
    let mut items = place_items(alloc)?;
    let mut functions = vec![in alloc;
        CItem::Function(sum_function(alloc, count, left, right)?),
        CItem::Function(wrapper_function(alloc, thin.name.as_slice(), count)?),
        methods(alloc, thin.name.as_slice())?,
        definition(alloc, name)?,
        CItem::Function(initialiser_function(alloc, name)?),
    ]?;
    items.append(&mut functions)?;
    Ok(CFile {
        items: Items::from_vec(items),
    })
}

/// The C of a thin file of the module `name`: the header and the module's own file.
pub fn compile(alloc: Global, name: &[u8], thin: &ThinFunction) -> Result<Vec<CFile>, AllocError>
    requires { length thin.now.parameters < 2 ^ 32 }
    ensures { IfOk result (λ files. files.items ≡ thin_files name.now thin.now) }
{
    let count = thin.parameters.len() as u32;
    Ok(vec![in alloc; header(alloc, count)?, module_file(alloc, name, thin)?]?)
}
