//! Where labels, statements and functions stand.
ghost use Rattle.std.specs.Prelude.{◌≡◌, Some, MatchOption, drop, slice_get};
ghost use Rattle.std.specs.Option.{option_copied};
ghost use Rattle.thin_state.specs.State.{spots_at};
ghost use Rattle.thin_state.specs.Reads.{items_at, holds_one, spot_holds_one, is_ready, method_row, method_in, is_named, module_from};
ghost use Rattle.thin_look.specs.Views.{as_function, function_there, function_at, lines_in};
ghost use Rattle.thin_tables.specs.Lines.{label_line, Lines, NoLine, next_line};
ghost use Rattle.thin_look.specs.Lookups.{is_wanted, standing_from, standing_among, wrapper_standing, standing_named, row_standing, standing_in, standing_entered, standing_next};

use crate::operands::{find_module, find_spot};
use crate::parts::{LinkedFile, Standing, Wanted};
use c_token::Bytes;
use sqlite_items::{Items, at};
use thin_state::{CFunction, CHead, CItem, Callee, FunctionName, MethodRow, Place, Spot, Value};
use thin_tables::{Following, LinkedItem};

fn is_wanted(wanted: Wanted, head: &CHead) -> bool
    ensures { result ≡ is_wanted wanted head.now }
{
    match (wanted, head) {
        (Wanted::Plain(m, j), CHead::Plain(n, i, _, _)) => m == *n && j == *i,
        (Wanted::Wrapper(m, j), CHead::Wrapper(n, i)) => m == *n && j == *i,
        (Wanted::Initializer, CHead::Initializer(_)) => true,
        _ => false,
    }
}

/// The first function of a file with a head.
fn find_in(file: usize, wanted: Wanted, items: &[LinkedItem]) -> Option<Standing>
    ensures { result ≡ standing_from file 0 wanted items.now }
{
    for (item, it) in items.iter().enumerate() {
        if let CItem::Function(function) = it.item() {
            if is_wanted(wanted, &function.head) {
                return Some(Standing { file, item });
            }
        }
    }
    None
}

/// The items of a file, by its number.
pub fn items_at(files: &[LinkedFile], file: usize) -> &[LinkedItem]
    ensures { result.now ≡ items_at files.now file }
{
    match files.get(file) {
        Some(file) => file.items(),
        None => &[],
    }
}

/// The first of all files from a number on.
fn find_among(files: &[LinkedFile], from: usize, wanted: Wanted) -> Option<Standing>
    ensures { result ≡ standing_among from wanted (drop from files.now) }
{
    for file in from..files.len() {
        let found = find_in(file, wanted, files[file].items());
        if found.is_some() {
            return found;
        }
    }
    None
}

fn find_wrapper(files: &[LinkedFile], file: usize, module: u32, index: u32) -> Option<Standing>
    ensures { result ≡ wrapper_standing files.now file «module» index }
{
    find_in(file, Wanted::Wrapper(module, index), items_at(files, file))
}

/// The function that C in a file names.
pub fn find_function(files: &[LinkedFile], file: usize, name: &FunctionName) -> Option<Standing>
    ensures { result ≡ standing_named files.now file name.now }
{
    match name {
        FunctionName::Plain(m, j) => find_among(files, 0, Wanted::Plain(*m, *j)),
        FunctionName::Wrapper(m, j) => find_wrapper(files, file, *m, *j),
        FunctionName::Initializer(_) => None,
    }
}

/// The next initialisation.
pub fn find_initializer(files: &[LinkedFile], begun: usize) -> Option<Standing>
    ensures { result ≡ standing_next files.now begun }
{
    find_among(files, begun, Wanted::Initializer)
}

fn function_in(item: &CItem) -> Option<&CFunction>
    ensures { option_copied result ≡ as_function (Some item.now) }
{
    match item {
        CItem::Function(function) => Some(function),
        _ => None,
    }
}

fn as_function(item: Option<&LinkedItem>) -> Option<&CFunction>
    ensures { option_copied result ≡ as_function (option_copied item.entry) }
{
    match item {
        None => None,
        Some(item) => function_in(item.item()),
    }
}

/// The function that stands there.
pub fn function_there(files: &[LinkedFile], file: usize, item: usize) -> Option<&CFunction>
    ensures { option_copied result ≡ function_there files.now file item }
{
    as_function(item_at(files, file, item))
}

fn holds_one(value: &Value) -> bool
    ensures { result ≡ holds_one value.now }
{
    match value {
        Value::Number(number) => *number == 1,
        _ => false,
    }
}

fn spot_holds_one(spot: Option<&Spot>) -> bool
    ensures { result ≡ spot_holds_one (option_copied spot.entry) }
{
    match spot {
        None => false,
        Some(spot) => holds_one(&spot.value),
    }
}

/// Whether the functions of a file's module may be entered: `cyc_r` holds 1.
fn is_ready(spots: &[Spot]) -> bool
    ensures { result ≡ is_ready spots.now }
{
    spot_holds_one(find_spot(spots, Place::Ready))
}

pub fn spots_at(places: &[Items<Spot>], file: usize) -> &[Spot]
    ensures { result.now ≡ spots_at places.now file }
{
    match places.get(file) {
        Some(spots) => spots.as_slice(),
        None => &[],
    }
}

fn find_row<'a>(rows: &'a [MethodRow], name: &[u8]) -> Option<&'a MethodRow>
    ensures { option_copied result ≡ method_row rows.now name.now }
{
    for row in rows {
        if row.name.as_slice() == name {
            return Some(row);
        }
    }
    None
}

fn find_method<'a>(items: &'a [LinkedItem], name: &[u8]) -> Option<&'a MethodRow>
    ensures { option_copied result ≡ method_in items.now name.now }
{
    for item in items {
        if let CItem::Methods(rows) = item.item() {
            return find_row(rows.as_slice(), name);
        }
    }
    None
}

fn is_named(name: Option<&Bytes>, wanted: &[u8]) -> bool
    ensures { result ≡ is_named (option_copied name.entry) wanted.now }
{
    match name {
        None => false,
        Some(name) => name.as_slice() == wanted,
    }
}

/// The first file that defines the module.
fn find_file(files: &[LinkedFile], module: &[u8]) -> Option<usize>
    ensures { result ≡ module_from 0 files.now «module».now }
{
    for (k, file) in files.iter().enumerate() {
        if is_named(find_module(file.items()), module) {
            return Some(k);
        }
    }
    None
}

fn find_row_function(files: &[LinkedFile], file: usize, row: Option<&MethodRow>) -> Option<Standing>
    ensures { result ≡ row_standing files.now file (option_copied row.entry) }
{
    match row {
        None => None,
        Some(row) => find_wrapper(files, file, row.module, row.index),
    }
}

fn find_in_module(
    files: &[LinkedFile],
    places: &[Items<Spot>],
    name: &[u8],
    file: Option<usize>,
) -> Option<Standing>
    ensures { result ≡ standing_in files.now places.now name.now file }
{
    match file {
        None => None,
        Some(file) => {
            if !is_ready(spots_at(places, file)) {
                return None;
            }
            find_row_function(files, file, find_method(items_at(files, file), name))
        }
    }
}

/// The function that an entry enters, where it fits.
pub fn find_entered(
    files: &[LinkedFile],
    places: &[Items<Spot>],
    callee: &Callee,
) -> Option<Standing>
    ensures { result ≡ standing_entered files.now places.now callee.now }
{
    match callee {
        Callee::Function(path) => {
            let file = find_file(files, path.module.as_slice());
            find_in_module(files, places, path.name.as_slice(), file)
        }
        Callee::Method(_) => None,
    }
}

/// The item of a file, by their numbers.
fn item_at(files: &[LinkedFile], file: usize, item: usize) -> Option<&LinkedItem>
    ensures { option_copied result ≡ slice_get (items_at files.now file) item }
{
    at(items_at(files, file), item)
}

fn label_in(item: Option<&LinkedItem>, label: u32) -> Option<usize>
    ensures { result ≡ label_line (lines_in (option_copied item.entry)) label }
{
    match item {
        None => None,
        Some(item) => item.label(label),
    }
}

/// The number of the line after a label in a function.
#[tactic(auto, using(crate::proofs::Bodies::lines))]
pub fn find_label(files: &[LinkedFile], file: usize, item: usize, label: u32) -> Option<usize>
    ensures { result ≡ label_line (function_at files.now file item).lines label }
{
    label_in(item_at(files, file, item), label)
}

fn statement_in(item: Option<&LinkedItem>, from: usize) -> Option<Following<'_>>
    ensures { MatchOption result (next_line (drop from (lines_in (option_copied item.entry))) ≡ NoLine)
        (λ next. next_line (drop from (lines_in (option_copied item.entry))) ≡ Lines next.statement.now (drop next.after (lines_in (option_copied item.entry)))) }
{
    match item {
        None => None,
        Some(item) => item.statement(from),
    }
}

/// The first statement of a function from a line on.
#[tactic(auto, using(crate::proofs::Bodies::lines))]
pub fn find_statement(
    files: &[LinkedFile],
    file: usize,
    item: usize,
    from: usize,
) -> Option<Following<'_>>
    ensures { MatchOption result (next_line (drop from (function_at files.now file item).lines) ≡ NoLine)
        (λ next. next_line (drop from (function_at files.now file item).lines) ≡ Lines next.statement.now (drop next.after (function_at files.now file item).lines)) }
{
    statement_in(item_at(files, file, item), from)
}
