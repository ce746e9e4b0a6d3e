//! The rule on special methods.
ghost use Rattle.std.specs.Prelude.{◌≡◌, ◌<◌, length};
ghost use Rattle.std.specs.Option.{option_copied};
ghost use Rattle.std.specs.List.{flat_map};
ghost use Rattle.declaration_rules.specs.Declarations.{Defined, Headed};
ghost use Rattle.declaration_rules.specs.DeclarationsShown.{declaration_shown, declarations_shown};
ghost use Rattle.declaration_rules.specs.Rules.{begins_special, ends_special, is_allowed, is_other, is_special, is_underscore, special_breaches};
ghost use Rattle.first_breach.specs.First.{IsLeastWith};

use crate::declaration::Declaration;
use crate::place::{Least, breaks};
use cy_base::FileId;
use cy_tree::{Def, Heading};
use first_breach::note_if;
use sqlite_items::at;

fn is_underscore(byte: Option<&u8>) -> bool
    ensures { result ≡ is_underscore (option_copied byte.entry) }
{
    match byte {
        None => false,
        Some(byte) => *byte == b'_',
    }
}

fn begins_special(name: &[u8]) -> bool
    ensures { result ≡ begins_special name.now }
{
    is_underscore(at(name, 0)) && is_underscore(at(name, 1))
}

fn ends_special(name: &[u8]) -> bool
    requires { 4 < length name.now }
    ensures { result ≡ ends_special name.now }
{
    is_underscore(at(name, name.len() - 2)) && is_underscore(at(name, name.len() - 1))
}

// Two underscores, something, and two underscores.
fn is_special(name: &[u8]) -> bool
    ensures { result ≡ is_special name.now }
{
    name.len() > 4 && (begins_special(name) && ends_special(name))
}

// The special methods that there are, with how many parameters they have.
fn is_allowed(name: &[u8], count: usize) -> bool
    ensures { result ≡ is_allowed name.now count }
{
    name == b"__init__".as_slice()
        || name == b"__cinit__".as_slice() && count == 1
        || name == b"__len__".as_slice() && count == 1
        || name == b"__getitem__".as_slice() && count == 2
        || name == b"__contains__".as_slice() && count == 2
}

fn is_other(name: &[u8], count: usize) -> bool
    ensures { result ≡ is_other name.now count }
{
    is_special(name) && !is_allowed(name, count)
}

fn judge_def(file: FileId, is_method: bool, def: &Def, least: Least) -> Least
    ensures { IsLeastWith least (special_breaches file (Defined is_method def.now)) result }
{
    let is_broken = is_method && is_other(def.name.text.bytes(), def.params.len());
    note_if(is_broken, least, breaks(file, 17, def.at))
}

fn judge_heading(file: FileId, is_method: bool, heading: &Heading, least: Least) -> Least
    ensures { IsLeastWith least (special_breaches file (Headed is_method heading.now)) result }
{
    let is_broken = is_method && is_special(heading.name.text.bytes());
    note_if(is_broken, least, breaks(file, 17, heading.at))
}

fn judge(file: FileId, declaration: Declaration<'_>, least: Least) -> Least
    ensures { IsLeastWith least (special_breaches file (declaration_shown declaration.entry)) result }
{
    match declaration {
        Declaration::Defined(is_method, def) => judge_def(file, is_method, def, least),
        Declaration::Headed(is_method, heading) => judge_heading(file, is_method, heading, least),
        Declaration::Opened(_) => least,
    }
}

/// A special method is one of five, with its number of parameters, and a `def` method.
pub(crate) fn judge_special(file: FileId, declarations: &[Declaration<'_>], least: Least) -> Least
    ensures { IsLeastWith least (flat_map (special_breaches file) (declarations_shown declarations.now)) result }
{
    let mut least = least;
    for declaration in declarations {
        least = judge(file, *declaration, least);
    }
    least
}
