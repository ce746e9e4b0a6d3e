//! The types of the locals of a function.
ghost use Rattle.std.specs.Prelude.{◌≡◌, ◌++◌, List, Some, IfOk, OnOk, map, slice_get};
ghost use Rattle.std.specs.Option.{option_copied};
ghost use Rattle.cy_declared.specs.Shown.{all_typed_shown, declarations_shown, owned_shown};
ghost use Rattle.cy_declared.specs.Named.{number_of, numbered};
ghost use Rattle.cy_declared.specs.Tables.{type_at, type_table};
ghost use Rattle.cy_declared.specs.Variables.{Typed, named_at, typed_as, typed_declaration, typed_names, typed_param, typed_params};
ghost use Rattle.name_table.specs.Entries.{kind_among, texts};
ghost use Rattle.name_table.specs.EntriesShown.{slices};
ghost use Rattle.name_table.specs.Shown.{shown};

use crate::owned::{Noted, OwnedRef};
use crate::table::{number_of, number_table};
use crate::types::{or_object, place_type};
use crate::variable::{DeclarationRef, note_declared};
use cy_base::OutOfMemory;
use cy_scope::Known;
use cy_tree::{ClassId, NamedSet, Node, Param, Scope, ScopeId, Ty};
use name_table::NameTable;
use sqlite_items::{Items, at};
use std::alloc::Global;

/// A name with its type. The project's own.
#[derive(Clone, Copy)]
pub struct TypedRef<'a> {
    pub name: &'a [u8],
    pub kind: Ty,
}

type Typed<'a> = Vec<TypedRef<'a>>;

fn note_params<'a>(
    known: &Known,
    set: &NamedSet,
    module: u32,
    params: &'a [Param],
    out: &mut Typed<'a>,
) -> Noted
    ensures { OnOk result (all_typed_shown out.new.items ≡ all_typed_shown out.old.items ++ map (typed_param known.now set.now «module») params.now) }
{
    for param in params {
        let name = param.name.text.bytes();
        let kind = place_type(known, set, module, param.kind.as_ref());
        out.push(TypedRef { name, kind })?;
    }
    Ok(())
}

fn note_method_params<'a>(
    known: &Known,
    set: &NamedSet,
    module: u32,
    class: ClassId,
    params: &'a [Param],
    out: &mut Typed<'a>,
) -> Noted
    ensures { OnOk result (all_typed_shown out.new.items ≡ all_typed_shown out.old.items ++ typed_params known.now set.now «module» (Some class) params.now) }
{
    match params {
        [] => Ok(()),
        [first, rest @ ..] => {
            let name = first.name.text.bytes();
            let kind = Ty::Class(class);
            out.push(TypedRef { name, kind })?;
            note_params(known, set, module, rest, out)
        }
    }
}

fn note_typed_params<'a>(
    known: &Known,
    set: &NamedSet,
    module: u32,
    owner: Option<ClassId>,
    params: &'a [Param],
    out: &mut Typed<'a>,
) -> Noted
    ensures { OnOk result (all_typed_shown out.new.items ≡ all_typed_shown out.old.items ++ typed_params known.now set.now «module» owner params.now) }
{
    match owner {
        None => note_params(known, set, module, params, out),
        Some(class) => note_method_params(known, set, module, class, params, out),
    }
}

fn note_declarations<'a>(
    known: &Known,
    set: &NamedSet,
    scope: ScopeId,
    declared: &[DeclarationRef<'a>],
    out: &mut Typed<'a>,
) -> Noted
    ensures { OnOk result (all_typed_shown out.new.items ≡ all_typed_shown out.old.items
        ++ map (typed_declaration known.now set.now scope) (declarations_shown declared.now)) }
{
    for declaration in declared {
        let name = declaration.name.text.bytes();
        let kind = place_type(known, set, scope, declaration.kind);
        out.push(TypedRef { name, kind })?;
    }
    Ok(())
}

fn note_typed_names<'a>(
    alloc: Global,
    known: &Known,
    set: &NamedSet,
    module: u32,
    scope: ScopeId,
    owned: OwnedRef<'a>,
    out: &mut Typed<'a>,
) -> Noted
    ensures { OnOk result (all_typed_shown out.new.items ≡ all_typed_shown out.old.items ++ typed_names known.now set.now «module» scope (owned_shown owned.entry)) }
{
    note_typed_params(
        known,
        set,
        module,
        owned.owner,
        owned.function.params(),
        out,
    )?;
    let mut declared = Vec::new(alloc);
    note_declared(alloc, Node::Suite(owned.function.body()), &mut declared)?;
    note_declarations(known, set, scope, declared.as_slice(), out)
}

/// The types of names. The project's own.
#[derive(Drop)]
pub struct TypeTable {
    pub names: NameTable,
    pub types: Items<Ty>,
}

fn note_names<'a>(typed: &[TypedRef<'a>], out: &mut Vec<&'a [u8]>) -> Noted
    ensures { OnOk result (slices out.new.items ≡ slices out.old.items ++ map (λ t. t.0) (all_typed_shown typed.now)) }
{
    for entry in typed {
        out.push(entry.name)?;
    }
    Ok(())
}

fn note_types(typed: &[TypedRef<'_>], out: &mut Items<Ty>) -> Noted
    ensures { OnOk result (out.new ≡ out.old ++ map (λ t. t.1) (all_typed_shown typed.now)) }
{
    for entry in typed {
        out.push(entry.kind)?;
    }
    Ok(())
}

fn type_table(alloc: Global, typed: &[TypedRef<'_>]) -> Result<TypeTable, OutOfMemory>
    ensures { IfOk result (λ table. table ≡ type_table (all_typed_shown typed.now)) }
{
    let mut names = Vec::new(alloc);
    note_names(typed, &mut names)?;
    let names = number_table(alloc, names.as_slice())?;
    let mut types = Items::new(alloc);
    note_types(typed, &mut types)?;
    Ok(TypeTable { names, types })
}

/// The types of the parameters of a function, and of the names that `cdef` declares in its body.
pub(crate) fn local_types(
    alloc: Global,
    known: &Known,
    set: &NamedSet,
    module: u32,
    scope: ScopeId,
    owned: OwnedRef<'_>,
) -> Result<TypeTable, OutOfMemory>
    ensures { IfOk result (λ table. table ≡ type_table (typed_names known.now set.now «module» scope (owned_shown owned.entry))) }
{
    let mut typed = Vec::new(alloc);
    note_typed_names(alloc, known, set, module, scope, owned, &mut typed)?;
    type_table(alloc, typed.as_slice())
}

fn text_at(scope: &Scope, number: u32) -> Option<&[u8]>
    ensures { option_copied result ≡ slice_get (texts (shown scope.entry.now.names.entries)) number }
{
    match scope.names.get_index(number as usize) {
        Some((name, _)) => Some(name.as_slice()),
        None => None,
    }
}

/// The name of a number among those that a scope holds.
pub(crate) fn named_at(scope: Option<&Scope>, number: u32) -> Option<&[u8]>
    ensures { option_copied result ≡ named_at (option_copied scope.entry) number }
{
    text_at(scope?, number)
}

impl TypeTable {
    /// The type of a name; one that isn't declared is `object`.
    pub(crate) fn get(&self, name: Option<&[u8]>) -> Ty
        ensures at { result ≡ type_at self.now (option_copied name.entry) }
        ensures first { (typed : List Typed) → self.now ≡ type_table typed → result ≡ typed_as typed (option_copied name.entry) }
    {
        self.get_named(name)
    }

    fn get_named(&self, name: Option<&[u8]>) -> Ty
        ensures { result ≡ type_at self.now (option_copied name.entry) }
    {
        match name {
            None => Ty::Object,
            Some(name) => or_object(self.find(name)),
        }
    }

    fn find(&self, name: &[u8]) -> Option<Ty>
        ensures { result ≡ numbered self.now.types (number_of (kind_among self.now.names name.now)) }
    {
        let place = number_of(self.names.get(name))?;
        at(self.types.as_slice(), place as usize).copied()
    }
}
