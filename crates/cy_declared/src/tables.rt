//! The tables of a set.
ghost use Rattle.std.specs.Prelude.{◌≡◌, ◌++◌, ◌∷◌, IfOk, OnOk, map, slice_get};
ghost use Rattle.std.specs.List.{flat_map};
ghost use Rattle.std.specs.Option.{option_copied, option_map};
ghost use Rattle.cy_declared.specs.Around.{exported};
ghost use Rattle.cy_declared.specs.Functions.{among, callable, callable_of, callables, joined};
ghost use Rattle.cy_declared.specs.Members.{as_said, own_member};
ghost use Rattle.cy_declared.specs.Shown.{all_owned_shown};
ghost use Rattle.cy_declared.specs.Tables.{function_at, looked_up, module_tables, nearest_member, own_member_at, tables_with, variable_at};
ghost use Rattle.cy_declared.specs.Variables.{variable_types};
ghost use Rattle.cy_scope.specs.Declarations.{known_of};
ghost use Rattle.cy_tree.specs.declared.set.NamedSet.{NamedSet as Set};
ghost use Rattle.cy_scope.specs.Files.{modules, modules_from};

use crate::class::class_members;
use crate::member::OwnMember;
use crate::owned::{Noted, OwnedRef, note_owned};
use crate::signature::callable_of;
use crate::table::MemberTable;
use crate::types::or_object;
use crate::variable::{note_types, note_variables};
use cy_around::{Callable, MemberSaid};
use cy_base::OutOfMemory;
use cy_coerce::base_of;
use cy_scope::{Known, kind_through, known_of, tops};
use cy_tree::{ClassId, FnId, ModuleFiles, NameKind, NamedSet, Ty};
use name_table::number;
use sqlite_items::{Items, at};
use std::alloc::Global;

/// What the declarations of a module say, by the numbers of functions, C variables and classes. The project's own.
#[derive(Drop)]
pub struct ModuleTables {
    pub functions: Items<Option<Callable>>,
    pub variables: Items<Ty>,
    pub classes: Items<MemberTable>,
}

/// What the declarations of a set say. The project's own.
#[derive(Drop)]
pub struct Tables {
    pub known: Known,
    pub modules: Items<ModuleTables>,
}

fn note_callables(
    alloc: Global,
    known: &Known,
    set: &NamedSet,
    module: u32,
    owned: &[OwnedRef<'_>],
    out: &mut Items<Option<Callable>>,
) -> Noted
    ensures { OnOk result (out.new ≡ out.old ++ map (λ o. callable_of known.now set.now «module» o.owner o.function) (all_owned_shown owned.now)) }
{
    for function in owned {
        let callable = callable_of(alloc, known, set, module, function.owner, function.function)?;
        out.push(callable)?;
    }
    Ok(())
}

fn callables(
    alloc: Global,
    known: &Known,
    set: &NamedSet,
    module: u32,
    files: &ModuleFiles,
) -> Result<Items<Option<Callable>>, OutOfMemory>
    ensures { IfOk result (λ functions. functions ≡ callables known.now set.now (record { number = «module»; files = files.now })) }
{
    let mut owned = Vec::new(alloc);
    note_owned(alloc, module, tops(&set.set, files), &mut owned)?;
    let mut functions = Items::new(alloc);
    note_callables(alloc, known, set, module, owned.as_slice(), &mut functions)?;
    Ok(functions)
}

fn variable_types(
    alloc: Global,
    known: &Known,
    set: &NamedSet,
    module: u32,
    files: &ModuleFiles,
) -> Result<Items<Ty>, OutOfMemory>
    ensures { IfOk result (λ types. types ≡ variable_types known.now set.now (record { number = «module»; files = files.now })) }
{
    let mut variables = Vec::new(alloc);
    note_variables(alloc, tops(&set.set, files), &mut variables)?;
    let mut types = Items::new(alloc);
    note_types(known, set, module, variables.as_slice(), &mut types)?;
    Ok(types)
}

fn module_tables(
    alloc: Global,
    known: &Known,
    set: &NamedSet,
    module: u32,
    files: &ModuleFiles,
) -> Result<ModuleTables, OutOfMemory>
    ensures { IfOk result (λ tables. tables ≡ module_tables known.now set.now (record { number = «module»; files = files.now })) }
{
    let functions = callables(alloc, known, set, module, files)?;
    let variables = variable_types(alloc, known, set, module, files)?;
    let classes = class_members(alloc, known, set, module, files)?;
    Ok(ModuleTables {
        functions,
        variables,
        classes,
    })
}

fn all_module_tables(
    alloc: Global,
    known: &Known,
    set: &NamedSet,
) -> Result<Items<ModuleTables>, OutOfMemory>
    ensures { IfOk result (λ tables. tables ≡ map (module_tables known.now set.now) (modules set.now.set)) }
{
    let mut tables = Items::new(alloc);
    for (place, files) in set.set.order.as_slice().iter().enumerate() {
        let module = number(place)?;
        tables.push(module_tables(alloc, known, set, module, files)?)?;
    }
    Ok(tables)
}

impl Tables {
    /// What the declarations of a set say.
    pub fn of(alloc: Global, set: &NamedSet) -> Result<Tables, OutOfMemory>
        ensures { IfOk result (λ tables. tables ≡ tables_with (known_of set.now.set) set.now) }
    {
        let known = known_of(alloc, &set.set)?;
        let modules = all_module_tables(alloc, &known, set)?;
        Ok(Tables { known, modules })
    }

    /// The C function or method of an id.
    pub fn function(&self, id: FnId) -> Option<&Callable>
        ensures at { option_copied result ≡ function_at self.entry.now id }
        ensures declared { (set : Set) → self.entry.now ≡ tables_with self.entry.now.known set → option_copied result ≡ callable self.entry.now.known set id }
    {
        self.find_function(id)
    }

    fn find_function(&self, id: FnId) -> Option<&Callable>
        ensures { option_copied result ≡ function_at self.entry.now id }
    {
        let tables = at(self.modules.as_slice(), id.module as usize)?;
        at(tables.functions.as_slice(), id.index as usize)?.as_ref()
    }

    /// The type of a C variable of a module.
    pub fn variable(&self, module: u32, number: u32) -> Ty
        ensures { result ≡ variable_at self.now «module» number }
    {
        match at(self.modules.as_slice(), module as usize) {
            None => Ty::Object,
            Some(tables) => { or_object(at(tables.variables.as_slice(), number as usize).copied()) }
        }
    }

    /// What a module declares to others.
    pub fn exported(&self, from: u32, name: &[u8]) -> Option<NameKind>
        ensures { result ≡ exported self.now.known from name.now }
    {
        kind_through(&self.known, Some(NameKind::Module(from)), name)
    }

    /// A member that a class declares itself.
    pub fn own_member(&self, class: ClassId, name: &[u8]) -> Option<OwnMember>
        ensures at { result ≡ own_member_at self.now class name.now }
        ensures declared { (set : Set) → self.now ≡ tables_with self.now.known set → result ≡ own_member self.now.known set class name.now }
    {
        self.find_member(class, name)
    }

    fn find_member(&self, class: ClassId, name: &[u8]) -> Option<OwnMember>
        ensures { result ≡ own_member_at self.now class name.now }
    {
        let tables = at(self.modules.as_slice(), class.module as usize)?;
        at(tables.classes.as_slice(), class.index as usize)?.get(name)
    }

    /// The C field, or the method that C can call, of a class or else of its bases, the nearest first. It takes at
    /// most 31 steps from a class to its base.
    pub fn member(&self, set: &NamedSet, class: ClassId, name: &[u8]) -> Option<MemberSaid>
        ensures { result ≡ nearest_member set.now self.now class name.now }
    {
        let mut found = Some(class);
        for _step in 0..32usize {
            match found {
                None => return None,
                Some(above) => match as_said(self.find_member(above, name)) {
                    Some(said) => return Some(said),
                    None => found = base_of(set, above),
                },
            }
        }
        None
    }
}

fn as_said(member: Option<OwnMember>) -> Option<MemberSaid>
    ensures { result ≡ as_said member }
{
    match member {
        Some(OwnMember::Field(ty)) => Some(MemberSaid::Field(ty)),
        Some(OwnMember::Method(id)) => Some(MemberSaid::Method(id)),
        _ => None,
    }
}
