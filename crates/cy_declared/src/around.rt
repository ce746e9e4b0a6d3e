//! What is known around the expressions of a scope.
ghost use Rattle.std.specs.Prelude.{◌≡◌, IfOk, None, Some};
ghost use Rattle.cy_declared.specs.Around.{surroundings};
ghost use Rattle.cy_declared.specs.Shown.{owned_shown};
ghost use Rattle.cy_declared.specs.Tables.{around_at, no_types, tables_with};
ghost use Rattle.cy_scope.specs.Declarations.{known_of};

use crate::local::{TypeTable, local_types, named_at};
use crate::owned::OwnedRef;
use crate::tables::Tables;
use cy_around::{Around, Callable, MemberSaid};
use cy_base::OutOfMemory;
use cy_coerce::coercion;
use cy_names::resolve;
use cy_tree::{ClassId, Coercion, FnId, NameKind, NamedSet, ScopeId, Ty};
use name_table::NameTable;
use sqlite_items::{Items, at};
use std::alloc::Global;

/// What is known around the expressions of a scope, by the tables of a set. The project's own.
#[derive(Drop)]
pub struct ScopeTypes<'a> {
    pub set: &'a NamedSet,
    pub tables: &'a Tables,
    pub scope: ScopeId,
    pub home: u32,
    pub locals: TypeTable,
}

fn no_types(alloc: Global) -> TypeTable
    ensures { result ≡ no_types }
{
    let names = NameTable::new(alloc);
    let types = Items::new(alloc);
    TypeTable { names, types }
}

impl<'a> ScopeTypes<'a> {
    /// Around the expressions at module level.
    pub fn of_module(
        alloc: Global,
        set: &'a NamedSet,
        tables: &'a Tables,
        home: u32,
    ) -> ScopeTypes<'a>
        ensures { tables.now ≡ tables_with (known_of set.now.set) set.now →
            around_at result.set.now result.tables.now result.scope result.home result.locals
            ≡ surroundings set.now (record { scope = home; module_number = home; function = None }) }
    {
        let locals = no_types(alloc);
        let scope = home;
        ScopeTypes {
            set,
            tables,
            scope,
            home,
            locals,
        }
    }

    /// Around those of a function, whose scope has this number.
    pub fn of_function(
        alloc: Global,
        set: &'a NamedSet,
        tables: &'a Tables,
        home: u32,
        scope: ScopeId,
        owned: OwnedRef<'_>,
    ) -> Result<ScopeTypes<'a>, OutOfMemory>
        ensures { tables.now ≡ tables_with (known_of set.now.set) set.now →
            IfOk result (λ it. around_at it.set.now it.tables.now it.scope it.home it.locals
            ≡ surroundings set.now (record { scope = scope; module_number = home; function = Some (owned_shown owned.entry) })) }
    {
        let locals = local_types(alloc, &tables.known, set, home, scope, owned)?;
        Ok(ScopeTypes {
            set,
            tables,
            scope,
            home,
            locals,
        })
    }
}

impl Around for ScopeTypes<'_> {
    ghost surroundings = { λ it. around_at it.set.now it.tables.now it.scope it.home it.locals };

    fn kind(&self, name: &[u8]) -> NameKind {
        resolve(self.set, self.scope, name)
    }

    fn local(&self, number: u32) -> Ty {
        let scope = at(self.set.scopes.as_slice(), self.scope as usize);
        self.locals.get(named_at(scope, number))
    }

    fn variable(&self, number: u32) -> Ty {
        self.tables.variable(self.home, number)
    }

    fn function(&self, id: FnId) -> Option<&Callable> {
        self.tables.function(id)
    }

    fn exported(&self, from: u32, name: &[u8]) -> Option<NameKind> {
        self.tables.exported(from, name)
    }

    fn member(&self, class: ClassId, name: &[u8]) -> Option<MemberSaid> {
        self.tables.member(self.set, class, name)
    }

    fn coercion(&self, from: Ty, to: Ty) -> Option<Coercion> {
        coercion(self.set, from, to)
    }
}
