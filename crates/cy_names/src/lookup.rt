ghost use Rattle.std.specs.Prelude.{◌≡◌};
ghost use Rattle.std.specs.Option.{option_copied, option_map};
ghost use Rattle.cy_scope.specs.Scopes.{kind_in_scope, resolved, resolved_among, scope_shown, scopes_of, scopes_shown};

use cy_tree::{NameKind, NamedSet, Scope, ScopeId};
use name_table::find;
use sqlite_items::at;

fn kind_in(scope: Option<&Scope>, name: &[u8]) -> Option<NameKind>
    ensures { result ≡ kind_in_scope (option_map scope_shown (option_copied scope.entry)) name.now }
{
    find(&scope?.names, name)
}

/// What a name means in a scope: the first of a local, a name that the module declares or cimports, and a module
/// global. A number that names no scope gives a module global. It takes no memory (Python language reference, 4.2.2).
/// In a set whose scopes are those that its declarations make, it is what the declarations say.
pub fn resolve(set: &NamedSet, scope: ScopeId, name: &[u8]) -> NameKind
    ensures among { result ≡ resolved_among (scopes_shown set.now.scopes) scope name.now }
    ensures declared { scopes_shown set.now.scopes ≡ scopes_of set.now.set → result ≡ resolved set.now.set scope name.now }
{
    let Some(here) = at(set.scopes.as_slice(), scope as usize) else {
        return NameKind::Global;
    };
    if let Some(kind) = kind_in(Some(here), name) {
        return kind;
    }
    match kind_in(at(set.scopes.as_slice(), here.module as usize), name) {
        Some(kind) => kind,
        None => NameKind::Global,
    }
}
