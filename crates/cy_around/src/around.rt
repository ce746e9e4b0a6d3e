use crate::callable::Callable;
use crate::member::MemberSaid;
use cy_tree::{ClassId, Coercion, FnId, NameKind, Ty};

/// What is known around an expression. No call takes memory. The project's own.
pub trait Around {
    ghost use Rattle.std.specs.Prelude.{◌≡◌};
    ghost use Rattle.std.specs.Option.{option_copied};
    ghost use Rattle.cy_around.specs.Surroundings.{Surroundings};

    ghost surroundings: { Self → Surroundings };

    /// What a name means in the scope of the expression.
    fn kind(&self, name: &[u8]) -> NameKind
        ensures { result ≡ (surroundings self.now).kind name.now };

    /// The type of a local.
    fn local(&self, number: u32) -> Ty
        ensures { result ≡ (surroundings self.now).local number };

    /// The type of a C variable of the module.
    fn variable(&self, number: u32) -> Ty
        ensures { result ≡ (surroundings self.now).variable number };

    /// The function or method of an id, where C can call it.
    fn function(&self, id: FnId) -> Option<&Callable>
        ensures { option_copied result ≡ (surroundings self.entry.now).function id };

    /// What a cimported module declares under a name: a class or a C function.
    fn exported(&self, from: u32, name: &[u8]) -> Option<NameKind>
        ensures { result ≡ (surroundings self.now).exported from name.now };

    /// The C field or the method for C of a class, or else of a base, the nearest first.
    fn member(&self, class: ClassId, name: &[u8]) -> Option<MemberSaid>
        ensures { result ≡ (surroundings self.now).member class name.now };

    /// The coercion of a value that meets a declared place.
    fn coercion(&self, from: Ty, to: Ty) -> Option<Coercion>
        ensures { result ≡ (surroundings self.now).coercion from to };
}
