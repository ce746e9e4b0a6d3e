//! Variables, and elements of `args`.
ghost use Rattle.std.specs.Prelude.{◌≡◌, ◌≢◌, ◌++◌, List, Some, slice_get};
ghost use Rattle.c_token.specs.CTokens.{CToken, sign};
ghost use Rattle.c_tree.specs.declared.value.CValue.{CValue as ValueTree};
ghost use Rattle.c_tree.specs.Values.{value_spelling};
ghost use Rattle.c_input.specs.Addresses.{IsStored};
ghost use Rattle.c_input.specs.Reads.{Finds};

use crate::input::Input;
use crate::piece::Piece;
use c_tree::{CValue, FixedParameter, Variable};

/// Reads a variable, or an element of `args`: where `[` stands behind `args`, it is one.
pub fn stored(input: &mut Input) -> Option<CValue>
    ensures some { Finds IsStored value_spelling input.old result input.new }
    ensures every { (v : ValueTree) (rest : List CToken) → IsStored v → slice_get rest 0 ≢ Some (sign "[") → input.old ≡ value_spelling v ++ rest → result ≡ Some v }
{
    let variable = input.variable()?;
    if matches!(variable, Variable::Fixed(FixedParameter::Arguments))
        && input.sees(Piece::Sign(b"["), 0)
    {
        let number = input.index()?;
        return Some(CValue::Argument(number));
    }
    Some(CValue::Variable(variable))
}
