//! The arguments of an `__init__`.
ghost use Rattle.std.specs.Prelude.{◌≡◌};
ghost use Rattle.c_state.specs.Stores.{is_tuple};

use c_value::Value;

/// Whether a value is the arguments of an `__init__`, which are no object.
pub fn is_tuple(value: &Value) -> bool
    ensures { result ≡ is_tuple value.now }
{
    matches!(value, Value::Tuple(_))
}
