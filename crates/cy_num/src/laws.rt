ghost use Rattle.std.specs.Prelude.{◌≡◌, ◌≢◌, ◌<◌, ◌↔◌, ◌+◌, ◌%◌, ℕ, min, max, length, slice_get, Some, ℤ, pos};
ghost use Rattle.std.specs.Int.{bit_at};
ghost use Rattle.cy_num.specs.Arithmetic.{arith_result, pattern};
ghost use Rattle.cy_num.specs.Division.{IsFloorDivision, floor_quotient, floor_remainder};
ghost use Rattle.cy_num.specs.Turns.{LiesBefore, range_turns, turn};
ghost use Rattle.cy_num.specs.Types.{IsValue, common};
ghost use Rattle.cy_num.specs.Wrapping.{IsWrapped, wrap};
ghost use Rattle.cy_num.specs.declared.types.Arith.TheVariants.{And, Or, Xor};
ghost use Rattle.cy_num.specs.declared.types.CNum.{CNum};

/// The usual arithmetic conversions don't depend on the order of the operands. A law; it does nothing.
pub fn common_does_not_depend_on_order()
    ensures { (a b : CNum) → common a b ≡ common b a }
{}

/// What wraps is a value of the type, and differs by a multiple of 2^bits. A law; it does nothing.
pub fn wrap_is_congruent()
    ensures { (t : CNum) (v : ℤ) → IsWrapped t v (wrap t v) }
{}

/// No other value of the type differs by a multiple of 2^bits. A law; it does nothing.
pub fn wrap_is_unique()
    ensures { (t : CNum) (v w : ℤ) → IsWrapped t v w → w ≡ wrap t v }
{}

/// A value of the type stays. A law; it does nothing.
pub fn wrap_keeps_values()
    ensures { (t : CNum) (v : ℤ) → IsValue t v → wrap t v ≡ v }
{}

/// To wrap twice is to wrap once. A law; it does nothing.
pub fn wrap_is_idempotent()
    ensures { (t : CNum) (v : ℤ) → wrap t (wrap t v) ≡ wrap t v }
{}

/// Quotient and remainder give the number back, and the remainder has the sign rule. A law; it does nothing.
pub fn floor_division_splits()
    ensures { (a b : ℤ) → b ≢ pos 0 → IsFloorDivision a b (floor_quotient a b) (floor_remainder a b) }
{}

/// No other two numbers do. A law; it does nothing.
pub fn floor_division_is_unique()
    ensures { (a b q r : ℤ) → IsFloorDivision a b q r → (q ≡ floor_quotient a b) × (r ≡ floor_remainder a b) }
{}

/// The turn of number k is there where it lies before the end. A law; it does nothing.
pub fn range_turns_lie_before_the_end()
    ensures { (a b c : ℤ) (k : ℕ) → c ≢ pos 0
        → (k < length (range_turns a b c)) ↔ LiesBefore b c (turn a c k) }
{}

/// The turn of number k is the start and k steps. A law; it does nothing.
pub fn range_turns_go_by_the_step()
    ensures { (a b c : ℤ) (k : ℕ) → k < length (range_turns a b c)
        → slice_get (range_turns a b c) k ≡ Some (turn a c k) }
{}

/// `&`, `|` and `^` go bit by bit (ISO/IEC 9899:2011 6.5.10 to 6.5.12). A law; it does nothing.
pub fn bitwise_operations_go_bit_by_bit()
    ensures and { (t : CNum) (a b : ℤ) (k : ℕ) → bit_at (pattern t (arith_result And t a b)) k
        ≡ min (bit_at (pattern t a) k) (bit_at (pattern t b) k) }
    ensures or { (t : CNum) (a b : ℤ) (k : ℕ) → bit_at (pattern t (arith_result Or t a b)) k
        ≡ max (bit_at (pattern t a) k) (bit_at (pattern t b) k) }
    ensures xor { (t : CNum) (a b : ℤ) (k : ℕ) → bit_at (pattern t (arith_result Xor t a b)) k
        ≡ (bit_at (pattern t a) k + bit_at (pattern t b) k) % 2 }
{}
