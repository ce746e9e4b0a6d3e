//! What holds of each division.
ghost use Rattle.std.specs.Prelude.{◌≢◌, ℤ, pos, int_div, int_rem};
ghost use Rattle.c_arith.specs.Division.{IsTruncatedDivision};

/// Quotient and remainder are those of a division towards zero (6.5.5). A law; it does nothing.
pub fn division_goes_towards_zero()
    ensures { (a b : ℤ) → b ≢ pos 0 → IsTruncatedDivision a b (int_div a b) (int_rem a b) }
{}
