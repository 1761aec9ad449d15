//! Exact arithmetic of 64-bit integers.

ghost use Rattle.std.specs.Prelude.{◌≡◌, ◌≢◌, pos, ◌+ℤ◌, ◌-ℤ◌, ◌*ℤ◌, neg_ℤ, IsSome, IfSome};
ghost use Rattle.std.specs.Prelude.{FitsSigned};
ghost use Rattle.std.specs.Bool.{OnTrue, OnFalse};
ghost use Rattle.std.specs.Int.{w64, int_div_euclid, int_rem_euclid, NotMinOverMinusOne};
ghost use Rattle.std.specs.Option.{SomeIff};
ghost use Rattle.verse_base.specs.Quotients.{floor_quotient, ceil_quotient, IsResidue};
ghost use Rattle.verse_base.specs.Quotients.{RoundsDownAndUp};

/// The exact sum, or None exactly where it leaves the range of an int.
pub fn add(a: i64, b: i64) -> Option<i64>
    ensures { SomeIff result (FitsSigned w64 (a +ℤ b)) (a +ℤ b) }
{
    a.checked_add(b)
}

/// The exact difference, or None exactly where it leaves the range of an int.
pub fn sub(a: i64, b: i64) -> Option<i64>
    ensures { SomeIff result (FitsSigned w64 (a -ℤ b)) (a -ℤ b) }
{
    a.checked_sub(b)
}

/// The exact product, or None exactly where it leaves the range of an int.
pub fn mul(a: i64, b: i64) -> Option<i64>
    ensures { SomeIff result (FitsSigned w64 (a *ℤ b)) (a *ℤ b) }
{
    a.checked_mul(b)
}

/// The exact negation, or None exactly where it leaves the range of an int.
pub fn neg(a: i64) -> Option<i64>
    ensures { SomeIff result (FitsSigned w64 (neg_ℤ a)) (neg_ℤ a) }
{
    a.checked_neg()
}

/// The quotient rounded down, or None exactly where it leaves the range of an int.
pub fn floor_div(a: i64, b: i64) -> Option<i64>
    requires { b ≢ pos 0 }
    ensures { SomeIff result (FitsSigned w64 (floor_quotient a b)) (floor_quotient a b) }
{
    if a == i64::MIN && b == -1 {
        return None;
    }
    if b < 0 && has_remainder(a, b) {
        return euclid(a, b).checked_sub(1);
    }
    Some(euclid(a, b))
}

/// The quotient rounded up, or None exactly where it leaves the range of an int.
pub fn ceil_div(a: i64, b: i64) -> Option<i64>
    requires { b ≢ pos 0 }
    ensures { SomeIff result (FitsSigned w64 (ceil_quotient a b)) (ceil_quotient a b) }
{
    if a == i64::MIN && b == -1 {
        return None;
    }
    if b > 0 && has_remainder(a, b) {
        return euclid(a, b).checked_add(1);
    }
    Some(euclid(a, b))
}

fn euclid(a: i64, b: i64) -> i64
    requires nonzero { b ≢ pos 0 }
    requires no_overflow { NotMinOverMinusOne w64 a b }
    ensures { result ≡ int_div_euclid a b }
{
    a.div_euclid(b)
}

fn has_remainder(a: i64, b: i64) -> bool
    requires nonzero { b ≢ pos 0 }
    requires no_overflow { NotMinOverMinusOne w64 a b }
    ensures some { OnTrue result (int_rem_euclid a b ≢ pos 0) }
    ensures none { OnFalse result (int_rem_euclid a b ≡ pos 0) }
{
    a.rem_euclid(b) != 0
}

/// The Euclidean remainder: from 0 on, below the absolute value of the divisor. It is never None.
pub fn modulo(a: i64, b: i64) -> Option<i64>
    requires { b ≢ pos 0 }
    ensures always { IsSome result }
    ensures residue { IfSome result (IsResidue a b) }
{
    if b == -1 {
        return Some(0);
    }
    Some(a.rem_euclid(b))
}

/// Rounding down is to the greatest number that does not pass the quotient, and rounding up to the
/// least that it does not pass.
pub fn quotients_round()
    ensures { RoundsDownAndUp }
{}
