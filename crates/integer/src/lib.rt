// The language's integers, from -2147483647 to 2147483647, and the operators on them. Each answers the value or a trap.
// They take every i32, also the one number of 32 bits that is no integer of the language.
#![tactic(auto)]

ghost use Rattle.std.specs.Prelude.{◌≡◌};
ghost use Rattle.integer.specs.Integers.{bounded, sum, difference, product, negated, truncated, floored, quotient, remainder};
ghost use Rattle.integer.specs.Laws.{Floors, OnlyPair, Truncates};
ghost use Rattle.integer.specs.Table.{Examples};

use fault::Trap;

// `z`, if it is an integer of the language.
fn bound(z: i64) -> Result<i32, Trap>
    ensures { result ≡ bounded z }
{
    match i32::try_from(z) {
        Ok(n) if n != i32::MIN => Ok(n),
        _ => Err(Trap::Beyond),
    }
}

pub fn add(x: i32, y: i32) -> Result<i32, Trap>
    ensures { result ≡ sum x y }
{
    bound(i64::from(x) + i64::from(y))
}

pub fn subtract(x: i32, y: i32) -> Result<i32, Trap>
    ensures { result ≡ difference x y }
{
    bound(i64::from(x) - i64::from(y))
}

pub fn multiply(x: i32, y: i32) -> Result<i32, Trap>
    ensures { result ≡ product x y }
{
    bound(i64::from(x) * i64::from(y))
}

pub fn negate(x: i32) -> Result<i32, Trap>
    ensures { result ≡ negated x }
{
    bound(-i64::from(x))
}

// `/`: the fraction is dropped.
pub fn divide(x: i32, y: i32) -> Result<i32, Trap>
    ensures value { result ≡ truncated x y }
    ensures law { Truncates x y result }
{
    if y == 0 {
        return Err(Trap::Divisor);
    }
    bound(i64::from(x) / i64::from(y))
}

// Quotient and remainder together. The quotient is rounded down, so the remainder is never below 0.
#[tactic(auto, using(crate::proofs::Division::floored_is))]
pub fn quotient_remainder(x: i32, y: i32) -> Result<(i32, i32), Trap>
    ensures value { result ≡ floored x y }
    ensures law { Floors x y result }
    ensures only { OnlyPair x y result }
{
    if y < 1 {
        return Err(Trap::Divisor);
    }
    Ok((x.div_euclid(y), x.rem_euclid(y)))
}

// `div`: of the least number of 32 bits the quotient may be beyond the integers.
pub fn div(x: i32, y: i32) -> Result<i32, Trap>
    ensures { result ≡ quotient x y }
{
    let (q, _) = quotient_remainder(x, y)?;
    bound(i64::from(q))
}

// `mod`, which is a word of Rust's own.
pub fn modulo(x: i32, y: i32) -> Result<i32, Trap>
    ensures { result ≡ remainder x y }
{
    let (_, r) = quotient_remainder(x, y)?;
    Ok(r)
}

// The worked examples hold of the definitions.
pub fn examples_hold() -> bool
    ensures { Examples }
{
    true
}
