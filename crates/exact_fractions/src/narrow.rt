// Numbers below 2^127.
ghost use Rattle.std.specs.Prelude.{◌≡◌, ◌<◌, ◌*◌, ◌^◌, pos, ◌*ℤ◌, ◌+ℤ◌};
ghost use Rattle.std.specs.Int.RustNames.{unsigned_abs};
ghost use Rattle.exact_fractions.specs.Narrow.{GivesNumber, GivesSize};
ghost use Rattle.exact_fractions.specs.Narrow as spec;

// 2^127.
const LIMIT: u128 = 1 << 127;

fn is_narrow(z: i128) -> bool
    ensures { result ≡ spec.is_narrow z }
{
    z.unsigned_abs() < LIMIT
}

/// The exact product of a number and a size; `None` where its size is 2^127 or more.
pub fn product(a: i128, b: u128) -> Option<i128>
    requires { b < 2 ^ 127 }
    ensures { GivesNumber (a *ℤ pos b) result }
{
    let z = a.checked_mul(b as i128)?;
    if is_narrow(z) { Some(z) } else { None }
}

/// The exact product of two numbers; `None` where its size is 2^127 or more.
pub fn signed_product(a: i128, b: i128) -> Option<i128>
    ensures { GivesNumber (a *ℤ b) result }
{
    let z = a.checked_mul(b)?;
    if is_narrow(z) { Some(z) } else { None }
}

/// The exact sum of two numbers; `None` where its size is 2^127 or more.
pub fn sum(a: i128, b: i128) -> Option<i128>
    ensures { GivesNumber (a +ℤ b) result }
{
    let z = a.checked_add(b)?;
    if is_narrow(z) { Some(z) } else { None }
}

/// The exact product of two sizes; `None` where it is 2^127 or more.
pub fn size_product(a: u128, b: u128) -> Option<u128>
    ensures { GivesSize (a * b) result }
{
    let n = a.checked_mul(b)?;
    if n < LIMIT { Some(n) } else { None }
}
