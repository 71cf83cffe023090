// Shifts of signed numbers.
ghost use Rattle.std.specs.Prelude.{◌≡◌, ◌≤◌, ◌<◌, ◌*◌, ◌^◌, ◌*ℤ◌, pos};
ghost use Rattle.std.specs.Int.RustNames.{unsigned_abs};
ghost use Rattle.std.specs.Int.Signed.{shr_z};

/// `number * 2^places`, for a number below 2^66 in size and at most 60 places.
pub fn shifted(number: i128, places: u32) -> i128
    requires small { unsigned_abs number < 73786976294838206464 }
    requires few { places ≤ 60 }
    ensures value { result ≡ number *ℤ pos (2 ^ places) }
    ensures small { unsigned_abs result < 85070591730234615865843651857942052864 }
{
    number * power_of_two(places)
}

fn power_of_two(places: u32) -> i128
    requires { places ≤ 60 }
    ensures { result ≡ pos (2 ^ places) }
{
    1i128 << places
}

/// `mantissa * 2^places`, where that is below 2^62 in size.
#[inline(always)]
pub fn raised(mantissa: i64, places: u32) -> i64
    requires small { unsigned_abs mantissa * 2 ^ places < 4611686018427387904 }
    requires few { places ≤ 61 }
    ensures { result ≡ mantissa *ℤ pos (2 ^ places) }
{
    mantissa * long_power_of_two(places)
}

fn long_power_of_two(places: u32) -> i64
    requires { places ≤ 61 }
    ensures { result ≡ pos (2 ^ places) }
{
    1i64 << places
}

/// The number without its last `places` binary digits, rounded down.
#[inline(always)]
pub fn lowered(number: i64, places: u32) -> i64
    requires { places ≤ 63 }
    ensures value { result ≡ shr_z number (2 ^ places) }
    ensures size { unsigned_abs result ≤ unsigned_abs number }
{
    number >> places
}
