// Quotients of numbers of 64 bits. A division of 128 bits takes the processor 90 cycles; a few
// multiplications guess what it gives, nearly always rightly, and the guess is checked.
ghost use lib.IntN.{neg_ℤ};
ghost use Rattle.std.specs.Prelude.{◌≡◌, ◌≤◌, ◌<◌, ◌*◌, ◌+◌, ◌^◌, pos, true, false};

/// A number without the zeros before its first digit: number * 2^places.
#[derive(Clone, Copy)]
pub struct Lifted {
    pub digits: u64,
    pub places: u32,
}

impl Lifted {
    /// The number, which is above 0, shifted up until its highest bit is set.
    #[inline(always)]
    pub fn of(number: u64) -> Lifted
        requires { 0 < number }
        ensures value { result.digits ≡ number * 2 ^ result.places }
        ensures long { 9223372036854775808 ≤ result.digits }
        ensures few { result.places < 64 }
    {
        let places = number.leading_zeros();
        Lifted {
            digits: number << places,
            places,
        }
    }
}

/// A quotient and what is left.
#[derive(Clone, Copy)]
pub struct Quotient {
    pub digits: u64,
    pub rest: u64,
}

impl Quotient {
    /// The value or its negative, rounded down to a whole number.
    #[inline(always)]
    pub fn floor(self, negative: bool) -> i64
        requires { self.digits < 4611686018427387904 }
        ensures plain { negative ≡ false → result ≡ pos self.digits }
        ensures exact { negative ≡ true → self.rest ≡ 0 → result ≡ neg_ℤ (pos self.digits) }
        ensures below { negative ≡ true → 0 < self.rest → result ≡ neg_ℤ (pos (self.digits + 1)) }
    {
        let size = self.digits as i64;
        if negative {
            -size - (0 < self.rest) as i64
        } else {
            size
        }
    }
}

/// n * 2^61 divided by d, which both have 64 bits: a quotient of 61 or 62 bits.
#[inline(always)]
pub fn divided(n: u64, d: u64) -> Quotient
    requires n_long { 9223372036854775808 ≤ n }
    requires d_long { 9223372036854775808 ≤ d }
    ensures value { result.digits * d + result.rest ≡ n * 2305843009213693952 }
    ensures rest { result.rest < d }
{
    let whole = (n as u128) << 61;
    let divisor = d as u128;
    let guess = guessed(n, d);
    // Where the guess is too high, this wraps and is more than any divisor.
    let rest = whole.wrapping_sub(guess as u128 * divisor);
    if rest < divisor {
        Quotient {
            digits: guess,
            rest: rest as u64,
        }
    } else {
        Quotient {
            digits: (whole / divisor) as u64,
            rest: (whole % divisor) as u64,
        }
    }
}

// About n * 2^61 / d, of which nothing is claimed. The table has 2^80 / d to 9 digits, by the first
// 9 of the divisor. With l for what that lacks of 1 when it is multiplied by the divisor, (1 + l) *
// (1 + l^2) times it has 36 digits of 2^126 / d; so has the quotient that follows, and what that
// leaves gives the others.
#[inline(always)]
fn guessed(n: u64, d: u64) -> u64 {
    let first = FIRST[(d >> 55) as usize % 256] as u64;
    let lack = (1u64 << 46).wrapping_sub(first.wrapping_mul(d >> 17) >> 17);
    let part = lack.min(0u64.wrapping_sub(lack)) >> 7;
    let square = part.wrapping_mul(part) >> 32;
    let line = (1u64 << 46).wrapping_add(lack);
    let cube = (line >> 14).wrapping_mul(square) >> 32;
    let inverse = first.wrapping_mul(line.wrapping_add(cube).wrapping_sub(256));
    let rough = high_half(n, inverse) >> 1;
    let rest = ((n as u128) << 61).wrapping_sub((rough as u128).wrapping_mul(d as u128));
    let more = high_half(low_half(rest >> 30), inverse).wrapping_add(1 << 24) >> 32;
    rough.wrapping_add(more)
}

// a * b / 2^64
#[inline(always)]
fn high_half(a: u64, b: u64) -> u64 {
    low_half((a as u128).wrapping_mul(b as u128) >> 64)
}

#[inline(always)]
fn low_half(number: u128) -> u64 {
    (number & 0xffff_ffff_ffff_ffff) as u64
}

// 2^80 / d, rounded down, for the d in the middle of those that begin with the digits 256 + place
// of 9.
static FIRST: [u32; 256] = [
    130816, 130308, 129804, 129304, 128807, 128315, 127826, 127341, 126859, 126382, 125907, 125437,
    124969, 124506, 124045, 123589, 123135, 122685, 122238, 121794, 121354, 120916, 120482, 120051,
    119623, 119198, 118776, 118357, 117941, 117528, 117118, 116711, 116306, 115904, 115505, 115109,
    114716, 114325, 113936, 113551, 113168, 112788, 112410, 112034, 111662, 111291, 110923, 110558,
    110195, 109834, 109476, 109120, 108766, 108414, 108065, 107718, 107374, 107031, 106691, 106353,
    106017, 105683, 105351, 105021, 104694, 104368, 104044, 103723, 103403, 103085, 102770, 102456,
    102144, 101834, 101526, 101220, 100915, 100612, 100312, 100013, 99715, 99420, 99126, 98834,
    98544, 98256, 97969, 97683, 97400, 97118, 96838, 96559, 96282, 96006, 95733, 95460, 95189,
    94920, 94652, 94386, 94121, 93858, 93596, 93336, 93077, 92820, 92563, 92309, 92056, 91804,
    91553, 91304, 91056, 90810, 90565, 90321, 90079, 89837, 89597, 89359, 89121, 88885, 88651,
    88417, 88185, 87953, 87724, 87495, 87267, 87041, 86816, 86592, 86369, 86147, 85926, 85707,
    85488, 85271, 85055, 84840, 84626, 84413, 84201, 83991, 83781, 83572, 83365, 83158, 82952,
    82748, 82544, 82342, 82140, 81940, 81740, 81541, 81344, 81147, 80951, 80756, 80562, 80369,
    80177, 79986, 79796, 79607, 79418, 79231, 79044, 78858, 78673, 78489, 78306, 78124, 77942,
    77762, 77582, 77403, 77225, 77048, 76871, 76695, 76520, 76346, 76173, 76000, 75829, 75658,
    75488, 75318, 75149, 74981, 74814, 74648, 74482, 74317, 74153, 73989, 73827, 73665, 73503,
    73343, 73183, 73023, 72865, 72707, 72550, 72393, 72237, 72082, 71928, 71774, 71620, 71468,
    71316, 71165, 71014, 70864, 70715, 70566, 70418, 70271, 70124, 69977, 69832, 69687, 69542,
    69399, 69255, 69113, 68971, 68829, 68688, 68548, 68408, 68269, 68130, 67992, 67855, 67718,
    67581, 67446, 67310, 67176, 67041, 66908, 66774, 66642, 66510, 66378, 66247, 66117, 65987,
    65857, 65728, 65600,
];
