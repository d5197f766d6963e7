// The square root of an f32, correctly rounded, worked out as on paper: one digit after another, by shifting and subtracting. The digits are binary.
// `whole_root` finds the digits, `rounded` rounds the last of them away, `positive` takes the bit pattern apart, and `root` sees to the special cases.
ghost use Rattle.std.specs.Prelude.{◌≡◌, cond, ℕ, ◌+◌, ◌*◌, ◌^◌, ◌≤◌, ◌<◌};
ghost use Rattle.std.specs.Float.{binary32};
ghost use Rattle.std.specs.Float.Ieee.{prec, hid, ones, of_bits};
ghost use Rattle.real.specs.Root.{root_of, Nearest};

// What a 1 in the first place of a root is worth. A root has 25 digits, one more than an f32 keeps.
const FIRST_PLACE: u32 = 0x100_0000;

// The root of a number, cut to a whole number, one digit a turn. The number is places × 2^24. As places is below 2^26, the number is below 2^50 and its
// root below 2^25: 25 digits.
//
// The root so far has its first digits, and zeros behind them. A turn decides the next digit; `place` is what a 1 there is worth. A 1 makes the root larger
// by place, and its square by
//
//     (root + place)² − root² = (2 root + place) × place.
//
// So the digit is 1 where the square has that much room left below the number. To find out without a product, the room is kept divided by place, as
// `remainder`, and is held against `trial`, which is 2 root + place:
//
//   - the trial is too large, more than the remainder: the digit is 0, and nothing is taken off;
//   - it is not: the digit is 1, the trial is taken off the remainder, and place is added to the root.
//
// The next place is half as large, so the remainder then doubles. Of the root only the double is asked for, so that is what is kept, as `twice`: a digit 1
// makes it trial + place, and at the end it is halved.
//
// Before every turn root² + remainder × place is the number, and (root + 2 place)² is more than the number: `Holds` in proofs/root/Turns.antt is this
// sentence. At the start the root is 0 and 2 place is 2^25, whose square is 2^50. A place is two of the next: so a digit 1 leaves root + 2 place as it was,
// and a digit 0 makes it root + place, whose square is more than the number, since the digit would be 1 otherwise. After the last turn the next place would
// be a half (`place` itself is cut to 0, which ends the loop): so root² is not more than the number, and (root + 1)² is.
//
// By hand, the root of 2 to six digits. It is the root of 2048, cut to a whole number, with the point five digits further left, since 2048 is 2 × 32 × 32.
// The first place is 32, and 2048 is 64 × 32:
//
//     place  twice  trial  remainder  digit    the next remainder
//        32      0     32         64      1    2 × (64 − 32) = 64
//        16     64     80         64      0    2 × 64 = 128
//         8     64     72        128      1    2 × (128 − 72) = 112
//         4     80     84        112      1    2 × (112 − 84) = 56
//         2     88     90         56      0    2 × 56 = 112
//         1     88     89        112      1    2 × (112 − 89) = 46
//               90
//
// The root is 45, the half of 90, with the digits 101101: so the root of 2 begins with 1.01101 in binary, 1.40625 in decimal. To see that it is right:
// 45 × 45 is 2025, and with the remainder of 46 halves it is 2048; 46 × 46 is 2116, more than 2048.
fn whole_root(places: u32) -> u32
    requires { places < 4 * 2 ^ prec binary32 }
    ensures { (result * result ≤ places * 2 ^ prec binary32) × (places * 2 ^ prec binary32 < (result + 1) * (result + 1)) }
{
    let mut remainder = places;
    let mut twice: u32 = 0;
    let mut place = FIRST_PLACE;
    while 0 < place {
        let trial = twice + place;
        let too_large = trial > remainder;
        // both are doubled first: to double the difference would be one more step behind the subtraction
        remainder = (remainder << 1) - by_digit(too_large, 0, trial << 1);
        twice = by_digit(too_large, twice, trial + place);
        place = place >> 1;
    }
    twice >> 1
}

// What goes with the digit: `zero` where it is 0, since the trial is too large, and `one` where it is 1. Both are at hand, so that this can be a choice
// between two numbers and need not be a jump.
fn by_digit(large: bool, zero: u32, one: u32) -> u32
    ensures { result ≡ cond large zero one }
{
    if large { zero } else { one }
}

// A bit pattern has the sign at its top, then the exponent's field, then the fraction. A unit is 2^-149, the smallest f32 above zero. A field of 0 means as
// many units as the fraction says: a zero or a subnormal number. A field f from 1 to 254 means m × 2^(f − 1) units, where m is the fraction with a leading 1
// put before it, which the pattern does not have; 255 is the infinities' and the NaNs'.
const FRACTION_BITS: u32 = 23;

const FRACTION: u32 = 0x7f_ffff;

// The leading 1, just above the fraction.
const LEADING: u32 = 0x80_0000;

const SIGN_BIT: u32 = 31;

// All but the sign.
const MAGNITUDE: u32 = 0x7fff_ffff;

// The pattern of +infinity. Those of finite numbers above zero are below it.
const INFINITY: u32 = 0x7f80_0000;

// The e at which `rounded` takes m itself for units. It is even, so that e is odd just where e − 24 is, and no less than 23, the most that a subnormal
// number is shifted, so that no e is below 0.
const ORIGIN: u32 = 24;

// The f32 nearest to the root of m × 2^(e − 24) units, for an m of 24 digits, from 2^23 to 2^24 − 1. 277 is the e of the largest numbers.
//
// The root of a units is, in units, the root of a × 2^149: here the root of m × 2^(e + 125). With h for the half of e, cut to a whole number, e + 125 is
// 25 + 2 × (h + 50), or 26 + 2 × (h + 50) for an odd e. So the root has two factors: the root of m × 2^25, or of m × 2^26 for an odd e; and 2^(h + 50).
//
// n is the first factor, cut to a whole number; `whole_root` counts in 2^24, so it is handed m × 2 or m × 4. n has 25 digits, one more than an f32 keeps: as
// m × 2^25 is at least 2^48, n is at least 2^24. q is n without the last digit, rounded up where that is 1. (The example above, to five digits: 1.01101
// becomes 1.0111, 1.4375 in decimal.) The root is never halfway between two values, for then it would be n, and n odd; but the square of an odd number is
// odd, and the number under the root is even. Nor does q grow to 25 digits: m × 2^26 is at most 2^50 − 2^26, below the square of 2^25 − 1, so that n + 1 is
// below 2^25.
//
// The f32 is q × 2^(h + 51) units: its field is h + 52, and its fraction is q without the leading 1.
fn rounded(m: u32, e: u32) -> f32
    requires { (hid binary32 ≤ m) × (m < 2 ^ prec binary32) × (e ≤ 277) }
    ensures { (a : ℕ) → a * 2 ^ 24 ≡ m * 2 ^ e → Nearest binary32 a result }
{
    let n = whole_root(m << (1 + (e & 1)));
    let q = (n + 1) >> 1;
    f32::from_bits((((e >> 1) + 52) << FRACTION_BITS) | (q & FRACTION))
}

// The root of a finite number above zero, by its bit pattern. One with a field f that is not 0 is m × 2^(f − 1) units, so that e is f + 23. A subnormal
// number is shifted until its leading 1 stands where that of the others does, behind 8 zeros, and e is less by as much.
fn positive(bits: u32) -> f32
    requires { (0 < bits) × (bits < ones binary32 * hid binary32) }
    ensures { result ≡ root_of binary32 (of_bits binary32 bits) }
{
    let field = bits >> FRACTION_BITS;
    let fraction = bits & FRACTION;
    if field == 0 {
        let z = fraction.leading_zeros() - 8;
        return rounded(fraction << z, ORIGIN - z);
    }
    rounded(fraction | LEADING, field + (ORIGIN - 1))
}

// The square root of x, rounded to nearest, ties to even (IEEE 754): x itself for a NaN, a zero and +infinity, a NaN for a number below zero, −infinity
// among them.
pub fn root(x: f32) -> f32
    ensures { result ≡ root_of binary32 x }
{
    if x.is_nan() {
        return x;
    }
    let bits = x.to_bits();
    if bits & MAGNITUDE == 0 {
        return x;
    }
    if bits >> SIGN_BIT == 1 {
        // infinity less infinity is a NaN
        return f32::INFINITY - f32::INFINITY;
    }
    if bits >= INFINITY {
        return x;
    }
    positive(bits)
}
