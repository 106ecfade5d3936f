// The only place where a number becomes decimal text. It "takes its sixteen powers of ten from a fixed table and subtracts, dividing nowhere".
ghost use Rattle.std.specs.Prelude.{◌≡◌, true, ◌+◌, ◌*◌, ◌^◌, ◌≤◌, ◌<◌, length};
ghost use Rattle.std.proofs.lemmas.List.Edits.{sets};
ghost use Rattle.text.specs.Decimal.{digit, decimal};
ghost use Rattle.text.specs.Put.{most_digits, Put};
ghost use Rattle.text.specs.DecimalLaws.{Counted, fixed};
ghost use Rattle.text.specs.Powers.{tens, PowersOfTen};

use crate::MOST_DIGITS;

// Its rule, each entry ten times the next and the last 1, is a test that the checker computes where `put_decimal` lends the table; all else here
// requires it (`PowersOfTen`).
const POWERS: [u64; MOST_DIGITS] = [
    1_000_000_000_000_000,
    100_000_000_000_000,
    10_000_000_000_000,
    1_000_000_000_000,
    100_000_000_000,
    10_000_000_000,
    1_000_000_000,
    100_000_000,
    10_000_000,
    1_000_000,
    100_000,
    10_000,
    1_000,
    100,
    10,
    1,
];

// A number's first digit, and the number that the others make.
#[derive(Clone, Copy)]
struct First {
    digit: u64,
    rest: u64,
}

fn power_of(powers: &[u64], n: usize) -> u64
    requires { PowersOfTen powers.now × (n < most_digits) }
    ensures { result ≡ 10 ^ n }
{
    powers[MOST_DIGITS - 1 - n]
}

fn digit_count_of(powers: &[u64], x: u64) -> usize
    requires { PowersOfTen powers.now × (x < 10 ^ most_digits) }
    ensures { Counted x result × (result ≤ most_digits) }
{
    for count in 1..MOST_DIGITS {
        if x < power_of(powers, count) {
            return count;
        }
    }
    MOST_DIGITS
}

// "and subtracts": `x` less its first digit.
fn less(x: u64, digit: u64, power: u64) -> First
    requires { (digit * power ≤ x) × (x < digit * power + power) }
    ensures { (result.digit * power + result.rest ≡ x) × (result.rest < power) × (result.digit ≡ digit) }
{
    First {
        digit,
        rest: x - digit * power,
    }
}

fn digit_below_5(x: u64, power: u64) -> First
    requires { (power ≤ 10 ^ most_digits) × (x < 5 * power) }
    ensures { (result.digit * power + result.rest ≡ x) × (result.rest < power) × (result.digit < 5) }
{
    if x < power {
        less(x, 0, power)
    } else if x < 2 * power {
        less(x, 1, power)
    } else if x < 3 * power {
        less(x, 2, power)
    } else if x < 4 * power {
        less(x, 3, power)
    } else {
        less(x, 4, power)
    }
}

// The comparisons are written out: where LLVM knows the power, it turns a loop that subtracts the power as often as it goes into a division.
fn first_digit(x: u64, power: u64) -> First
    requires { (power ≤ 10 ^ most_digits) × (x < 10 * power) }
    ensures { (result.digit * power + result.rest ≡ x) × (result.rest < power) × (result.digit < 10) }
{
    if x < 5 * power {
        return digit_below_5(x, power);
    }
    let low = digit_below_5(x - 5 * power, power);
    First {
        digit: 5 + low.digit,
        rest: low.rest,
    }
}

fn digit_byte(d: u64) -> u8
    requires { d < 10 }
    ensures { result ≡ digit d }
{
    b'0' + d as u8
}

// The last digits of `x` to the front of `out`, as many as there are powers, the first one first.
fn put_digits(powers: &[u64], x: u64, out: &mut [u8])
    requires { (tens powers.now ≡ true) × (length powers.now ≤ most_digits) × (x < 10 ^ length powers.now) × (length powers.now ≤ length out.old) }
    ensures { out.new ≡ sets out.old 0 (fixed (length powers.now) x) }
{
    let mut rest = x;
    for (i, power) in powers.iter().enumerate() {
        let first = first_digit(rest, *power);
        out[i] = digit_byte(first.digit);
        rest = first.rest;
    }
}

fn put_by(powers: &[u64], x: u64, out: &mut [u8]) -> usize
    requires { PowersOfTen powers.now × (x < 10 ^ most_digits) × (most_digits ≤ length out.old) }
    ensures { Put most_digits out.old 0 (decimal x) out.new result }
{
    let count = digit_count_of(powers, x);
    put_digits(&powers[MOST_DIGITS - count..], x, out);
    count
}

// Writes a number to the front of `out`, and returns how many digits it has.
// Ruled out: a table with a wrong entry (must-fail/wrong_power).
pub(crate) fn put_decimal(x: u64, out: &mut [u8]) -> usize
    requires { (x < 10 ^ most_digits) × (most_digits ≤ length out.old) }
    ensures { Put most_digits out.old 0 (decimal x) out.new result }
{
    put_by(&POWERS, x, out)
}
