// Text written into the caller's bytes: fixed text, and decimal numbers with text behind them.
// The public methods are internal, for the crates of this repository: they test nothing, and require a number below 10^16 and room for the most bytes
// that they may write. A caller has that room since its buffer is as long as the longest text that it makes, and each call writes at most its own part of
// that.
#![tactic(auto)]

mod decimal;

ghost use Rattle.std.specs.Prelude.{◌++◌, ◌+◌, ◌^◌, ◌≤◌, ◌<◌, length};
ghost use Rattle.text.specs.Decimal.{decimal};
ghost use Rattle.text.specs.Put.{most_digits, Put, SameBytes};

// The most digits of a number that is written: "every number below 10^16".
pub const MOST_DIGITS: usize = 16;

// The text written so far is the first `len` of the bytes.
#[derive(Drop)]
pub struct Output<'a> {
    pub bytes: &'a mut [u8],
    pub len: usize,
}

impl Output<'_> {
    // Ruled out: a byte passed over (must-fail/first_byte_passed_over), a byte behind the text that changes.
    pub fn put_text(&mut self, text: &[u8])
        requires { self.old.len + length text.now ≤ length self.old.bytes.now }
        ensures put { Put (length text.now) self.old.bytes.now self.old.len text.now self.new.bytes.now self.new.len }
        ensures same_bytes { SameBytes self.old self.new }
    {
        let end = self.len + text.len();
        self.bytes[self.len..end].copy_from_slice(text);
        self.len = end;
    }

    // A number and the text behind it. Ruled out: a zero in front (must-fail/leading_zero), a digit too few (must-fail/power_of_ten_cut), one digit in every
    // place (must-fail/one_digit_repeated), another multiple subtracted (must-fail/wrong_multiple), the text behind it left out (must-fail/text_behind_left_out).
    pub fn put_field(&mut self, x: u64, behind: &[u8])
        requires { (x < 10 ^ most_digits) × (self.old.len + (most_digits + length behind.now) ≤ length self.old.bytes.now) }
        ensures put { Put (most_digits + length behind.now) self.old.bytes.now self.old.len (decimal x ++ behind.now) self.new.bytes.now self.new.len }
        ensures same_bytes { SameBytes self.old self.new }
    {
        self.len += decimal::put_decimal(x, &mut self.bytes[self.len..]);
        self.put_text(behind);
    }
}
