// Unsigned numbers of RFC 4506, read from and written into the caller's bytes at an offset. Each is one load or one store: the part of the bytes
// has the number's own width, so that no length is tested.
// All are internal functions: the callers have tested the length.
ghost use Rattle.std.specs.Prelude.{◌≡◌, ℕ, ◌+◌, ◌≤◌, length};
ghost use Rattle.std.proofs.lemmas.List.Edits.{sets};
ghost use Rattle.wire.specs.Number.{int_width, hyper_width, number_at, bytes_of, int_at, hyper_at, unsigned_int, unsigned_hyper};

// The bytes of an unsigned int and of an unsigned hyper.
pub const INT_BYTES: usize = 4;

pub const HYPER_BYTES: usize = 8;

// An unsigned number of a width: u32 is the unsigned int, u64 the unsigned hyper.
// Ruled out: the bytes in another order (must-fail/lowest_byte_first, hyper_lowest_byte_first, int_written_lowest_byte_first,
// hyper_written_lowest_byte_first), a byte of the next number taken in, and a byte beside the number that changes.
pub trait Unsigned: Copy {
    const BYTES: usize;

    ghost BYTES: { ℕ };

    // The number that a value is.
    ghost number: { Self → ℕ };

    fn read(bytes: &[u8], at: usize) -> Self
        requires { at + BYTES ≤ length bytes.now }
        ensures { number result ≡ number_at BYTES bytes.now at };

    fn write(self, out: &mut [u8], at: usize)
        requires { at + BYTES ≤ length out.old }
        ensures { out.new ≡ sets out.old at (bytes_of BYTES (number self)) };
}

impl Unsigned for u32 {
    const BYTES: usize = INT_BYTES;

    ghost BYTES = { int_width };

    ghost number = { λ x. x };

    fn read(bytes: &[u8], at: usize) -> u32
        requires { at + int_width ≤ length bytes.now }
        ensures { result ≡ int_at bytes.now at }
    {
        u32::from_be_bytes(bytes[at..at + INT_BYTES].try_into().unwrap())
    }

    fn write(self, out: &mut [u8], at: usize)
        requires { at + int_width ≤ length out.old }
        ensures { out.new ≡ sets out.old at (unsigned_int self) }
    {
        out[at..at + INT_BYTES].copy_from_slice(&self.to_be_bytes());
    }
}

impl Unsigned for u64 {
    const BYTES: usize = HYPER_BYTES;

    ghost BYTES = { hyper_width };

    ghost number = { λ x. x };

    fn read(bytes: &[u8], at: usize) -> u64
        requires { at + hyper_width ≤ length bytes.now }
        ensures { result ≡ hyper_at bytes.now at }
    {
        u64::from_be_bytes(bytes[at..at + HYPER_BYTES].try_into().unwrap())
    }

    fn write(self, out: &mut [u8], at: usize)
        requires { at + hyper_width ≤ length out.old }
        ensures { out.new ≡ sets out.old at (unsigned_hyper self) }
    {
        out[at..at + HYPER_BYTES].copy_from_slice(&self.to_be_bytes());
    }
}
