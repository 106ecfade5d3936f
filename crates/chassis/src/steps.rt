// Steps lent as bytes: four unsigned ints each.
ghost use Rattle.std.specs.Prelude.{◌≡◌, ◌+◌, ◌≤◌, length};
ghost use Rattle.chassis_model.specs.Run.{step_at, step_length};

use chassis_model::Step;
use wire::number::Unsigned;

pub const STEP_BYTES: usize = 16;

const FIRST_AT: usize = 4;

const SECOND_AT: usize = 8;

const AMOUNT_AT: usize = 12;

pub(crate) fn step_from(bytes: &[u8], at: usize) -> Step
    requires { at + step_length ≤ length bytes.now }
    ensures { result ≡ step_at bytes.now at }
{
    Step {
        kind: u32::read(bytes, at),
        first: u32::read(bytes, at + FIRST_AT),
        second: u32::read(bytes, at + SECOND_AT),
        amount: u32::read(bytes, at + AMOUNT_AT),
    }
}
