// Standard input to standard output: what the program and its further test programs, one for each input, have in common.
#![tactic(auto)]

use listing::list;

const STDIN: i32 = 0;

const STDOUT: i32 = 1;

// Reads no further than one byte past the largest right input: a longer one is refused by then.
pub fn list_input() {
    let mut input = [0u8; list::INPUT_BYTES];
    let length = io::read_full(STDIN, &mut input);
    let mut out = [0u8; list::LISTING_BYTES];
    let count = list::list(&input[..length], &mut out);
    io::write_all(STDOUT, &out[..count]);
}
