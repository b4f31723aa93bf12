// Writes the text for an input to a writer, as to standard output.
#![tactic(auto)]

use std::io::Write;
use text::pair_text;

// Whether all of it was written.
pub fn print_pair<W: Write>(to: &mut W, input: &[u8]) -> bool {
    let mut out = [0u8; 256];
    let n = pair_text(input, &mut out);
    to.write_all(&out[..n]).is_ok()
}
