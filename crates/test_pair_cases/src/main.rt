// Runs cases of inputs of `pairrun` from standard input, each after its length, and prints what `pairrun` prints of each.
#![tactic(auto)]

use printing::print_pair;
use wire::next_message;

// No case has more bytes.
const ROOM: usize = 24576;

fn main(rt: HostRuntime) {
    let mut room = [0u8; ROOM];
    let mut from = rt.stdin();
    let mut to = rt.stdout();
    for _ in 0..100000u32 {
        let Some(n) = next_message(&mut from, &mut room) else {
            return;
        };
        print_pair(&mut to, &room[..n]);
    }
}
