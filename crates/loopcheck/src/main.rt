// loopcheck: reads a class sheet from standard input and prints one line, whether a node of this class can loop in its when phase.
// One byte more than the longest sheet is read, which is refused as any longer input would be.
#![tactic(auto)]

mod line;

use line::{LINE, render};

const MOST: usize = 18617;

fn main() {
    let mut sheet = [0u8; MOST];
    let n = io::read_full(0, &mut sheet);
    let mut out = [0u8; LINE];
    let r = render(&sheet[..n], &mut out);
    io::write_all(1, &out[..r]);
}
