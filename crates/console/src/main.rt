// The console: reads standard input whole, and prints its transcript.
#![tactic(auto)]

use std::io;
use std::io::{Read, Write};
use transcript::transcript::{LONGEST, transcript};

fn main(rt: HostRuntime) -> io::Result<()> {
    let mut input = Vec::new(rt.alloc());
    rt.stdin().read_to_end(&mut input)?;
    let mut output = [0; LONGEST];
    // no transcript is longer than the output
    let length = transcript(&input, &mut output).unwrap();
    rt.stdout().write_all(&output[..length])
}
