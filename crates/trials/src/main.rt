// Runs plans from its standard input and prints what they came to, to be compared with an independent computation
// (tools/trials.py writes both the plans and what is expected). A line has the smoothing's length (0 for none), the starting
// speed, the acceleration, the deceleration, the tick after which it is braked (0 for never), and steps and speed of each row.
#![tactic(auto)]

mod trial;

use std::io;
use std::io::Read;
use text::lines::Lines;
use trial::Trial;

fn main(rt: HostRuntime) -> io::Result<()> {
    let mut input = Vec::new(rt.alloc());
    rt.stdin().read_to_end(&mut input)?;
    for text in Lines::of(input.as_slice()) {
        match Trial::of(rt.alloc(), text)?.run() {
            Ok(outcome) => println!(rt; "{outcome}")?,
            Err(fault) => println!(rt; "no plan: {fault:?}")?,
        }
    }
    Ok(())
}
