// Whole replies read in one call, run: what lies in the caller's two rows afterwards, also where nothing may be written. All cells are
// printed, and held to the file `stdout`.
#![tactic(auto)]

mod readings;
mod refusals;
mod rows;
mod short;

use std::io;

fn main(rt: HostRuntime) -> io::Result<()> {
    let out = rt.stdout();
    let good = readings::EXAMPLES.iter();
    for example in good.chain(&refusals::EXAMPLES).chain(&short::EXAMPLES) {
        example.read(out)?;
    }
    Ok(())
}
