// The collector's examples, run: what replies read as, what is refused, and energies joined from their parts. What each comes
// to is printed, and held to the file `stdout`.
#![tactic(auto)]

mod answers;
mod joins;
mod readings;
mod refusals;

use std::io;

fn main(rt: HostRuntime) -> io::Result<()> {
    let out = rt.stdout();
    for example in readings::EXAMPLES.iter().chain(&refusals::EXAMPLES) {
        example.read(out)?;
    }
    joins::examples(out)
}
