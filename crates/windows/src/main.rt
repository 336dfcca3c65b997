// Average power, its peak and the minutes of the open window (paper 02, request 1), through a board and a collector: what each
// example comes to is printed, and held to the file `stdout`.
// The stream and the meter stay two arguments: each example hands its own meter on to the next.
#![tactic(auto)]

mod codes;
mod figures;
mod frames;
mod full;
mod limits;

use std::io::{self, Stdout};

fn main(rt: HostRuntime) -> io::Result<()> {
    let out = rt.stdout();
    longer_directory(out)?;
    let m = full::lower(out, full::rounded_down(out)?)?;
    codes::to_all(out, codes::there_and_back(out, codes::changed(out, m)?)?)?;
    codes::kept(out)?;
    codes::each(out)?;
    full::units(out)?;
    limits::energy_top(out)?;
    limits::minutes(out)?;
    limits::records(out)
}

// Reads of a new meter that end inside the average and behind it, at the end of the byte block and past it.
fn longer_directory(out: Stdout) -> io::Result<()> {
    let m = figures::new(1);
    ask::send(out, m, "4 words from 0x034d", &frames::read(0x034D, 4))?;
    ask::send(out, m, "5 words from 0x034d", &frames::read(0x034D, 5))?;
    ask::send(out, m, "69 words from 0x0300", &frames::read(0x0300, 69))?;
    ask::send(out, m, "70 words from 0x0300", &frames::read(0x0300, 70))?;
    Ok(())
}
