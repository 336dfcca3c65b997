// Which word of a long goes first (paper 02, request 5), through a board and a collector: what meters of either order send at both of
// their addresses, and what a collector makes of it that is told the same order or the other. What each example comes to is printed,
// and held to the file `stdout`.
// The stream and the meter stay two arguments: each example hands its own meter on to the next.
#![tactic(auto)]

mod items;
mod meters;
mod reads;
mod rows;

use ask::Exchange;
use board::Meter;
use meters::ORDERS;
use reads::{AT_OWN, AT_SECOND, COUNT, LONGS, Read, SEVERAL, SINGLE_WORDS};
use std::io::{self, Stdout};

fn main(rt: HostRuntime) -> io::Result<()> {
    let out = rt.stdout();
    for (order, words) in ORDERS {
        println!(out; "a meter that names {words}")?;
        examples(out, meters::named(order))?;
    }
    println!(out; "a meter that names neither an order nor a second address")?;
    first_items(out, meters::unnamed(), &[AT_OWN, AT_SECOND])
}

fn examples(out: Stdout, m: Meter) -> io::Result<()> {
    first_items(out, m, &LONGS)?;
    energies(out, m)?;
    first_items(out, m, &SINGLE_WORDS)?;
    each(out, m, &SEVERAL, rows::read)
}

// Counts of 1,525, 1,526 and 65,537. In the wrong order 1,525 is another count, and 1,526 is past the top of one.
fn energies(out: Stdout, m: Meter) -> io::Result<()> {
    for wh in [15_250, 15_260, 655_370] {
        first_items(out, meters::counted(m, wh), &[COUNT])?;
    }
    Ok(())
}

fn first_items(out: Stdout, m: Meter, reads: &[Read]) -> io::Result<()> {
    each(out, m, reads, items::read)
}

// What is told of each read.
fn each<F>(out: Stdout, m: Meter, reads: &[Read], tell: F) -> io::Result<()>
where
    F: Fn(Stdout, Exchange<'_>) -> io::Result<()> + Copy,
    requires { F.IsAlwaysCallable tell }
{
    for read in reads {
        read.told(out, m, tell)?;
    }
    Ok(())
}
