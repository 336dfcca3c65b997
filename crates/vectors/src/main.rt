// The documents' examples, run: what each comes to is printed, and held to the file `stdout`.
#![tactic(auto)]

mod frames;
mod meters;

use board::{Order, Ratios};
use say::Bytes;
use std::io::{self, Stdout};

fn main(rt: HostRuntime) -> io::Result<()> {
    let out = rt.stdout();
    frames::examples(out)?;
    sent(out, 1_000)?;
    sent(out, 100_000)?;
    for (kta, ktv) in [(1, 99), (10, 10), (4_999, 10), (5_000, 10)] {
        follow(out, Ratios { kta, ktv })?;
    }
    meters::examples(out)?;
    meters::refusals(out)
}

// A value in one word and in two, upper word first, and the two read back.
fn sent(out: Stdout, value: u32) -> io::Result<()> {
    let mut word = [0u8; 2];
    words::put(&mut word, 0, 1, Order::UpperFirst, value);
    let mut long = [0u8; 4];
    words::put(&mut long, 0, 2, Order::UpperFirst, value);
    let back = words::value_at(&long, 0, 2, Order::UpperFirst);
    println!(out;
        "{value} is sent as{} or{}, read back {back}",
        Bytes(&word),
        Bytes(&long)
    )
}

// What follows from a pair of ratios.
fn follow(out: Stdout, ratios: Ratios) -> io::Result<()> {
    let t = ratios.tenths();
    let step = ratio::energy_step(t);
    print!(out; "KTA {}, KTV {}: step {step} Wh, ", ratios.kta, ratios.ktv)?;
    let shown = ratio::power_register(t, 12_345);
    let most = ratio::power_limit(t);
    println!(out; "12345 hundredths of a watt are shown as {shown}, at most {most}")
}
