// The register map for people: a Markdown document of paper 01's own directory, printed from its table. It is docs/REGISTERS.md.
#![tactic(auto)]

mod names;
mod units;

use directory::Item;
use names::Name;
use std::io::{self, Stdout};

fn main(rt: HostRuntime) -> io::Result<()> {
    let out = rt.stdout();
    println!(out;
        "# The register map\n\n\
        The program `map` prints this document from the table that the board and the collector go by, and the gate compares.\n\
        Below 0x1000 addresses count bytes, from there on words. L is two words, in the order that the meter names; W is one word; B is one byte, sent as a word.\n\
        The step of an energy register and the unit of a power go by the ratios KTA and KTV."
    )?;
    rows(out)
}

// The addresses of a block have their upper byte in common.
fn rows(out: Stdout) -> io::Result<()> {
    let directory = own::directory();
    let mut block = None;
    // Stays a loop over indices: the directory lends an item by its index, and has no iterator.
    for i in 0..own::ITEMS {
        let it = directory.item(i);
        let [upper, _] = it.start.to_be_bytes();
        if block != Some(upper) {
            heading(out, upper)?;
            block = Some(upper);
        }
        row(out, it)?;
    }
    Ok(())
}

fn heading(out: Stdout, block: u8) -> io::Result<()> {
    println!(out;
        "\n## From 0x{block:02x}00\n\n\
        | address | sent as | words | what it shows | unit or values |\n\
        |---|---|---|---|---|"
    )
}

fn row(out: Stdout, it: Item) -> io::Result<()> {
    println!(out;
        "| 0x{:04x} | {} | {} | {} | {} |",
        it.start,
        width(it),
        it.words,
        Name(it.quantity),
        units::of(it.quantity)
    )
}

fn width(it: Item) -> &'static str {
    if it.is_b() {
        "B"
    } else if it.words == 2 {
        "L"
    } else {
        "W"
    }
}
