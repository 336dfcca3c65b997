// Windows by their code, and writes in the middle of a window.
use crate::{figures, frames};
use board::Meter;
use std::io::{self, Stdout};

// The seconds of a window but one, by its code: 5, 8, 10, 15, 20, 30 and 60 minutes.
const ALL_BUT_ONE: [u32; 7] = [299, 479, 599, 899, 1_199, 1_799, 3_599];

// A window of each code, with all its seconds but one, and then full.
pub fn each(out: Stdout) -> io::Result<()> {
    for (code, seconds) in (0..7).zip(ALL_BUT_ONE) {
        print!(out; "code {code}")?;
        let m = ask::send(out, figures::new(1), " written", &frames::write(1, code))?;
        let open = figures::after(out, m, seconds, 1_000, "  with all but one")?;
        figures::after(out, open, 1, 1_000, "  full")?;
    }
    Ok(())
}

// 150 seconds are two whole minutes. Their power is above the peak, so that it would show in an average.
fn middle(out: Stdout, m: Meter) -> io::Result<Meter> {
    figures::after(out, m, 150, 200_000, "150 seconds")
}

// A code written to a meter or, at address 0, to all, and the figures after it.
fn written(out: Stdout, m: Meter, address: u8, code: u8, name: &str) -> io::Result<Meter> {
    let next = ask::send(out, m, name, &frames::write(address, code))?;
    figures::show(out, next, figures::WORD_BLOCK, "  after it")?;
    Ok(next)
}

// From 5 minutes to 8. A window of these is then filled.
pub fn changed(out: Stdout, m: Meter) -> io::Result<Meter> {
    let longer = written(out, middle(out, m)?, 1, 1, "code 1 written")?;
    let open = figures::after(out, longer, 479, 90_000, "479 seconds")?;
    figures::after(out, open, 1, 90_000, "480 seconds")
}

// With no second between the two writes.
pub fn there_and_back(out: Stdout, m: Meter) -> io::Result<Meter> {
    let there = written(out, middle(out, m)?, 1, 0, "code 0 written")?;
    written(out, there, 1, 1, "code 1 written")
}

pub fn to_all(out: Stdout, m: Meter) -> io::Result<()> {
    written(out, middle(out, m)?, 0, 0, "code 0 written to all meters")?;
    Ok(())
}

// The same code, a code that there is not, and the other group: the window stays open.
pub fn kept(out: Stdout) -> io::Result<()> {
    let same = written(out, middle(out, figures::new(1))?, 1, 0, "code 0 written")?;
    let refused = written(out, same, 1, 7, "code 7 written")?;
    other_group(out, refused)
}

// The word at 0x220a, which stands there as the code does in its group, is 1.
fn other_group(out: Stdout, m: Meter) -> io::Result<()> {
    let other = ask::send(
        out,
        m,
        "0x2200 written",
        b"\x01\x10\x22\x00\x00\x18\x30\x00\x00\x00\x00\x00\x00\x00\x00\x00\x00\x00\x00\x00\x00\x00\x00\x00\x00\x00\x00\x00\x01\x00\x00\x00\x00\x00\x00\x00\x00\x00\x00\x00\x00\x00\x00\x00\x00\x00\x00\x00\x00\x00\x00\x00\x00\x00\x00\xDE\xA7",
    )?;
    figures::show(out, other, figures::WORD_BLOCK, "  after it")
}
