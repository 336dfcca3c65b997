// Windows of 5 minutes, filled.
use crate::{figures, frames};
use board::Meter;
use std::io::{self, Stdout};

// A window whose sum is 299 above a multiple of its 300 seconds, and the first second of the next.
pub fn rounded_down(out: Stdout) -> io::Result<Meter> {
    let open = figures::after(out, figures::new(1), 299, 100_000, "299 seconds")?;
    figures::show(out, open, figures::BYTE_BLOCK, "  byte block")?;
    let full = figures::after(out, open, 1, 120_248, "300 seconds")?;
    figures::show(out, full, figures::BYTE_BLOCK, "  byte block")?;
    alone(out, full)?;
    let next = figures::after(out, full, 1, 100_000, "301 seconds")?;
    figures::show(out, next, figures::BYTE_BLOCK, "  byte block")?;
    Ok(next)
}

// Each of the six places by a read of its own.
fn alone(out: Stdout, m: Meter) -> io::Result<()> {
    for (start, words) in [
        (0x0350, 2),
        (0x0354, 2),
        (0x0358, 1),
        (0x1027, 2),
        (0x1029, 2),
        (0x102B, 1),
    ] {
        print!(out; "  0x{start:04x}")?;
        ask::send(out, m, "", &frames::read(start, words))?;
    }
    Ok(())
}

// The rest of a second window. In its last 200 seconds P is negative, though phase 2 is not.
pub fn lower(out: Stdout, m: Meter) -> io::Result<Meter> {
    let open = figures::after(out, m, 99, 60_000, "400 seconds")?;
    figures::after(out, open, 200, -900_000, "600 seconds, 200 of negative P")
}

// The same seconds below T = 50,000 and at it, where a register has whole W.
pub fn units(out: Stdout) -> io::Result<()> {
    figures::after(out, figures::new(4_999), 300, 1_234_418, "T 49990")?;
    figures::after(out, figures::new(5_000), 300, 1_234_418, "T 50000")?;
    Ok(())
}
