// A sample past an energy's top, minutes past a byte, and records at their limits and past them.
use crate::{figures, frames};
use ask::{Exchange, PLATE};
use board::{Average, Meter, Window};
use std::io::{self, Stdout};

// Of power without transformers, in hundredths of W.
const LIMIT: u64 = 4_294_967_295;

// The second that would fill the window is refused for its energy: one of 0 then fills it.
pub fn energy_top(out: Stdout) -> io::Result<()> {
    let mut m = figures::new(1);
    m.counters.active.positive.wh.0 = Meter::WH_TOP;
    let full = figures::after(out, m, 300, 500, "+Ea at its top, 300 seconds")?;
    let open = figures::after(out, full, 299, 100, "599 seconds")?;
    let same = figures::after(out, open, 1, 200_000, "  after it")?;
    figures::after(out, same, 1, 0, "600 seconds")?;
    Ok(())
}

// Minutes whose upper byte is not 0 are no B, and a plain word elsewhere.
pub fn minutes(out: Stdout) -> io::Result<()> {
    upper_byte(out, 0x0358)?;
    upper_byte(out, 0x102B)
}

fn upper_byte(out: Stdout, start: u16) -> io::Result<()> {
    let exchange = Exchange {
        request: &frames::read(start, 1),
        reply: b"\x01\x03\x02\x01\x04\xB8\x17",
        plate: PLATE,
    };
    println!(out; "0x0104 at 0x{start:04x}: {}", figures::item(exchange, 0))
}

// Figures at their limits, and each of them one past: the seconds and the sum of the open window, the average and the peak. Each
// meter takes a sample of 0 and a frame.
pub fn records(out: Stdout) -> io::Result<()> {
    for (name, seconds, sum, last, peak) in [
        ("at the limits", 299, 299 * LIMIT, LIMIT, LIMIT),
        ("300 open seconds at code 0", 300, 0, 0, 0),
        ("an open sum past 10 limits", 10, 10 * LIMIT + 1, 0, 0),
        ("an average past the peak", 0, 0, 1, 0),
        ("a peak past the limit", 0, 0, 0, LIMIT + 1),
    ] {
        println!(out; "{name}")?;
        let window = Window { seconds, sum };
        let average = Average { window, last, peak };
        let m = Meter {
            average,
            ..figures::new(1)
        };
        figures::after(out, m, 1, 0, "  a frame")?;
    }
    Ok(())
}
