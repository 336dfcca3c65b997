// The first item of a reply, in words.
use ask::Exchange;
use collector::Quantity;
use say::Told;
use std::fmt::{self, Display};
use std::io::{self, Stdout};

pub fn read(out: Stdout, exchange: Exchange<'_>) -> io::Result<()> {
    println!(out; "{}", Told(exchange.item(0).map(Figure)))
}

// The kinds that are asked for.
// Stays a type of its own: each program has its own words for a reading.
#[derive(Clone, Copy)]
struct Figure(Quantity);

impl Display for Figure {
    fn fmt<W: fmt::Write>(&self, f: &mut fmt::Formatter<W>) -> fmt::Result {
        match self.0 {
            Quantity::Voltage(mv) => write!(f, "{mv} mV"),
            Quantity::SignedPower(p) => {
                let sign = if p.negative { "-" } else { "" };
                write!(f, "{sign}{} W", p.magnitude)
            }
            Quantity::Energy { count, step: _, wh } => {
                write!(f, "a count of {}, {} Wh", count.0, wh.0)
            }
            Quantity::Wrap(n) => write!(f, "a wrap of {n}"),
            Quantity::Frequency(n) => write!(f, "{n} tenths of Hz"),
            Quantity::Kta(n) => write!(f, "a KTA of {n}"),
            Quantity::Plain(n) => write!(f, "a plain word of {n}"),
            _ => f.write_str("another kind"),
        }
    }
}
