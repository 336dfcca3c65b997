// Reads of a meter, and what a collector makes of each reply that is told one order and that is told the other.
use crate::meters::{self, ORDERS};
use ask::{Exchange, OWN, REPLY_ROOM, SECOND};
use board::Meter;
use say::Bytes;
use std::io::{self, Stdout};

// A read by its name: the address, and the words asked for.
#[derive(Clone, Copy)]
pub struct Read {
    name: &'static str,
    address: u8,
    start: u16,
    words: u8,
}

pub const AT_OWN: Read = Read {
    name: "0x1000 at 1",
    address: OWN,
    start: 0x1000,
    words: 2,
};

pub const AT_SECOND: Read = Read {
    name: "0x1000 at 9",
    address: SECOND,
    ..AT_OWN
};

// 100,000 mV in both blocks, at both addresses. In the wrong order it is another voltage, which no collector can tell from a true one.
pub static LONGS: [Read; 6] = [
    AT_OWN,
    AT_SECOND,
    Read {
        name: "0x0301 at 1",
        start: 0x0301,
        ..AT_OWN
    },
    Read {
        name: "0x0301 at 9",
        start: 0x0301,
        ..AT_SECOND
    },
    // 65,537 mV is two equal words.
    Read {
        name: "0x1002",
        start: 0x1002,
        ..AT_OWN
    },
    // -300 W: two's complement is of both words together, and they are turned after it.
    Read {
        name: "0x1518",
        start: 0x1518,
        ..AT_OWN
    },
];

pub const COUNT: Read = Read {
    name: "0x101c",
    start: 0x101C,
    ..AT_OWN
};

// A W or a B has no order.
pub static SINGLE_WORDS: [Read; 4] = [
    Read {
        name: "0x1026",
        start: 0x1026,
        words: 1,
        ..AT_OWN
    },
    Read {
        name: "0x1200",
        start: 0x1200,
        words: 1,
        ..AT_OWN
    },
    Read {
        name: "0x1540",
        start: 0x1540,
        words: 1,
        ..AT_OWN
    },
    Read {
        name: "0x0358",
        start: 0x0358,
        words: 1,
        ..AT_OWN
    },
];

// Each L is turned in its own place: Low stays before High. Two W are no L: the identifier stays before the phase sequence.
pub static SEVERAL: [Read; 3] = [
    Read {
        name: "6 words from 0x1000",
        words: 6,
        ..AT_OWN
    },
    Read {
        name: "4 words from 0x1500",
        start: 0x1500,
        words: 4,
        ..AT_OWN
    },
    Read {
        name: "2 words from 0x1204",
        start: 0x1204,
        ..AT_OWN
    },
];

impl Read {
    // The frame, what the meter answers, and what is told of the reply in either order.
    // Stays spelled out, as in other programs: each prints something else of the frame and the reply.
    pub fn told<F>(self, out: Stdout, m: Meter, tell: F) -> io::Result<()>
    where
        F: Fn(Stdout, Exchange<'_>) -> io::Result<()>,
        requires { F.IsAlwaysCallable tell }
    {
        let request = ask::read(self.address, self.start, self.words);
        let mut buffer = [0u8; REPLY_ROOM];
        let heard = ask::hear(m, &request, &mut buffer);
        println!(out; "{}, asked{}{heard}", self.name, Bytes(&request))?;
        let Ok(Some(reply)) = heard.reply else {
            return Ok(());
        };
        for (order, words) in ORDERS {
            print!(out; "  told {words}: ")?;
            let exchange = Exchange {
                request: &request,
                reply,
                plate: meters::plate(order),
            };
            tell(out, exchange)?;
        }
        Ok(())
    }
}
