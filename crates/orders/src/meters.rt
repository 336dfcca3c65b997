// The meters that are read, after one sample, and what a collector is told of them.
use ask::{DIRECT, OWN, PLATE, SECOND};
use board::{Given, Meter, Order, Powers, Sample};
use collector::Nameplate;

// Both orders, in words.
pub const ORDERS: [(Order, &str); 2] = [
    (Order::UpperFirst, "upper word first"),
    (Order::LowerFirst, "lower word first"),
];

pub fn plate(order: Order) -> Nameplate {
    Nameplate { order, ..PLATE }
}

// A meter that names its order, and a second address. An energy register counts steps of 10 Wh.
// Stays beside the other programs' new meters: each names what its own examples change of `Given`.
pub fn named(order: Order) -> Meter {
    let made = Meter::of(Given {
        address: OWN,
        second: SECOND,
        ratios: DIRECT,
        order,
    });
    sampled(made.meter)
}

// A meter that names neither.
pub fn unnamed() -> Meter {
    let made = Meter::new(OWN, DIRECT);
    sampled(made.meter)
}

// After the sample, 130 seconds into a window, with a +Ea whose Low and High take both words.
fn sampled(new: Meter) -> Meter {
    let answered = new.after(Sample {
        voltages: [100_000, 65_537, 0, 0, 0, 0],
        p: Powers {
            l1: -30_000,
            l2: 0,
            l3: 0,
        },
        frequency: 500,
        ..new.latest
    });
    let mut m = answered.meter;
    m.average.window.seconds = 130;
    counted(m, 131_073_131_075)
}

// With this +Ea, in Wh.
pub fn counted(mut m: Meter, wh: u64) -> Meter {
    m.counters.active.positive.wh.0 = wh;
    m
}
