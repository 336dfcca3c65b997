// A meter that takes the same sample every second, and all that its registers then show.
use ask::GIVEN;
use meter::Meter;
use meter::samples::{Powers, Sample};

const SAMPLE_TURNS: u32 = 1000;

const SHOWN_TURNS: usize = 1000;

// A new meter without transformers, which sends the upper word first.
// Stays beside the other programs' new meters: of `GIVEN` nothing is changed here.
pub fn new() -> Meter {
    Meter::of(GIVEN).meter
}

pub fn counted() -> u64 {
    let meter = new();
    let sample = Sample {
        p: Powers {
            l1: 120_000,
            l2: 120_000,
            l3: 120_000,
        },
        q: Powers {
            l1: -120_000,
            l2: 60_000,
            l3: -1,
        },
        ..meter.latest
    };
    let m = after(meter, sample);
    m.counters.active.positive.wh.0 / 2 + u64::from(shown(m))
}

fn after(m: Meter, sample: Sample) -> Meter {
    let mut next = m;
    for _ in 0..SAMPLE_TURNS {
        next = next.after(sample).meter;
    }
    next
}

fn shown(m: Meter) -> u32 {
    let Some(sound) = m.sound() else {
        return 0;
    };
    let directory = own::directory();
    let mut shows = 0;
    for k in 0..SHOWN_TURNS {
        // Stays a remainder: the turns go over the items again and again, and the directory lends an item by its index.
        let it = directory.item(k % own::ITEMS);
        shows ^= registers::shown(sound, it.quantity);
    }
    shows
}
