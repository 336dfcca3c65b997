// One call each, outside the loops, of what these count. A function that is called from one place is compiled into its caller there;
// called from two places it is a call, as it is for a customer's program.
use crate::{figures, readings};
use ask::PLATE;

pub fn each() -> u64 {
    let meter = figures::new();
    let answered = meter.after(meter.latest);
    let mut frame = [0u8; 256];
    crc::put(&mut frame, 254);
    let host = u64::from(eight::of(&frame));
    let said = readings::value(collector::read(&frame, &frame, PLATE, 0));
    said ^ host ^ answered.meter.counters.active.positive.wh.0
}

pub fn whole() -> u64 {
    readings::items(collector::read_whole(b"", b"", PLATE, &mut [0], &mut [0]))
}
