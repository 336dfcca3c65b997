// 003's two voltages in rows that have a cell for each, or too few. A meter's error code takes no cells, and so is told before a short
// row is; an impossible value is told after it.
// The frames stay spelled out here and in `polls`: so each table is read alone.
use crate::rows::Poll;
use ask::PLATE;

const GOOD: Poll = Poll {
    name: "two voltages, rows of 2",
    request: b"\x01\x03\x03\x01\x00\x04\x15\x8D",
    reply: b"\x01\x03\x08\x00\x00\xD8\x85\x00\x00\x86\x9F\x68\xD9",
    plate: PLATE,
    values: 2,
    kinds: 2,
};

const ERROR: &[u8] = b"\x01\x83\x02\xC0\xF1";

pub static EXAMPLES: [Poll; 6] = [
    GOOD,
    Poll {
        name: "two voltages, room for 1 value",
        values: 1,
        ..GOOD
    },
    Poll {
        name: "two voltages, room for 1 kind",
        kinds: 1,
        ..GOOD
    },
    Poll {
        name: "error reply, rows of 1",
        reply: ERROR,
        values: 1,
        kinds: 1,
        ..GOOD
    },
    Poll {
        name: "error reply, empty rows",
        reply: ERROR,
        values: 0,
        kinds: 0,
        ..GOOD
    },
    Poll {
        name: "sector of 3, room for 1 kind",
        request: b"\x01\x03\x03\x3F\x00\x02\xF4\x43",
        reply: b"\x01\x03\x04\x00\x03\x01\x01\xCA\x63",
        kinds: 1,
        ..GOOD
    },
];
