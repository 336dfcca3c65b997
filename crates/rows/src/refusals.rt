// 003's read of 100 V, then the same with one thing wrong at a time: each reason to refuse a reply, and the error code. No cell may
// change. 12 cannot occur, 13 takes a read of its own, and 15 is in `short`.
// The frames stay spelled out here and in `polls`: so each table is read alone.
use crate::rows::Poll;
use ask::PLATE;
use collector::{Nameplate, Ratios};

const GOOD: Poll = Poll {
    name: "003 answer, 100 V",
    request: b"\x01\x03\x03\x01\x00\x02\x95\x8F",
    reply: b"\x01\x03\x04\x00\x01\x86\xA0\xC9\xEB",
    plate: PLATE,
    values: 2,
    kinds: 2,
};

// A read of a sector and a sequence, one word each.
const SECTOR: &[u8] = b"\x01\x03\x03\x3F\x00\x02\xF4\x43";

pub static EXAMPLES: [Poll; 11] = [
    GOOD,
    Poll {
        name: "told a KTV of 9 tenths",
        plate: Nameplate {
            ratios: Ratios { kta: 1, ktv: 9 },
            ..PLATE
        },
        ..GOOD
    },
    Poll {
        name: "request from 0x0302",
        request: b"\x01\x03\x03\x02\x00\x02\x65\x8F",
        ..GOOD
    },
    Poll {
        name: "reply of 4 bytes",
        reply: b"\x01\x03\x40\x21",
        ..GOOD
    },
    Poll {
        name: "reply with a damaged CRC",
        reply: b"\x01\x03\x04\x00\x01\x86\xA0\xC9\xEA",
        ..GOOD
    },
    Poll {
        name: "reply from address 2",
        reply: b"\x02\x03\x04\x00\x01\x86\xA0\xFA\xEB",
        ..GOOD
    },
    Poll {
        name: "data of 1 word",
        reply: b"\x01\x03\x02\x00\x01\x79\x84",
        ..GOOD
    },
    Poll {
        name: "error reply",
        reply: b"\x01\x83\x02\xC0\xF1",
        ..GOOD
    },
    Poll {
        name: "sector of 3, sequence of 0x0101",
        request: SECTOR,
        reply: b"\x01\x03\x04\x00\x03\x01\x01\xCA\x63",
        values: 3,
        kinds: 3,
        ..GOOD
    },
    // The sector is good and only the last item is not: the sector's cell may not change either.
    Poll {
        name: "sector of 2, sequence of 3",
        request: SECTOR,
        reply: b"\x01\x03\x04\x00\x02\x00\x03\x1B\xF2",
        values: 3,
        kinds: 3,
        ..GOOD
    },
    // The same with a good sequence.
    Poll {
        name: "sector of 2, sequence of 1",
        request: SECTOR,
        reply: b"\x01\x03\x04\x00\x02\x00\x01\x9A\x33",
        values: 3,
        kinds: 3,
        ..GOOD
    },
];
