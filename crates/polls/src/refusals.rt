// 003's read of 100 V, then the same with one thing wrong at a time: each reason to refuse a reading. 12 stands at the end of
// 003's two voltages, and 13 takes a read of its own.
// The frames stay spelled out here and in `rows`: so each table is read alone.
use crate::answers::Poll;
use ask::PLATE;
use collector::{Nameplate, Ratios};

const GOOD: Poll = Poll {
    name: "003 answer, 100 V",
    request: b"\x01\x03\x03\x01\x00\x02\x95\x8F",
    reply: b"\x01\x03\x04\x00\x01\x86\xA0\xC9\xEB",
    plate: PLATE,
    items: 1,
};

pub static EXAMPLES: [Poll; 13] = [
    GOOD,
    Poll {
        name: "told a KTV of 9 tenths",
        plate: Nameplate {
            ratios: Ratios { kta: 1, ktv: 9 },
            ..PLATE
        },
        ..GOOD
    },
    Poll {
        name: "request from 0x0302",
        request: b"\x01\x03\x03\x02\x00\x02\x65\x8F",
        ..GOOD
    },
    Poll {
        name: "request to address 0",
        request: b"\x00\x03\x03\x01\x00\x02\x94\x5E",
        ..GOOD
    },
    Poll {
        name: "reply of 4 bytes",
        reply: b"\x01\x03\x40\x21",
        ..GOOD
    },
    Poll {
        name: "reply with a damaged CRC",
        reply: b"\x01\x03\x04\x00\x01\x86\xA0\xC9\xEA",
        ..GOOD
    },
    Poll {
        name: "reply from address 2",
        reply: b"\x02\x03\x04\x00\x01\x86\xA0\xFA\xEB",
        ..GOOD
    },
    Poll {
        name: "reply of function 4",
        reply: b"\x01\x04\x04\x00\x01\x86\xA0\xC8\x5C",
        ..GOOD
    },
    // A good error reply gives its code for any item, also past the last.
    Poll {
        name: "error reply",
        reply: b"\x01\x83\x02\xC0\xF1",
        items: 2,
        ..GOOD
    },
    Poll {
        name: "error reply of code 4",
        reply: b"\x01\x83\x04\x40\xF3",
        ..GOOD
    },
    Poll {
        name: "error reply of 6 bytes",
        reply: b"\x01\x83\x02\x00\xF1\x50",
        ..GOOD
    },
    // One word where two were asked for.
    Poll {
        name: "data of 1 word",
        reply: b"\x01\x03\x02\x00\x01\x79\x84",
        ..GOOD
    },
    // Two words that fit, and hold what no meter shows. The sequence would be 1 but for the upper byte of its B.
    Poll {
        name: "sector of 3, sequence of 0x0101",
        request: b"\x01\x03\x03\x3F\x00\x02\xF4\x43",
        reply: b"\x01\x03\x04\x00\x03\x01\x01\xCA\x63",
        items: 2,
        ..GOOD
    },
];
