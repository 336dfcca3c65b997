// The replies that `polls` reads item by item, under the same names: every kind of reading is among them. The rows have one cell
// more than there are items, which stays.
// The frames stay spelled out here and in `polls`: so each table is read alone.
use crate::rows::Poll;
use ask::PLATE;
use collector::{Nameplate, Ratios};

pub static EXAMPLES: [Poll; 9] = [
    Poll {
        name: "003 answer, two voltages",
        request: b"\x01\x03\x03\x01\x00\x04\x15\x8D",
        reply: b"\x01\x03\x08\x00\x00\xD8\x85\x00\x00\x86\x9F\x68\xD9",
        plate: PLATE,
        values: 3,
        kinds: 3,
    },
    // An energy's cell is its count, whatever the step.
    Poll {
        name: "004 answer, two energies at KTA 1, KTV 10",
        request: b"\x01\x03\x10\x1C\x00\x04\x81\x0F",
        reply: b"\x01\x03\x08\x00\x00\x64\x8C\x00\x00\x35\x54\x9A\x83",
        plate: PLATE,
        values: 3,
        kinds: 3,
    },
    // Items of one word and of two take turns: a cell goes by the item's index, and not by its place in the data.
    Poll {
        name: "9 words from 0x0339",
        request: b"\x01\x03\x03\x39\x00\x09\x55\x85",
        reply: b"\x01\x03\x12\x01\xF4\x00\x00\xFF\x9E\x00\x02\x00\x01\x00\x00\x05\xF5\xE0\xFF\x00\x01\xC1\xF4",
        plate: PLATE,
        values: 9,
        kinds: 9,
    },
    // At a KTA of 5,000 P is in whole watts, and in hundredths in its cell.
    Poll {
        name: "4 words from 0x0315 at KTA 5000, KTV 10",
        request: b"\x01\x03\x03\x15\x00\x04\x55\x89",
        reply: b"\x01\x03\x08\x00\x00\x13\x88\x00\x00\x00\x7B\x37\x48",
        plate: Nameplate {
            ratios: Ratios {
                kta: 5_000,
                ktv: 10,
            },
            ..PLATE
        },
        values: 3,
        kinds: 3,
    },
    // What a meter says of its own ratios is read as it stands, also where others are told.
    Poll {
        name: "2 words from 0x0100",
        request: b"\x01\x03\x01\x00\x00\x02\xC5\xF7",
        reply: b"\x01\x03\x04\x13\x88\x00\x0A\xFE\x9A",
        plate: PLATE,
        values: 3,
        kinds: 3,
    },
    // The cells of -1 and -985 carry the sign through all 64 bits.
    Poll {
        name: "4 words from 0x1526",
        request: b"\x01\x03\x15\x26\x00\x04\xA1\xCE",
        reply: b"\x01\x03\x08\xFF\xFF\xFF\xFF\xFF\xFF\xFC\x27\xD4\xF9",
        plate: PLATE,
        values: 3,
        kinds: 3,
    },
    Poll {
        name: "2 words from 0x1530",
        request: b"\x01\x03\x15\x30\x00\x02\xC0\x08",
        reply: b"\x01\x03\x04\x00\x00\x00\x7B\xBA\x10",
        plate: PLATE,
        values: 2,
        kinds: 2,
    },
    Poll {
        name: "4 words from 0x1500",
        request: b"\x01\x03\x15\x00\x00\x04\x40\x05",
        reply: b"\x01\x03\x08\x00\x00\x07\xCF\x00\x01\x86\xA0\xF3\xA8",
        plate: PLATE,
        values: 3,
        kinds: 3,
    },
    Poll {
        name: "1 word from 0x1540",
        request: b"\x01\x03\x15\x40\x00\x01\x81\xD2",
        reply: b"\x01\x03\x02\x00\x01\x79\x84",
        plate: PLATE,
        values: 2,
        kinds: 2,
    },
];
