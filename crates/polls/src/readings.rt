// The documents' replies, and some of our own making: between them they show every kind of reading.
// The frames stay spelled out here and in `rows`: so each table is read alone.
use crate::answers::Poll;
use ask::PLATE;
use collector::{Nameplate, Ratios};

// A meter of large transformers.
const LARGE: Nameplate = Nameplate {
    ratios: Ratios {
        kta: 5_000,
        ktv: 10,
    },
    ..PLATE
};

pub static EXAMPLES: [Poll; 9] = [
    // Two voltages, and an item past them.
    Poll {
        name: "003 answer, two voltages",
        request: b"\x01\x03\x03\x01\x00\x04\x15\x8D",
        reply: b"\x01\x03\x08\x00\x00\xD8\x85\x00\x00\x86\x9F\x68\xD9",
        plate: PLATE,
        items: 3,
    },
    Poll {
        name: "004 answer, two energies at KTA 1, KTV 10",
        request: b"\x01\x03\x10\x1C\x00\x04\x81\x0F",
        reply: b"\x01\x03\x08\x00\x00\x64\x8C\x00\x00\x35\x54\x9A\x83",
        plate: PLATE,
        items: 2,
    },
    // W, B and L in one run, so that an item's place is not its index: the factor of -98 hundredths is a meter's for -985
    // thousandths, and the count the largest that a register shows.
    Poll {
        name: "9 words from 0x0339",
        request: b"\x01\x03\x03\x39\x00\x09\x55\x85",
        reply: b"\x01\x03\x12\x01\xF4\x00\x00\xFF\x9E\x00\x02\x00\x01\x00\x00\x05\xF5\xE0\xFF\x00\x01\xC1\xF4",
        plate: PLATE,
        items: 8,
    },
    // From a KTA of 5,000 on P is in whole watts.
    Poll {
        name: "4 words from 0x0315 at KTA 5000, KTV 10",
        request: b"\x01\x03\x03\x15\x00\x04\x55\x89",
        reply: b"\x01\x03\x08\x00\x00\x13\x88\x00\x00\x00\x7B\x37\x48",
        plate: LARGE,
        items: 2,
    },
    // What a meter says of its own ratios is read as it stands.
    Poll {
        name: "2 words from 0x0100",
        request: b"\x01\x03\x01\x00\x00\x02\xC5\xF7",
        reply: b"\x01\x03\x04\x13\x88\x00\x0A\xFE\x9A",
        plate: LARGE,
        items: 2,
    },
    // Powers that are whole at any ratios: a signed one, with the factor in thousandths behind it, and S.
    Poll {
        name: "4 words from 0x1526",
        request: b"\x01\x03\x15\x26\x00\x04\xA1\xCE",
        reply: b"\x01\x03\x08\xFF\xFF\xFF\xFF\xFF\xFF\xFC\x27\xD4\xF9",
        plate: PLATE,
        items: 2,
    },
    Poll {
        name: "2 words from 0x1530",
        request: b"\x01\x03\x15\x30\x00\x02\xC0\x08",
        reply: b"\x01\x03\x04\x00\x00\x00\x7B\xBA\x10",
        plate: PLATE,
        items: 1,
    },
    // What an energy is joined from.
    Poll {
        name: "4 words from 0x1500",
        request: b"\x01\x03\x15\x00\x00\x04\x40\x05",
        reply: b"\x01\x03\x08\x00\x00\x07\xCF\x00\x01\x86\xA0\xF3\xA8",
        plate: PLATE,
        items: 2,
    },
    Poll {
        name: "1 word from 0x1540",
        request: b"\x01\x03\x15\x40\x00\x01\x81\xD2",
        reply: b"\x01\x03\x02\x00\x01\x79\x84",
        plate: PLATE,
        items: 1,
    },
];
