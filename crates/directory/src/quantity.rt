// What an item shows, as a number, since the paper names one table of numbers: 64 x kind + which. The kinds are numbered from 1 in the
// order of paper 01's list of readings. Each kind has 64 numbers, and its constant is the first of these.
pub const VOLTAGE: u16 = 64;

pub const CURRENT: u16 = 64 * 2;

pub const POWER: u16 = 64 * 3;

pub const SIGNED_POWER: u16 = 64 * 4;

pub const ENERGY_COUNT: u16 = 64 * 5;

pub const LOW: u16 = 64 * 6;

pub const HIGH: u16 = 64 * 7;

pub const WRAP: u16 = 64 * 8;

pub const FACTOR: u16 = 64 * 9;

pub const SIGN: u16 = 64 * 10;

pub const SECTOR: u16 = 64 * 11;

pub const FREQUENCY: u16 = 64 * 12;

pub const KTA: u16 = 64 * 13;

pub const KTV: u16 = 64 * 14;

pub const SEQUENCE: u16 = 64 * 15;

pub const PLAIN: u16 = 64 * 16;

// Which voltage: of a phase, or chained. Which current: of a phase, or N, of the neutral.
pub const L1: u16 = 0;

pub const L2: u16 = 1;

pub const L3: u16 = 2;

pub const L12: u16 = 3;

pub const L23: u16 = 4;

pub const L31: u16 = 5;

pub const N: u16 = 3;

// Which power, sign or signed power: 3-phase, then phase by phase. S, the apparent power, has no sign.
pub const P: u16 = 0;

pub const Q: u16 = 1;

pub const P1: u16 = 2;

pub const P2: u16 = 3;

pub const P3: u16 = 4;

pub const Q1: u16 = 5;

pub const Q2: u16 = 6;

pub const Q3: u16 = 7;

pub const S: u16 = 8;

// S in whole VA, whatever the ratio.
pub const WHOLE_S: u16 = 9;

// The average of positive 3-phase P in the last full window, and its peak (request 1).
pub const AVERAGE: u16 = 10;

pub const PEAK: u16 = 11;

// Which energy, in the paper's order: +Ea, -Ea, +Er, -Er.
pub const POS_EA: u16 = 0;

pub const NEG_EA: u16 = 1;

pub const POS_ER: u16 = 2;

pub const NEG_ER: u16 = 3;

// Which power factor, by its unit.
pub const HUNDREDTHS: u16 = 0;

pub const THOUSANDTHS: u16 = 1;

// Which plain word: zeros, the identifiers 0x11 and 0x1114, the whole minutes of the open window (request 1), and from
// FIRST_SETUP on the setup words of both groups.
pub const ZEROS: u16 = 0;

pub const BYTE_IDENTIFIER: u16 = 1;

pub const WORD_IDENTIFIER: u16 = 2;

pub const MINUTES: u16 = 3;

pub const FIRST_SETUP: u16 = 4;

// The first word of each setup group; the others of the group follow it.
pub const SETUP_2000: u16 = PLAIN + FIRST_SETUP;

pub const SETUP_2200: u16 = SETUP_2000 + 16;
