// The CRC eight bytes at once, for the host's side alone: the collector's check of a reply. The meter uses `crc`, in the form that
// paper 01 names.
//
// Eight bytes take 64 right shifts. Here a few shifts and exclusive-ors of u64 do the work of all 64, at a third of the cost over
// a whole frame. This rests on polynomials whose coefficients are bits. The CRC's polynomial is (t + 1)(t^15 + t + 1), so two
// things fix a CRC: its parity, and its remainder by t^15 + t + 1. For that remainder t^30 is t^2 + 1, and t^60 is t^4 + 1.
#![tactic(auto)]

ghost use Rattle.std.specs.Prelude.{◌≡◌};
ghost use Rattle.std.specs.List.{concat};
ghost use Rattle.crc.specs.Crc.{crc_from, crc_of, intact};
ghost use Rattle.eight.specs.AtOnce.{run, folded, spread, narrowed, parity, settled};

// The CRC of all bytes of a slice: eight at once while there are eight, then byte by byte.
// It stays a function that is called, as docs/COST.md counts it.
#[inline(never)]
pub fn of(bytes: &[u8]) -> u16
    ensures { result ≡ crc_of bytes.now }
{
    let (eights, rest) = bytes.as_chunks::<8>();
    let crc = whole_eights(eights);
    crc::continued(crc, rest)
}

// Whether a frame's last two bytes are its CRC, low byte first.
// The lemmas are for the right twins of its wrong programs.
#[tactic(auto, using(crc::proofs::Laws::short_broken, crc::proofs::Laws::ends_intact))]
pub fn intact(frame: &[u8]) -> bool
    ensures { result ≡ intact frame.now }
{
    crc::intact_by(frame, of)
}

// The CRC of the bytes that make whole eights. Without any there is nothing to settle, which would take some 48 instructions.
fn whole_eights(eights: &[[u8; 8]]) -> u16
    ensures { result ≡ crc_of (concat eights.now) }
{
    if eights.is_empty() {
        return crc::START;
    }
    eights
        .iter()
        .fold(Parts::START, |parts, eight| parts.with(*eight))
        .settled()
}

// A CRC in the two parts that fix it: its remainder, 64 shifts behind, and a number that has its parity.
#[derive(Clone, Copy)]
struct Parts {
    remainder: u64,
    parity: u64,
}

impl Parts {
    // Of no bytes: 64 shifts turn 0x0F14 into 0xFFFF.
    const START: Parts = Parts {
        remainder: 0x0F14,
        parity: 0,
    };

    // Carried on over eight bytes as one number, the first byte lowest.
    fn with(self, eight: [u8; 8]) -> Parts
        ensures { settled result.remainder result.parity
            ≡ crc_from (settled self.remainder self.parity) eight }
    {
        let w = u64::from_le_bytes(eight);
        Parts {
            remainder: spread(folded(self.remainder)) ^ w,
            parity: self.parity ^ w,
        }
    }

    // The CRC itself. Where the parity is still wrong, 0xC001 is exclusive-ored in: that is t^15 + t + 1, which changes the
    // parity and leaves the remainder.
    fn settled(self) -> u16
        ensures { result ≡ settled self.remainder self.parity }
    {
        let r = narrowed(folded(self.remainder));
        let odd = parity(self.parity ^ r);
        ((r ^ (odd ^ (odd << 14) ^ (odd << 15))) % 0x1_0000) as u16
    }
}

// The first 28 shifts. The upper 32 bits move down 28 places. Each of the lower 32 stays where it is and is put two places up as
// well: for the remainder that is the same as 28 shifts, since t^30 is t^2 + 1.
// The low bits stay a remainder, as the definition's `low` takes them; by a power of two the compiler makes a mask of it.
fn folded(x: u64) -> u64
    ensures { result ≡ run folded x }
{
    let first = x % 0x1_0000_0000;
    (x >> 32 << 4) ^ first ^ (first << 2)
}

// The other 36 shifts. They would push out every bit; since t^60 is t^4 + 1, each is put 20 and 24 places up instead.
fn spread(w: u64) -> u64
    ensures { result ≡ run spread w }
{
    (w << 20) ^ (w << 24)
}

// The other 36 shifts for the last eight bytes, down to 16 bits: 22 since t^30 is t^2 + 1, then 14 since t^15 is t + 1.
fn narrowed(w: u64) -> u64
    ensures { result ≡ run narrowed w }
{
    let first = w % 0x40_0000;
    let v = (w >> 22) ^ (first << 6) ^ (first << 8);
    let next = v % 0x8000;
    (v >> 15 << 1) ^ next ^ (next << 1)
}

// 1 if an odd number of x's bits are set, else 0.
fn parity(x: u64) -> u64
    ensures { result ≡ run parity x }
{
    u64::from(x.count_ones() % 2)
}
