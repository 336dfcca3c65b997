// The CRC that ends every frame (paper 01, "What the meter does with a frame"), in the form that the paper names: over u16 with
// shift, mask and exclusive-or.
#![tactic(auto)]

ghost use Rattle.std.specs.Prelude.{◌≡◌};
ghost use Rattle.std.specs.Fn.{FnReturnsAt};
ghost use Rattle.std.specs.Int.Bits.{bit_xor};
ghost use Rattle.crc.specs.Crc.{shift, shifts, crc_from, crc_of, ends_in, intact, Put, TakesTheCrc};

// The value that a CRC starts from.
pub const START: u16 = 0xFFFF;

// The CRC of all bytes of a slice.
pub fn of(bytes: &[u8]) -> u16
    ensures { result ≡ crc_of bytes.now }
{
    continued(START, bytes)
}

// A CRC carried on over more bytes: for a caller that has the CRC of the bytes before them.
pub fn continued(crc: u16, bytes: &[u8]) -> u16
    ensures { result ≡ crc_from crc bytes.now }
{
    bytes.iter().fold(crc, |c, b| with_byte(c, *b))
}

// Whether a frame's last two bytes are its CRC, low byte first.
pub fn intact(frame: &[u8]) -> bool
    ensures { result ≡ intact frame.now }
{
    intact_by(frame, of)
}

// The same by another function that takes the CRC: for a caller that has a quicker one.
pub fn intact_by<F: Fn(&[u8]) -> u16>(frame: &[u8], of: F) -> bool
    requires callable { F.IsAlwaysCallable of }
    requires takes_the_crc { TakesTheCrc (FnReturnsAt F.Fn of) }
    ensures { result ≡ intact frame.now }
{
    let Some((body, _)) = frame.split_last_chunk::<2>() else {
        return false;
    };
    ends_in(frame, of(body))
}

// Whether a frame's last two bytes are this CRC, low byte first.
// The lemma is for the right twin of a wrong program.
#[tactic(auto, using(crate::proofs::Laws::ends_bytes))]
pub fn ends_in(frame: &[u8], crc: u16) -> bool
    ensures { result ≡ ends_in frame.now crc }
{
    frame.ends_with(&crc.to_le_bytes())
}

// Puts the CRC of the first n bytes behind them, low byte first. If there is no room, it changes nothing and answers false.
// Stays a bool: there is one reason, and `Put` says what either answer means.
// The buffer and n stay two arguments: the public call names both, and the CRC goes into the room behind the n bytes.
pub fn put(buffer: &mut [u8], n: usize) -> bool
    ensures { Put buffer.old n result buffer.new }
{
    let Some((bytes, rest)) = buffer.split_at_mut_checked(n) else {
        return false;
    };
    let Some(end) = rest.first_chunk_mut::<2>() else {
        return false;
    };
    *end = of(bytes).to_le_bytes();
    true
}

// A CRC carried on over one byte: exclusive-ored into the low half, then eight right shifts.
fn with_byte(crc: u16, b: u8) -> u16
    ensures { result ≡ shifts 8 (bit_xor crc b) }
{
    (0..8u32).fold(crc ^ u16::from(b), |c, _| shift(c))
}

// One right shift, with the branch that the written rule has. From this form the compiler makes a table look-up of the loop above.
fn shift(c: u16) -> u16
    ensures { result ≡ shift c }
{
    if c & 1 == 1 {
        (c >> 1) ^ 0xA001
    } else {
        c >> 1
    }
}
