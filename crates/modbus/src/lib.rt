// What a frame is (paper 01, "What the meter does with a frame"): where its fields stand, which frames a meter keeps silent on,
// how a read is judged, the shape of a write, and the replies that carry no data.
#![tactic(auto)]

ghost use Rattle.std.specs.Prelude.{◌≡◌, ◌+◌, ◌*◌, ◌≤◌, ◌<◌, length};
ghost use Rattle.std.proofs.lemmas.List.Edits.{sets};
ghost use Rattle.modbus.specs.Frame.{function_of, silence, write_shaped, words_at};
ghost use Rattle.modbus.specs.Read.{read_in};
ghost use Rattle.modbus.specs.Replies.{error_reply, echo_reply};

use directory::{Directory, Span};
use refusal::ErrorCode;

// The two functions that a meter carries out. They stay numbers: any byte may stand in their place, and each other one is an error.
pub const READ_HOLDING_REGISTERS: u8 = 0x03;

pub const WRITE_MULTIPLE_REGISTERS: u8 = 0x10;

// The bit that an error reply sets in the function. So no request has a function from here on.
pub const ERROR_FLAG: u8 = 0x80;

// The address that every meter heeds and none answers.
pub const BROADCAST: u8 = 0;

// The fewest and the most bytes of a frame.
pub const FRAME_LEAST: usize = 4;

pub const FRAME_MOST: usize = 256;

// Where the fields of a request stand: the address at 0, the function at 1, then these. Only a write has a byte number.
pub const START_AT: usize = 2;

pub const WORDS_AT: usize = 4;

const BYTES_AT: usize = 6;

// The bytes of a data reply before its words: address, function and byte number.
pub const DATA_HEAD: usize = 3;

// The bytes of a read: address, function, start, word number and CRC.
const READ_LENGTH: usize = 8;

// The bytes of a write before its values.
const WRITE_HEAD: usize = 7;

// All bytes of a write but its values: those before them, and the CRC.
const WRITE_OVERHEAD: usize = 9;

// Whether a meter keeps silent on a frame. The CRC is tested last because it costs the most: on a shared line most frames are for
// other meters, and their address alone decides.
pub fn silence(own: u8, frame: &[u8]) -> bool
    ensures { result ≡ silence own frame.now }
{
    let n = frame.len();
    if !(FRAME_LEAST..=FRAME_MOST).contains(&n) {
        return true;
    }
    let address = frame[0];
    if (address != BROADCAST) & (address != own) {
        return true;
    }
    if ERROR_FLAG <= frame[1] {
        return true;
    }
    !crc::intact(frame)
}

// Judges a read by a directory: the items that it asks for, or what is wrong with it.
pub fn read_in(directory: &Directory, frame: &[u8]) -> Result<Span, ErrorCode>
    ensures { result ≡ read_in directory.now frame.now }
{
    if frame.len() != READ_LENGTH {
        return Err(ErrorCode::Data);
    }
    let words = words::word_at(frame, WORDS_AT);
    if !(1..=directory.most()).contains(&words) {
        return Err(ErrorCode::Data);
    }
    directory.run(words::word_at(frame, START_AT), words)
}

// Whether a write has at least one word, and its byte number and its length fit the number of words.
pub fn write_shaped(frame: &[u8]) -> bool
    ensures { result ≡ write_shaped frame.now }
{
    let n = frame.len();
    if n < WRITE_OVERHEAD {
        return false;
    }
    let words = usize::from(words::word_at(frame, WORDS_AT));
    let bytes = usize::from(frame[BYTES_AT]);
    (words != 0) & (bytes == 2 * words) & (n == WRITE_OVERHEAD + bytes)
}

// Takes the values of a write, from the first on, until `into` is full.
pub fn values(frame: &[u8], into: &mut [u16])
    requires { 7 + 2 * length into.old ≤ length frame.now }
    ensures { into.new ≡ words_at (length into.old) frame.now 7 }
{
    for (i, word) in into.iter_mut().enumerate() {
        *word = words::word_at(frame, WRITE_HEAD + 2 * i);
    }
}

// Puts the error reply to a frame at the start of the buffer, and answers its length. The buffer stays a slice and its least length a
// clause, here and in `put_echo`: an array of 256 bytes would ask more of the callers.
pub fn put_error(frame: &[u8], code: ErrorCode, buffer: &mut [u8]) -> usize
    requires { (2 ≤ length frame.now) × (function_of frame.now < 0x80) × (256 ≤ length buffer.old) }
    ensures value { result ≡ length (error_reply frame.now code) }
    ensures buffer_after { buffer.new ≡ sets buffer.old 0 (error_reply frame.now code) }
{
    buffer[0] = frame[0];
    buffer[1] = frame[1] + ERROR_FLAG;
    buffer[2] = code.number();
    crc::put(buffer, 3);
    5
}

// Puts the reply to a stored write at the start of the buffer: the first six bytes of the write, and the CRC. Answers its length.
pub fn put_echo(frame: &[u8], buffer: &mut [u8]) -> usize
    requires { (6 ≤ length frame.now) × (256 ≤ length buffer.old) }
    ensures value { result ≡ length (echo_reply frame.now) }
    ensures buffer_after { buffer.new ≡ sets buffer.old 0 (echo_reply frame.now) }
{
    buffer[..6].copy_from_slice(&frame[..6]);
    crc::put(buffer, 6);
    8
}
