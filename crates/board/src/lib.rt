// The board: a frame in, the reply out (paper 01, "What the meter does with a frame").
#![tactic(auto)]

mod asker;
mod reads;

ghost use Rattle.std.specs.Prelude.{◌≡◌, true, false};
ghost use Rattle.modbus.specs.Frame.{silence, is_write};
ghost use Rattle.own.specs.Own.{own};
ghost use Rattle.board.specs.Board.{Allowed, obeyed_in, board_of};

use asker::Asker;
use refusal::ErrorCode;

// All that a board's program needs is here: `handle`, and the meter with the types of its record, its samples and its answers.
pub use average::{Average, Window};
pub use counts::WattHours;
pub use meter::energies::{Counters, Energies, Energy};
pub use meter::given::Given;
pub use meter::groups::Setup;
pub use meter::samples::{Factor, Powers, Sample};
pub use meter::{Answered, Meter};
pub use ratio::Ratios;
pub use refusal::Refusal;
pub use words::Order;

// A reply, and the meter after the frame.
// Stays a struct, no Result of the meter: `Allowed` says that a refused frame hands the record back as well.
#[derive(Clone, Copy)]
pub struct Handled {
    // The length of the reply, which stands at the start of the buffer; none where the meter keeps silent.
    pub reply: Result<Option<usize>, Refusal>,
    pub meter: Meter,
}

// Where a reply is put: any reply has room there.
type Room = [u8; modbus::FRAME_MOST];

// What a meter does with a frame. A reply is put at the start of the buffer, which needs 256 bytes; the bytes behind the reply
// stay as they were.
pub fn handle(meter: Meter, frame: &[u8], buffer: &mut [u8]) -> Handled
    ensures { Allowed (board_of meter frame.now buffer.old) result buffer.new }
{
    let mut next = meter;
    let reply = answer(&mut next, frame, buffer);
    Handled { reply, meter: next }
}

// Of the frames for all meters only a write has any effect; a tenant's write is a function that the meter does not know.
fn answer(meter: &mut Meter, frame: &[u8], buffer: &mut [u8]) -> Result<Option<usize>, Refusal>
    ensures { Allowed (board_of meter.old frame.now buffer.old) (record { reply = result; meter = meter.new }) buffer.new }
{
    let Some(sound) = meter.sound() else {
        return Err(Refusal::MeterOutOfLimits);
    };
    let Some(room) = buffer.first_chunk_mut() else {
        return Err(Refusal::BufferShort);
    };
    let asker = Asker::of(meter.given, frame);
    if modbus::silence(asker.address(meter.given), frame) {
        return Ok(None);
    }
    match frame[1] {
        modbus::WRITE_MULTIPLE_REGISTERS if asker.may_write() => Ok(write(meter, frame, room)),
        _ if frame[0] == modbus::BROADCAST => Ok(None),
        modbus::READ_HOLDING_REGISTERS => Ok(Some(reads::read(asker, sound, frame, room))),
        _ => Ok(Some(modbus::put_error(frame, ErrorCode::Function, room))),
    }
}

// Stores a write, and answers it unless it is for all meters.
fn write(meter: &mut Meter, frame: &[u8], room: &mut Room) -> Option<usize>
    requires heard { silence meter.old.given.address frame.now ≡ false }
    requires asks_a_write { is_write frame.now ≡ true }
    ensures { Allowed (obeyed_in own true meter.old frame.now room.old) (record { reply = Ok result; meter = meter.new }) room.new }
{
    let written = store::write(*meter, frame);
    if let Ok(next) = written {
        *meter = next;
    }
    if frame[0] == modbus::BROADCAST {
        return None;
    }
    Some(match written {
        Ok(_) => modbus::put_echo(frame, room),
        Err(code) => modbus::put_error(frame, code, room),
    })
}
