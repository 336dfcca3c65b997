// What a meter makes of a frame.
ghost use Rattle.std.specs.Prelude.{◌≡◌, ◌≤◌, length, IfOk, IfSome};
ghost use Rattle.board.specs.Board.{board_of};
ghost use Rattle.ask.specs.Ask.{HeardOf};

use crate::{Frame, REPLY_ROOM};
use board::{Meter, Refusal};
use std::fmt::{self, Display};

// The reply, none where the meter is silent, or why the frame is refused; and the meter after it.
// Stays a struct, no Result of the meter, as `board::Handled`: a refused frame hands the record back as well.
#[derive(Clone, Copy)]
pub struct Heard<'a> {
    pub reply: Result<Option<&'a [u8]>, Refusal>,
    pub meter: Meter,
}

impl<'a> Display for Heard<'a> {
    fn fmt<W: fmt::Write>(&self, f: &mut fmt::Formatter<W>) -> fmt::Result {
        match self.reply {
            Ok(Some(reply)) => write!(f, ", answered{}", Frame(reply)),
            Ok(None) => f.write_str(", silent"),
            Err(reason) => write!(f, ", {reason}"),
        }
    }
}

// Sends a meter a frame. The reply stands in the buffer.
pub fn hear<'a>(meter: Meter, frame: &[u8], buffer: &'a mut [u8; REPLY_ROOM]) -> Heard<'a>
    ensures after { result.meter ≡ (board_of meter frame.now buffer.old).handled.meter }
    ensures heard { HeardOf (board_of meter frame.now buffer.old) result.reply }
    ensures short { IfOk result.reply (λ sent. IfSome sent (λ reply. length reply.now ≤ 256)) }
{
    let handled = board::handle(meter, frame, buffer);
    // Stays a match, no map: the wrong program `silence_refused` changes the arm of silence.
    let reply = match handled.reply {
        Ok(None) => Ok(None),
        Ok(Some(n)) => Ok(Some(&buffer[..n])),
        Err(reason) => Err(reason),
    };
    Heard {
        reply,
        meter: handled.meter,
    }
}
