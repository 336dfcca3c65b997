// What a request and its reply come to before any item is looked at (paper 01, "Collector"): it is judged once, for however many items.
#![tactic(auto)]

ghost use Rattle.std.specs.Prelude.{◌≡◌, ◌≤◌, length};
ghost use Rattle.replies.specs.Judged.{heard, error_of, reply_of, judged_in};

use directory::{Directory, Span};
use ratio::Ratios;
use reading::Answer;
use refusal::{ErrorCode, Refusal};
use std::error::Error;
use std::fmt;

// The function of an error reply to a read.
const READ_ERROR: u8 = modbus::READ_HOLDING_REGISTERS + modbus::ERROR_FLAG;

// The bytes of an error reply, and of a data reply without its data.
const REPLY_LEAST: usize = 5;

// Why there is no data to read: the meter's error code, or the refusal.
#[derive(Clone, Copy, Debug, PartialEq, Eq)]
pub enum Unread {
    Error(ErrorCode),
    Refused(Refusal),
}

impl From<ErrorCode> for Unread {
    ghost use Rattle.replies.specs.declared.Unread.TheVariants.{Error};

    ghost from_gives = { λ code unread. unread ≡ Error code };

    fn from(code: ErrorCode) -> Unread {
        Unread::Error(code)
    }
}

impl From<Refusal> for Unread {
    ghost use Rattle.replies.specs.declared.Unread.TheVariants.{Refused};

    ghost from_gives = { λ reason unread. unread ≡ Refused reason };

    fn from(reason: Refusal) -> Unread {
        Unread::Refused(reason)
    }
}

impl From<Unread> for Answer {
    ghost use Rattle.replies.specs.Judged.{unread};

    ghost from_gives = { λ why answer. answer ≡ unread why };

    fn from(why: Unread) -> Answer {
        match why {
            Unread::Error(code) => Answer::Error(code),
            Unread::Refused(reason) => Answer::Refused(reason),
        }
    }
}

impl fmt::Display for Unread {
    ghost use Rattle.std.specs.Prelude.{Some};
    ghost use Rattle.replies.specs.Judged.{unread_text};

    ghost output = { λ why. Some (unread_text why) };

    fn fmt<W: fmt::Write>(&self, f: &mut fmt::Formatter<W>) -> fmt::Result {
        match self {
            Unread::Error(code) => write!(f, "{code}"),
            Unread::Refused(reason) => write!(f, "{reason}"),
        }
    }
}

impl Error for Unread {}

// Judges a request and its reply, by a directory: the items asked for, where there is data that fits.
pub fn judge(
    directory: &Directory,
    request: &[u8],
    reply: &[u8],
    ratios: Ratios,
) -> Result<Span, Unread>
    ensures { result ≡ judged_in directory.now request.now reply.now ratios }
{
    if !ratios.within() {
        return Err(Refusal::RatioOutOfLimits.into());
    }
    if !heard(request) {
        return Err(Refusal::NotARead.into());
    }
    let Ok(asked) = modbus::read_in(directory, request) else {
        return Err(Refusal::NotARead.into());
    };
    replied(request, reply)?;
    Ok(asked)
}

// Whether a request is a read that the meter it is addressed to would heed.
fn heard(request: &[u8]) -> bool
    ensures { result ≡ heard request.now }
{
    if request.len() < modbus::FRAME_LEAST {
        return false;
    }
    let address = request[0];
    if (address == modbus::BROADCAST) | (request[1] != modbus::READ_HOLDING_REGISTERS) {
        return false;
    }
    !modbus::silence(address, request)
}

// Whether a reply to a read has the words asked.
fn replied(request: &[u8], reply: &[u8]) -> Result<(), Unread>
    requires { length request.now ≡ 8 }
    ensures { result ≡ reply_of request.now reply.now tt }
{
    let n = reply.len();
    if !(REPLY_LEAST..=modbus::FRAME_MOST).contains(&n) {
        return Err(Refusal::ReplyLength.into());
    }
    if !eight::intact(reply) {
        return Err(Refusal::ReplyCrc.into());
    }
    let function = reply[1];
    if (reply[0] != request[0])
        | ((function != modbus::READ_HOLDING_REGISTERS) & (function != READ_ERROR))
    {
        return Err(Refusal::ReplyForeign.into());
    }
    if function == READ_ERROR {
        return Err(error(reply));
    }
    let bytes = usize::from(reply[2]);
    if (bytes != 2 * usize::from(words::word_at(request, modbus::WORDS_AT)))
        | (n != REPLY_LEAST + bytes)
    {
        return Err(Refusal::ReplyMisfit.into());
    }
    Ok(())
}

// What an error reply says: its error code, where it has one.
fn error(reply: &[u8]) -> Unread
    requires { 5 ≤ length reply.now }
    ensures { result ≡ error_of reply.now }
{
    if reply.len() != REPLY_LEAST {
        return Refusal::ReplyMisfit.into();
    }
    match ErrorCode::try_from(reply[2]) {
        Ok(code) => code.into(),
        Err(_) => Refusal::ReplyMisfit.into(),
    }
}
