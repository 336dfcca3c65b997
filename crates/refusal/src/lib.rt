// Why a call is refused, and the error codes that a meter answers with (paper 01, "Refusal numbers" and "What the
// meter does with a frame"). Every call that refuses anything gives its reason by one of these names.
#![tactic(auto)]

ghost use Rattle.std.specs.Prelude.{◌≡◌, Some};
ghost use Rattle.refusal.specs.Numbers.{refusal_number, error_number, code_named};
ghost use Rattle.refusal.specs.Words.{refusal_text, error_text, unknown_code_text};

use std::error::Error;
use std::fmt;

// The rows of the refusal table, in its order, then those of paper 02.
#[derive(Clone, Copy, Debug, PartialEq, Eq)]
pub enum Refusal {
    MeterOutOfLimits,
    BufferShort,
    RatioOutOfLimits,
    OwnAddressZero,
    SampleOutOfLimits,
    EnergyPastTop,
    NotARead,
    ReplyLength,
    ReplyCrc,
    ReplyForeign,
    ReplyMisfit,
    IndexPastItems,
    ValueImpossible,
    JoinPastTop,
    RowShort,
}

impl Refusal {
    // The number of its row. Stays a match: each number stands beside its name, as in the paper's table; a cast would hide it.
    pub fn number(self) -> u8
        ensures { result ≡ refusal_number self }
    {
        match self {
            Refusal::MeterOutOfLimits => 1,
            Refusal::BufferShort => 2,
            Refusal::RatioOutOfLimits => 3,
            Refusal::OwnAddressZero => 4,
            Refusal::SampleOutOfLimits => 5,
            Refusal::EnergyPastTop => 6,
            Refusal::NotARead => 7,
            Refusal::ReplyLength => 8,
            Refusal::ReplyCrc => 9,
            Refusal::ReplyForeign => 10,
            Refusal::ReplyMisfit => 11,
            Refusal::IndexPastItems => 12,
            Refusal::ValueImpossible => 13,
            Refusal::JoinPastTop => 14,
            Refusal::RowShort => 15,
        }
    }
}

impl fmt::Display for Refusal {
    ghost output = { λ reason. Some (refusal_text reason) };

    fn fmt<W: fmt::Write>(&self, f: &mut fmt::Formatter<W>) -> fmt::Result {
        write!(f, "refused {}, ", self.number())?;
        f.write_str(match self {
            Refusal::MeterOutOfLimits => "meter record out of limits",
            Refusal::BufferShort => "reply buffer under 256 bytes",
            Refusal::RatioOutOfLimits => "KTA or KTV out of limits",
            Refusal::OwnAddressZero => "own address 0",
            Refusal::SampleOutOfLimits => "sample out of limits",
            Refusal::EnergyPastTop => "energy past its top",
            Refusal::NotARead => "not a read that is answered with data",
            Refusal::ReplyLength => "reply under 5 or over 256 bytes",
            Refusal::ReplyCrc => "reply CRC wrong",
            Refusal::ReplyForeign => "reply of another address or function",
            Refusal::ReplyMisfit => "reply does not fit the request",
            Refusal::IndexPastItems => "index past the items",
            Refusal::ValueImpossible => "value impossible",
            Refusal::JoinPastTop => "count, Low or High over its top",
            Refusal::RowShort => "row shorter than the items",
        })
    }
}

impl Error for Refusal {}

// What a meter finds wrong with a request: its function, the address it starts at, or its data.
#[derive(Clone, Copy, Debug, PartialEq, Eq)]
pub enum ErrorCode {
    Function,
    Address,
    Data,
}

impl ErrorCode {
    // The code as it is sent in an error reply. Stays a match: each code stands beside its name; a cast would hide it.
    pub fn number(self) -> u8
        ensures { result ≡ error_number self }
    {
        match self {
            ErrorCode::Function => 1,
            ErrorCode::Address => 2,
            ErrorCode::Data => 3,
        }
    }
}

// A number that no error code has.
#[derive(Clone, Copy, Debug, PartialEq, Eq)]
pub struct UnknownCode(pub u8);

impl TryFrom<u8> for ErrorCode {
    type Error = UnknownCode;

    ghost try_from_gives = { λ number outcome. outcome ≡ code_named number };

    fn try_from(number: u8) -> Result<ErrorCode, UnknownCode> {
        match number {
            1 => Ok(ErrorCode::Function),
            2 => Ok(ErrorCode::Address),
            3 => Ok(ErrorCode::Data),
            _ => Err(UnknownCode(number)),
        }
    }
}

impl fmt::Display for ErrorCode {
    ghost output = { λ code. Some (error_text code) };

    fn fmt<W: fmt::Write>(&self, f: &mut fmt::Formatter<W>) -> fmt::Result {
        write!(f, "error {:02}, ", self.number())?;
        f.write_str(match self {
            ErrorCode::Function => "incorrect function",
            ErrorCode::Address => "wrong first address",
            ErrorCode::Data => "incorrect data",
        })
    }
}

impl fmt::Display for UnknownCode {
    ghost output = { λ unknown. Some (unknown_code_text unknown) };

    fn fmt<W: fmt::Write>(&self, f: &mut fmt::Formatter<W>) -> fmt::Result {
        write!(f, "no error has code {:02}", self.0)
    }
}

impl Error for ErrorCode {}

impl Error for UnknownCode {}
