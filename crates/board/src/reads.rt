// The reply to a read (paper 01, "What the meter does with a frame", step 4).
ghost use Rattle.std.specs.Prelude.{◌≡◌, ◌+◌, ◌*◌, ◌≤◌, ◌<◌, length};
ghost use Rattle.std.proofs.lemmas.List.Edits.{sets};
ghost use Rattle.directory.specs.Run.{words_of};
ghost use Rattle.own.specs.Own.{own};
ghost use Rattle.modbus.specs.Frame.{function_of, word_number};
ghost use Rattle.registers.specs.Shown.{shown_of};
ghost use Rattle.board.specs.Reads.{items_sent, data_reply, read_reply};
ghost use Rattle.board.specs.Askers.{is_tenant};
ghost use Rattle.board.specs.Board.{view_for};

use crate::Room;
use crate::asker::Asker;
use directory::Items;
use meter::sound::Sound;

// Puts the reply to whoever asks at the start of the buffer, and answers its length.
pub(crate) fn read(asker: Asker, sound: Sound, frame: &[u8], buffer: &mut Room) -> usize
    requires { (2 ≤ length frame.now) × (function_of frame.now < 0x80) }
    ensures value { result ≡ length (read_reply (view_for own (is_tenant asker)) sound.meter.given.order (shown_of sound.meter) frame.now) }
    ensures buffer_after { buffer.new ≡ sets buffer.old 0 (read_reply (view_for own (is_tenant asker)) sound.meter.given.order (shown_of sound.meter) frame.now) }
{
    let directory = asker.directory();
    match modbus::read_in(&directory, frame) {
        Ok(span) => put_data(&directory.part(span), sound, frame, buffer),
        Err(code) => modbus::put_error(frame, code, buffer),
    }
}

// Puts the data reply to a read of the items asked for, and answers its length.
// The cast stays: a read asks for 125 words at the most, and `try_from` would add a case that never comes.
fn put_data(asked: &Items, sound: Sound, frame: &[u8], buffer: &mut Room) -> usize
    requires words_as_asked { (length frame.now ≡ 8) × (words_of asked.now ≡ word_number frame.now) }
    requires room { 5 + 2 * word_number frame.now ≤ 256 }
    ensures value { result ≡ length (data_reply frame.now (items_sent sound.meter.given.order (shown_of sound.meter) asked.now)) }
    ensures buffer_after { buffer.new ≡ sets buffer.old 0 (data_reply frame.now (items_sent sound.meter.given.order (shown_of sound.meter) asked.now)) }
{
    buffer[0] = frame[0];
    buffer[1] = frame[1];
    buffer[2] = (2 * words::word_at(frame, modbus::WORDS_AT)) as u8;
    let end = put_items(asked, sound, buffer);
    crc::put(buffer, end);
    end + 2
}

// Puts the words of the items behind the head of a data reply, and answers where they end.
fn put_items(asked: &Items, sound: Sound, buffer: &mut [u8]) -> usize
    requires { 3 + 2 * words_of asked.now ≤ length buffer.old }
    ensures value { result ≡ 3 + 2 * words_of asked.now }
    ensures buffer_after { buffer.new ≡ sets buffer.old 3 (items_sent sound.meter.given.order (shown_of sound.meter) asked.now) }
{
    let order = sound.meter.given.order;
    let mut at = modbus::DATA_HEAD;
    // Stays an index loop: `Items` is lent, models a borrowed table and is no Copy, and no iterator of it is had from a reference.
    for i in 0..asked.len() {
        let it = asked.at(i);
        let width = usize::from(it.words);
        words::put(
            buffer,
            at,
            width,
            order,
            registers::shown(sound, it.quantity),
        );
        at += 2 * width;
    }
    at
}
