// Packets (W9) and replies (W12) that were read.
ghost use Rattle.std.specs.Prelude.{◌≡◌, [], ◌∷◌};
ghost use Rattle.reader.specs.Read.{told_of};
ghost use Rattle.reply.specs.Reply.{told_of as status_told};
ghost use Rattle.words.specs.Words.{words_of};
ghost use Rattle.words.specs.Told.{answer_row, first_or, told_in};

use crate::laying::lay;
use reader::Packet;
use refusal::Refusal;
use reply::Status;

// What bytes off the line are: five words.
pub fn tell_reading(reading: Result<Packet, Refusal>, answer: &mut [u8]) -> u32
    ensures result { result ≡ first_or (answer_row 20 answer.old ∷ []) (told_of reading).number }
    ensures told { answer.new ≡ told_in 20 (words_of (told_of reading).values) answer.old }
{
    if answer.len() < 20 {
        return 252;
    }
    match reading {
        Ok(Packet::Query) => {
            lay(&[1, 0, 0, 0, 0], answer);
            0
        }
        Ok(Packet::Reset) => {
            lay(&[2, 0, 0, 0, 0], answer);
            0
        }
        Ok(
            Packet::Normal {
                id,
                total,
                position,
                len,
            },
        ) => {
            lay(
                &[3, id as u64, total as u64, position as u64, len as u64],
                answer,
            );
            0
        }
        Err(e) => e.number() as u32,
    }
}

// What a reply tells: three words.
pub fn tell_status(status: Result<Status, Refusal>, answer: &mut [u8]) -> u32
    ensures result { result ≡ first_or (answer_row 12 answer.old ∷ []) (status_told status).number }
    ensures told { answer.new ≡ told_in 12 (words_of (status_told status).values) answer.old }
{
    if answer.len() < 12 {
        return 252;
    }
    match status {
        Ok(Status { last, busy, sink }) => {
            lay(&[last as u64, busy as u64, sink as u64], answer);
            0
        }
        Err(e) => e.number() as u32,
    }
}
