// Hears a reply: rule W12, with N19 and N35.
ghost use Rattle.std.specs.Prelude.{◌≡◌};
ghost use Rattle.reply.specs.Reply.{heard_from, heard_of};

use crate::Status;
use crate::letters::{Letters, is_last, turned_mid};
use packet::{allowed, sum_of};
use refusal::Refusal;

// The reply of the sign with this MID, or 35; the MID is not judged here.
#[tactic(auto, using(basis::proofs::Tests::tests), unfolding(crate::specs::Reply::heard_from))]
fn heard_from(mid: u8, bytes: &[u8]) -> Result<Status, Refusal>
    ensures { result ≡ heard_from mid bytes.now }
{
    let &[from, 0x7f, 8, last, state, aux, 0, _] = bytes else {
        return Err(Refusal::NoReply);
    };
    if sum_of(bytes) != 0 || from != turned_mid(mid) || !is_last(last) {
        return Err(Refusal::NoReply);
    }
    let (Some(busy), Some(sink)) = (Letters::STATE.said(state), Letters::AUX.said(aux)) else {
        return Err(Refusal::NoReply);
    };
    Ok(Status { last, busy, sink })
}

// What a reply of the sign with this MID tells.
#[tactic(auto, unfolding(crate::specs::Reply::heard_of))]
pub fn read_reply(mid: u8, bytes: &[u8]) -> Result<Status, Refusal>
    ensures { result ≡ heard_of mid bytes.now }
{
    allowed(mid)?;
    heard_from(mid, bytes)
}
