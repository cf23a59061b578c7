// What the sign tells: the reply to a query (J16), and the running body for the driver (S28). N16, for the reply N19,
// then N34.
ghost use Rattle.packet.specs.Write.{Writes};
ghost use Rattle.sign.specs.Tell.{says_of, running_body, says_rows, copy_rows};

use crate::Sign;
use refusal::Refusal;
use reply::{Status, write_reply};

impl Sign {
    // Writes the reply to a query, with the AUX pin as the caller reads it.
    pub fn reply(self, mid: u8, aux: bool, out: &mut [u8]) -> Result<usize, Refusal>
        ensures { Writes (says_rows self mid aux out.old) (says_of self mid aux) out.old result out.new }
    {
        if !self.sound() {
            return Err(Refusal::Unsound);
        }
        let status = Status {
            last: self.completed.last(),
            busy: self.run.len != 0,
            sink: aux,
        };
        write_reply(mid, status, out)
    }

    // Copies the running body to the buffer's front, and tells its length.
    pub fn copy_body(self, out: &mut [u8]) -> Result<usize, Refusal>
        ensures { Writes (copy_rows self out.old) (running_body self) out.old result out.new }
    {
        if !self.sound() {
            return Err(Refusal::Unsound);
        }
        let len = self.run.len;
        if out.len() < len {
            return Err(Refusal::NoRoom);
        }
        out[..len].copy_from_slice(&self.room[..len]);
        Ok(len)
    }
}
