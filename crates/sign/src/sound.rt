// Which records are sound (R1): no collection when Busy (R7). The crates `completed`, `collect` and `machine` decide on
// the completed IDs, the collection and the run.
ghost use Rattle.std.specs.Prelude.{◌≡◌};
ghost use Rattle.sign.specs.Sound.{sound_of};

use crate::Sign;
use completed::Completed;
use hear::framed;

impl Sign {
    // Whether the record is sound.
    pub fn sound(self) -> bool
        ensures { result ≡ sound_of self }
    {
        // A struct of its own: it is passed by its address, and the address of a field would keep the whole record in memory.
        let completed = Completed {
            count: self.completed.count,
            ids: self.completed.ids,
        };
        framed(completed, self.slots, &self.room, self.run.len) && self.run.sound(&self.room)
    }
}
