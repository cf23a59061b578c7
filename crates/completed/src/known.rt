// Which IDs are known as completed, and one more: J4, J10, J14, J15, and the last for W10.
ghost use Rattle.std.specs.Prelude.{◌≡◌};
ghost use Rattle.completed.specs.Completed.{more_of, none_of, last_of, is_among, has_of, added_of};

use crate::Completed;

// Whether an ID is one of these.
pub(crate) fn among(ids: &[u8], id: u8) -> bool
    ensures { result ≡ is_among id ids.now }
{
    ids.iter().any(|x| id == *x)
}

// One more than so many, and four at most.
fn more(count: u8) -> u8
    ensures { result ≡ more_of count }
{
    count.min(3) + 1
}

// No ID was completed since the reset.
pub fn none() -> Completed
    ensures { result ≡ none_of }
{
    Completed {
        count: 0,
        ids: [0; 4],
    }
}

impl Completed {
    // The last completed ID, 41h if there is none. It is no `Option`, as 41h is W10's own number, which C is told too.
    pub fn last(self) -> u8
        ensures { result ≡ last_of self }
    {
        if self.count == 0 { 0x41 } else { self.ids[0] }
    }

    // Whether packets of this ID are Repeats.
    pub fn has(self, id: u8) -> bool
        ensures { result ≡ has_of self id }
    {
        // A copy: fields lent where they stand, here and in `collect`, `hear` and `image`, cost a receive twenty instructions.
        let ids = self.ids;
        let known = (self.count as usize).min(4);
        among(&ids[..known], id)
    }

    // The same after this ID is completed: it is the newest, and the fifth is forgotten.
    pub fn with(self, id: u8) -> Completed
        ensures { result ≡ added_of self id }
    {
        let ids = self.ids;
        Completed {
            count: more(self.count),
            ids: [id, ids[0], ids[1], ids[2]],
        }
    }
}
