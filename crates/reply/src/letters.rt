// What stands in a reply: which last IDs, the MID and the two letters (W10, W11).
ghost use Rattle.std.specs.Prelude.{◌≡◌};
ghost use Rattle.basis.specs.Choice.{when};
ghost use Rattle.packet.specs.Wire.{turned};
ghost use Rattle.reply.specs.Reply.{is_last, said_by};

// Whether a sign can have completed this ID last.
pub(crate) fn is_last(id: u8) -> bool
    ensures { result ≡ is_last id }
{
    id <= 0x3f || id == 0x41
}

// The MID that a sign answers with.
pub(crate) fn turned_mid(mid: u8) -> u8
    ensures { result ≡ turned mid }
{
    mid ^ 1
}

// Two letters that tell yes and no.
#[derive(Clone, Copy)]
pub(crate) struct Letters {
    yes: u8,
    no: u8,
}

impl Letters {
    // Busy or Ready.
    pub(crate) const STATE: Letters = Letters {
        yes: b'B',
        no: b'R',
    };

    // The AUX pin, sunk or floating.
    pub(crate) const AUX: Letters = Letters {
        yes: b'S',
        no: b'F',
    };

    // The letter that tells this.
    pub(crate) fn of(self, flag: bool) -> u8
        ensures { result ≡ when flag self.yes self.no }
    {
        if flag { self.yes } else { self.no }
    }

    // What a letter tells, if it is one of the two.
    pub(crate) fn said(self, letter: u8) -> Option<bool>
        ensures { result ≡ said_by self.yes self.no letter }
    {
        if letter == self.yes {
            Some(true)
        } else if letter == self.no {
            Some(false)
        } else {
            None
        }
    }
}
