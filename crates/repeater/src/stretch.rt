// The driver's repeater: rules S29 and S30, in the form of P10.
ghost use Rattle.std.specs.Prelude.{◌≡◌, ◌+◌};
ghost use Rattle.basis.specs.Choice.{when};
ghost use Rattle.repeater.specs.Repeat.{within_of, repeat_of};

// Whether the stretch at this place and of this length lies within the body, and its place isn't 0.
pub fn shows(body: &[u8], place: usize, len: usize) -> bool
    ensures { result ≡ within_of body.now place len }
{
    let count = body.len();
    place != 0 && place <= count && len <= count - place
}

// The stretch of the body at this place and of this length, or the whole standing line: that very memory, by block and offset.
pub fn repeat<'a>(body: &'a [u8], place: usize, len: usize, standing: &'a [u8]) -> &'a [u8]
    ensures bytes { result.now ≡ repeat_of body.now place len standing.now }
    ensures block { result.ref_ptr.0 ≡ when (within_of body.now place len) body.entry.ref_ptr.0 standing.entry.ref_ptr.0 }
    ensures offset { result.ref_ptr.1 ≡ when (within_of body.now place len) (place + body.entry.ref_ptr.1) standing.entry.ref_ptr.1 }
{
    if !shows(body, place, len) {
        return standing;
    }
    let end = place + len;
    &body[place..end]
}
