// The MIDs that no sign may have: rule W8, and N19 (C-15).
ghost use Rattle.std.specs.Prelude.{◌≡◌};
ghost use Rattle.packet.specs.Mid.{is_forbidden, guard_of};

use refusal::Refusal;

// Whether the sign's description advises against this MID.
pub fn forbidden(mid: u8) -> bool
    ensures { result ≡ is_forbidden mid }
{
    matches!(mid, 0 | 1 | 0x7e | 0x7f)
}

// Refuses a MID that no sign may have. Each call of the wire asks this of the sign's own MID first.
pub fn allowed(mid: u8) -> Result<(), Refusal>
    ensures { result ≡ guard_of mid }
{
    if forbidden(mid) {
        return Err(Refusal::ForbiddenMid);
    }
    Ok(())
}
