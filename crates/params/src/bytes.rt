// The byte at a place (L2), and the letters that a tilde takes (L5).
ghost use Rattle.std.specs.Prelude.{◌≡◌, get_or};
ghost use Rattle.params.specs.Bytes.{caret};
ghost use Rattle.params.specs.Text.{is_letter};

// The byte that starts a command.
pub const CARET: u8 = 0x5E;

// The byte that starts a pair in a text.
pub const TILDE: u8 = 0x7E;

// The byte at a place; behind the end stands a caret, which ends every parameter as the end does.
pub fn byte_at(body: &[u8], at: usize) -> u8
    ensures { result ≡ get_or body.now at caret }
{
    body.get(at).copied().unwrap_or(CARET)
}

// Whether a tilde may stand before this byte.
pub(crate) fn is_letter(x: u8) -> bool
    ensures { result ≡ is_letter x }
{
    matches!(x, b'B' | b'b' | b'C' | b'c' | b'D' | b'd' | b'G')
}
