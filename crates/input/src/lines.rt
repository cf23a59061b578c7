// Lines of a text.
ghost use Rattle.std.specs.Prelude.{◌≡◌, ◌-◌, ◌≤◌, eqb, length, drop, position};
ghost use Rattle.input.specs.Lines.{line_end};

// Where the first line end stands, if there is one.
fn first_end(text: &[u8]) -> Option<usize>
    ensures { result ≡ position (λ x. eqb x 0x0A) text.now }
{
    text.iter().position(|x| *x == b'\n')
}

// The place of the next line end from a place on, or the end of the text; a place behind the end is its own. The line lies in what
// is left of the text, so that a caller can cut it out there.
pub fn line_end(text: &[u8], from: usize) -> usize
    ensures { (result ≡ line_end from (drop from text.now)) × ((from ≤ result) × (result - from ≤ length text.now - from)) }
{
    if text.len() < from {
        return from;
    }
    let left = &text[from..];
    from + first_end(left).unwrap_or(left.len())
}
