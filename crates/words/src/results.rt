// The result that a call returns: the number for no, 0 for yes, and a value above it.
ghost use Rattle.std.specs.Prelude.{◌≡◌};
ghost use Rattle.words.specs.Words.{result_of, wrote_of};

use refusal::Refusal;

// The number for no in the low byte, and a value above it.
pub(crate) fn result(number: u8, value: usize) -> u32
    ensures { result ≡ result_of number value }
{
    number as u32 + 256 * ((value % 16777216) as u32)
}

// The result of a writer.
pub fn tell_written(written: Result<usize, Refusal>) -> u32
    ensures { result ≡ wrote_of written }
{
    match written {
        Ok(n) => result(0, n),
        Err(e) => result(e.number(), 0),
    }
}
