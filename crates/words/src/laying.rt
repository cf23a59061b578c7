// Words of four bytes, lowest first, at the front of a lent buffer.
ghost use Rattle.std.specs.Prelude.{◌≡◌, ◌*◌, ◌≤◌, length};
ghost use Rattle.basis.specs.Bytes.{laid};
ghost use Rattle.words.specs.Words.{word_of, words_of};
ghost use Rattle.words.specs.Told.{told_in};

// Writes one word at the buffer's front.
fn put(word: u64, out: &mut [u8])
    requires { 4 ≤ length out.old }
    ensures { out.new ≡ laid (word_of word) out.old }
{
    let bytes = word.to_le_bytes();
    out[..4].copy_from_slice(&bytes[..4]);
}

// Writes words in a row at the buffer's front, if it has room for all.
pub(crate) fn lay(words: &[u64], out: &mut [u8])
    ensures { out.new ≡ told_in (4 * length words.now) (words_of words.now) out.old }
{
    if out.len() / 4 < words.len() {
        return;
    }
    // By places, as after `out.chunks_exact_mut(4).zip(words)` a proof knows the buffer's length alone, and none of its bytes.
    for (i, word) in words.iter().enumerate() {
        let at = 4 * i;
        put(*word, &mut out[at..]);
    }
}
