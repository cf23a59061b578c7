// The checksum: rule W7, in the form of P8.
ghost use Rattle.std.specs.Prelude.{◌≡◌, ◌-◌, ◌%◌};
ghost use Rattle.basis.specs.Bytes.{sum};
ghost use Rattle.packet.specs.Wire.{check_of};

// The 8-bit sum of the bytes, with every carry dropped.
pub fn sum_of(bytes: &[u8]) -> u8
    ensures { result ≡ sum bytes.now % 256 }
{
    let mut total: u8 = 0;
    for &x in bytes {
        total = total.wrapping_add(x);
    }
    total
}

// The byte that brings an 8-bit sum to 0.
pub(crate) fn negated(total: u8) -> u8
    ensures { result ≡ (256 - total) % 256 }
{
    0u8.wrapping_sub(total)
}

// The byte that brings the sum of these bytes to 0.
pub fn checksum(bytes: &[u8]) -> u8
    ensures { result ≡ check_of bytes.now }
{
    negated(sum_of(bytes))
}
