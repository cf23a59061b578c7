// Hexadecimal digits, in either case.
ghost use Rattle.std.specs.Prelude.{◌≡◌};
ghost use Rattle.input.specs.Digits.{digit_of, pair_of};

// The value of a hexadecimal digit; 0 of any other byte.
pub fn digit(x: u8) -> u8
    ensures { result ≡ digit_of x }
{
    (x as char).to_digit(16).unwrap_or(0) as u8
}

// The byte that two digits write.
pub fn pair(high: u8, low: u8) -> u8
    ensures { result ≡ pair_of high low }
{
    digit(high) * 16 + digit(low)
}
