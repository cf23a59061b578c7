// The record in a lent image, and back; and 16, 19 or 252 where an answer is too short (N16, N19, N252).
ghost use Rattle.std.specs.Prelude.{◌≡◌, length};
ghost use Rattle.basis.specs.Choice.{when};
ghost use Rattle.image.specs.Layout.{image_size, image_of};
ghost use Rattle.packet.specs.Mid.{is_forbidden};
ghost use Rattle.sign.specs.Sound.{sound_of};
ghost use Rattle.cabi.specs.Calls.{loaded_of};

use image::{image_of, record_of};
use packet::forbidden;
use sign::Sign;

// The record in a lent image, or none where the image has another size.
pub(crate) fn load(image: &[u8]) -> Option<Sign>
    ensures { result ≡ loaded_of image.now }
{
    let held = image.as_array()?;
    Some(record_of(*held))
}

// Writes the image of a record over a lent one.
pub(crate) fn store(sign: Sign, image: &mut [u8])
    requires { length image.old ≡ image_size }
    ensures { image.new ≡ image_of sign }
{
    image.copy_from_slice(&image_of(sign));
}

// Why a call on a sign is refused whose answer is too short: 16 for an unsound record, else the number that comes after it.
pub(crate) fn short(sign: Sign, then: u32) -> u32
    ensures { result ≡ when (sound_of sign) then 16 }
{
    if sign.sound() { then } else { 16 }
}

// Why a call with a MID is refused whose answer is too short: 19 for a forbidden one, else 252.
pub(crate) fn short_for(mid: u8) -> u32
    ensures { result ≡ when (is_forbidden mid) 19 252 }
{
    if forbidden(mid) { 19 } else { 252 }
}
