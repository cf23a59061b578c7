// The sign for C, over an image of its record: rules J3, J14 to J16, S1, S28 and S29, with N16, N19, N34, N251
// and N252. A reset, a receive and a step each call, tell, and store where it is a yes: three lines thrice, which a closure would make no plainer.
ghost use Rattle.std.specs.Prelude.{◌≡◌, not, [], ◌∷◌, eqb};
ghost use Rattle.basis.specs.Rows.{first_of};
ghost use Rattle.basis.specs.Told.{flag_of};
ghost use Rattle.image.specs.Layout.{record_of};
ghost use Rattle.repeater.specs.Repeat.{within_of};
ghost use Rattle.sign.specs.Tell.{says_of, running_body, says_rows, copy_rows};
ghost use Rattle.words.specs.Words.{result_of};
ghost use Rattle.cabi.specs.Calls.{Tells, image_row, power_image, reset_no, reset_image, receive_no, receive_image, receive_answer, step_no, step_image, step_answer};

use crate::loaded::{load, short, short_for, store};
use image::SIZE;
use repeater::shows;
use sign::Sign;
use words::{tell_outcome, tell_received, tell_stepped, tell_written};

// The image of a sign that was just switched on.
#[unsafe(no_mangle)]
pub extern "C" fn yd_power_on(image: &mut [u8]) -> u32
    ensures result { result ≡ first_of (image_row image.old ∷ []) }
    ensures kept { image.new ≡ power_image image.old }
{
    if image.len() != SIZE {
        return 251;
    }
    store(Sign::power_on(), image);
    0
}

// The image after a reset.
#[unsafe(no_mangle)]
pub extern "C" fn yd_reset(image: &mut [u8]) -> u32
    ensures result { result ≡ reset_no image.old }
    ensures kept { image.new ≡ reset_image image.old }
{
    let Some(sign) = load(image) else {
        return 251;
    };
    let cleared = sign.reset();
    let told = tell_outcome(cleared.outcome);
    if told == 0 {
        store(cleared.sign, image);
    }
    told
}

// What bytes off the line do to the sign.
#[unsafe(no_mangle)]
pub extern "C" fn yd_receive(image: &mut [u8], mid: u8, bytes: &[u8], answer: &mut [u8]) -> u32
    ensures result { result ≡ receive_no image.old mid bytes.now answer.old }
    ensures kept { image.new ≡ receive_image image.old mid bytes.now answer.old }
    ensures told { answer.new ≡ receive_answer image.old mid bytes.now answer.old }
{
    let Some(sign) = load(image) else {
        return 251;
    };
    if answer.len() < 100 {
        return short(sign, short_for(mid));
    }
    let received = sign.receive(mid, bytes);
    let told = tell_received(received.outcome, &received.body, answer);
    if told == 0 {
        store(received.sign, image);
    }
    told
}

// One step.
#[unsafe(no_mangle)]
pub extern "C" fn yd_step(image: &mut [u8], answer: &mut [u8]) -> u32
    ensures result { result ≡ step_no image.old answer.old }
    ensures kept { image.new ≡ step_image image.old answer.old }
    ensures told { answer.new ≡ step_answer image.old answer.old }
{
    let Some(sign) = load(image) else {
        return 251;
    };
    if answer.len() < 28 {
        return short(sign, 252);
    }
    let stepped = sign.step();
    let told = tell_stepped(stepped.answer, answer);
    if told == 0 {
        store(stepped.sign, image);
    }
    told
}

// Writes the reply to a query; AUX reads S if `aux` isn't 0.
#[unsafe(no_mangle)]
pub extern "C" fn yd_reply(image: &[u8], mid: u8, aux: u8, out: &mut [u8]) -> u32
    ensures { Tells (image_row image.now ∷ says_rows (record_of image.now) mid (not (eqb aux 0)) out.old) (says_of (record_of image.now) mid (not (eqb aux 0))) out.old result out.new }
{
    let Some(sign) = load(image) else {
        return 251;
    };
    tell_written(sign.reply(mid, aux != 0, out))
}

// Copies the running body, none when Ready.
#[unsafe(no_mangle)]
pub extern "C" fn yd_copy_body(image: &[u8], out: &mut [u8]) -> u32
    ensures { Tells (image_row image.now ∷ copy_rows (record_of image.now) out.old) (running_body (record_of image.now)) out.old result out.new }
{
    let Some(sign) = load(image) else {
        return 251;
    };
    tell_written(sign.copy_body(out))
}

// Whether the repeater shows the stretch of the body at this place and of this length, and not the standing line: the value is 1 or 0.
#[unsafe(no_mangle)]
pub extern "C" fn yd_repeat(body: &[u8], place: usize, length: usize) -> u32
    ensures { result ≡ result_of 0 (flag_of (within_of body.now place length)) }
{
    if shows(body, place, length) { 256 } else { 0 }
}
