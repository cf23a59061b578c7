#![tactic(auto)]

// The archive's exports: each call for C under its own name, as include/yurodekapi.h declares it. A lent slice is a pointer and a length.
// Every call is that of the crate `cabi`, with the same clauses, and does nothing else. A library such as `cabi` exports nothing by itself:
// `rt lib` writes an archive of a crate's own exports alone, so the archive is a crate of its own.
// The order is that of the modules of `cabi`: wire, line, unit, version.
ghost use Rattle.std.specs.Prelude.{◌≡◌, not, [], ◌∷◌, eqb};
ghost use Rattle.basis.specs.Rows.{first_of};
ghost use Rattle.basis.specs.Told.{flag_of};
ghost use Rattle.packet.specs.Mid.{mid_row};
ghost use Rattle.packet.specs.Wire.{query_of, reset_of, packet_at, transmission_of, reply_of};
ghost use Rattle.packet.specs.Write.{short_by, packet_rows, transmission_rows};
ghost use Rattle.reply.specs.Reply.{reply_rows};
ghost use Rattle.judge.specs.Verdict.{judge_of};
ghost use Rattle.repeater.specs.Repeat.{within_of};
ghost use Rattle.image.specs.Layout.{record_of};
ghost use Rattle.sign.specs.Tell.{says_of, running_body, says_rows, copy_rows};
ghost use Rattle.words.specs.Words.{result_of};
ghost use Rattle.words.specs.Told.{judged_of};
ghost use Rattle.cabi.specs.Calls.{Tells, read_no, read_answer, reply_no, reply_answer, forecast_result, forecast_answer, image_row, power_image, reset_no, reset_image, receive_no, receive_image, receive_answer, step_no, step_image, step_answer, version_of};

// What bytes off the line are, to the sign of this MID.
#[unsafe(no_mangle)]
pub extern "C" fn yd_read_packet(mid: u8, bytes: &[u8], answer: &mut [u8]) -> u32
    ensures result { result ≡ read_no mid bytes.now answer.old }
    ensures told { answer.new ≡ read_answer mid bytes.now answer.old }
{
    cabi::yd_read_packet(mid, bytes, answer)
}

// What a reply of the sign of this MID tells.
#[unsafe(no_mangle)]
pub extern "C" fn yd_read_reply(mid: u8, bytes: &[u8], answer: &mut [u8]) -> u32
    ensures result { result ≡ reply_no mid bytes.now answer.old }
    ensures told { answer.new ≡ reply_answer mid bytes.now answer.old }
{
    cabi::yd_read_reply(mid, bytes, answer)
}

// Lays a query.
#[unsafe(no_mangle)]
pub extern "C" fn yd_write_query(mid: u8, out: &mut [u8]) -> u32
    ensures { Tells (mid_row mid ∷ short_by (query_of mid) out.old ∷ []) (query_of mid) out.old result out.new }
{
    cabi::yd_write_query(mid, out)
}

// Lays a reset.
#[unsafe(no_mangle)]
pub extern "C" fn yd_write_reset(mid: u8, out: &mut [u8]) -> u32
    ensures { Tells (mid_row mid ∷ short_by (reset_of mid) out.old ∷ []) (reset_of mid) out.old result out.new }
{
    cabi::yd_write_reset(mid, out)
}

// Lays the packet at one position of a body.
#[unsafe(no_mangle)]
pub extern "C" fn yd_write_packet(mid: u8, id: u8, body: &[u8], position: u8, out: &mut [u8]) -> u32
    ensures { Tells (mid_row mid ∷ packet_rows mid id body.now position out.old) (packet_at mid id body.now position) out.old result out.new }
{
    cabi::yd_write_packet(mid, id, body, position, out)
}

// Lays all packets of a body, back to back.
#[unsafe(no_mangle)]
pub extern "C" fn yd_write_transmission(mid: u8, id: u8, body: &[u8], out: &mut [u8]) -> u32
    ensures { Tells (mid_row mid ∷ transmission_rows mid id body.now out.old) (transmission_of mid id body.now) out.old result out.new }
{
    cabi::yd_write_transmission(mid, id, body, out)
}

// Lays a reply; what isn't 0 is Busy, and what isn't 0 is sink.
#[unsafe(no_mangle)]
pub extern "C" fn yd_write_reply(mid: u8, last: u8, busy: u8, sink: u8, out: &mut [u8]) -> u32
    ensures { Tells (mid_row mid ∷ reply_rows mid last (not (eqb busy 0)) (not (eqb sink 0)) out.old) (reply_of mid last (not (eqb busy 0)) (not (eqb sink 0))) out.old result out.new }
{
    cabi::yd_write_reply(mid, last, busy, sink, out)
}

// Whether a body is an accepted program, and whether it is endless.
#[unsafe(no_mangle)]
pub extern "C" fn yd_judge(body: &[u8]) -> u32
    ensures { result ≡ judged_of (judge_of body.now) }
{
    cabi::yd_judge(body)
}

// How long a body runs from this pace and scan setting, and what it leaves of both.
#[unsafe(no_mangle)]
pub extern "C" fn yd_forecast(body: &[u8], pace: u8, scans: u8, answer: &mut [u8]) -> u32
    ensures result { result ≡ forecast_result body.now pace scans answer.old }
    ensures told { answer.new ≡ forecast_answer body.now pace scans answer.old }
{
    cabi::yd_forecast(body, pace, scans, answer)
}

// The image of a sign that was just switched on.
#[unsafe(no_mangle)]
pub extern "C" fn yd_power_on(image: &mut [u8]) -> u32
    ensures result { result ≡ first_of (image_row image.old ∷ []) }
    ensures kept { image.new ≡ power_image image.old }
{
    cabi::yd_power_on(image)
}

// The image after a reset.
#[unsafe(no_mangle)]
pub extern "C" fn yd_reset(image: &mut [u8]) -> u32
    ensures result { result ≡ reset_no image.old }
    ensures kept { image.new ≡ reset_image image.old }
{
    cabi::yd_reset(image)
}

// What bytes off the line do to the sign.
#[unsafe(no_mangle)]
pub extern "C" fn yd_receive(image: &mut [u8], mid: u8, bytes: &[u8], answer: &mut [u8]) -> u32
    ensures result { result ≡ receive_no image.old mid bytes.now answer.old }
    ensures kept { image.new ≡ receive_image image.old mid bytes.now answer.old }
    ensures told { answer.new ≡ receive_answer image.old mid bytes.now answer.old }
{
    cabi::yd_receive(image, mid, bytes, answer)
}

// One step.
#[unsafe(no_mangle)]
pub extern "C" fn yd_step(image: &mut [u8], answer: &mut [u8]) -> u32
    ensures result { result ≡ step_no image.old answer.old }
    ensures kept { image.new ≡ step_image image.old answer.old }
    ensures told { answer.new ≡ step_answer image.old answer.old }
{
    cabi::yd_step(image, answer)
}

// Writes the reply to a query; AUX reads S if `aux` isn't 0.
#[unsafe(no_mangle)]
pub extern "C" fn yd_reply(image: &[u8], mid: u8, aux: u8, out: &mut [u8]) -> u32
    ensures { Tells (image_row image.now ∷ says_rows (record_of image.now) mid (not (eqb aux 0)) out.old) (says_of (record_of image.now) mid (not (eqb aux 0))) out.old result out.new }
{
    cabi::yd_reply(image, mid, aux, out)
}

// Copies the running body, none when Ready.
#[unsafe(no_mangle)]
pub extern "C" fn yd_copy_body(image: &[u8], out: &mut [u8]) -> u32
    ensures { Tells (image_row image.now ∷ copy_rows (record_of image.now) out.old) (running_body (record_of image.now)) out.old result out.new }
{
    cabi::yd_copy_body(image, out)
}

// Whether the repeater shows the stretch of the body at this place and of this length, and not the standing line: the value is 1 or 0.
#[unsafe(no_mangle)]
pub extern "C" fn yd_repeat(body: &[u8], place: usize, length: usize) -> u32
    ensures { result ≡ result_of 0 (flag_of (within_of body.now place length)) }
{
    cabi::yd_repeat(body, place, length)
}

// Version 1.3.0, as a result.
#[unsafe(no_mangle)]
pub extern "C" fn yd_version() -> u32
    ensures { result ≡ result_of 0 (version_of 1 3 0) }
{
    cabi::yd_version()
}
