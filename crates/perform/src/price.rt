// What a command answers when it is performed (S1 to S5, S18), with its price in scans (S19) and milliseconds (S20).
ghost use Rattle.std.specs.Prelude.{◌≡◌, ◌%◌, take, drop};
ghost use Rattle.measure.specs.Width.{widths_of, counted_of};
ghost use Rattle.perform.specs.Price.{doing_of, streams_of, acts_of, shifts_of, scans_of, millis_of, column_of, shown_of, answer_of, answer_at};

use crate::Settings;
use measure::{COLUMNS, Widths, fits, measure_at, start_column};
use program::{Command, Kind};
use units::{Amount, Millis, Scans, Shifts};

// What one step answers: kind, number as written, text place and length, start column, scans, milliseconds.
// `number`, `text` and `len` are no `Option`s: `values_of` (machine) tells them as numbers, with 0 for what a command lacks.
#[derive(Clone, Copy)]
pub struct Performed {
    pub kind: Kind,
    pub number: u8,
    pub text: usize,
    pub len: usize,
    pub column: usize,
    pub scans: Scans,
    pub millis: Millis,
}

// What a command does that takes time: it shows a text in so many scans, streams one, waits, or none of these.
#[derive(Clone, Copy)]
pub enum Doing {
    Shows(u8),
    Streams,
    Waits,
    Rests,
}

fn does(kind: Kind) -> Doing
    ensures { result ≡ doing_of kind }
{
    match kind {
        Kind::II => Doing::Shows(0),
        Kind::IA | Kind::IB => Doing::Shows(7),
        Kind::S => Doing::Streams,
        Kind::W => Doing::Waits,
        _ => Doing::Rests,
    }
}

// The shifts of a scroll of a text of these widths: it goes by the whole width.
fn shifts(widths: Widths) -> Shifts
    ensures { result.0 ≡ shifts_of widths }
{
    Shifts(widths.whole as u64).add(Shifts(COLUMNS as u64))
}

// A text of these widths streamed; where nothing is shown, nothing is done.
fn streams(widths: Widths) -> Doing
    ensures { result ≡ streams_of widths }
{
    if widths.whole == 0 {
        Doing::Rests
    } else {
        Doing::Streams
    }
}

// What a command does with a text of these widths: where that is to be shown but doesn't fit, it acts as `S` (S18).
fn acts(kind: Kind, widths: Widths) -> Doing
    ensures { result ≡ acts_of (doing_of kind) widths }
{
    match does(kind) {
        Doing::Shows(_) if !fits(widths) => streams(widths),
        Doing::Streams => streams(widths),
        doing => doing,
    }
}

// The scans of a command.
fn scans(doing: Doing, widths: Widths, each: u8) -> Scans
    ensures { result.0 ≡ scans_of doing widths each }
{
    match doing {
        Doing::Shows(n) => Scans(n as u64),
        Doing::Streams => shifts(widths).scans(each),
        Doing::Waits | Doing::Rests => Scans(0),
    }
}

// The milliseconds of a command of so many scans.
fn millis(doing: Doing, number: u8, scans: Scans, pace: u8) -> Millis
    ensures { result.0 ≡ millis_of doing number scans.0 pace }
{
    match doing {
        Doing::Shows(_) | Doing::Streams => scans.millis(pace),
        Doing::Waits => Millis::tenths(number),
        Doing::Rests => Millis(0),
    }
}

// The column at which a shown text starts.
fn column(doing: Doing, widths: Widths) -> usize
    ensures { result ≡ column_of doing widths }
{
    match doing {
        Doing::Shows(_) => start_column(widths),
        _ => 0,
    }
}

// The kind that is answered: `S` for an `I` that scrolls.
fn shown(doing: Doing, kind: Kind) -> Kind
    ensures { result ≡ shown_of doing kind }
{
    match doing {
        Doing::Streams => Kind::S,
        _ => kind,
    }
}

// The widths of the text of so many bytes at a place of a body, which is only measured where there is a text. Without the hint the
// measuring is inlined here, and all this is a call for each command.
#[inline(always)]
fn measured(body: &[u8], place: usize, len: usize) -> Widths
    ensures { result ≡ counted_of (widths_of (take len (drop place body.now))) }
{
    if len == 0 {
        return Widths { whole: 0, lit: 0 };
    }
    measure_at(body, place, len)
}

// A command performed at these settings, with these widths of its text. Its number is taken as a byte, which that of a command that was
// read is.
pub fn perform(command: Command, widths: Widths, settings: Settings) -> Performed
    ensures { result ≡ answer_of command.kind (command.number % 256) command.text command.len widths settings }
{
    let Command {
        kind,
        number,
        text,
        len,
        ..
    } = command;
    let number = (number % 256) as u8;
    let doing = acts(kind, widths);
    let cost = scans(doing, widths, settings.scans);
    Performed {
        kind: shown(doing, kind),
        number,
        text,
        len,
        column: column(doing, widths),
        scans: cost,
        millis: millis(doing, number, cost, settings.pace),
    }
}

// A command of a body performed at these settings: its text is measured where it stands. Without the hint forecasting costs half as
// much again.
#[inline(always)]
pub fn perform_at(body: &[u8], command: Command, settings: Settings) -> Performed
    ensures { result ≡ answer_at body.now command settings }
{
    perform(command, measured(body, command.text, command.len), settings)
}
