// A forecast and a plain run of steps, side by side.
use crate::make::body;
use arrayvec::ArrayVec;
use machine::Run;
use perform::{Performed, Settings};
use reckon::{Foretold, Totals};
use refusal::Refusal;

// The settings of a sign at this pace and scans.
fn set(pace: u8, scans: u8) -> Settings {
    Settings {
        pace,
        scans,
        sink: 1,
        dim: 99,
        bright: 7,
    }
}

// The totals with what a step answered.
fn with(totals: Totals, answer: Result<Option<Performed>, Refusal>) -> Totals {
    match answer {
        Ok(Some(performed)) => totals.plus(Totals::cost(performed)),
        Ok(None) | Err(_) => totals,
    }
}

// What a run of this body at the front of this room comes to within 4,000 steps, if it is Ready by then: its totals, and the pace and
// the scans that it leaves.
fn ran(len: usize, room: &[u8], settings: Settings) -> Option<(Totals, u8, u8)> {
    let mut totals = Totals::none();
    let mut run = Run::started(len, settings);
    for _ in 0..4000 {
        if run.len == 0 {
            return Some((totals, run.settings.pace, run.settings.scans));
        }
        let stepped = run.step(room);
        totals = with(totals, stepped.answer);
        run = stepped.run;
    }
    None
}

// Whether what was foretold of a body is what its run does.
fn agrees(body: &ArrayVec<u8, 84>, pace: u8, scans: u8) -> bool {
    let mut room = [0; 84];
    room[..body.len()].copy_from_slice(body.as_slice());
    let ran = ran(body.len(), &room, set(pace, scans));
    match reckon::forecast(body.as_slice(), pace, scans) {
        Ok(
            Foretold::Ends {
                totals,
                pace,
                scans,
            },
        ) => ran == Some((totals, pace, scans)),
        Ok(Foretold::Endless) | Err(_) => ran.is_none(),
    }
}

// Whether the body made from a number runs as it was foretold, at a pace and scans made from it too.
fn one(i: u32) -> bool {
    agrees(&body(i), (i % 20 + 1) as u8, (i % 6 + 1) as u8)
}

// How many of 400 bodies run as they were foretold.
pub(crate) fn agreed() -> usize {
    (0..400).filter(|i| one(*i)).count()
}
