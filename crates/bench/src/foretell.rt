// A body's forecast at pace 4 and one scan, for the rules' examples of forecasts (S22 to S25).
use reckon::Foretold;
use std::io;

// A body at pace 4 and one scan: what is foretold of it.
pub(crate) fn forecast(rt: &impl Print, body: &str) -> io::Result<()> {
    match reckon::forecast(body.as_bytes(), 4, 1) {
        Ok(Foretold::Ends { totals, .. }) => {
            println!(rt;
                "{body}: steps {} scans {} ms {}",
                totals.steps, totals.scans, totals.millis
            )
        }
        Ok(Foretold::Endless) => println!(rt; "{body}: never"),
        Err(fault) => println!(rt; "{body}: {fault}"),
    }
}
