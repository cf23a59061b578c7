#![tactic(auto)]

// The forecast program (S31): a body on standard input, nothing stripped, at pace 4 and one scan. It writes the totals
// and `end ready`, `end never`, or `refused N at P`.
use reckon::Foretold;

// The descriptor of standard input.
const STDIN: i32 = 0;

// What is foretold of a body, the totals one to a line. A line that can't be written is left out, and those after it are tried.
fn tell(rt: &impl Print, body: &[u8]) {
    let _ = match reckon::forecast(body, 4, 1) {
        Ok(Foretold::Ends { totals, .. }) => {
            let _ = println!(rt; "steps {}", totals.steps);
            let _ = println!(rt; "scans {}", totals.scans);
            let _ = println!(rt; "ms {}", totals.millis);
            println!(rt; "end ready")
        }
        Ok(Foretold::Endless) => println!(rt; "end never"),
        Err(fault) => println!(rt; "{fault}"),
    };
}

fn main(rt: HostRuntime) {
    // More than any body holds, so that a longer input is refused as one.
    let mut buffer = [0u8; 128];
    let got = io::read_full(STDIN, &mut buffer);
    tell(&rt, &buffer[..got]);
}
