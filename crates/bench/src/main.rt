#![tactic(auto)]

// The bench (P5) runs examples of the rules by the public calls and prints a line for each: all that have no star, and every forecast.
// Those of J and R are left to `bus`. The file stdout is written from the rules.
//   carry      how many packets a body takes
//   show       a body sent to a new sign packet by packet, and its first step
//   foretell   a body's forecast at pace 4 and one scan
mod carry;
mod foretell;
mod show;

// The bodies whose packets are counted.
const CARRIED: [&str; 4] = [
    "AAAAAAAAAAAAAA",
    "AAAAAAAAAAAAAAA",
    "AAAAAAAAAAAAAAAAAAAAAAAAAAAAAAAAAAAAAAAAAAAAAAAAAAAAAAAAAAAAAAAAAAAAAAAAAAAAAAAAAAAA",
    "AAAAAAAAAAAAAAAAAAAAAAAAAAAAAAAAAAAAAAAAAAAAAAAAAAAAAAAAAAAAAAAAAAAAAAAAAAAAAAAAAAAAA",
];

// The bodies whose first step is shown.
const SHOWN: [&str; 9] = [
    "^IAHI",
    "^IIHI",
    "^IIabcdefghijklmnop",
    "^IIabcdefghijklmnopq",
    "^IAAAAAAAAAAAAAAAA~dA",
    "^IIAAAAAAAAAAAAAAA~dA",
    "^II~bAAAAAAAAAAA",
    "^IIA~b",
    "^SAAAAAAAAAAAAAAA~dA",
];

// The bodies that are forecast.
const FORETOLD: [&str; 12] = [
    "^L99^S^S^S^S^S^S^S^S^S^S^S^S^S^S^S^S^S^S^S^S^S^S^S^S^S^S^S^S^S^S^S^S^S^S^S^S^S^S^S^E",
    "^W5",
    "^L3^W2^E",
    "^SHI",
    "^S",
    "^IAHI",
    "^IAAAAAAAAAAAAAAAA~dA",
    "^=6^P1^SA",
    "^L2^SHI^P20^E",
    "^L2^W1^F",
    "^W1^R",
    "^P21",
];

// Every example, a line each. A line that can't be written is left out, and those after it are tried.
fn main(rt: HostRuntime) {
    for body in CARRIED {
        let _ = carry::packets(&rt, body.as_bytes());
    }
    for body in SHOWN {
        let _ = show::first(&rt, body);
    }
    for body in FORETOLD {
        let _ = foretell::forecast(&rt, body);
    }
}
