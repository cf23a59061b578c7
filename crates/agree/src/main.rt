#![tactic(auto)]

// The forecast tried against plain runs of steps, on bodies that a small generator makes.
//   make     bodies of commands, loops and endings in a random order
//   race     a forecast and a run of steps side by side
mod make;
mod race;

fn main(rt: HostRuntime) {
    // Output that can't be written is left out, and the program ends well all the same.
    let _ = println!(rt; "bodies 400, run as foretold {}", race::agreed());
}
