// One line for each thing tried: the bytes, then the answer in words.
use judge::{Ending, Standing};
use std::{fmt, io};

// Bytes in print: one that can't be printed as two hexadecimal digits between < and >.
#[derive(Drop)]
struct Bytes<'a>(&'a [u8]);

impl fmt::Display for Bytes<'_> {
    fn fmt<W: fmt::Write>(&self, f: &mut fmt::Formatter<W>) -> fmt::Result {
        for x in self.0 {
            match x {
                b' '..=b'~' => write!(f, "{}", char::from(*x))?,
                _ => write!(f, "<{x:02x}>")?,
            }
        }
        Ok(())
    }
}

// What `judge` says of a body.
pub(crate) fn judged(rt: &impl Print, body: &[u8]) -> io::Result<()> {
    let bytes = Bytes(body);
    match judge::judge(body) {
        Ok(Ending::Finite) => println!(rt; "{bytes}: finite"),
        Ok(Ending::Endless) => println!(rt; "{bytes}: endless"),
        Err(fault) => println!(rt; "{bytes}: {fault}"),
    }
}

// The widths of a text, and where it starts.
pub(crate) fn measured(rt: &impl Print, text: &[u8]) -> io::Result<()> {
    let widths = measure::measure(text);
    let _ = print!(rt;
        "{}: whole {} lit {}",
        Bytes(text),
        widths.whole,
        widths.lit
    );
    if measure::fits(widths) {
        println!(rt; " column {}", measure::start_column(widths))
    } else {
        println!(rt; " scrolls")
    }
}

// What `read_command` says of a place: a command's kind, number, text place and length, and the place behind it.
pub(crate) fn read(rt: &impl Print, body: &[u8], place: usize) -> io::Result<()> {
    let bytes = Bytes(body);
    match program::read_command(body, place) {
        Ok(c) => println!(rt;
            "{bytes} at {place}: {} {} {} {} {}",
            c.kind, c.number, c.text, c.len, c.next
        ),
        Err(fault) => println!(rt; "{bytes} at {place}: {fault}"),
    }
}

// What `stand` says of a place.
pub(crate) fn stood(rt: &impl Print, body: &[u8], place: usize) -> io::Result<()> {
    let bytes = Bytes(body);
    match judge::stand(body, place) {
        None => println!(rt; "{bytes} at {place}: nowhere"),
        Some(Standing::Outside) => println!(rt; "{bytes} at {place}: outside"),
        Some(Standing::Inside(behind, number)) => println!(rt;
            "{bytes} at {place}: inside {behind} {number}"
        ),
    }
}
