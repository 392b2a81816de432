// The cases of the sheet reader: each line of standard input is a sheet in hexadecimal (- for an
// empty one), each line of standard output its verdict. It rests on sheet and anyhow, its tests
// on base too, and it is a test only: the expected verdicts stand in the file stdout.
#![tactic(auto)]

use sheet::Sheet;
use std::alloc::{AllocError, Global};
use std::io;

#[cfg(test)]
mod tests;

// The value of a hexadecimal digit. A capital is none, which the library's conversions would take.
fn digit(c: u8) -> Option<u8> {
    match c {
        b'0'..=b'9' => Some(c - b'0'),
        b'a'..=b'f' => Some(c - b'a' + 10),
        _ => None,
    }
}

// The byte that two digits write.
fn byte_of(pair: &[u8]) -> Option<u8> {
    let [high, low] = pair else {
        return None;
    };
    Some(digit(*high)? << 4 | digit(*low)?)
}

// The bytes that pairs of digits write; it stops at the first that is none, and so at once at -.
fn bytes_of(heap: Global, text: &[u8]) -> Result<Vec<u8>, AllocError> {
    text.chunks(2).map_while(byte_of).collect(heap)
}

fn print_verdict(rt: &impl Print, sheet: &[u8]) -> io::Result<()> {
    match Sheet::read(sheet) {
        Ok(_) => println!(rt; "ok"),
        Err(refusal) => println!(rt; "{refusal}"),
    }
}

fn main(rt: HostRuntime) -> anyhow::Result<()> {
    let heap = rt.alloc();
    for line in rt.lines(heap) {
        let line = line?;
        let bytes = bytes_of(heap, line.as_bytes())?;
        print_verdict(&rt, bytes.as_slice())?;
    }
    Ok(())
}
