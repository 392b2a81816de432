// The program grade: reads job.sheet in the current folder and prints the sheet as it was
// understood, or the lines of the refusal. It rests on base, sheet, report and anyhow. The
// contracts of report and sheet say which bytes each line has, and how many lines there are; what
// is read and printed is only tested.
#![tactic(auto)]

use anyhow::Context;
use base::Refusal;
use report::{refusal_line_count, write_refusal_line};
use sheet::Sheet;
use std::fs;
use std::io::Write;

const SHEET_FILE: &str = "job.sheet";

// The longest line is a name of 32 quotes: its key, 66 bytes and a byte 10.
const LINE_BUFFER: usize = 80;

// Prints the lines that the callback writes into the front of a buffer, one line to a call.
fn print_lines<F: Fn(&mut [u8], usize) -> Result<usize, Refusal>>(
    out: &mut impl Write,
    line_count: usize,
    write_line: F,
) -> anyhow::Result<()>
    requires { F.IsAlwaysCallable write_line }
{
    let mut buffer = [0; LINE_BUFFER];
    for k in 0..line_count {
        let size = write_line(&mut buffer, k)?;
        let line = buffer
            .get(..size)
            .context("a line is longer than its buffer")?;
        out.write_all(line)?;
    }
    Ok(())
}

fn grade(out: &mut impl Write, bytes: &[u8]) -> anyhow::Result<()> {
    match Sheet::read(bytes) {
        Ok(sheet) => print_lines(out, sheet.line_count(), |tail, k| sheet.write_line(tail, k)),
        Err(refusal) => print_lines(out, refusal_line_count(), |tail, k| {
            write_refusal_line(tail, refusal, k)
        }),
    }
}

fn main(rt: HostRuntime) -> anyhow::Result<()> {
    // A file that cannot be read counts as empty.
    let bytes = fs::read(&rt, SHEET_FILE).unwrap_or_else(|_| Vec::new(rt.alloc()));
    grade(&mut rt.stdout(), bytes.as_slice())
}

#[cfg(test)]
mod tests {
    use super::*;

    #[test]
    fn a_refusal_is_printed_whole(rt: HostRuntime) -> anyhow::Result<()> {
        let mut out = Vec::new(rt.alloc());
        grade(&mut out, b"")?;
        assert_eq!(rt;
            out.as_slice(),
            b"refused=28\nlayer=5\nplace=1\n".as_slice()
        );
        Ok(())
    }
}
