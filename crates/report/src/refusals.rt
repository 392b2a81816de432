// The lines of a refusal.
ghost use Rattle.lines.specs.Overlay.{Writes};
ghost use Rattle.report.specs.Refused.{refusal_lines};
ghost use Rattle.std.specs.Prelude.{◌≡◌, [], length, slice_index_or};

use base::Refusal;
use lines::write_number_line;

// One line each for the number, the layer and the place.
const REFUSAL_LINES: usize = 3;

// How many lines a refusal has.
pub fn refusal_line_count() -> usize
    ensures { (r : _) → result ≡ length (refusal_lines r) }
{
    REFUSAL_LINES
}

// Writes the k-th line of a refusal: its number, its layer, its place. A line is asked for by its
// number, as the lines of a sheet are.
pub fn write_refusal_line(tail: &mut [u8], refusal: Refusal, k: usize) -> Result<usize, Refusal>
    ensures { Writes tail.old tail.new (slice_index_or (refusal_lines refusal) k []) result }
{
    match k {
        0 => write_number_line(tail, b"refused=", refusal.number()),
        1 => write_number_line(tail, b"layer=", refusal.layer()),
        2 => write_number_line(tail, b"place=", refusal.place),
        _ => Ok(0),
    }
}

#[cfg(test)]
mod tests {
    use super::*;
    use base::Cause;

    #[test]
    fn three_lines(rt: HostRuntime) {
        let refusal = Cause::StepLimit.at(7);
        let mut tail = [b'.'; 12];
        assert_eq!(rt; write_refusal_line(&mut tail, refusal, 0).ok(), Some(11));
        assert_eq!(rt; tail, *b"refused=18\n.");
        assert_eq!(rt; write_refusal_line(&mut tail, refusal, 1).ok(), Some(8));
        assert_eq!(rt; tail, *b"layer=3\n18\n.");
        assert_eq!(rt; write_refusal_line(&mut tail, refusal, 2).ok(), Some(8));
        assert_eq!(rt; tail, *b"place=7\n18\n.");
        assert_eq!(rt; write_refusal_line(&mut tail, refusal, 3).ok(), Some(0));
        assert_eq!(rt; refusal_line_count(), 3);
    }
}
