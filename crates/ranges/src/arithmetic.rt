// Sums, products by a constant and decrements of ranges.
ghost use Rattle.std.specs.Prelude.{◌≡◌};
ghost use Rattle.ranges.specs.Ranges.{sum_ends, sum, times, less};

use crate::Range;

// The sum of two ends: none when over or when either is none.
fn sum_ends(a: Option<u32>, b: Option<u32>) -> Option<u32>
    ensures { result ≡ sum_ends a b }
{
    a?.checked_add(b?)
}

impl Range {
    // Starts add and stay at 4294967295 when over, ends add and give none when over; Empty with x gives x.
    pub fn sum(self, other: Range) -> Range
        ensures { result ≡ sum self other }
    {
        match (self, other) {
            (Range::Empty, x) | (x, Range::Empty) => x,
            (Range::Span(start1, end1), Range::Span(start2, end2)) => {
                Range::Span(start1.saturating_add(start2), sum_ends(end1, end2))
            }
        }
    }

    // Start and end times c; over 4294967295 there is no range.
    pub fn times(self, c: u32) -> Option<Range>
        ensures { result ≡ times self c }
    {
        let Range::Span(start, end) = self else {
            return Some(Range::Empty);
        };
        let first = start.checked_mul(c)?;
        let last = match end {
            Some(x) => Some(x.checked_mul(c)?),
            None => None,
        };
        Some(Range::Span(first, last))
    }

    // Start and end less c, never below 0.
    pub fn less(self, c: u32) -> Range
        ensures { result ≡ less self c }
    {
        match self {
            Range::Empty => Range::Empty,
            Range::Span(start, end) => {
                Range::Span(start.saturating_sub(c), end.map(|x| x.saturating_sub(c)))
            }
        }
    }
}
