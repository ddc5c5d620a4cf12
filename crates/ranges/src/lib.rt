// Ranges of whole numbers: what a counter can hold.
#![tactic(auto)]

pub mod arithmetic;
pub mod sets;

ghost use Rattle.std.specs.Prelude.{◌≡◌};
ghost use Rattle.ranges.specs.Ranges.{point, naturals, is_empty, crossed, join_ends, join, within_ends, within, widen_ends, widen};

// The values that a variable can take: none, or those from a start to an end, if there is one. No Option: in it None would mean both no value and no end.
#[derive(Clone, Copy, PartialEq, Eq)]
pub enum Range {
    Empty,
    Span(u32, Option<u32>),
}

// The largest number that a range's start and end can be.
pub const TOP: u64 = 4294967295;

// The higher end.
fn join_ends(a: Option<u32>, b: Option<u32>) -> Option<u32>
    ensures { result ≡ join_ends a b }
{
    Some(a?.max(b?))
}

// Whether the first end lies within the second.
fn within_ends(a: Option<u32>, b: Option<u32>) -> bool
    ensures { result ≡ within_ends a b }
{
    match (a, b) {
        (_, None) => true,
        (Some(x), Some(y)) => x <= y,
        (None, Some(_)) => false,
    }
}

// An end that does not hold the new one becomes none.
fn widen_ends(old: Option<u32>, new: Option<u32>) -> Option<u32>
    ensures { result ≡ widen_ends old new }
{
    if within_ends(new, old) { old } else { None }
}

impl Range {
    // [x,x].
    pub fn point(x: u32) -> Range
        ensures { result ≡ point x }
    {
        Range::Span(x, Some(x))
    }

    // [0,0].
    pub fn zero() -> Range
        ensures { result ≡ point 0 }
    {
        Range::point(0)
    }

    // [0,–).
    pub fn naturals() -> Range
        ensures { result ≡ naturals }
    {
        Range::Span(0, None)
    }

    // Whether the range has no value.
    pub fn is_empty(self) -> bool
        ensures { result ≡ is_empty self }
    {
        self == Range::Empty
    }

    // Whether the start is over the end, which a caller's range can be and an answer never is.
    pub fn crossed(self) -> bool
        ensures { result ≡ crossed self }
    {
        matches!(self, Range::Span(start, Some(end)) if end < start)
    }

    // The lower start and the higher end; Empty with x gives x.
    pub fn join(self, other: Range) -> Range
        ensures { result ≡ join self other }
    {
        match (self, other) {
            (Range::Empty, x) | (x, Range::Empty) => x,
            (Range::Span(start1, end1), Range::Span(start2, end2)) => {
                Range::Span(start1.min(start2), join_ends(end1, end2))
            }
        }
    }

    // Whether every value of the first range is one of the second.
    pub fn within(self, other: Range) -> bool
        ensures { result ≡ within self other }
    {
        match (self, other) {
            (Range::Empty, _) => true,
            (_, Range::Empty) => false,
            (Range::Span(start1, end1), Range::Span(start2, end2)) => {
                start2 <= start1 && within_ends(end1, end2)
            }
        }
    }

    // A start above the new one becomes 0, and an end that does not hold the new one becomes none.
    pub fn widen(self, new: Range) -> Range
        ensures { result ≡ widen self new }
    {
        match (self, new) {
            (Range::Empty, x) | (x, Range::Empty) => x,
            (Range::Span(start1, end1), Range::Span(start2, end2)) => {
                let start = if start1 <= start2 { start1 } else { 0 };
                Range::Span(start, widen_ends(end1, end2))
            }
        }
    }
}
