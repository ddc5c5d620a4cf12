// Ranges and sets of values: a set is a part of a program's words, as it stands there, in any order and with repeats.
ghost use Rattle.std.specs.Prelude.{◌≡◌, ◌+◌, ◌<◌, ◌^◌, length};
ghost use Rattle.ranges.specs.Ranges.{holds, around, retain, first_out, cut_end, remove_end, remove};
ghost use Rattle.ranges.specs.Walks.{raised, lowered};

use crate::{Range, TOP};

// The smallest range that has x.
fn around(x: u64) -> Range
    ensures { result ≡ around x }
{
    match u32::try_from(x) {
        Ok(x) => Range::point(x),
        Err(_) => Range::Span(TOP as u32, None),
    }
}

// One walk from the first value on: x steps up past each value that it equals. The requires keeps the steps within a u64.
fn raised(values: &[u64], x: u64) -> u64
    requires { x + length values.now < 2 ^ 64 }
    ensures { result ≡ raised values.now x }
{
    let mut up = x;
    for &value in values {
        if value == up {
            up += 1;
        }
    }
    up
}

// One walk from the last value back: x steps down past each value that it equals.
fn lowered(values: &[u64], x: u64) -> u64
    ensures { result ≡ lowered values.now x }
{
    values.iter().rev().fold(x, |down, &value| {
        if value == down {
            down.saturating_sub(1)
        } else {
            down
        }
    })
}

// The start cut up until it is not in the set: sorted values take two walks, since a walk goes on while the next value follows.
#[tactic(auto, using(crate::proofs::Walked::up))]
fn first_out(values: &[u64], start: u32) -> u64
    ensures { result ≡ first_out (length values.now) values.now start }
{
    let mut first = start as u64;
    loop {
        let next = raised(values, first);
        if next == first {
            return first;
        }
        first = next;
    }
}

// The end cut down until it is not in the set. Apart from `first_out`: that one ends by going up, this one by going down.
#[tactic(auto, using(crate::proofs::Walked::down))]
fn cut_end(values: &[u64], end: u32) -> u32
    ensures { result ≡ cut_end (length values.now) values.now end }
{
    let mut last = end as u64;
    loop {
        let next = lowered(values, last);
        if next == last {
            return last as u32;
        }
        last = next;
    }
}

// What is left from a start on that is not in the set.
#[tactic(auto, unfolding(crate::specs::Ranges::remove_end))]
fn remove_end(start: u32, end: Option<u32>, values: &[u64]) -> Range
    ensures { result ≡ remove_end start end values.now }
{
    match end {
        Some(x) if x < start => Range::Empty,
        Some(x) => Range::Span(start, Some(cut_end(values, x))),
        None => Range::Span(start, None),
    }
}

impl Range {
    // Whether x is one of the range's values.
    pub fn holds(self, x: u64) -> bool
        ensures { result ≡ holds self x }
    {
        match self {
            Range::Empty => false,
            Range::Span(start, end) => start as u64 <= x && end.is_none_or(|y| x <= y as u64),
        }
    }

    // The smallest and largest of the values inside the range, or Empty.
    #[tactic(auto, unfolding(crate::specs::Ranges::retain))]
    pub fn retain(self, values: &[u64]) -> Range
        ensures { result ≡ retain self values.now }
    {
        values
            .iter()
            .copied()
            .filter(|&value| self.holds(value))
            .map(around)
            .fold(Range::Empty, Range::join)
    }

    // The range cut at both ends until neither is in the set, or Empty; none if the start would pass 4294967295.
    #[tactic(auto, unfolding(crate::specs::Ranges::remove))]
    pub fn remove(self, values: &[u64]) -> Option<Range>
        ensures { result ≡ remove self values.now }
    {
        let Range::Span(start, end) = self else {
            return Some(Range::Empty);
        };
        let first = u32::try_from(first_out(values, start)).ok()?;
        Some(remove_end(first, end, values))
    }
}
