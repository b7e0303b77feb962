// What a route needs, one point after the other.
ghost use Rattle.std.specs.Prelude.{◌≡◌};
ghost use Rattle.std.specs.Iterator.{YieldsFirst, YieldsLast, item_count};
ghost use Rattle.plan.specs.View.{need_in, needs_left};

use crate::Need;

// Pairs of numbers that are still to come: a point, and 1 for left.
#[derive(Clone, Copy)]
pub struct Needs<'a> {
    pub(crate) pairs: &'a [[u16; 2]],
}

// The need that a pair of numbers is.
pub(crate) fn need_of(pair: [u16; 2]) -> Need
    ensures { result ≡ need_in pair }
{
    let [point, left] = pair;
    Need {
        point,
        left: left == 1,
    }
}

impl Iterator for Needs<'_> {
    type Item = Need;

    ghost next_gives = { YieldsFirst needs_left };

    ghost remaining = { item_count needs_left };

    fn next(&mut self) -> Option<Need> {
        let (first, rest) = self.pairs.split_first()?;
        self.pairs = rest;
        Some(need_of(*first))
    }
}

impl DoubleEndedIterator for Needs<'_> {
    ghost next_back_gives = { YieldsLast needs_left };

    fn next_back(&mut self) -> Option<Need> {
        let (last, rest) = self.pairs.split_last()?;
        self.pairs = rest;
        Some(need_of(*last))
    }
}
