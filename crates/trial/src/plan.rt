// What an exchange of two blocks does with the events: read off what a walk left.
use crate::compare::{Demand, Direction};
use crate::exchanged::Places;
use crate::side::Side;
use std::ops::Range;
use walk::{ENTER, LEAVE};

// How many events, bytes and operands a block has.
#[derive(Clone, Copy, Default)]
pub struct Block {
    pub events: u64,
    pub bytes: u64,
    pub operands: u64,
}

// How many events stand before the two blocks and behind them, and what each of them has.
#[derive(Clone, Copy)]
pub struct Plan {
    pub before: u64,
    pub first: Block,
    pub second: Block,
    pub behind: u64,
}

// How many blocks are open behind an event of a kind.
fn depth_behind(depth: u64, kind: u64) -> u64 {
    match kind {
        ENTER => depth.saturating_add(1),
        LEAVE => depth.saturating_sub(1),
        _ => depth,
    }
}

// The event behind the group that begins with an event: the first one behind which no block of the group is open.
fn closing(side: Side<'_>, start: u64) -> u64 {
    let count = side.told.events;
    let mut depth = 0;
    for x in start..count {
        depth = depth_behind(depth, side.event(x).kind());
        if depth == 0 {
            return x + 1;
        }
    }
    count
}

// The events of the block that has these bytes of the input; none, behind all events, where no event opens it.
fn group_of(side: Side<'_>, bytes: &Range<u64>) -> Range<u64> {
    let count = side.told.events;
    let opening = (0..count).find(|x| side.opens(*x, bytes));
    let start = opening.unwrap_or(count);
    start..closing(side, start)
}

// The first group, and where the second begins if it is empty; at 0 if both are.
fn first_placed(first: Range<u64>, second: &Range<u64>) -> Range<u64> {
    if !first.is_empty() {
        return first;
    }
    if !second.is_empty() {
        return second.start..second.start;
    }
    0..0
}

// The second group, and where the first ends if it is empty.
fn second_placed(first: &Range<u64>, second: Range<u64>) -> Range<u64> {
    if !second.is_empty() {
        return second;
    }
    first.end..first.end
}

// What the block has whose events and bytes these are.
fn block_of(side: Side<'_>, events: &Range<u64>, bytes: &Range<u64>) -> Block {
    let held = (events.start..events.end).map(|x| side.event(x).held());
    Block {
        events: events.end.saturating_sub(events.start),
        bytes: bytes.end.saturating_sub(bytes.start),
        operands: held.fold(0u64, |sum, count| sum.saturating_add(count)),
    }
}

impl Plan {
    // What the exchange of the blocks at these places does with the events of a walk, and None where the two groups stand apart.
    pub fn of(p: Places, side: Side<'_>) -> Option<Self> {
        let one = p.first as u64..p.second as u64;
        let two = p.second as u64..p.end as u64;
        let later = group_of(side, &two);
        let first = first_placed(group_of(side, &one), &later);
        let second = second_placed(&first, later);
        if first.end != second.start {
            return None;
        }
        Some(Plan {
            before: first.start,
            first: block_of(side, &first, &one),
            second: block_of(side, &second, &two),
            behind: side.told.events.saturating_sub(second.end),
        })
    }

    // What the event x of the exchanged input is to be: the second group goes down by what the first block has, the first one up by what the second has.
    pub fn demand(self, x: u64) -> Demand {
        let middle = self.before.saturating_add(self.second.events);
        let end = middle.saturating_add(self.first.events);
        if x < self.before || end <= x {
            return Demand::unmoved(x);
        }
        if x < middle {
            return Demand {
                event: x.saturating_add(self.first.events),
                by: self.first,
                direction: Direction::Down,
            };
        }
        Demand {
            event: x.saturating_sub(self.second.events),
            by: self.second,
            direction: Direction::Up,
        }
    }
}
