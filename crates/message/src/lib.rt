// What is told between parts (requests, answers and events), in five numbers, and back.
#![tactic(auto)]

ghost use Rattle.std.specs.Prelude.{◌≡◌, [], ◌∷◌, MatchResult};
ghost use Rattle.message.specs.Numbers.{bit, can_be, event_in, first_of, kind_in, last_at, message_in, message_numbers, second_of};
ghost use Rattle.message.specs.Reads.{IsRead, Missing, ReadBack, Taken};

use interlocking::{Answer, Request};
use model::Event;

// A request, an answer, or an event with whether it was done.
#[derive(Clone, Copy)]
pub enum Message {
    Request(Request),
    Answer(Answer),
    Event(Event, bool),
}

// The place of the first number that is wrong.
#[derive(Debug, Clone, Copy, PartialEq, Eq)]
pub struct WrongAt {
    pub place: usize,
}

// An event's kind (those of requests come first), what it is about, and the section where a train comes in.
fn event_numbers(event: Event) -> [u64; 3]
    ensures { result ≡ kind_in event ∷ first_of event ∷ second_of event ∷ [] }
{
    match event {
        Event::Asked(request) => [request.kind(), request.which() as u64, 0],
        Event::Turns(q) => [5, q as u64, 0],
        Event::Goes(i) => [6, i as u64, 0],
        Event::Draws(i) => [7, i as u64, 0],
        Event::Reverses(i) => [8, i as u64, 0],
        Event::Comes(i, true, x) => [9, i as u64, x as u64],
        Event::Comes(i, false, x) => [10, i as u64, x as u64],
        Event::Leaves(i) => [11, i as u64, 0],
    }
}

impl Message {
    // A method and no From: <[u64; 5]>::from(message) reads no plainer.
    pub fn numbers(self) -> [u64; 5]
        ensures { result ≡ message_numbers self }
    {
        match self {
            Message::Request(a) => [0, a.kind(), a.which() as u64, 0, 0],
            Message::Answer(a) => [
                1,
                a.request.kind(),
                a.request.which() as u64,
                0,
                u64::from(a.done),
            ],
            Message::Event(event, done) => {
                let [kind, first, second] = event_numbers(event);
                [2, kind, first, second, u64::from(done)]
            }
        }
    }
}

// The largest number that can stand at a place of a message of this sort and kind; none: any can. Both are numbers of the format, and not yet known to be a sort and a kind.
fn last(place: usize, sort: u64, kind: u64) -> Option<u64>
    ensures { result ≡ last_at place sort kind }
{
    match place {
        0 => Some(2),
        1 => if sort == 2 { Some(11) } else { Some(4) },
        2 => if kind == 4 { Some(0) } else { None },
        3 => if kind == 9 || kind == 10 {
            None
        } else {
            Some(0)
        },
        _ => if sort == 0 { Some(0) } else { Some(1) },
    }
}

fn can_be(last: Option<u64>, n: u64) -> bool
    ensures { result ≡ can_be last n }
{
    last.is_none_or(|most| n <= most)
}

// The number at a place, if one stands there that can.
fn number_at(numbers: &[u64], place: usize, sort: u64, kind: u64) -> Result<u64, WrongAt>
    ensures { MatchResult result (Taken numbers.now place sort kind) (Missing numbers.now place sort kind) }
{
    match numbers.get(place) {
        Some(&n) if can_be(last(place, sort, kind), n) => Ok(n),
        _ => Err(WrongAt { place }),
    }
}

// Any numbers make an event, so there is nothing for a TryFrom to refuse: `number_at` has refused already.
fn event(kind: u64, first: usize, second: usize) -> Event
    ensures { result ≡ event_in kind first second }
{
    match kind {
        5 => Event::Turns(first),
        6 => Event::Goes(first),
        7 => Event::Draws(first),
        8 => Event::Reverses(first),
        9 => Event::Comes(first, true, second),
        10 => Event::Comes(first, false, second),
        11 => Event::Leaves(first),
        _ => Event::Asked(Request::of(kind, first)),
    }
}

fn made(sort: u64, kind: u64, first: u64, second: u64, done: u64) -> Message
    ensures { result ≡ message_in sort kind first second done }
{
    let first = first as usize;
    let done = done == 1;
    match sort {
        0 => Message::Request(Request::of(kind, first)),
        1 => Message::Answer(Answer {
            request: Request::of(kind, first),
            done,
        }),
        _ => Message::Event(event(kind, first, second as usize), done),
    }
}

// The message that has these numbers, or the first place that no message can have so.
impl TryFrom<&[u64]> for Message {
    type Error = WrongAt;

    ghost try_from_gives = { λ numbers. IsRead numbers.now };

    fn try_from(numbers: &[u64]) -> Result<Message, WrongAt> {
        let sort = number_at(numbers, 0, 0, 0)?;
        let kind = number_at(numbers, 1, sort, 0)?;
        let first = number_at(numbers, 2, sort, kind)?;
        let second = number_at(numbers, 3, sort, kind)?;
        let done = number_at(numbers, 4, sort, kind)?;
        if numbers.len() > 5 {
            return Err(WrongAt { place: 5 });
        }
        Ok(made(sort, kind, first, second, done))
    }
}

// No two messages have the same numbers, so what is written is read back the same.
pub fn read_back_holds()
    ensures { ReadBack }
{}
