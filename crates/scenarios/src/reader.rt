// Cases in a file, as the plain player writes them.
//
// A file is a row of numbers of 16 bits, the low byte first. Each case begins with its tag:
//
//     1  LIST ANSWER                 the plan from here on, and what the judge says of it
//     2  LIST                        the memory from here on
//     3  MARKS                       what is seen from here on
//     4  MARKS                       how points lie from here on
//     5  KIND WHICH ANSWER CHANGES   a request, and what it does to the memory
//     6  ANSWER CHANGES              noting, and what it does to the memory
//     7  EVENTS MARKS NUMBERS        a row of events from the empty station on, for each whether it was done, and the last world
//
//     LIST     how long it is, and CHANGES to what it was before: what is beyond its length is dropped, what is new is 0
//     CHANGES  how many, and for each its place and the number that stands there now
//     MARKS    how many, and a byte for each
//     ANSWER   the three numbers of `bridge`
//     EVENTS   how many, and four numbers for each: its kind, and the route, section, point or train; of a train that comes in also 1 for up, and the section
//     NUMBERS  how many, and the numbers; a world is the memory, how points lie, and for each train 1 for up, how many sections, and the sections
//
// All lists are empty at first. The memory that a request or noting leaves is the memory from there on.
use anyhow::anyhow;
use bridge::Code;
use interlocking::Request;
use model::Event;
use std::alloc::Global;

#[derive(Drop)]
pub struct Reader<'a> {
    rest: &'a [u8],
}

impl<'a> Reader<'a> {
    pub fn new(file: &'a [u8]) -> Reader<'a> {
        Reader { rest: file }
    }

    pub fn at_end(&self) -> bool {
        self.rest.is_empty()
    }

    pub fn number(&mut self) -> anyhow::Result<u16> {
        match self.rest {
            [low, high, rest @ ..] => {
                self.rest = rest;
                Ok(u16::from(*low) + 256 * u16::from(*high))
            }
            _ => Err(anyhow!("the file ends within a case")),
        }
    }

    pub fn marks(&mut self) -> anyhow::Result<&'a [u8]> {
        let length = usize::from(self.number()?);
        if length > self.rest.len() {
            return Err(anyhow!("the file ends within a list of marks"));
        }
        let (marks, rest) = self.rest.split_at(length);
        self.rest = rest;
        Ok(marks)
    }

    pub fn changes(&mut self, list: &mut Vec<u16>) -> anyhow::Result<()> {
        for _ in 0..self.number()? {
            let place = self.number()?;
            let number = self.number()?;
            match list.get_mut(usize::from(place)) {
                Some(old) => *old = number,
                None => return Err(anyhow!("a change beyond the end of its list")),
            }
        }
        Ok(())
    }

    pub fn list(&mut self, list: &mut Vec<u16>) -> anyhow::Result<()> {
        let length = self.number()?;
        list.resize(usize::from(length), 0)?;
        self.changes(list)
    }

    pub fn numbers(&mut self, heap: Global) -> anyhow::Result<Vec<u16>> {
        let mut numbers = Vec::new(heap);
        for _ in 0..self.number()? {
            numbers.push(self.number()?)?;
        }
        Ok(numbers)
    }

    fn event(&mut self) -> anyhow::Result<Event> {
        let kind = self.number()?;
        let first = usize::from(self.number()?);
        let up = self.number()? == 1;
        let x = usize::from(self.number()?);
        match kind {
            0 => Ok(Event::Asked(Request::Ask(first))),
            1 => Ok(Event::Asked(Request::Clear(first))),
            2 => Ok(Event::Asked(Request::Back(first))),
            3 => Ok(Event::Asked(Request::Free(first))),
            4 => Ok(Event::Asked(Request::Tick)),
            5 => Ok(Event::Turns(first)),
            6 => Ok(Event::Comes(first, up, x)),
            7 => Ok(Event::Goes(first)),
            8 => Ok(Event::Draws(first)),
            9 => Ok(Event::Reverses(first)),
            10 => Ok(Event::Leaves(first)),
            _ => Err(anyhow!("an event of a kind that is not known")),
        }
    }

    pub fn events(&mut self, heap: Global) -> anyhow::Result<Vec<Event>> {
        let mut events = Vec::new(heap);
        for _ in 0..self.number()? {
            events.push(self.event()?)?;
        }
        Ok(events)
    }

    pub fn answer(&mut self) -> anyhow::Result<Code> {
        Ok(Code {
            what: u64::from(self.number()?),
            number: u64::from(self.number()?),
            place: u64::from(self.number()?),
        })
    }
}
