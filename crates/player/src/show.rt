// What is printed and drawn of a station.
use crate::options::Options;
use board::text;
use console::{Answered, write_file};
use model::Event;
use model::station::Station;
use picture::Picture;
use std::io;
use std::io::{BufWriter, Stdout, Write};
use watch::first_broken;

// Where a run is printed, and what is asked for.
#[derive(Drop)]
pub struct Show<'a> {
    pub rt: &'a HostRuntime,
    pub options: Options<'a>,
    out: BufWriter<Stdout>,
}

fn picture_of(station: &Station<'_>) -> Picture {
    Picture::new(
        station.plan(),
        station.interlocking(),
        &station.occupancy(),
        &station.lies(),
    )
}

impl<'a> Show<'a> {
    pub fn new(rt: &'a HostRuntime, options: Options<'a>) -> anyhow::Result<Show<'a>> {
        Ok(Show {
            rt,
            options,
            out: BufWriter::new(rt.alloc(), rt.stdout())?,
        })
    }

    pub fn print_answer(&mut self, event: Event, done: bool) -> io::Result<()> {
        let said = Answered(event, done);
        writeln!(self.out, "{said}")
    }

    // Prints what is asked for after an event; false where a promise does not hold.
    pub fn print_after(&mut self, station: &Station<'_>) -> anyhow::Result<bool> {
        if self.options.picture {
            let table = text(self.rt.alloc(), &picture_of(station), false)?;
            write!(self.out, "{table}")?;
        }
        if self.options.check {
            if let Some(broken) = first_broken(station) {
                writeln!(self.out, "broken: {broken}")?;
                return Ok(false);
            }
        }
        Ok(true)
    }

    pub fn flush(&mut self) -> io::Result<()> {
        self.out.flush()
    }

    // Says that the budget is used up, if it is, and draws the station, if asked for; false where the drawing can't be written.
    pub fn finish(&self, station: &Station<'_>, events: usize) -> anyhow::Result<bool> {
        let budget = self.options.budget;
        if budget < events {
            eprintln!(self.rt; "stopped: the budget of {budget} events is used up")?;
        }
        let Some(name) = self.options.svg else {
            return Ok(true);
        };
        let drawn = drawing::svg(self.rt.alloc(), station.plan(), &picture_of(station))?;
        Ok(write_file(self.rt, name, drawn.as_str())?)
    }
}
