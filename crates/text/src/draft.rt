// A plan while its lines are read.
ghost use Rattle.plan.specs.Numbers.{refused};
ghost use Rattle.rows.specs.Rows.{NotLength};
ghost use Rattle.std.specs.Prelude.{IfOk};

use rows::{RouteText, Rows, Sizes};
use statement::{NUMBERED, Statement};
use std::alloc::{AllocError, Global};
use words::Word;
use words::fault::{Fault, Kind};

// The line of each of a row of things, by their numbers, with 0 for none, and how many there are. An array and a count, and no map: Copy, and never short of memory.
#[derive(Clone, Copy)]
pub struct Roll {
    lines: [usize; 1000],
    count: u16,
}

// A thing with no line, and the line that shows it.
#[derive(Clone, Copy, Debug, PartialEq, Eq)]
pub struct Gap {
    pub missing: u16,
    pub line: usize,
}

// The time, and its line.
#[derive(Clone, Copy, Debug, PartialEq, Eq)]
struct Time {
    time: u16,
    line: usize,
}

// Copy, since all that it holds is arrays and numbers.
#[derive(Clone, Copy)]
pub struct Draft {
    sections: Roll,
    points: Roll,
    marked: Roll,
    // The array of the routes can't say how many there are, since those that it has no room for are counted too.
    routes: u16,
    time: Option<Time>,
    rows: Rows,
}

impl Roll {
    fn new() -> Self {
        Roll {
            lines: [0; 1000],
            count: 0,
        }
    }

    fn line(&self, x: u16) -> Option<usize> {
        self.lines
            .get(usize::from(x))
            .copied()
            .filter(|line| *line != 0)
    }

    // Notes the line of a thing that has none; of one that is too large to be numbered nothing.
    fn enter(&mut self, x: u16, line: usize) {
        let Some(place) = self.lines.get_mut(usize::from(x)) else {
            return;
        };
        if *place == 0 {
            *place = line;
            self.count = self.count.saturating_add(1);
        }
    }

    // Notes the line of a thing, which may have only one.
    fn enter_once<'a>(&mut self, word: Word, x: u16, line: usize) -> Result<(), Kind<'a>> {
        if let Some(before) = self.line(x) {
            return Err(Kind::Twice(word, x, before));
        }
        self.enter(x, line);
        Ok(())
    }

    // The first thing that has no line though a later one has.
    fn gap(&self) -> Option<Gap> {
        let missing = (0..NUMBERED).find(|x| self.line(*x).is_none())?;
        // As many have a line as stand before it, so none behind it has.
        if missing == self.count {
            return None;
        }
        let line = (missing..NUMBERED).find_map(|x| self.line(x))?;
        Some(Gap { missing, line })
    }

    // The first line of one that is not in the other; the largest number is no line.
    fn not_in(&self, other: &Roll) -> Option<Gap> {
        (0..NUMBERED)
            .filter_map(|x| self.line(x).map(|line| Gap { missing: x, line }))
            .filter(|gap| gap.line < usize::MAX && other.line(gap.missing).is_none())
            .min_by_key(|gap| gap.line)
    }
}

impl Draft {
    pub fn new() -> Self {
        Draft {
            sections: Roll::new(),
            points: Roll::new(),
            marked: Roll::new(),
            routes: 0,
            time: None,
            rows: Rows {
                sections: [0; 704],
                points: [0; 32],
                routes: [0; 3328],
            },
        }
    }

    // Takes what a line says, or says what is wrong with it.
    pub fn take<'a>(&mut self, line: usize, statement: Statement) -> Result<(), Kind<'a>> {
        match statement {
            Statement::Section(x, up, down) => {
                self.sections.enter_once(Word::Section, x, line)?;
                rows::place_section(&mut self.rows.sections, x, up, down);
            }
            Statement::Point(q, place) => {
                self.points.enter_once(Word::Point, q, line)?;
                rows::place_point(&mut self.rows.points, q, place);
            }
            Statement::Signal(up, x) => {
                self.marked.enter(x, line);
                rows::place_signal(&mut self.rows.sections, up, x);
            }
            Statement::Edge(x) => {
                self.marked.enter(x, line);
                rows::place_edge(&mut self.rows.sections, x);
            }
            Statement::Route(route) => self.route(&route),
            Statement::Time(time) => self.set_time(line, time)?,
        }
        Ok(())
    }

    fn route(&mut self, route: &RouteText) {
        rows::place_route(&mut self.rows.routes, self.routes, route);
        self.routes = self.routes.saturating_add(1);
    }

    fn set_time<'a>(&mut self, line: usize, time: u16) -> Result<(), Kind<'a>> {
        // 0 is no line.
        if let Some(before) = self.time.filter(|known| known.line != 0) {
            return Err(Kind::Second(before.line));
        }
        self.time = Some(Time { time, line });
        Ok(())
    }

    // The line that shows what is missing, and what is said of it.
    pub fn missing<'a>(&self) -> Option<Fault<Kind<'a>>> {
        let gap = |roll: &Roll, word| roll.gap().map(|gap| Fault {
            line: gap.line,
            kind: Kind::Missing(word, gap.missing),
        });
        if let Some(fault) = gap(&self.sections, Word::Section) {
            return Some(fault);
        }
        if let Some(fault) = gap(&self.points, Word::Point) {
            return Some(fault);
        }
        self.marked.not_in(&self.sections).map(|gap| Fault {
            line: gap.line,
            kind: Kind::NoSection(gap.missing),
        })
    }

    // The numbers of the plan.
    pub fn numbers(mut self, heap: Global) -> Result<Vec<u16>, AllocError>
        ensures { IfOk result (λ v. NotLength (refused v.items)) }
    {
        let sizes = Sizes {
            sections: self.sections.count,
            points: self.points.count,
            time: self.time.map_or(0, |known| known.time),
            routes: self.routes,
        };
        rows::close(&mut self.rows.sections, sizes.sections);
        rows::assemble(heap, sizes, &self.rows)
    }
}
