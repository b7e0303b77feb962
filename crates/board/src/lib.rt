// The picture as text for a terminal, at most 80 columns wide.
#![tactic(auto)]

use field::Aspect;
use interlocking::Stage;
use picture::Picture;
use plan::side;
use std::alloc::{AllocError, Global};
use std::fmt::Write;

// How a word is set off where the terminal has colours.
#[derive(Clone, Copy)]
enum Tone {
    Plain,
    Red,
    Green,
    Yellow,
    Faint,
}

#[derive(Clone, Copy)]
struct Word {
    text: &'static str,
    tone: Tone,
}

impl Tone {
    fn opening(self) -> &'static str {
        match self {
            Tone::Plain => "",
            Tone::Red => "\x1b[31m",
            Tone::Green => "\x1b[32m",
            Tone::Yellow => "\x1b[33m",
            Tone::Faint => "\x1b[2m",
        }
    }

    fn closing(self) -> &'static str {
        match self {
            Tone::Plain => "",
            _ => "\x1b[0m",
        }
    }
}

impl Word {
    fn new(text: &'static str, tone: Tone) -> Word {
        Word { text, tone }
    }

    fn of_light(light: Option<Aspect>) -> Word {
        match light {
            None => Word::new("-", Tone::Faint),
            Some(Aspect::Stop) => Word::new("stop", Tone::Red),
            Some(Aspect::Proceed) => Word::new("proceed", Tone::Green),
        }
    }

    fn of_stage(stage: Stage) -> Word {
        let tone = match stage {
            Stage::Idle => Tone::Faint,
            Stage::Set | Stage::Falling(_) => Tone::Yellow,
            Stage::Shown => Tone::Green,
            Stage::Used => Tone::Red,
        };
        Word::new(stage.name(), tone)
    }
}

// A picture, whether the terminal has colours, and what is written.
#[derive(Drop)]
struct Board<'a> {
    picture: &'a Picture,
    colour: bool,
    out: String,
}

impl<'a> Board<'a> {
    // A word in its column; colours take no room.
    fn put(&mut self, word: Word, width: usize) -> Result<(), AllocError> {
        let Word { text, tone } = word;
        let tone = if self.colour { tone } else { Tone::Plain };
        let opening = tone.opening();
        let closing = tone.closing();
        write!(self.out, "{opening}{text:<width$}{closing}")
    }

    // What a line is about.
    fn begin(&mut self, kind: &str, number: u16) -> Result<(), AllocError> {
        let name = format!(in *self.out.allocator(); "{kind:<8}{number:>2}")?;
        write!(self.out, "{name:<12}")
    }

    // What a section is locked for, and how far that route is.
    fn lock_text(&self, x: usize) -> Result<String, AllocError> {
        let heap = *self.out.allocator();
        match self.picture.locked_for(x) {
            None => String::from_str(heap, "-"),
            Some(r) => {
                let stage = self.picture.stage(usize::from(r)).name();
                format!(in heap; "locked for {r} ({stage})")
            }
        }
    }

    fn section_line(&mut self, section: u16) -> Result<(), AllocError> {
        let x = usize::from(section);
        self.begin("section", section)?;
        let train = if self.picture.is_occupied(x) {
            Word::new("occupied", Tone::Red)
        } else {
            Word::new("vacant", Tone::Faint)
        };
        self.put(train, 10)?;
        let lock = self.lock_text(x)?;
        write!(self.out, "{lock:<26}up   ")?;
        self.put(Word::of_light(self.picture.light(true, x)), 9)?;
        self.out.push_str("down ")?;
        self.put(Word::of_light(self.picture.light(false, x)), 0)?;
        self.out.push_str("\n")
    }

    fn point_line(&mut self, point: u16) -> Result<(), AllocError> {
        let lies = self.picture.lies_left(usize::from(point));
        let wants = self.picture.wants_left(usize::from(point));
        let lying = side(lies);
        let wanted = side(wants);
        self.begin("point", point)?;
        write!(self.out, "lies {lying:<8}wanted {wanted}")?;
        if lies != wants {
            self.out.push_str("  ")?;
            self.put(Word::new("turns", Tone::Yellow), 0)?;
        }
        self.out.push_str("\n")
    }

    fn route_line(&mut self, route: u16) -> Result<(), AllocError> {
        let stage = self.picture.stage(usize::from(route));
        self.begin("route", route)?;
        self.put(Word::of_stage(stage), 0)?;
        if let Stage::Falling(n) = stage {
            write!(self.out, "  {n} left")?;
        }
        self.out.push_str("\n")
    }
}

// One line for each section, each point and each route.
pub fn text(heap: Global, picture: &Picture, colour: bool) -> Result<String, AllocError> {
    let mut board = Board {
        picture,
        colour,
        out: String::new(heap),
    };
    for x in 0..picture.sections {
        board.section_line(x)?;
    }
    for q in 0..picture.points {
        board.point_line(q)?;
    }
    for r in 0..picture.routes {
        board.route_line(r)?;
    }
    Ok(board.out)
}
