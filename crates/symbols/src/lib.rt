// The signs of a drawing in SVG: what stands on a section's line or at its ends.
#![tactic(auto)]

use field::Aspect;
use std::alloc::AllocError;
use std::fmt::Write;

// Where a section's line lies.
#[derive(Clone, Copy)]
pub struct Spot {
    pub from: u32,
    pub to: u32,
    pub y: u32,
}

// One of the two ends of a section's line.
#[derive(Clone, Copy)]
pub struct LineEnd {
    pub spot: Spot,
    pub up: bool,
}

type Place = (u32, u32);

// A line through three places.
// Each sign has a style of its own, so a struct of `out` and `style` would be made anew for each.
fn stroke(out: &mut String, places: [Place; 3], style: &str) -> Result<(), AllocError> {
    let [(a, b), (c, d), (e, f)] = places;
    writeln!(out, "<polyline points='{a},{b} {c},{d} {e},{f}' {style}/>")
}

// Through a tip, from as far above it as below: the head of an arrow, or an upright stroke where all three stand at one x.
fn bent(out: &mut String, x: u32, tip: Place, by: u32, style: &str) -> Result<(), AllocError> {
    let (_, y) = tip;
    let places = [(x, y.saturating_sub(by)), tip, (x, y.saturating_add(by))];
    stroke(out, places, style)
}

fn disc(out: &mut String, centre: Place, style: &str) -> Result<(), AllocError> {
    let (x, y) = centre;
    writeln!(out, "<circle cx='{x}' cy='{y}' {style}/>")
}

impl Spot {
    pub fn middle(self) -> u32 {
        self.from / 2 + self.to / 2
    }

    pub fn end(self, up: bool) -> LineEnd {
        LineEnd { spot: self, up }
    }

    // A train is a box on the line.
    pub fn train(self, out: &mut String) -> Result<(), AllocError> {
        let x = self.middle().saturating_sub(20);
        let y = self.y.saturating_sub(8);
        writeln!(
            out,
            "<rect x='{x}' y='{y}' width='40' height='16' rx='3' fill='#b00' stroke='black' stroke-width='2'/>"
        )
    }
}

fn side(left: bool) -> &'static str {
    if left { "L" } else { "R" }
}

// How a point lies; one that turns shows where to.
fn lie(lies: bool, wants: bool) -> &'static str {
    if lies == wants {
        side(lies)
    } else if lies {
        "L to R"
    } else {
        "R to L"
    }
}

// How far in from its end a signal stands, so that a way that parts there does not cross it.
const INWARDS: u32 = 11;

impl LineEnd {
    // A place further in from the end, and one further out.
    fn inwards(self, by: u32) -> u32 {
        if self.up {
            self.spot.to.saturating_sub(by)
        } else {
            self.spot.from.saturating_add(by)
        }
    }

    fn outwards(self, by: u32) -> u32 {
        if self.up {
            self.spot.to.saturating_add(by)
        } else {
            self.spot.from.saturating_sub(by)
        }
    }

    // Signals up stand above the line and those down below it: on the left, as a train goes.
    fn beside(self, by: u32) -> u32 {
        if self.up {
            self.spot.y.saturating_sub(by)
        } else {
            self.spot.y.saturating_add(by)
        }
    }

    // Where the line ends.
    fn tip(self) -> Place {
        (self.outwards(0), self.spot.y)
    }

    // The signal here, if there is one.
    pub fn signal(self, out: &mut String, light: Option<Aspect>) -> Result<(), AllocError> {
        match light {
            None => Ok(()),
            Some(Aspect::Stop) => self.stop(out),
            Some(Aspect::Proceed) => self.proceed(out),
        }
    }

    fn mast(self, out: &mut String) -> Result<(), AllocError> {
        let x = self.inwards(INWARDS);
        let top = (x, self.beside(22));
        let style = "stroke='black' stroke-width='2'";
        stroke(out, [(x, self.spot.y), top, top], style)
    }

    // A disc with a bar across.
    fn stop(self, out: &mut String) -> Result<(), AllocError> {
        self.mast(out)?;
        let x = self.inwards(INWARDS);
        let y = self.beside(24);
        disc(out, (x, y), "r='8' fill='#d00' stroke='black'")?;
        let bar = [(x.saturating_sub(4), y), (x, y), (x.saturating_add(4), y)];
        stroke(out, bar, "stroke='white' stroke-width='3'")
    }

    // An arrow the way that the train may go.
    fn proceed(self, out: &mut String) -> Result<(), AllocError> {
        self.mast(out)?;
        let back = self.inwards(INWARDS + 8);
        let tip = (self.inwards(1), self.beside(24));
        bent(out, back, tip, 8, "fill='#0a0' stroke='black'")
    }

    // A ring where the line parts, with the point's number and how it lies.
    pub fn point(
        self,
        out: &mut String,
        q: u16,
        lies: bool,
        wants: bool,
    ) -> Result<(), AllocError> {
        let style = "r='5' fill='white' stroke='black' stroke-width='2'";
        disc(out, self.tip(), style)?;
        let anchor = if self.up { "end" } else { "start" };
        let at = self.inwards(2);
        // Above the line the section's number has the place next to it.
        let y = if self.up {
            self.spot.y.saturating_add(17)
        } else {
            self.spot.y.saturating_sub(26)
        };
        let how = lie(lies, wants);
        writeln!(
            out,
            "<text x='{at}' y='{y}' text-anchor='{anchor}' font-size='11'>p{q} {how}</text>"
        )
    }

    // Trains come in and go out here: the line runs on, with an arrow head.
    pub fn edge(self, out: &mut String) -> Result<(), AllocError> {
        let style = "fill='none' stroke='black' stroke-width='2'";
        let far = (self.outwards(22), self.spot.y);
        stroke(out, [self.tip(), far, far], style)?;
        bent(out, self.outwards(14), far, 6, style)
    }

    // Another section begins here.
    pub fn joint(self, out: &mut String) -> Result<(), AllocError> {
        bent(out, self.outwards(0), self.tip(), 6, "stroke='black'")
    }

    // The line stops here.
    pub fn buffer(self, out: &mut String) -> Result<(), AllocError> {
        let style = "stroke='black' stroke-width='5'";
        bent(out, self.outwards(0), self.tip(), 10, style)
    }
}
