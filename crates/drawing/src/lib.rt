// The station drawn as SVG: sections as lines, points where lines part, signals, trains as boxes, locked sections as wide bands.
#![tactic(auto)]

use layout::{Layout, beyond};
use picture::Picture;
use plan::view::Plan;
use std::alloc::{AllocError, Global};
use std::fmt::Write;
use symbols::{LineEnd, Spot};

// What all parts of the drawing need, and what is drawn.
#[derive(Drop)]
struct Sheet<'a, 'b> {
    plan: Plan<'a>,
    layout: Layout,
    picture: &'b Picture,
    out: String,
}

fn across(column: u8) -> u32 {
    30 + 110 * u32::from(column)
}

fn down(row: u8) -> u32 {
    60 + 80 * u32::from(row)
}

impl<'a, 'b> Sheet<'a, 'b> {
    fn spot(&self, x: u16) -> Spot {
        Spot {
            from: across(self.layout.column(x)).saturating_add(16),
            to: across(self.layout.end(x)).saturating_sub(16),
            y: down(self.layout.row(x)),
        }
    }

    // Does the way from a section to the one beyond lie open as the points lie?
    // `x` and `y` change places here from call to call, so a struct of both would be made anew each time.
    fn lies(&self, up: bool, x: u16, y: u16) -> bool {
        let end = self.plan.end(up, x);
        let left = self.picture.lies_left(usize::from(end.point));
        let lying = if left || !end.moves {
            end.on_left
        } else {
            end.on_right
        };
        lying == y
    }

    // The way from a section to one above it: whole if the points lie so, else broken.
    fn way(&mut self, x: u16, y: u16) -> Result<(), AllocError> {
        let a = self.spot(x);
        let b = self.spot(y);
        let from = a.to;
        let bend = a.to.saturating_add(32).min(b.from);
        let to = b.from;
        let low = a.y;
        let high = b.y;
        let open = self.lies(true, x, y) && self.lies(false, y, x);
        let style = if open {
            "stroke='black' stroke-width='3'"
        } else {
            "stroke='gray' stroke-width='2' stroke-dasharray='3 5'"
        };
        writeln!(
            self.out,
            "<polyline points='{from},{low} {bend},{high} {to},{high}' fill='none' {style}/>"
        )
    }

    // A stroke across the line where two sections meet: beyond the point, where there is one.
    fn joint(&mut self, x: u16, y: u16) -> Result<(), AllocError> {
        if !self.plan.end(false, y).moves {
            self.spot(y).end(false).joint(&mut self.out)
        } else if !self.plan.end(true, x).moves {
            self.spot(x).end(true).joint(&mut self.out)
        } else {
            Ok(())
        }
    }

    // A locked section has a wide band round its line, with the route that it is locked for.
    fn band(&mut self, x: u16, spot: Spot) -> Result<(), AllocError> {
        let Some(r) = self.picture.locked_for(usize::from(x)) else {
            return Ok(());
        };
        let Spot { from, to, y } = spot;
        let middle = spot.middle();
        let under = y.saturating_add(31);
        writeln!(
            self.out,
            "<line x1='{from}' y1='{y}' x2='{to}' y2='{y}' stroke='#8cf' stroke-width='13'/>\n<text x='{middle}' y='{under}' text-anchor='middle' font-style='italic'>for {r}</text>"
        )
    }

    fn section(&mut self, x: u16) -> Result<(), AllocError> {
        let spot = self.spot(x);
        self.band(x, spot)?;
        let Spot { from, to, y } = spot;
        let middle = spot.middle();
        let over = y.saturating_sub(12);
        writeln!(
            self.out,
            "<path d='M{from},{y}H{to}' stroke='black' stroke-width='3'/>\n<text x='{middle}' y='{over}' text-anchor='middle' font-weight='bold'>{x}</text>"
        )?;
        if self.picture.is_occupied(usize::from(x)) {
            spot.train(&mut self.out)?;
        }
        self.end_of(x, spot.end(true))?;
        self.end_of(x, spot.end(false))
    }

    // What stands at an end: the signal, the point that moves it, or where the line stops.
    fn end_of(&mut self, x: u16, at: LineEnd) -> Result<(), AllocError> {
        let light = self.picture.light(at.up, usize::from(x));
        at.signal(&mut self.out, light)?;
        let end = self.plan.end(at.up, x);
        if end.moves {
            let q = usize::from(end.point);
            let lies = self.picture.lies_left(q);
            let wants = self.picture.wants_left(q);
            at.point(&mut self.out, end.point, lies, wants)
        } else if end.on_left < self.plan.sections() {
            Ok(())
        } else if self.plan.edge(x) {
            at.edge(&mut self.out)
        } else {
            at.buffer(&mut self.out)
        }
    }
}

// Something is drawn for each section with each one above it.
fn each_pair<F: FnMut(u16, u16) -> Result<(), AllocError>>(
    plan: Plan<'_>,
    mut draw: F,
) -> Result<(), AllocError>
    requires { F.IsAlwaysCallable draw }
{
    for x in 0..plan.sections() {
        for y in beyond(plan, true, x).into_iter().flatten() {
            draw(x, y)?;
        }
    }
    Ok(())
}

// The whole station, as the plan lays it out and as the picture shows it.
pub fn svg(heap: Global, plan: Plan<'_>, picture: &Picture) -> Result<String, AllocError> {
    let layout = Layout::new(plan);
    let width = across(layout.width()).saturating_add(30);
    let height = down(layout.height()).saturating_sub(20);
    let mut sheet = Sheet {
        plan,
        layout,
        picture,
        out: String::new(heap),
    };
    writeln!(
        sheet.out,
        "<svg xmlns='http://www.w3.org/2000/svg' width='{width}' height='{height}' font-family='sans-serif' font-size='12'>\n<rect width='100%' height='100%' fill='white'/>"
    )?;
    each_pair(plan, |x, y| sheet.way(x, y))?;
    for x in 0..plan.sections() {
        sheet.section(x)?;
    }
    each_pair(plan, |x, y| sheet.joint(x, y))?;
    sheet.out.push_str("</svg>\n")?;
    Ok(sheet.out)
}
