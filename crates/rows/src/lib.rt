// The numbers of a plan's parts, and where they stand.
#![tactic(auto)]

ghost use Rattle.std.specs.Prelude.{◌≡◌, ◌+◌, ◌*◌, ◌==◌, [], ◌∷◌, length, replicate, slice_index, IfOk};
ghost use Rattle.plan.specs.Numbers.{refused};
ghost use Rattle.plan.specs.Plan.{pick};
ghost use Rattle.rows.specs.Rows.{closed, ends_in, few, needs_with, numbers_in, NotLength, path_with, put_in, route_in};

use plan::{End, Need};
use std::alloc::{AllocError, Global};

// The number of what lies outside: the format of plans has a number there, not an Option.
pub const OUTSIDE: u16 = 1000;

// A route as it is written. Its path and needs are arrays and a count, and no vectors: Copy, and never short of memory, however many a line has.
#[derive(Clone, Copy)]
pub struct RouteText {
    pub begin: u16,
    pub up: bool,
    pub path: Path,
    pub needs: Needs,
}

// How many sections there are, and the first 16 of them.
#[derive(Clone, Copy)]
pub struct Path {
    pub count: u16,
    pub sections: [u16; 16],
}

// How many needs there are, and the first 16 of them, each a point and 1 for left.
#[derive(Clone, Copy)]
pub struct Needs {
    pub count: u16,
    pub pairs: [u16; 32],
}

impl Path {
    pub fn none() -> Self
        ensures { result ≡ record { count = 0; sections = replicate 16 0 } }
    {
        Path {
            count: 0,
            sections: [0; 16],
        }
    }

    // One more section; past the sixteenth it is only counted.
    pub fn push(&mut self, x: u16)
        ensures { self.new ≡ path_with self.old x }
    {
        let k = usize::from(self.count);
        self.count = self.count.saturating_add(1);
        if k < 16 {
            self.sections[k] = x;
        }
    }
}

impl Needs {
    pub fn none() -> Self
        ensures { result ≡ record { count = 0; pairs = replicate 32 0 } }
    {
        Needs {
            count: 0,
            pairs: [0; 32],
        }
    }

    // One more need; past the sixteenth it is only counted.
    pub fn push(&mut self, need: Need)
        ensures { self.new ≡ needs_with self.old need }
    {
        let k = usize::from(self.count);
        self.count = self.count.saturating_add(1);
        if k < 16 {
            self.pairs[2 * k] = need.point;
            self.pairs[2 * k + 1] = u16::from(need.left);
        }
    }
}

// The numbers of a plan's sections, points and routes. Arrays, since sections and points come in any order: a Vec would first have to be filled up to each one's place.
#[derive(Clone, Copy)]
pub struct Rows {
    pub sections: [u16; 704],
    pub points: [u16; 32],
    pub routes: [u16; 3328],
}

// How many there are of each, and the time: the text may number more than the arrays have room for.
#[derive(Clone, Copy)]
pub struct Sizes {
    pub sections: u16,
    pub points: u16,
    pub time: u16,
    pub routes: u16,
}

// Puts a part in its place; where it does not fit nothing is put.
pub fn put(numbers: &mut [u16], k: usize, part: &[u16])
    ensures { numbers.new ≡ put_in numbers.old k part.now }
{
    let n = part.len();
    if n <= numbers.len() && k <= numbers.len() - n {
        let there = &mut numbers[k..k + n];
        there.copy_from_slice(part);
    }
}

// A section's two ends.
pub fn place_section(rows: &mut [u16], x: u16, up: End, down: End)
    ensures { rows.new ≡ put_in rows.old (11 * x) (ends_in up down) }
{
    let part = [
        u16::from(up.moves),
        up.point,
        up.on_left,
        up.on_right,
        u16::from(down.moves),
        down.point,
        down.on_left,
        down.on_right,
    ];
    put(rows, 11 * usize::from(x), &part);
}

// A signal at a section, up or down.
pub fn place_signal(rows: &mut [u16], up: bool, x: u16)
    ensures { rows.new ≡ put_in rows.old (11 * x + pick up 8 9) (1 ∷ []) }
{
    let place = if up { 8 } else { 9 };
    put(rows, 11 * usize::from(x) + place, &[1]);
}

pub fn place_edge(rows: &mut [u16], x: u16)
    ensures { rows.new ≡ put_in rows.old (11 * x + 10) (1 ∷ []) }
{
    put(rows, 11 * usize::from(x) + 10, &[1]);
}

pub fn place_point(places: &mut [u16], q: u16, place: u16)
    ensures { places.new ≡ put_in places.old q (place ∷ []) }
{
    put(places, usize::from(q), &[place]);
}

// A route's 52 numbers, in three parts.
pub fn place_route(routes: &mut [u16], r: u16, route: &RouteText)
    ensures { routes.new ≡ route_in routes.old (52 * r) route.now }
{
    let k = 52 * usize::from(r);
    let up = u16::from(route.up);
    let head = [route.begin, up, route.path.count, route.needs.count];
    put(routes, k, &head);
    put(routes, k + 4, &route.path.sections);
    put(routes, k + 20, &route.needs.pairs);
}

// What lies beyond an end: a number that is no section is outside. Larger ones than outside stay, to be refused.
fn beyond(x: u16, sections: u16) -> u16
    ensures { result ≡ closed sections x }
{
    if x < sections || x > OUTSIDE {
        x
    } else {
        OUTSIDE
    }
}

// With what lies beyond the ends of so many sections.
pub fn close(rows: &mut [u16; 704], sections: u16) {
    for row in rows.chunks_exact_mut(11).take(usize::from(sections)) {
        close_end(&mut row[0..4], sections);
        close_end(&mut row[4..8], sections);
    }
}

// What a point doesn't move has only what lies beyond on its left.
fn close_end(end: &mut [u16], sections: u16)
    requires { length end.old ≡ 4 }
    ensures left { slice_index end.new 2 ≡ closed sections (slice_index end.old 2) }
    ensures right { slice_index end.new 3 ≡ pick (slice_index end.old 0 == 1) (closed sections (slice_index end.old 3)) (slice_index end.old 3) }
{
    end[2] = beyond(end[2], sections);
    if end[0] == 1 {
        end[3] = beyond(end[3], sections);
    }
}

// Are there no more than a plan may have?
fn few(sizes: Sizes) -> bool
    ensures { result ≡ few sizes }
{
    sizes.sections <= 64 && sizes.points <= 32 && sizes.routes <= 64
}

// A plan's numbers; where there are too many of something only the sizes, which are then refused.
pub fn assemble(heap: Global, sizes: Sizes, rows: &Rows) -> Result<Vec<u16>, AllocError>
    ensures exact { IfOk result (λ v. v.items ≡ numbers_in sizes rows.now) }
    ensures whole { IfOk result (λ v. NotLength (refused v.items)) }
{
    let head = [sizes.sections, sizes.points, sizes.time, sizes.routes];
    let mut numbers = Vec::from_slice(heap, &head)?;
    if !few(sizes) {
        return Ok(numbers);
    }
    numbers.extend_from_slice(&rows.sections[0..11 * usize::from(sizes.sections)])?;
    numbers.extend_from_slice(&rows.points[0..usize::from(sizes.points)])?;
    numbers.extend_from_slice(&rows.routes[0..52 * usize::from(sizes.routes)])?;
    Ok(numbers)
}
