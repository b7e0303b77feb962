// Numbers read as a plan, and what the plan has at each place.
ghost use Rattle.std.specs.Prelude.{◌≡◌, ℕ, ◌+◌, ◌*◌, ◌<◌, ◌≤◌, true, length, take, drop, None, slice_index, slice_index_or};
ghost use Rattle.std.specs.Result.{result_err};
ghost use Rattle.plan.specs.Numbers.{bad_size, most, refused, routes_from, Stands, too_large};
ghost use Rattle.plan.specs.Plan.{among, last_of, marks, met, needed, no_route, pick, repeated, route, sameb};
ghost use Rattle.plan.specs.View.{end_of, needs_left, no_need, plan_of, route_of, Taken};

use crate::needs::{Needs, need_of};
use crate::route::Route;
use crate::view::Plan;
use crate::{End, Need, Refusal, Size};

// The numbers of a route that is none: it begins at 0, and has no path and no needs. `Plan::route` answers any number, as the plan's definition does, so it is no `Option`.
static NO_ROUTE: [u16; 52] = [0; 52];

// Are these numbers a plan?
fn check(numbers: &[u16]) -> Result<(), Refusal>
    ensures { result_err result ≡ refused numbers.now }
{
    if let Err(size) = check_sizes(numbers) {
        return Err(Refusal::Sizes(size));
    }
    let first_route = 4 + 11 * usize::from(numbers[0]) + usize::from(numbers[1]);
    let routes = usize::from(numbers[3]);
    let whole = first_route + 52 * routes;
    if numbers.len() != whole {
        return Err(Refusal::Length(whole));
    }
    if all_fit(numbers) && counts_fit(numbers, first_route, routes) {
        return Ok(());
    }
    match too_large(numbers, first_route) {
        Some(k) => Err(Refusal::Number(k)),
        None => Ok(()),
    }
}

// Is none above 1,000? All are looked at, which is quicker than to stop at the first.
fn all_fit(numbers: &[u16]) -> bool
    ensures { result ≡ true → (k : ℕ) → k < length numbers.now → slice_index numbers.now k ≤ 1000 }
{
    let mut fit = true;
    for x in numbers {
        fit = fit & (*x <= 1000);
    }
    fit
}

// Is none of the routes' paths and needs longer than 16?
fn counts_fit(numbers: &[u16], first_route: usize, routes: usize) -> bool
    requires { first_route + 52 * routes ≤ length numbers.now }
    ensures { result ≡ true → (i : ℕ) → i < routes → (slice_index numbers.now (first_route + 52 * i + 2) ≤ 16) × (slice_index numbers.now (first_route + 52 * i + 3) ≤ 16) }
{
    let (routes, _) = numbers[first_route..first_route + 52 * routes].as_chunks::<52>();
    routes.iter().all(|route| route[2] <= 16 && route[3] <= 16)
}

// Are the sizes within their ranges? If not, the first that is not.
fn check_sizes(numbers: &[u16]) -> Result<(), Size>
    ensures { result_err result ≡ bad_size numbers.now }
{
    if numbers.len() < 4 || numbers[0] < 1 || numbers[0] > 64 {
        Err(Size::Sections)
    } else if numbers[1] > 32 {
        Err(Size::Points)
    } else if numbers[3] > 64 {
        Err(Size::Routes)
    } else if numbers[2] > 1000 {
        Err(Size::Time)
    } else {
        Ok(())
    }
}

// The largest number that may stand at a place.
pub fn most(first_route: usize, k: usize) -> u16
    ensures { result ≡ most first_route k }
{
    if k < first_route {
        return 1000;
    }
    match (k - first_route) % 52 {
        2 | 3 => 16,
        _ => 1000,
    }
}

// The first place with a number that is too large.
fn too_large(numbers: &[u16], first_route: usize) -> Option<usize>
    requires { first_route ≡ routes_from numbers.now }
    ensures { result ≡ too_large numbers.now 0 (length numbers.now) }
{
    for (k, x) in numbers.iter().enumerate() {
        if *x > most(first_route, k) {
            return Some(k);
        }
    }
    None
}

// Where the four numbers of a section's end stand. Not one function with that of the signal: it would take both places, and ask that they are small.
fn end_place(up: bool, x: u16) -> usize
    ensures { result ≡ pick up (4 + 11 * x) (8 + 11 * x) }
{
    if up {
        4 + 11 * usize::from(x)
    } else {
        8 + 11 * usize::from(x)
    }
}

// Where the mark of a section's signal stands.
fn signal_place(up: bool, x: u16) -> usize
    ensures { result ≡ pick up (12 + 11 * x) (13 + 11 * x) }
{
    if up {
        12 + 11 * usize::from(x)
    } else {
        13 + 11 * usize::from(x)
    }
}

// Why numbers are no plan, if they are none.
pub fn refusal(numbers: &[u16]) -> Option<Refusal>
    ensures { result ≡ refused numbers.now }
{
    check(numbers).err()
}

// The plan that numbers are, or why they are none.
impl<'a> TryFrom<&'a [u16]> for Plan<'a> {
    type Error = Refusal;

    ghost try_from_gives = { Taken };

    fn try_from(numbers: &'a [u16]) -> Result<Self, Refusal> {
        check(numbers)?;
        Ok(Plan::new(numbers))
    }
}

impl<'a> Plan<'a> {
    // The plan that numbers are, for a caller who knows that they are one.
    pub fn new(numbers: &'a [u16]) -> Self
        requires { refused numbers.now ≡ None }
        ensures { result.numbers.now ≡ numbers.now }
    {
        Plan { numbers }
    }

    // The number at a place, or 0 past the end.
    fn number(self, k: usize) -> u16
        ensures { result ≡ slice_index self.entry.numbers.now k }
    {
        self.numbers.get(k).copied().unwrap_or(0)
    }

    // Each of the four numbers at the front has a name and a contract of its own.
    pub fn sections(self) -> u16
        ensures { result ≡ (plan_of self.entry).sections }
    {
        self.number(0)
    }

    pub fn points(self) -> u16
        ensures { result ≡ (plan_of self.entry).points }
    {
        self.number(1)
    }

    pub fn time(self) -> u16
        ensures { result ≡ (plan_of self.entry).time }
    {
        self.number(2)
    }

    pub fn routes(self) -> u16
        ensures { result ≡ length (plan_of self.entry).routes }
    {
        self.number(3)
    }

    pub fn end(self, up: bool, x: u16) -> End
        ensures { end_of result ≡ (plan_of self.entry).end up x }
    {
        let k = end_place(up, x);
        End {
            moves: self.number(k) == 1,
            point: self.number(k + 1),
            on_left: self.number(k + 2),
            on_right: self.number(k + 3),
        }
    }

    pub fn signal(self, up: bool, x: u16) -> bool
        ensures { result ≡ (plan_of self.entry).signal up x }
    {
        self.number(signal_place(up, x)) == 1
    }

    pub fn edge(self, x: u16) -> bool
        ensures { result ≡ (plan_of self.entry).edge x }
    {
        self.number(14 + 11 * usize::from(x)) == 1
    }

    pub fn place(self, q: u16) -> u16
        ensures { result ≡ (plan_of self.entry).place q }
    {
        self.number(4 + 11 * usize::from(self.sections()) + usize::from(q))
    }

    // Where the first route stands.
    fn first_route(self) -> usize
        ensures { result ≡ routes_from self.entry.numbers.now }
    {
        4 + 11 * usize::from(self.number(0)) + usize::from(self.number(1))
    }

    // A route; one that the plan has not begins nowhere and goes nowhere.
    pub fn route(self, r: usize) -> Route<'a>
        ensures { route_of result ≡ route (plan_of self.entry) r }
    {
        if r < usize::from(self.routes()) {
            return self.route_at(r);
        }
        Route::none()
    }

    fn route_at(self, r: usize) -> Route<'a>
        requires { r < length (plan_of self).routes }
        ensures { route_of result ≡ route (plan_of self.entry) r }
    {
        Route::new(self.numbers, self.first_route() + 52 * r)
    }
}

impl<'a> Route<'a> {
    // The part of the numbers that is one route, from a place on.
    fn new(numbers: &'a [u16], k: usize) -> Self
        requires { Stands numbers.now k }
        ensures { result.numbers.now ≡ take 52 (drop k numbers.now) }
    {
        Route {
            numbers: &numbers[k..k + 52],
        }
    }

    // No route at all.
    fn none() -> Self
        ensures { route_of result ≡ no_route }
    {
        Route { numbers: &NO_ROUTE }
    }

    pub fn begin(self) -> u16
        ensures { result ≡ (route_of self.entry).begin }
    {
        self.numbers[0]
    }

    pub fn up(self) -> bool
        ensures { result ≡ (route_of self.entry).up }
    {
        self.numbers[1] == 1
    }

    pub fn path(self) -> &'a [u16]
        ensures { result.now ≡ (route_of self.entry).path }
    {
        &self.numbers[4..4 + usize::from(self.numbers[2])]
    }

    // What it needs, one point after the other.
    pub fn needs(self) -> Needs<'a>
        ensures { needs_left result ≡ (route_of self.entry).needs }
    {
        let n = usize::from(self.numbers[3]);
        let (pairs, _) = self.numbers[20..20 + 2 * n].as_chunks::<2>();
        Needs { pairs }
    }

    // One of its needs; past the last, point 0 on the right.
    pub fn need(self, i: usize) -> Need
        ensures { result ≡ slice_index_or (route_of self.entry).needs i no_need }
    {
        match self.needs().pairs.get(i) {
            Some(pair) => need_of(*pair),
            None => Need {
                point: 0,
                left: false,
            },
        }
    }

    // Does it need a point?
    pub fn needs_point(self, q: u16) -> bool
        ensures { result ≡ needed q (route_of self.entry).needs }
    {
        self.needs().any(|need| q == need.point)
    }

    // Do the points lie as it needs them?
    pub fn met(self, positions: &[bool]) -> bool
        ensures { result ≡ met (marks positions.now) (route_of self.entry).needs }
    {
        self.needs().all(|need| need.lies(positions))
    }

    // The first section of its path, or 0, as the definitions read past a list's end.
    pub fn first(self) -> u16
        ensures { result ≡ slice_index (route_of self.entry).path 0 }
    {
        self.path().first().copied().unwrap_or(0)
    }

    // The last section of its path, or 0.
    pub fn last(self) -> u16
        ensures { result ≡ last_of 0 (route_of self.entry).path }
    {
        self.path().last().copied().unwrap_or(0)
    }
}

impl Need {
    // Does its point lie so?
    pub fn lies(self, positions: &[bool]) -> bool
        ensures { result ≡ sameb (marks positions.now self.point) self.left }
    {
        mark_at(positions, usize::from(self.point)) == self.left
    }
}

// The mark at a place, and none past the end.
pub fn mark_at(bits: &[bool], i: usize) -> bool
    ensures { result ≡ marks bits.now i }
{
    bits.get(i).copied().unwrap_or(false)
}

// Is a section among these?
pub fn found(path: &[u16], x: u16) -> bool
    ensures { result ≡ among x path.now }
{
    path.contains(&x)
}

// The first section that stands again behind itself.
pub fn repeated(path: &[u16]) -> Option<u16>
    ensures { result ≡ repeated path.now }
{
    // No chain over a path hands a closure what stands behind each section.
    let mut rest = path;
    while let Some((x, behind)) = rest.split_first() {
        if found(behind, *x) {
            return Some(*x);
        }
        rest = behind;
    }
    None
}
