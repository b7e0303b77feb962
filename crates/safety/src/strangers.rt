// Whether two routes share nothing, so that they can be asked for in either order.
ghost use Rattle.std.specs.Prelude.{◌≡◌, true, false, ◌||◌, length};
ghost use Rattle.plan.specs.Plan.{among};
ghost use Rattle.plan.specs.View.{plan_of, route_of};
ghost use Rattle.safety.specs.Promise.{Strangers};
ghost use Rattle.safety.specs.Sides.{all_unrelated, clear_of, unrelated};

use conditions::is_apart;
use plan::read::found;
use plan::route::Route;
use plan::view::Plan;

// Do two routes share no section and no point?
pub fn strangers(plan: Plan<'_>, a: usize, b: usize) -> bool
    ensures yes { result ≡ true → Strangers (plan_of plan.entry) a b }
    ensures no { result ≡ false → Strangers (plan_of plan.entry) a b → ⊥ }
{
    let one = plan.route(a);
    let other = plan.route(b);
    let xs = one.path();
    let ys = other.path();
    let sections = paths_apart(xs, ys);
    let points = points_apart(plan, one, other);
    let points_too = points_apart(plan, other, one);
    sections & points & points_too
}

// Do two paths share no section? They are gone through side by side; the end of the shorter is far enough, since each section is looked for in the whole other path.
fn paths_apart(xs: &[u16], ys: &[u16]) -> bool
    ensures { result ≡ clear_of xs.now ys.now }
{
    for (x, y) in xs.iter().zip(ys) {
        if crosses(*x, ys, *y, xs) {
            return false;
        }
    }
    true
}

// Is either section in the path beside it?
fn crosses(x: u16, ys: &[u16], y: u16, xs: &[u16]) -> bool
    ensures { result ≡ (among x ys.now || among y xs.now) }
{
    found(ys, x) | found(xs, y)
}

// Is none of the points that a route needs of any concern to the other?
fn points_apart(plan: Plan<'_>, route: Route<'_>, other: Route<'_>) -> bool
    ensures { result ≡ all_unrelated (plan_of plan.entry) (route_of other.entry) (route_of route.entry).needs }
{
    route.needs().all(|need| unrelated(plan, other, need.point))
}

// Is a point neither needed by a route nor in its path?
fn unrelated(plan: Plan<'_>, route: Route<'_>, q: u16) -> bool
    ensures { result ≡ unrelated (plan_of plan.entry) (route_of route.entry) q }
{
    let needed = route.needs_point(q);
    let inside = found(route.path(), plan.place(q));
    is_apart(needed, inside)
}
