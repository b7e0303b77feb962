// Why numbers are no plan.
ghost use Rattle.std.specs.Prelude.{◌≡◌, Some, None, MatchOption, slice_index};
ghost use Rattle.explain.specs.Reasons.{TurnedAway, WrongNumbers, refusal_of, size_of};
ghost use Rattle.plan.specs.Numbers.{OutOfRange, Says, refused, routes_from};
ghost use Rattle.plan.specs.declared.Refusal.TheVariants.{Sizes};

use crate::NumbersFault;
use plan::read::most;
use plan::view::Plan;
use plan::{Refusal, Size};

// The number at a place, or 0 past the end.
fn at(numbers: &[u16], k: usize) -> u16
    ensures { result ≡ slice_index numbers.now k }
{
    numbers.get(k).copied().unwrap_or(0)
}

// Where the first route would stand; a `Plan` knows, but these numbers may be none.
fn first_route(numbers: &[u16]) -> usize
    ensures { result ≡ routes_from numbers.now }
{
    4 + 11 * usize::from(at(numbers, 0)) + usize::from(at(numbers, 1))
}

// How large a size is; the time stands before the number of routes.
fn value(numbers: &[u16], size: Size) -> u16
    ensures { result ≡ size_of numbers.now size }
{
    match size {
        Size::Sections => at(numbers, 0),
        Size::Points => at(numbers, 1),
        Size::Routes => at(numbers, 3),
        Size::Time => at(numbers, 2),
    }
}

fn sizes(numbers: &[u16], size: Size) -> NumbersFault
    requires { OutOfRange numbers.now size }
    ensures { TurnedAway numbers.now (Sizes size) result }
{
    let n = numbers.len();
    if n < 4 {
        NumbersFault::TooFew(n)
    } else {
        NumbersFault::OutOfRange(size, value(numbers, size))
    }
}

pub(crate) fn fault(numbers: &[u16], refusal: Refusal) -> NumbersFault
    requires { Says numbers.now (Some refusal) }
    ensures { TurnedAway numbers.now refusal result }
{
    match refusal {
        Refusal::Sizes(size) => sizes(numbers, size),
        Refusal::Length(n) => NumbersFault::Length(numbers.len(), n),
        Refusal::Number(k) => {
            let limit = most(first_route(numbers), k);
            NumbersFault::Large(k, at(numbers, k), limit)
        }
    }
}

// Why numbers are turned away, if they are.
pub fn refused(numbers: &[u16]) -> Option<NumbersFault>
    ensures { MatchOption result (refused numbers.now ≡ None) (λ f. (refused numbers.now ≡ Some (refusal_of f)) × WrongNumbers numbers.now f) }
{
    match Plan::try_from(numbers) {
        Ok(_) => None,
        Err(refusal) => Some(fault(numbers, refusal)),
    }
}
