// A station: its plan and its world.
use crate::world::World;
use plan::view::Plan;

#[derive(Drop)]
pub struct Station<'a> {
    pub(crate) plan: Plan<'a>,
    pub(crate) world: World,
}
