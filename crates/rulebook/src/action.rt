// What a rule book says of one action.

use bounded::Bounded;
use rulelayout::Effect;

/// Offered where the switches of `on` are on and those of `off` are off.
#[derive(Clone, Copy, Default)]
pub struct Action {
    pub on: u16,
    pub off: u16,
    pub effects: Bounded<Effect, 8>,
}
