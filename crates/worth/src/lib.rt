// What plans and policies are worth.

#![tactic(auto)]

ghost use Rattle.std.specs.Prelude.{◌≡◌, ◌^◌, pos};
ghost use Rattle.worth.specs.Unheld.{NothingHeldBack};
ghost use Rattle.worth.specs.Worths.{better};

use weighing::MOST;

/// An action and the joined value of its outcomes.
#[derive(Clone, Copy, Debug, PartialEq, Eq)]
pub struct Pick {
    pub action: u32,
    pub value: i64,
}

/// One action more: it is taken only where its value is larger.
pub fn better(best: Option<Pick>, next: Pick) -> Option<Pick>
    ensures { result ≡ better best next.action next.value }
{
    match best {
        Some(pick) if pick.value >= next.value => best,
        _ => Some(next),
    }
}

/// The largest size that a worth can have: under mean and under worst no worth is ever held back.
pub fn largest_worth() -> i64
    ensures value { result ≡ pos (2 ^ 59) }
    ensures free { NothingHeldBack }
{
    MOST
}
