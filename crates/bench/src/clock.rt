// The best time of several rounds.
use std::fmt;
use std::rt::Clock;
use std::time::{Duration, Instant};

pub const ROUNDS: u32 = 30;

// The best of all: other work on the machine only adds to it.
pub fn best<F: FnMut() -> anyhow::Result<()>>(
    rt: &impl Clock,
    mut round: F,
) -> anyhow::Result<Duration>
    requires { F.IsAlwaysCallable round }
{
    let mut best = Duration::MAX;
    for _ in 0..ROUNDS {
        let start = Instant::now(rt)?;
        round()?;
        best = best.min(start.elapsed(rt)?);
    }
    Ok(best)
}

// A time in milliseconds, with two decimals.
#[derive(Clone, Copy, Debug)]
pub struct Millis(pub Duration);

impl fmt::Display for Millis {
    fn fmt<W: fmt::Write>(&self, f: &mut fmt::Formatter<W>) -> fmt::Result {
        let hundredths = self.0.as_nanos() / 10_000;
        write!(f, "{}.{:02}", hundredths / 100, hundredths % 100)
    }
}
