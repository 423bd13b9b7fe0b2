// Planning all slots of the longest horizon.
use crate::book::STATES;
use crate::clock::best;
use planning::plan;
use sitebook::SiteBook;
use std::time::Duration;
use weighing::Weighing;

const SLOTS: usize = 12;

// The best time of a plan into the same two tables, which hold exactly its places.
pub fn planning<W: Weighing>(
    rt: &HostRuntime,
    book: &SiteBook,
    weighing: &W,
) -> anyhow::Result<Duration> {
    let heap = rt.alloc();
    let mut worths = vec![in heap; 0i64; (SLOTS + 1) * STATES as usize]?;
    let mut choices = vec![in heap; 0u8; SLOTS * STATES as usize]?;
    best(rt, || {
        plan(
            book,
            weighing,
            SLOTS,
            worths.as_mut_slice(),
            choices.as_mut_slice(),
        )?;
        Ok(())
    })
}
