// The interface of a site model: a Markov decision process with labels, its chances counted in eighths.

#![tactic(auto)]

ghost use Rattle.bounded.specs.Listed.{listed};
ghost use Rattle.std.specs.Prelude.{◌≡◌, ℕ, ◌≤◌, IfSome, IsTrue, nat_lt};
ghost use Rattle.model.specs.Models.{Model, Lawful, Ground, NumberedBy, target_at};

use bounded::Bounded;

mod still;

pub use still::Idle;

/// One outcome of an action: the state that it leads to and its chance in eighths.
#[derive(Clone, Copy, Debug, Default, PartialEq, Eq)]
pub struct Outcome {
    pub target: u64,
    pub weight: u8,
}

/// At most eight outcomes in order, held by value.
pub type Outcomes = Bounded<Outcome, 8>;

/// How many labels and actions a model has, its reward bound and its span.
#[derive(Clone, Copy, Debug, PartialEq, Eq)]
pub struct Sizes {
    pub labels: u32,
    pub actions: u32,
    pub bound: u32,
    pub span: u64,
}

/// Every question about every number has an answer.
pub trait SiteModel {
    ghost meaning: { Self → Model };

    /// The state that every crossing starts in.
    fn start(&self) -> u64
        ensures start { result ≡ (meaning self.now).start };

    /// Whether a number is a state.
    fn is_state(&self, s: u64) -> bool
        ensures state { result ≡ (meaning self.now).state s };

    /// The labels that hold in a state, label 0 in the lowest bit; 0 where `s` is no state.
    fn mask(&self, s: u64) -> u32
        ensures mask { result ≡ (meaning self.now).mask s };

    /// What a state earns in a slot, before discounts; 0 where `s` is no state.
    fn reward(&self, s: u64) -> i32
        ensures reward { result ≡ (meaning self.now).reward s };

    /// The state of the ground model that a state stands over; 0 where `s` is no state.
    fn ground(&self, s: u64) -> u64
        ensures site { result ≡ (meaning self.now).site s };

    /// Whether an action can be chosen in a state.
    fn offers(&self, s: u64, a: u32) -> bool
        ensures offered { result ≡ (meaning self.now).offered s a };

    /// Where an action leads, with chances in eighths, in the order of the model; none where it is not offered.
    fn outcomes(&self, s: u64, a: u32) -> Outcomes
        ensures outcomes { listed result ≡ (meaning self.now).outcomes s a };

    /// How many labels and actions there are, how large a reward may be, and what the numbers of states are below.
    fn sizes(&self) -> Sizes
        ensures labels { result.labels ≡ (meaning self.now).labels }
        ensures actions { result.actions ≡ (meaning self.now).actions }
        ensures bound { result.bound ≡ (meaning self.now).bound }
        ensures span { result.span ≡ (meaning self.now).span };

    fn labels(&self) -> u32
        ensures labels { result ≡ (meaning self.now).labels }
    {
        self.sizes().labels
    }

    fn actions(&self) -> u32
        ensures actions { result ≡ (meaning self.now).actions }
    {
        self.sizes().actions
    }

    fn bound(&self) -> u32
        ensures bound { result ≡ (meaning self.now).bound }
    {
        self.sizes().bound
    }

    fn span(&self) -> u64
        ensures span { result ≡ (meaning self.now).span }
    {
        self.sizes().span
    }

    ghost lawful: { (m : Self) → Lawful (meaning m) };
}

/// A model whose states are their own ground, 4,096 numbers at most.
pub trait GroundModel: SiteModel {
    ghost based: { (m : Self) → Ground (Self.SiteModel.meaning m) };
}

/// A model whose states are exactly the numbers below its span, 4,096 at most.
pub trait Numbered: SiteModel {
    /// How many states there are.
    fn count(&self) -> usize
        ensures count { result ≡ (Self.SiteModel.meaning self.now).span }
        ensures small { result ≤ 4096 }
        ensures states { (s : ℕ) → (Self.SiteModel.meaning self.now).state s ≡ nat_lt s result };

    ghost numbered: { (m : Self) → NumberedBy (Self.SiteModel.meaning m) };
}

/// The target of outcome `j` of an action in a state, or none where there is no such outcome.
pub fn reachable_at<M: SiteModel>(m: &M, s: u64, a: u32, j: usize) -> Option<u64>
    ensures target { result ≡ target_at (M.SiteModel.meaning m.now) s a j }
    ensures state { IfSome result
        (λ t. IsTrue ((M.SiteModel.meaning m.now).state t)) }
{
    Some(m.outcomes(s, a).get(j)?.target)
}
