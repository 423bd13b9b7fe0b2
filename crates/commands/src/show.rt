// Books and formulas as people read them.
use formula::Node;
use model::{Numbered, Outcome, SiteModel};
use promise::{Advice, Plan};
use refusal::Refusal;
use slotplan::figure_of;
use std::fmt;
use truth::shows;
use walk::Sight;
use wishbook::WishBook;

// The labels of a mask, as `p0 p3`, or `-` where there are none. Joined by hand, as `Leads` is: the library joins on a heap.
#[derive(Clone, Copy)]
struct Labels(u32);

impl fmt::Display for Labels {
    fn fmt<W: fmt::Write>(&self, f: &mut fmt::Formatter<W>) -> fmt::Result {
        let mut between = "";
        for p in 0..32u32 {
            if shows(self.0, p) {
                write!(f, "{between}p{p}")?;
                between = " ";
            }
        }
        if between.is_empty() {
            f.write_str("-")?;
        }
        Ok(())
    }
}

// The formula of node `top`.
#[derive(Clone, Copy)]
struct Formula<'a> {
    nodes: &'a [Node],
    top: u8,
}

impl fmt::Display for Formula<'_> {
    fn fmt<W: fmt::Write>(&self, f: &mut fmt::Formatter<W>) -> fmt::Result {
        write_formula(f, self.nodes, self.top)
    }
}

// The formula of node `i`; operands come before their node, and so it ends: `Formula` prints by it, since it calls itself.
fn write_formula<W: fmt::Write>(f: &mut fmt::Formatter<W>, nodes: &[Node], i: u8) -> fmt::Result {
    let at = i as usize;
    let Some(node) = nodes.get(at) else {
        return f.write_str("?");
    };
    let below = &nodes[..at];
    let (a, word, b) = match *node {
        Node::Label(p) => return write!(f, "p{p}"),
        Node::True => return f.write_str("true"),
        Node::Not(a) => (None, "not ", a),
        Node::Previous(a) => (None, "previous ", a),
        Node::Always(a) => (None, "always ", a),
        Node::Once(a) => (None, "once ", a),
        Node::And(a, b) => (Some(a), " and ", b),
        Node::Or(a, b) => (Some(a), " or ", b),
        Node::Since(a, b) => (Some(a), " since ", b),
    };
    let Some(a) = a else {
        f.write_str(word)?;
        return write_formula(f, below, b);
    };
    f.write_str("(")?;
    write_formula(f, below, a)?;
    f.write_str(word)?;
    write_formula(f, below, b)?;
    f.write_str(")")
}

// Each wish of a book: its amount and its formula. Nodes are shared, so a formula can be far longer than its book: its text is made
// before anything of its line is printed, and one that is too large for the memory is an error.
pub fn wishes<R: Print + AllocGlobal>(rt: &R, book: &WishBook) -> anyhow::Result<()> {
    let heap = rt.alloc();
    for wish in book.wishes() {
        let amount = wish.amount();
        let formula = Formula {
            nodes: book.nodes(),
            top: wish.node,
        };
        let text = format!(in heap; "{formula}")?;
        println!(rt; "  {amount} for each slot in which it holds: {text}")?;
    }
    Ok(())
}

// Each state of a model, with its labels and reward, and what each offered action leads to.
pub fn states<M: Numbered>(rt: &impl Print, model: &M) -> anyhow::Result<()> {
    for s in 0..model.count() as u64 {
        let labels = Labels(model.mask(s));
        let reward = model.reward(s);
        println!(rt; "  state {s}: labels {labels}, reward {reward}")?;
        for a in 0..model.actions() {
            if model.offers(s, a) {
                let outcomes = model.outcomes(s, a);
                let leads = Leads(outcomes.as_slice());
                println!(rt; "    action {a} leads to {leads}")?;
            }
        }
    }
    Ok(())
}

// How large a plan is, what its start is worth, and what to do slot by slot: a line for each listed state, a column for each slot.
pub fn plan(rt: &impl Print, plan: &Plan) -> anyhow::Result<()> {
    let horizon = plan.horizon();
    let states = plan.written().states;
    let worth = plan.worth();
    let figure = figure_of(plan);
    let kind = if plan.unit() == 1 {
        "least"
    } else {
        "expected"
    };
    println!(rt; "a plan of {horizon} slots on a book of {states} states")?;
    println!(rt; "the start is worth {worth}: the {kind} sum of discounted rewards is {figure}")?;
    println!(rt; "what to do in each state, slot by slot:")?;
    println!(rt; "{}", Head(horizon))?;
    for state in 0..plan.book().count() as u64 {
        println!(rt; "{}", Row { plan, state })?;
    }
    Ok(())
}

// The head of the choices.
#[derive(Clone, Copy)]
struct Head(usize);

impl fmt::Display for Head {
    fn fmt<W: fmt::Write>(&self, f: &mut fmt::Formatter<W>) -> fmt::Result {
        f.write_str("state  site state")?;
        for slot in 0..self.0 {
            write!(f, "  slot {slot:<2}")?;
        }
        f.write_str("  labels")
    }
}

// What to do in a listed state.
#[derive(Clone, Copy)]
struct Row<'a> {
    plan: &'a Plan,
    state: u64,
}

impl fmt::Display for Row<'_> {
    fn fmt<W: fmt::Write>(&self, f: &mut fmt::Formatter<W>) -> fmt::Result {
        let Row { plan, state } = self;
        let book = plan.book();
        let site = book.ground(*state);
        let labels = Labels(book.mask(*state));
        write!(f, "{state:>5}  {site:>10}")?;
        for slot in 0..plan.horizon() {
            let action = plan.choice(slot, *state).unwrap_or(0);
            write!(f, "  {action:<7}")?;
        }
        write!(f, "  {labels}")
    }
}

// What a walk has.
#[derive(Clone, Copy)]
pub struct Seen(pub Sight);

impl fmt::Display for Seen {
    fn fmt<W: fmt::Write>(&self, f: &mut fmt::Formatter<W>) -> fmt::Result {
        let Sight {
            site,
            slot,
            reward,
            total,
        } = self.0;
        write!(
            f,
            "Slot {slot}, site state {site}, reward {reward}, total {total}."
        )
    }
}

// What a plan advises where a walk stands.
#[derive(Clone, Copy)]
pub struct Advised(pub Advice);

impl fmt::Display for Advised {
    fn fmt<W: fmt::Write>(&self, f: &mut fmt::Formatter<W>) -> fmt::Result {
        match self.0 {
            Advice::Tell => f.write_str("Its outcome is to be told."),
            Advice::Choose(action) => write!(f, "The plan advises action {action}."),
            Advice::Ended => f.write_str("The plan ends here."),
        }
    }
}

// What a walk has at its end, where it is closed.
#[derive(Clone, Copy)]
pub struct Closed(pub Option<Sight>);

impl fmt::Display for Closed {
    fn fmt<W: fmt::Write>(&self, f: &mut fmt::Formatter<W>) -> fmt::Result {
        match self.0 {
            Some(Sight { slot, total, .. }) => write!(
                f,
                "The walk is closed in slot {slot}, with a total of {total}."
            ),
            None => f.write_str(
                "The walk is not closed: an outcome of the open choice was not told.",
            ),
        }
    }
}

// What a number did to a walk.
#[derive(Clone, Copy)]
pub struct Did {
    pub number: u32,
    pub told: bool,
    pub refusal: Option<Refusal>,
}

impl fmt::Display for Did {
    fn fmt<W: fmt::Write>(&self, f: &mut fmt::Formatter<W>) -> fmt::Result {
        let number = self.number;
        match self.refusal {
            Some(refusal) => {
                let why = refusal.number();
                write!(f, "{number} is refused: {why}: {refusal}.")
            }
            None if self.told => write!(f, "Outcome {number} is told."),
            None => write!(f, "Action {number} is chosen."),
        }
    }
}

// Outcomes, as `4/8 to state 0, 4/8 to state 1`.
#[derive(Clone, Copy)]
struct Leads<'a>(&'a [Outcome]);

impl fmt::Display for Leads<'_> {
    fn fmt<W: fmt::Write>(&self, f: &mut fmt::Formatter<W>) -> fmt::Result {
        let mut between = "";
        for Outcome { target, weight } in self.0 {
            write!(f, "{between}{weight}/8 to state {target}")?;
            between = ", ";
        }
        Ok(())
    }
}
