// The answer to an exchange: both inputs walked, and what the walks tell held against demand 3.
use crate::exchanged::{Places, exchange_into, exchange_on};
use crate::plan::Plan;
use crate::scan::{Question, question_on};
use crate::side::{Side, Stores};
use terms::Refused;
use text::page::Page;
use text::scan::MOST_SKIPS;
use walk::Walked;

// What is wrong with an exchange: which of the two inputs is refused; or the first event that is not as demanded, or what else differs.
#[derive(Clone, Copy)]
enum Fault {
    Was(Refused),
    Is(Refused),
    Apart,
    Event(u64),
    Operands,
    Header,
}

// Holds the walk of the exchanged input against that of the input; tells what the exchange did.
fn compared(p: Places, was: Side<'_>, is: Side<'_>) -> Result<Plan, Fault> {
    let plan = Plan::of(p, was).ok_or(Fault::Apart)?;
    let fewer = was.told.events.min(is.told.events);
    let differing = (0..fewer).find(|x| !plan.demand(*x).is_met(was, is.event(*x)));
    if let Some(x) = differing {
        return Err(Fault::Event(x));
    }
    if was.told.events != is.told.events {
        return Err(Fault::Event(fewer));
    }
    if was.told.operands != is.told.operands {
        return Err(Fault::Operands);
    }
    if was.told.header != is.told.header {
        return Err(Fault::Header);
    }
    Ok(plan)
}

// Walks an input and the exchanged input, each as the question says, and compares them. The stores for the exchanged input hold before what no walk is to
// leave behind, those for the input what earlier walks left.
fn judged(
    p: Places,
    q: Question<'_>,
    other: &[u8],
    stores: &mut Stores,
    others: &mut Stores,
) -> Result<Plan, Fault> {
    let was = Side::of(q.input, q, stores).map_err(Fault::Was)?;
    others.stain(q);
    let is = Side::of(other, q, others).map_err(Fault::Is)?;
    compared(p, was, is)
}

// What the exchange at these places does, if the input has such places.
fn placed(
    p: Places,
    q: Question<'_>,
    stores: &mut Stores,
    others: &mut Stores,
) -> Option<Result<Plan, Fault>> {
    let mut room = io::buffer();
    let other = exchange_into(q.input, p, &mut room)?;
    Some(judged(p, q, other, stores, others))
}

// What the exchange at these places does whose question stands on a line; None where there is no question on it, or its input has no such places.
fn placed_on(
    p: Places,
    line: &[u8],
    stores: &mut Stores,
    others: &mut Stores,
) -> Option<Result<Plan, Fault>> {
    let mut list = [0u64; MOST_SKIPS];
    let mut bytes = io::buffer();
    let question = question_on(line, &mut list, &mut bytes)?;
    placed(p, question, stores, others)
}

// What the exchange that some words ask for does, and None where they ask for none or the input has no such places.
fn asked(words: &[u8], stores: &mut Stores, others: &mut Stores) -> Option<Result<Plan, Fault>> {
    let (places, line) = exchange_on(words)?;
    placed_on(places, line, stores, others)
}

// The line of a refusal.
fn put_refused(page: &mut Page<'_>, name: &[u8], refused: Refused) {
    page.bytes(name);
    page.status(Walked::from(Err(refused)));
}

// The line that tells how many events stand before the two groups, in each of them and behind them.
fn put_counts(page: &mut Page<'_>, plan: Plan) {
    page.named(b"exchanged before=", plan.before);
    page.named(b" first=", plan.first.events);
    page.named(b" second=", plan.second.events);
    page.named(b" behind=", plan.behind);
    page.byte(b'\n');
}

// The line that tells what is wrong.
fn put_fault(page: &mut Page<'_>, fault: Fault) {
    match fault {
        Fault::Was(refused) => put_refused(page, b"was ", refused),
        Fault::Is(refused) => put_refused(page, b"is ", refused),
        Fault::Apart => page.bytes(b"apart\n"),
        Fault::Event(n) => {
            page.named(b"differs event=", n);
            page.byte(b'\n');
        }
        Fault::Operands => page.bytes(b"differs operands\n"),
        Fault::Header => page.bytes(b"differs header\n"),
    }
}

// The answer to the words behind `exchange `, and `?` where they ask for no exchange or the input has no such places; the stores are lent for the walk of
// the input, the others for that of the exchanged input.
pub fn put_exchange(page: &mut Page<'_>, words: &[u8], stores: &mut Stores, others: &mut Stores) {
    match asked(words, stores, others) {
        None => page.bytes(b"?\n"),
        Some(Ok(plan)) => put_counts(page, plan),
        Some(Err(fault)) => put_fault(page, fault),
    }
}
