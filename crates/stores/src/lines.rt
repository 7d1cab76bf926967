// What a line of a script says.
ghost use Rattle.std.specs.Prelude.{◌≡◌, Some, codes};
ghost use Rattle.stores.specs.Lines.{space, from_word, first_word, after_word, with_digit, number_of, figures_of, verb_of, put_said, order_of, line_of};

use notice::{Event, EventNumbers, JobKind, JobReason, JobState, Kind, Notice};
use script::Step;
use std::error::Error;
use std::fmt;
use store::Sizes;

// The largest number that a line may have.
const LARGEST: usize = 2_147_483_647;

// What a line asks for: stores of these sizes, or a step of those that there are.
#[derive(Clone, Copy, Debug, PartialEq, Eq)]
pub enum Order {
    Make(Sizes),
    Take(Step),
}

// The error of a line that asks for neither.
#[derive(Clone, Copy, Debug, PartialEq, Eq)]
pub struct NoStep;

impl fmt::Display for NoStep {
    ghost output = { λ _. Some (codes "not a step") };

    fn fmt<W: fmt::Write>(&self, f: &mut fmt::Formatter<W>) -> fmt::Result {
        write!(f, "not a step")
    }
}

impl Error for NoStep {}

// The one to three numbers behind the first word of a line; a slice of them would need a buffer with a
// count beside it.
#[derive(Clone, Copy, Debug, PartialEq, Eq)]
enum Figures {
    One(usize),
    Two(usize, usize),
    Three(usize, usize, usize),
}

#[derive(Clone, Copy, Debug, PartialEq, Eq)]
enum Verb {
    Sizes,
    Put,
    Drop,
    Clear,
    Len,
    At,
}

fn is_space(c: u8) -> bool
    ensures { result ≡ space c }
{
    matches!(c, b' ' | b'\t')
}

// A text from its first word on.
fn skip_spaces(text: &[u8]) -> &[u8]
    ensures { result.now ≡ from_word text.now }
{
    let spaces = text.iter().take_while(|c| is_space(**c)).count();
    &text[spaces..]
}

// The first word of a text, empty where there is none, and what stands behind it.
fn next_word(text: &[u8]) -> (&[u8], &[u8])
    ensures word { result.0.now ≡ first_word text.now }
    ensures rest { result.1.now ≡ after_word text.now }
{
    let text = skip_spaces(text);
    let length = text.iter().take_while(|c| !is_space(**c)).count();
    text.split_at(length)
}

// The number with one digit more; none where that is no digit, or where the number grows too large.
fn add_digit(n: usize, c: u8) -> Option<usize>
    ensures { result ≡ with_digit n c }
{
    let digit = char::from(c).to_digit(10)?;
    let n = n.checked_mul(10)?.checked_add(digit as usize)?;
    (n <= LARGEST).then_some(n)
}

fn read_number(word: &[u8]) -> Option<usize>
    ensures { result ≡ number_of word.now }
{
    if word.is_empty() {
        return None;
    }
    // no `try_fold`: the search for a proof of it stops at its bound
    let mut n = 0;
    for c in word {
        n = add_digit(n, *c)?;
    }
    Some(n)
}

fn read_figures(text: &[u8]) -> Option<Figures>
    ensures { result ≡ figures_of text.now }
{
    let (first, text) = next_word(text);
    let (second, text) = next_word(text);
    let (third, text) = next_word(text);
    let (more, _) = next_word(text);
    match (read_number(first)?, read_number(second), read_number(third)) {
        (a, None, None) if second.is_empty() => Some(Figures::One(a)),
        (a, Some(b), None) if third.is_empty() => Some(Figures::Two(a, b)),
        (a, Some(b), Some(c)) if more.is_empty() => Some(Figures::Three(a, b, c)),
        _ => None,
    }
}

fn read_verb(word: &[u8]) -> Option<Verb>
    ensures { result ≡ verb_of word.now }
{
    match word {
        b"sizes" => Some(Verb::Sizes),
        b"put" => Some(Verb::Put),
        b"drop" => Some(Verb::Drop),
        b"clear" => Some(Verb::Clear),
        b"len" => Some(Verb::Len),
        b"at" => Some(Verb::At),
        _ => None,
    }
}

// A put of a notice that a job is completed; there is no job 0. `number` and `second` are two fields of
// the notice, and a structure of the two would be no plainer.
fn put(slot: usize, job: usize, number: u32, second: u32) -> Option<Step>
    ensures { result ≡ put_said slot job number second }
{
    let subscribed = Kind::Job(JobKind::Completed);
    let event = Event::try_from(EventNumbers {
        kind: subscribed.into(),
        job: u32::try_from(job).ok()?,
        state: JobState::Completed.into(),
        reason: JobReason::CompletedSuccessfully.into(),
        count: 0,
        accepting: 0,
    })
    .ok()?;
    let notice = Notice {
        number,
        second,
        subscribed,
        event,
    };
    Some(Step::Put { slot, notice })
}

fn read_order(word: &[u8], rest: &[u8], number: u32, second: u32) -> Option<Order>
    ensures { result ≡ order_of (verb_of word.now) (figures_of rest.now) number second }
{
    match (read_verb(word)?, read_figures(rest)?) {
        (Verb::Sizes, Figures::Three(slots, reserve, spare)) => Some(Order::Make(Sizes {
            slots,
            reserve,
            spare,
        })),
        (Verb::Put, Figures::Two(slot, job)) => put(slot, job, number, second).map(Order::Take),
        (Verb::Drop, Figures::One(slot)) => Some(Order::Take(Step::DropOldest { slot })),
        (Verb::Clear, Figures::One(slot)) => Some(Order::Take(Step::Clear { slot })),
        (Verb::Len, Figures::One(slot)) => Some(Order::Take(Step::Len { slot })),
        (Verb::At, Figures::Two(slot, place)) => Some(Order::Take(Step::At { slot, place })),
        _ => None,
    }
}

// What a line asks for, if the next put is to have this number and this second; a blank line and a
// comment ask for nothing.
pub fn read_line(line: &[u8], number: u32, second: u32) -> Result<Option<Order>, NoStep>
    ensures { result ≡ line_of line.now number second }
{
    let (word, rest) = next_word(line);
    match word {
        [] | [b'#', ..] => Ok(None),
        _ => read_order(word, rest, number, second)
            .map(Some)
            .ok_or(NoStep),
    }
}
