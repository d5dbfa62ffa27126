// A call's answer as one number: the refusal's number (0: none), 256 times its byte, and 65,536 times the number that comes
// with "none".
ghost use Rattle.std.specs.Prelude.{◌≡◌, ◌*◌};
ghost use Rattle.cabi.specs.Answers.{refused_as, answer_as, outcome_as, removed_as, counted_as, minute_as, first_open_as, needed_as};

use agent::process::Outcome;
use codec::refusals::Refusal;
use sessions::need::Need;

pub(crate) fn refused_as(x: Refusal) -> u64
    ensures { result ≡ refused_as x }
{
    u64::from(x.number()) + 256 * u64::from(x.byte())
}

fn answer_as(x: Result<u32, Refusal>) -> u64
    ensures { result ≡ answer_as x }
{
    match x {
        Ok(n) => 65536 * u64::from(n),
        Err(r) => refused_as(r),
    }
}

pub(crate) fn outcome_as(o: Result<Outcome, Refusal>) -> u64
    ensures { result ≡ outcome_as o }
{
    answer_as(o.map(|_| 0))
}

pub(crate) fn removed_as(x: Result<bool, Refusal>) -> u64
    ensures { result ≡ removed_as x }
{
    answer_as(x.map(u32::from))
}

// How many a sweep or a listing has.
pub(crate) fn counted_as(x: Result<usize, Refusal>) -> u64
    ensures { result ≡ counted_as x }
{
    answer_as(x.map(|n| (n % 65536) as u32))
}

fn minute_as(day: u8, minute: u16) -> u32
    ensures { 65536 * result ≡ minute_as day minute }
{
    1 + 1440 * u32::from(day) + u32::from(minute)
}

pub(crate) fn first_open_as(x: Result<Option<(u8, u16)>, Refusal>) -> u64
    ensures { result ≡ first_open_as x }
{
    answer_as(x.map(|first| first.map_or(0, |(day, minute)| minute_as(day, minute))))
}

pub(crate) fn needed_as(x: Result<Need, Refusal>) -> u64
    ensures { result ≡ needed_as x }
{
    answer_as(x.map(|n| (n.bytes % 4294967296) as u32))
}
