// The week's minutes, a byte each, as they are kept between calls, and the first open one.
ghost use Rattle.std.specs.Prelude.{◌≡◌, ◌/◌, ◌%◌, ◌≤◌, ◌<◌};
ghost use Rattle.hours.specs.Windows.{week_minutes, windows_of, is_open};
ghost use Rattle.hours.specs.Week.{is_minute, open_byte, kept_hours, open_in, minute_after, first_open, first_open_of};

use crate::windows::{DAY_MINUTES, WEEK_MINUTES, WindowRow, window_open};
use codec::refusals::Refusal;

// 20: "weekday over 6 or minute over 1,439"
pub fn is_minute(day: u8, minute: u16) -> bool
    ensures { result ≡ is_minute day minute }
{
    day <= 6 && minute <= 1439
}

// 1 where some window holds the minute that stands at a place of the week.
fn open_byte(windows: &[WindowRow], at: usize) -> u8
    requires { at < week_minutes }
    ensures { result ≡ open_byte (is_open (windows_of windows.now) (at / 1440) (at % 1440)) }
{
    let day = (at / DAY_MINUTES) as u16;
    let minute = (at % DAY_MINUTES) as u16;
    u8::from(window_open(windows, day, minute))
}

// What is kept of the windows that set-up takes.
pub fn keep_windows(hours: &mut [u8], windows: &[WindowRow])
    ensures { hours.new ≡ kept_hours (windows_of windows.now) hours.old }
{
    if hours.len() < WEEK_MINUTES {
        return;
    }
    for (at, byte) in hours[..WEEK_MINUTES].iter_mut().enumerate() {
        *byte = open_byte(windows, at);
    }
}

// One byte is looked at, however many windows the day has.
#[tactic(auto, unfolding(crate::specs::Week::open_in))]
pub fn is_open(hours: &[u8], day: u8, minute: u16) -> bool
    ensures { result ≡ open_in hours.now day minute }
{
    let at = DAY_MINUTES * usize::from(day) + usize::from(minute);
    is_minute(day, minute) && hours.get(at).is_some_and(|byte| *byte != 0)
}

// After the last minute of a day comes the first of the next, and after weekday 6 comes 0.
fn minute_after(t: (u8, u16)) -> (u8, u16)
    requires { (t.0 ≤ 6) × (t.1 ≤ 1439) }
    ensures { (result ≡ minute_after t) × (result.0 ≤ 6) × (result.1 ≤ 1439) }
{
    match t {
        (6, 1439) => (0, 0),
        (day, 1439) => (day + 1, 0),
        (day, minute) => (day, minute + 1),
    }
}

// "round the week": each of its minutes is looked at once, the given one first.
fn search_week(hours: &[u8], day: u8, minute: u16) -> Option<(u8, u16)>
    requires { (day ≤ 6) × (minute ≤ 1439) }
    ensures { result ≡ first_open (open_in hours.now) day minute }
{
    let mut t = (day, minute);
    for _ in 0..WEEK_MINUTES {
        if is_open(hours, t.0, t.1) {
            return Some(t);
        }
        t = minute_after(t);
    }
    None
}

// The first open minute at or after one, round the week.
#[tactic(auto, unfolding(crate::specs::Week::first_open_of))]
pub fn first_open(hours: &[u8], day: u8, minute: u16) -> Result<Option<(u8, u16)>, Refusal>
    ensures { result ≡ first_open_of hours.now day minute }
{
    if hours.len() < WEEK_MINUTES {
        return Err(Refusal::OverLimit);
    }
    if !is_minute(day, minute) {
        return Err(Refusal::NoSuchMinute);
    }
    Ok(search_week(hours, day, minute))
}
