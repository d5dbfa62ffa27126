// The windows that set-up takes, as the host lends them: rows of weekday, from and to, in the order given.
ghost use Rattle.std.specs.Prelude.{◌≡◌, cond, false, eqb, ltb};
ghost use Rattle.hours.specs.Windows.{window_of, windows_of, holds, is_open, behind_all, of_day, fits, all_fit, checked_of};

use codec::refusals::Refusal;

// Three numbers, and no struct: the C interface lends them so.
pub type WindowRow = [u16; 3];

pub(crate) const DAY_MINUTES: usize = 1440;
// "Each weekday, 0 to 6": a byte is kept for each minute.
pub(crate) const WEEK_MINUTES: usize = 7 * DAY_MINUTES;

// "With 480 to 1,320, minute 480 is open and 1,320 closed."
fn holds(window: &WindowRow, day: u16, minute: u16) -> bool
    ensures { result ≡ holds (window_of window.now) day minute }
{
    window[0] == day && window[1] <= minute && minute < window[2]
}

// A minute of a weekday is open if some window holds it.
pub(crate) fn window_open(windows: &[WindowRow], day: u16, minute: u16) -> bool
    ensures { result ≡ is_open (windows_of windows.now) day minute }
{
    windows.iter().any(|window| holds(window, day, minute))
}

// Whether a window is one of the weekday's that ends behind `from`.
fn ends_behind(window: &WindowRow, day: u16, from: u16) -> bool
    ensures { result ≡ cond (eqb (window_of window.now).day day) (ltb from (window_of window.now).to) false }
{
    window[0] == day && from < window[2]
}

// "Windows ascend and may touch.": none of the weekday's earlier windows ends behind `from`.
fn is_behind(before: &[WindowRow], day: u16, from: u16) -> bool
    ensures { result ≡ behind_all (windows_of before.now) day from }
{
    !before.iter().any(|window| ends_behind(window, day, from))
}

// How many of the windows are the weekday's: "or a ninth".
fn count_of(windows: &[WindowRow], day: u16) -> usize
    ensures { result ≡ of_day (windows_of windows.now) day }
{
    windows.iter().filter(|window| window[0] == day).count()
}

// Whether a window fits behind those before it.
fn fits(before: &[WindowRow], window: &WindowRow) -> bool
    ensures { result ≡ fits (windows_of before.now) (window_of window.now) }
{
    let [day, from, to] = *window;
    day <= 6 && from < to && to <= 1440 && is_behind(before, day, from) && count_of(before, day) < 8
}

// The first that does not fit ends the search, so that no more than 57 windows are ever looked at.
fn all_fit(windows: &[WindowRow]) -> bool
    ensures { result ≡ all_fit (windows_of windows.now) }
{
    for (i, window) in windows.iter().enumerate() {
        if !fits(&windows[..i], window) {
            return false;
        }
    }
    true
}

// 16, of the store for the week's minutes, which has `bytes`; then 19.
#[tactic(auto, unfolding(crate::specs::Windows::checked_of))]
pub fn check_windows(windows: &[WindowRow], bytes: usize) -> Result<(), Refusal>
    ensures { result ≡ checked_of bytes (windows_of windows.now) }
{
    if bytes < WEEK_MINUTES {
        return Err(Refusal::OverLimit);
    }
    if all_fit(windows) {
        Ok(())
    } else {
        Err(Refusal::WindowFault)
    }
}
