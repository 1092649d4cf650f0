// The calendar: from which minute a set is in force.
#![tactic(auto)]

ghost use Rattle.std.specs.Prelude.{◌≡◌, ◌<◌, length};
ghost use Rattle.calendar.specs.Calendar.{window_right, start_of};
ghost use Rattle.calendar.specs.First.{FirstInWindow};
ghost use Rattle.calendar.specs.laws.Search.{distance, window_at, nearest_from};

use settings::Refusal;

const WEEK_MINUTES: u64 = 10080;

const MAX_CLOSING: u64 = 4000000000;

// The most numbers in a list: 16 windows.
const MAX_NUMBERS: usize = 32;

fn window_right(first: u32, end: u32) -> bool
    ensures { result ≡ window_right first end }
{
    (first < end) & (end as u64 <= WEEK_MINUTES)
}

// How many minutes after minute `from` of the week the window has a minute: this week, or else the next.
fn distance(first: u32, end: u32, from: u64) -> u64
    requires { from < 10080 }
    ensures { result ≡ distance first end from }
{
    if from < first as u64 {
        return first as u64 - from;
    }
    if from < end as u64 {
        return 0;
    }
    WEEK_MINUTES - from + first as u64
}

// The window at place k of the list: bad, or its distance.
fn window_at(windows: &[u32], k: usize, from: u64) -> Option<u64>
    requires { (from < 10080) × (k < length windows.now) }
    ensures { result ≡ window_at windows.now k from }
{
    if windows.len() - k < 2 {
        return None;
    }
    let first = windows[k];
    let end = windows[k + 1];
    if window_right(first, end) {
        return Some(distance(first, end, from));
    }
    None
}

// The nearest of all windows, each looked at once.
fn nearest_window(windows: &[u32], from: u64) -> Option<u64>
    requires { from < 10080 }
    ensures { result ≡ nearest_from 10080 windows.now from }
{
    let mut best = WEEK_MINUTES;
    for k in (0..windows.len()).step_by(2) {
        let x = window_at(windows, k, from);
        let Some(d) = x else {
            return None;
        };
        best = best.min(d);
    }
    Some(best)
}

// The first minute, from closing and lead on, that lies in a window.
pub fn start_minute(windows: &[u32], closing: u64, lead: u64) -> Result<u64, Refusal>
    ensures { result ≡ start_of windows.now closing lead }
{
    if windows.len() == 0 {
        return Err(Refusal::Windows);
    }
    if MAX_NUMBERS < windows.len() {
        return Err(Refusal::Windows);
    }
    if MAX_CLOSING < closing {
        return Err(Refusal::Windows);
    }
    if WEEK_MINUTES < lead {
        return Err(Refusal::Windows);
    }
    let earliest = closing + lead;
    let x = nearest_window(windows, earliest % WEEK_MINUTES);
    match x {
        None => Err(Refusal::Windows),
        Some(d) => Ok(earliest + d),
    }
}

// The minute that is named lies in a window, none from closing and lead on lies in one before it, and it is less than a week away.
pub fn first_in_window()
    ensures { FirstInWindow }
{}
