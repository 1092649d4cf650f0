// A session's settings, the thresholds worked out from them, and the numbers of the refusals.
#![tactic(auto)]

mod refusal;

ghost use Rattle.std.specs.Prelude.{◌≡◌};
ghost use Rattle.settings.specs.Settings.{largest_ta, named_ta};
ghost use Rattle.settings.specs.Check.{check_settings};
ghost use Rattle.settings.specs.Settings.{quorum, repeat, vote_quorum, relay, accept};
ghost use Rattle.settings.specs.Versions.{version_known, finishing, turn_bound};

// u8 fields: no threshold can wrap, so none has a `requires`. `whole` is the sum of the weights, which are one word.
#[derive(Clone, Copy)]
pub struct Settings {
    pub n: u8,
    pub ta: u8,
    pub ts: u8,
    pub whole: u8,
    pub weights: u64,
}

pub use refusal::Refusal;

// The versions of a session: 1, and 2, in which votes wind up early.
pub const FIRST_VERSION: u64 = 1;

pub const FINISH_VERSION: u64 = 2;

pub fn version_known(version: u64) -> bool
    ensures { result ≡ version_known version }
{
    (FIRST_VERSION <= version) & (version <= FINISH_VERSION)
}

// Whether the sessions of a version have FINISHes.
pub fn finishing(version: u64) -> bool
    ensures { result ≡ finishing version }
{
    version == FINISH_VERSION
}

// The largest ta that the rules allow where the weights sum up to `whole`: the smaller of ts and whole − 1 − 2·ts. 0 where they
// allow none.
fn largest_ta(whole: u64, ts: u64) -> u64
    ensures { result ≡ largest_ta whole ts }
{
    // 2·ts could wrap.
    let room = whole
        .saturating_sub(1)
        .saturating_sub(ts)
        .saturating_sub(ts);
    ts.min(room)
}

impl Settings {
    // The most concentrators of a session.
    pub const MAX_CONCENTRATORS: u64 = 16;
    // The last round of a vote.
    pub const ROUND_LIMIT: u8 = 32;
    // The round of a vote that has moved out of the last.
    pub const MOVED_OUT_ROUND: u8 = 33;
    // The ta that leaves it unnamed.
    pub const UNNAMED: u64 = 255;

    // The ta that is meant by the one given: the largest that the rules allow, where none is named.
    pub fn named_ta(n: u8, ta: u64, ts: u64, weights: u64) -> u64
        ensures { result ≡ named_ta n ta ts weights }
    {
        if ta == Settings::UNNAMED {
            largest_ta(quorum::whole(weights, n), ts)
        } else {
            ta
        }
    }

    // The settings that an opening names.
    pub fn check_named(n: u64, ta: u64, ts: u64, weights: u64) -> Option<Settings>
        ensures { result ≡ check_settings n (named_ta n ta ts weights) ts weights }
    {
        if Settings::MAX_CONCENTRATORS < n {
            return None;
        }
        let meant = Settings::named_ta(n as u8, ta, ts, weights);
        Settings::check(n, meant, ts, weights)
    }

    // The settings of any numbers and weights, ta taken as it is.
    pub fn check(n: u64, ta: u64, ts: u64, weights: u64) -> Option<Settings>
        ensures { result ≡ check_settings n ta ts weights }
    {
        if n < 1 {
            return None;
        }
        if Settings::MAX_CONCENTRATORS < n {
            return None;
        }
        let m = n as u8;
        if !quorum::weights_right(weights, m) {
            return None;
        }
        if ts < ta {
            return None;
        }
        let w = quorum::whole(weights, m);
        // Follows from the last test, which could wrap without it.
        if w <= ts {
            return None;
        }
        if w <= 2 * ts + ta {
            return None;
        }
        Some(Settings {
            n: m,
            ta: ta as u8,
            ts: ts as u8,
            whole: w as u8,
            weights,
        })
    }

    // W − ts, W being the sum of the weights: broadcasts and commits.
    pub fn quorum(self) -> u64
        ensures { result ≡ quorum self }
    {
        u64::from(self.whole.saturating_sub(self.ts))
    }

    // ts + 1: a READY or a COMMIT that is repeated.
    pub fn repeat(self) -> u64
        ensures { result ≡ repeat self }
    {
        self.ts as u64 + 1
    }

    // W − ta, W being the sum of the weights: a move, and the votes decided 1 that a start with 0 and exits 2 and 3 ask for.
    pub fn vote_quorum(self) -> u64
        ensures { result ≡ vote_quorum self }
    {
        u64::from(self.whole.saturating_sub(self.ta))
    }

    // ta + 1: an EST that is relayed, a FINISH that is repeated.
    pub fn relay(self) -> u64
        ensures { result ≡ relay self }
    {
        self.ta as u64 + 1
    }

    // 2·ta + 1: a value accepted in a round, or decided by FINISHes.
    pub fn accept(self) -> u64
        ensures { result ≡ accept self }
    {
        2 * self.ta as u64 + 1
    }

    // 99·n + 3: the turns of a session that are not idle; with FINISHes 100·n + 3.
    pub fn turn_bound(self, version: u64) -> u64
        ensures { result ≡ turn_bound version self }
    {
        if finishing(version) {
            return 100 * self.n as u64 + 3;
        }
        99 * self.n as u64 + 3
    }
}
