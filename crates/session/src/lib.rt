// Whether a lent buffer holds a state, and what is read of it once.
#![tactic(auto)]

ghost use Rattle.std.specs.Prelude.{◌≡◌, ◌+◌, ◌<◌, true, ◌&&◌, leb, length};
ghost use Rattle.session.specs.Session.{numbered, numbers_right, settings_of, is_state, session_with, stored};
ghost use Rattle.session.specs.laws.Session.{place_right, stored_with};
ghost use Rattle.records.specs.Words.{word};
ghost use Rattle.records.specs.Layout.{own_at, boxed_at};
ghost use Rattle.records.specs.Records.{version};
ghost use Rattle.settings.specs.Versions.{version_known};
ghost use Rattle.quorum.specs.Every.{every};

use records::layout;
use settings::Settings;

#[derive(Clone, Copy)]
pub struct Session {
    pub settings: Settings,
    pub own: u8,
    pub number: u32,
}

// Whether own is a number of 1 to n.
pub fn numbered(n: u64, own: u64) -> bool
    ensures { result ≡ numbered n own }
{
    (1 <= own) & (own <= n)
}

// Whether the round of vote k and the number of values in the COMMIT of sender k are within the rules.
fn place_right(s: &[u64], n: u8, k: u8) -> bool
    requires { 119 + k < length s.now }
    ensures { result ≡ place_right s.now n k }
{
    (s[layout::ROUNDS + k as usize] <= Settings::MOVED_OUT_ROUND as u64)
        & (s[layout::COMMIT_COUNTS + k as usize] <= n as u64)
}

// The same of 1 to n: one walk for both, since every call makes it.
fn places_right(s: &[u64], n: u8) -> bool
    requires { 119 + n < length s.now }
    ensures { result ≡ every (place_right s.now n) n }
{
    (0..n).all(|k| place_right(s, n, k + 1))
}

// Whether the coins are of a kind that opening takes, and the version one of the two.
fn kinds_right(s: &[u64]) -> bool
    ensures { result ≡ (leb (word s.now boxed_at) 1 && version_known (version s.now)) }
{
    (records::word(s, layout::BOXED) <= 1) & settings::version_known(records::version(s))
}

// Whether the stored numbers beside the settings are within the rules.
fn numbers_right(s: &[u64], g: Settings) -> bool
    requires { length s.now ≡ 2048 }
    ensures { result ≡ numbers_right g s.now }
{
    if !numbered(g.n as u64, records::word(s, layout::OWN)) {
        return false;
    }
    if !kinds_right(s) {
        return false;
    }
    if g.turn_bound(records::version(s)) < records::word(s, layout::TURNS) {
        return false;
    }
    places_right(s, g.n)
}

// What is read of a state with these settings.
fn session_of(s: &[u64], g: Settings) -> Session
    requires { word s.now own_at < 256 }
    ensures { result ≡ session_with g s.now }
{
    Session {
        settings: g,
        own: records::word(s, layout::OWN) as u8,
        number: (records::word(s, layout::SESSION) % 4294967296) as u32,
    }
}

// The session with these settings, where the other numbers are right.
fn stored_with(s: &[u64], g: Settings) -> Option<Session>
    requires { length s.now ≡ 2048 }
    ensures { result ≡ stored_with g s.now }
{
    if numbers_right(s, g) {
        return Some(session_of(s, g));
    }
    None
}

// The settings of a state, without asking again whether it is one.
pub fn settings_of(s: &[u64]) -> Settings
    requires { is_state s.now ≡ true }
    ensures { result ≡ settings_of s.now }
{
    let n = records::word(s, layout::N) as u8;
    let weights = records::word(s, layout::WEIGHTS);
    Settings {
        n,
        ta: records::word(s, layout::TA) as u8,
        ts: records::word(s, layout::TS) as u8,
        whole: quorum::whole(weights, n) as u8,
        weights,
    }
}

// The session that the buffer holds.
pub fn state_of(s: &[u64]) -> Option<Session>
    ensures { result ≡ stored s.now }
{
    if s.len() != layout::STATE_WORDS {
        return None;
    }
    let g = Settings::check(
        records::word(s, layout::N),
        records::word(s, layout::TA),
        records::word(s, layout::TS),
        records::word(s, layout::WEIGHTS),
    )?;
    stored_with(s, g)
}
