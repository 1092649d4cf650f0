// Whether a line can be taken, by its place and the ranges of its numbers.
ghost use Rattle.std.specs.Prelude.{◌≡◌, if◌then◌else◌};
ghost use Rattle.opening.specs.Given.{weights_word};
ghost use Rattle.opening.specs.Given.{ones_given};
ghost use Rattle.drill_core.specs.Judging.{is_honest, is_liar, settings_open, settings_taken, judged_n, judged_c, judged_p, judged_t, judged_d, judged_l, judged};

use crate::{Call, Given, Phase, State, Verdict};
use drill_feeder::{Lie, Members};
use drill_lines::{LiarMessage, Line};
use settings::Settings;

// The number p, if it is an honest one's.
#[tactic(auto, unfolding(crate::specs::Judging::is_honest, session::specs::Session::numbered))]
fn honest(g: Members, p: u64) -> Option<u8>
    ensures { result ≡ (if is_honest g p then Some p else None) }
{
    if session::numbered(u64::from(g.n), p) & quorum::mark(g.honest, p) {
        return Some(p as u8);
    }
    None
}

// The number p, if it is a liar's.
#[tactic(auto, unfolding(crate::specs::Judging::is_liar, session::specs::Session::numbered))]
fn liar(g: Members, p: u64) -> Option<u8>
    ensures { result ≡ (if is_liar g p then Some p else None) }
{
    if session::numbered(u64::from(g.n), p) & !quorum::mark(g.honest, p) {
        return Some(p as u8);
    }
    None
}

// The word of n weights of 1, and 0 above 16.
fn ones_word(n: u64) -> u64
    ensures { result ≡ weights_word n (ones_given n) }
{
    if 16 < n {
        return 0;
    }
    (1 << n) - 1
}

// Whether opening takes the three numbers as settings.
fn settings_open(n: u64, ta: u64, ts: u64) -> bool
    ensures { result ≡ settings_open n ta ts }
{
    Settings::check_named(n, ta, ts, ones_word(n)).is_some()
}

#[tactic(auto, unfolding(crate::specs::Judging::settings_taken))]
fn settings_taken(n: u64, ta: u64, ts: u64, session: u64) -> bool
    ensures { result ≡ settings_taken n ta ts session }
{
    settings_open(n, ta, ts) & (n <= 4) & (session < 4294967296)
}

#[tactic(auto, unfolding(crate::specs::Judging::judged_n, crate::specs::Judging::settings_taken))]
fn judge_n(n: u64, ta: u64, ts: u64, session: u64) -> Option<Verdict>
    ensures { result ≡ judged_n n ta ts session }
{
    if !settings_taken(n, ta, ts, session) {
        return None;
    }
    Some(Verdict::Settings {
        n: n as u8,
        ta,
        ts,
        session: session as u32,
    })
}

#[tactic(auto, unfolding(crate::specs::Judging::judged_c, session::specs::Session::numbered))]
fn judge_c(g: Given, i: u64, word: u64) -> Option<Verdict>
    ensures { result ≡ judged_c g i word }
{
    if !session::numbered(u64::from(g.members.n), i) {
        return None;
    }
    let number = i as u8;
    if quorum::mark(g.named, i) {
        return None;
    }
    let word = u32::try_from(word).ok()?;
    Some(Verdict::Coin { i: number, word })
}

#[tactic(auto, unfolding(crate::specs::Judging::judged_p))]
fn judge_p(g: Members, p: u64, value: u64) -> Option<Verdict>
    ensures { result ≡ judged_p g p value }
{
    let p = liar(g, p)?;
    Some(Verdict::Input { p, value })
}

#[tactic(auto, unfolding(crate::specs::Judging::judged_t))]
fn judge_t(g: Members, p: u64) -> Option<Verdict>
    ensures { result ≡ judged_t g p }
{
    let p = honest(g, p)?;
    Some(Verdict::Call(Call::Turn { p }))
}

#[tactic(auto, unfolding(crate::specs::Judging::judged_d, session::specs::Session::numbered))]
fn judge_d(g: Members, sent: u16, k: u64, q: u64) -> Option<Verdict>
    ensures { result ≡ judged_d g sent k q }
{
    if !session::numbered(u64::from(sent), k) {
        return None;
    }
    let k = k as u16;
    let q = honest(g, q)?;
    Some(Verdict::Call(Call::Deliver { k, q }))
}

#[tactic(auto, unfolding(crate::specs::Judging::judged_l, crate::specs::Judging::bytes_fit))]
fn judge_l(g: Members, l: LiarMessage) -> Option<Verdict>
    ensures { result ≡ judged_l g l }
{
    let p = liar(g, l.p)?;
    let q = honest(g, l.q)?;
    let lie = Lie {
        p,
        kind: u8::try_from(l.kind).ok()?,
        instance: u8::try_from(l.instance).ok()?,
        round: u8::try_from(l.round).ok()?,
        value: l.value,
    };
    Some(Verdict::Call(Call::Lie { q, lie }))
}

// What a line comes to in a state of the drill; None where it cannot be taken.
#[tactic(auto, unfolding(crate::specs::Judging::judged))]
pub fn judge(s: State, line: Option<Line>) -> Option<Verdict>
    ensures { result ≡ judged s line }
{
    let x = s.phase;
    let g = s.given;
    match line? {
        Line::N { n, ta, ts, session } if x.is_first() => judge_n(n, ta, ts, session),
        Line::C { i, word } if x.is_setup() => judge_c(g, i, word),
        Line::P { p, value } if x.is_setup() => judge_p(g.members, p, value),
        Line::T { p } if x.after_settings() => judge_t(g.members, p),
        Line::D { k, q } if x.after_settings() => judge_d(g.members, s.counts.sent, k, q),
        Line::L(l) if x.after_settings() => judge_l(g.members, l),
        Line::R if x.after_settings() => Some(Verdict::Call(Call::Run)),
        _ => None,
    }
}
