// What lines do.
ghost use Rattle.std.specs.Prelude.{◌≡◌};
ghost use Rattle.drill_feeder.specs.Lines.{memory};
ghost use Rattle.drill_core.specs.declared.Verdict.TheVariants as verdict;
ghost use Rattle.drill_core.specs.Acting.{begun, called, world, setup_state, acted, taken};

use crate::{Call, Given, Phase, State, Verdict, judging, preparing};
use drill_feeder::Counts;
use drill_lines::Line;

// Opens the sessions when the C and P lines are over.
#[tactic(auto, unfolding(crate::specs::Acting::begun))]
pub fn begin(s: State, words: &mut [u64])
    ensures { words.new ≡ begun s.phase s.given words.old }
{
    if s.phase.is_setup() {
        preparing::open_all(words, s.given);
    }
}

// A call, once the sessions are open.
#[tactic(auto, unfolding(crate::specs::Acting::called))]
fn make_call(g: Given, a: Call, words: &mut [u64], store: &mut [u8], c: &mut Counts)
    ensures { memory words.new store.new c.new ≡ called g a (memory words.old store.old c.old) }
{
    match a {
        Call::Turn { p } => {
            drill_feeder::take_turn(words, store, p, c);
        }
        Call::Deliver { k, q } => drill_feeder::deliver_message(words, store, k, q),
        Call::Lie { q, lie } => drill_feeder::deliver_lie(words, g.session, q, lie),
        Call::Run => drill_feeder::run(words, store, g.members, c),
    }
}

// The sessions are opened if they are not, then the call is made.
#[tactic(auto, unfolding(crate::specs::Acting::acted, crate::specs::Acting::running))]
fn act_call(s: State, a: Call, words: &mut [u64], store: &mut [u8]) -> State
    ensures { world words.new store.new result ≡ acted (Some (verdict.Call a)) (world words.old store.old s) }
{
    begin(s, words);
    let mut counts = s.counts;
    make_call(s.given, a, words, store, &mut counts);
    State {
        phase: Phase::Running,
        given: s.given,
        counts,
    }
}

#[tactic(auto, unfolding(crate::specs::Acting::setup_state))]
fn setup_state(g: Given, c: Counts) -> State
    ensures { result ≡ setup_state g c }
{
    State {
        phase: Phase::Setup,
        given: g,
        counts: c,
    }
}

// What a verdict leads to; a line that has none ends the drill.
#[tactic(auto, unfolding(crate::specs::Acting::acted, crate::specs::Acting::bad_state))]
fn act(s: State, v: Option<Verdict>, words: &mut [u64], store: &mut [u8]) -> State
    ensures { world words.new store.new result ≡ acted v (world words.old store.old s) }
{
    let counts = s.counts;
    match v {
        None => State {
            phase: Phase::Bad,
            ..s
        },
        Some(Verdict::Settings { n, ta, ts, session }) => {
            setup_state(preparing::settings_given(n, ta, ts, session), counts)
        }
        Some(Verdict::Coin { i, word }) => {
            setup_state(preparing::coin_given(s.given, i, word), counts)
        }
        Some(Verdict::Input { p, value }) => {
            setup_state(preparing::input_given(s.given, p, value), counts)
        }
        Some(Verdict::Call(a)) => act_call(s, a, words, store),
    }
}

// Judges a line, and does what it says.
#[tactic(auto, unfolding(crate::specs::Acting::taken))]
pub fn take_line(s: State, l: Option<Line>, words: &mut [u64], store: &mut [u8]) -> State
    ensures { world words.new store.new result ≡ taken l (world words.old store.old s) }
{
    let v = judging::judge(s, l);
    act(s, v, words, store)
}
