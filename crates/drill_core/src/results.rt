// What a drill prints at the end of its input.
ghost use Rattle.std.specs.Prelude.{◌≡◌};
ghost use Rattle.text.specs.Paste.{Wrote};
ghost use Rattle.drill_feeder.specs.Parts.{state_of};
ghost use Rattle.drill_core.specs.Feeding.{drilling, at_end, words_of, store_of};
ghost use Rattle.drill_core.specs.Output.{answer_text, result_text, result_if, results, summary, drill_text, printed};

use crate::{Drill, feeding};
use drill_feeder::Members;
use drill_lines::SessionResult;
use report::Figures;
use settings::Refusal;

// The line of session p by its report; a report that is refused has none of its numbers.
#[tactic(auto, unfolding(crate::specs::Output::answer_text))]
fn put_answer(
    out: &mut [u8],
    at: usize,
    p: u8,
    a: Result<Figures, Refusal>,
    closed: bool,
    in_force: &[u64],
) -> usize
    ensures { Wrote (answer_text p a closed in_force.now) out.old at result out.new }
{
    let number = u64::from(p);
    match a {
        Err(_) => {
            let r = SessionResult {
                number,
                exit: 0,
                closed: u64::from(closed),
                turns: 0,
            };
            drill_lines::put_result(out, at, r, in_force, 0)
        }
        Ok(f) => {
            let r = SessionResult {
                number,
                exit: u64::from(f.exit),
                closed: u64::from(closed),
                turns: f.turns,
            };
            drill_lines::put_result(out, at, r, in_force, usize::from(f.in_force))
        }
    }
}

// The line of session p.
fn put_session(words: &[u64], p: u8, out: &mut [u8], at: usize) -> usize
    ensures { Wrote (result_text p (state_of words.now p)) out.old at result out.new }
{
    let mut named = [0u64; 16];
    let mut in_force = [0u64; 16];
    let a = drill_feeder::report_of(words, p, &mut named, &mut in_force);
    let closed = drill_feeder::closed_of(words, p);
    put_answer(out, at, p, a, closed, &in_force)
}

// The same, if p is honest.
#[tactic(auto, unfolding(crate::specs::Output::result_if, text::specs::Paste::ended, text::specs::Paste::pasted))]
fn put_if(words: &[u64], honest: u64, p: u8, out: &mut [u8], at: usize) -> usize
    ensures { Wrote (result_if honest words.now p) out.old at result out.new }
{
    if quorum::mark(honest, u64::from(p)) {
        return put_session(words, p, out, at);
    }
    at
}

// The lines of the honest ones.
fn put_all(words: &[u64], g: Members, out: &mut [u8]) -> usize
    ensures { Wrote (results g.honest words.now g.n) out.old 0 result out.new }
{
    let mut at = 0;
    for k in 0..g.n {
        at = put_if(words, g.honest, k + 1, out, at);
    }
    at
}

fn put_summary(words: &[u64], g: Members, sent: u16, out: &mut [u8]) -> usize
    ensures { Wrote (summary g sent words.now) out.old 0 result out.new }
{
    let at = put_all(words, g, out);
    drill_lines::put_sent(out, at, u64::from(sent))
}

// The output of a drill whose input is over.
#[tactic(auto, unfolding(crate::specs::Output::drill_text))]
fn print(d: Drill, words: &[u64], out: &mut [u8]) -> usize
    ensures { Wrote (drill_text words.now d) out.old 0 result out.new }
{
    let s = d.state;
    if s.phase.after_settings() {
        return put_summary(words, s.given.members, s.counts.sent, out);
    }
    drill_lines::put_bad(out, 0, d.number)
}

// The input is over: writes the output at the front of the lent bytes, as far as they go, and answers its length.
#[tactic(auto, unfolding(crate::specs::Output::printed, crate::specs::Feeding::words_of, crate::specs::Feeding::store_of))]
pub fn finish(d: Drill, words: &mut [u64], store: &mut [u8], out: &mut [u8]) -> usize
    ensures output { Wrote (printed (at_end (drilling words.old store.old d))) out.old 0 result out.new }
    ensures words { words.new ≡ words_of (at_end (drilling words.old store.old d)) }
    ensures store { store.new ≡ store_of (at_end (drilling words.old store.old d)) }
{
    let e = feeding::end_input(d, words, store);
    print(e, words, out)
}
