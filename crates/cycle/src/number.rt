// The cycle number: which answer it brings a record, and what it leads to if it is taken; and the verdict, by number and requests.
ghost use Rattle.std.specs.Prelude.{◌≡◌, ◌<◌};
ghost use Rattle.cycle.specs.Numbers.{distance, is_major, missed_major, following, judged};
ghost use Rattle.cycle.specs.Hall.{unless_both_ways};
ghost use Rattle.cycle.specs.Calm.{follows};

use crate::answer::Answer;
use crate::size::{LAST_COUNT, MAJOR_EVERY};

// What a taken record leads to: the new cycle number, whether a cycle was missed, and whether a major one was.
#[derive(Clone, Copy)]
pub struct Next {
    pub n: u32,
    pub gap: bool,
    pub missed: bool,
}

// 7, tested after 4: refuses a record that its number lets be taken, if a jet is named both ways.
pub(crate) fn unless(verdict: Result<Next, Answer>, named: bool) -> Result<Next, Answer>
    ensures { result ≡ unless_both_ways named verdict }
{
    let next = verdict?;
    if named {
        Err(Answer::BothWays)
    } else {
        Ok(next)
    }
}

// d: the wire cycle less the lowest 16 bits of n, modulo 65,536.
fn distance(n: u32, wire: u16) -> u16
    ensures { result ≡ distance n wire }
{
    wire.wrapping_sub((n % 65536) as u16)
}

// Is a cycle of this number major?
fn is_major(n: u32) -> bool
    ensures { result ≡ is_major n }
{
    n % MAJOR_EVERY == 0
}

// Does a multiple of 25 lie strictly between the old number and the new?
fn missed_major(old: u32, new: u32) -> bool
    requires { old < new }
    ensures { result ≡ missed_major old new }
{
    old / MAJOR_EVERY < (new - 1) / MAJOR_EVERY
}

// The verdict on a record of distance d that is neither stale nor a repeat: the count may end, or its kind be wrong.
fn following(n: u32, d: u16, gap: bool, major: bool) -> Result<Next, Answer>
    requires { 0 < d }
    ensures { result ≡ following n d gap major }
{
    let step = u32::from(d);
    if LAST_COUNT - n < step {
        return Err(Answer::CountEnded);
    }
    let new = n + step;
    if is_major(new) != major {
        return Err(Answer::WrongKind);
    }
    Ok(Next {
        n: new,
        gap,
        missed: missed_major(n, new),
    })
}

// The verdict by its number on a record, minor or major, with this wire cycle at the cycle number n: what it leads to if it is taken, or the
// answer that refuses it.
pub fn judged(n: u32, wire: u16, major: bool) -> Result<Next, Answer>
    ensures { result ≡ judged n wire major }
{
    let d = distance(n, wire);
    match d {
        0 => Err(Answer::Repeat),
        1 => following(n, d, false, major),
        2..=32767 => following(n, d, true, major),
        32768..=65535 => Err(Answer::Stale),
    }
}

// Is this the wire cycle of the next number, and the kind right? Then the verdict takes the record and finds no gap.
pub fn follows(n: u32, wire: u16, major: bool) -> bool
    ensures { result ≡ follows n wire major }
{
    if LAST_COUNT <= n {
        return false;
    }
    let next = n + 1;
    (wire == (next % 65536) as u16) & (is_major(next) == major)
}
