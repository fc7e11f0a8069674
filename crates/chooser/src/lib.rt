// The chooser: a sheet and two lent plans in, the shorter passed plan itself out.
#![tactic(auto)]

ghost use Rattle.std.specs.Prelude.{◌≡◌};
ghost use Rattle.meaning.specs.Judge.{choose_by, choice, handed_back};
ghost use Rattle.meaning.specs.Results.{judge_answer};
ghost use Rattle.chooser.specs.Handed.{Handed};

use meaning::{Blame, Choice};

// The passed one with fewer slots, the first when equal.
fn choose_by(first: Result<u16, Blame>, second: Result<u16, Blame>) -> Choice
    ensures { result ≡ choose_by (judge_answer first).verdict (judge_answer second).verdict }
{
    match (first, second) {
        (Ok(ours), Ok(theirs)) if theirs < ours => Choice::Second,
        (Ok(_), _) => Choice::First,
        (Err(_), Ok(_)) => Choice::Second,
        (Err(_), Err(_)) => Choice::Neither,
    }
}

// Which of two plans is the passed one with fewer slots; whom the judgements name is dropped, since a choice blames nobody.
pub fn choice(sheet: &[u8], first: &[u8], second: &[u8]) -> Choice
    ensures { result ≡ choice sheet.now first.now second.now }
{
    let on_first = judge::judgement(sheet, first);
    let on_second = judge::judgement(sheet, second);
    choose_by(on_first, on_second)
}

// That plan itself; the empty part at the start of the first where none passes.
pub fn choose<'a>(sheet: &[u8], first: &'a [u8], second: &'a [u8]) -> &'a [u8]
    ensures bytes { result.now
        ≡ handed_back (choice sheet.now first.now second.now) first.now second.now }
    ensures itself { Handed (choice sheet.now first.now second.now) first.entry second.entry result }
{
    match choice(sheet, first, second) {
        Choice::First => first,
        Choice::Second => second,
        Choice::Neither => &first[..0],
    }
}
