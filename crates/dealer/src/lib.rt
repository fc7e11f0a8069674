// The telephone in the dealer's words: how long a slot is, the sentences about a sheet and its merged readings, and the line about other arrangements of its probes.
#![tactic(auto)]

ghost use Rattle.std.specs.Prelude.{◌≡◌, ◌≤◌, length, take};
ghost use Rattle.lines.specs.Line.{line_length, line_in};
ghost use Rattle.lines.specs.Text.{Says};
ghost use Rattle.dealer.specs.SlotLength.{milliseconds_said, seconds_of};
ghost use Rattle.dealer.specs.Sentences.{timed, at_least, takes, plans_said, nobody_said, sentences, merged_sentences};
ghost use Rattle.dealer.specs.Sentences.{asked_text, merged_text, spread_text};

use lines::{Answer, said};
use meaning::{MergedTold, Told};

// A slot is at most a minute long, in milliseconds.
const LONGEST_SLOT: u16 = 60000;

// The milliseconds that a word says, 1 to 60,000; 0 where it says anything else, not None: what a public function answers may not change.
pub fn milliseconds(word: &[u8]) -> u16
    ensures { result ≡ milliseconds_said word.now }
{
    if digits::others_stand(word) {
        return 0;
    }
    let said = digits::number_said(word);
    if LONGEST_SLOT < said { 0 } else { said }
}

// The seconds that so many slots take, rounded down by 0 and up by 999.
fn seconds(slots: u16, ms: u16, rounding: u16) -> u32
    requires { rounding ≤ 999 }
    ensures count { result ≡ seconds_of slots ms rounding }
    ensures few { result ≤ 3932100 }
{
    let slot = ms.min(LONGEST_SLOT);
    (slots as u32 * slot as u32 + rounding as u32) / 1000
}

// Says how long so many slots take, and nothing where a slot's length is not known.
fn say_timed(answer: &mut Answer, slots: u16, ms: u16, rounding: u16)
    requires { rounding ≤ 999 }
    ensures { Says 256 answer.old (timed slots ms rounding) answer.new }
{
    if ms == 0 {
        return answer.words(b"");
    }
    let all = seconds(slots, ms, rounding);
    let minutes = (all / 60) as u16;
    let rest = (all % 60) as u16;
    answer.counted(b" (", minutes);
    answer.counted(b" min ", rest);
    answer.words(b" s)");
}

// Says the sentence about any plan for such a reading.
fn say_at_least(answer: &mut Answer, reading: &[u8], slots: u16, ms: u16)
    ensures { Says 256 answer.old (at_least reading.now slots ms) answer.new }
{
    answer.words(reading);
    answer.counted(b" takes at least ", slots);
    answer.words(b" slots");
    say_timed(answer, slots, ms, 0);
    answer.words(b", whoever plans it.");
}

// Says the sentence about our plan, or about its worst case, which begins with such words.
fn say_ours(answer: &mut Answer, words: &[u8], slots: u16, ms: u16)
    ensures { Says 256 answer.old (takes words.now slots ms) answer.new }
{
    answer.counted(words, slots);
    say_timed(answer, slots, ms, 999);
    answer.words(b".");
}

// Says the three sentences about the plans for such a reading: anybody's, ours and its worst case.
fn say_plans(answer: &mut Answer, reading: &[u8], least: u16, ours: u16, most: u16, ms: u16)
    ensures { Says 256 answer.old (plans_said reading.now least ours most ms) answer.new }
{
    say_at_least(answer, reading, least, ms);
    say_ours(answer, b" Our plan takes ", ours, ms);
    say_ours(answer, b" It never takes more than ", most, ms);
}

// Says how much shorter than ours anybody's plan can be.
fn say_nobody(answer: &mut Answer, least: u16, ours: u16, times: u8)
    ensures { Says 256 answer.old (nobody_said least ours times) answer.new }
{
    if least < ours {
        answer.counted(b" Nobody's plan can be less than 1/", times as u16);
        return answer.words(b" of ours.\n");
    }
    answer.words(b" Nobody's plan is shorter.\n");
}

// Says the four sentences.
fn say_sentences(answer: &mut Answer, told: Told, ms: u16)
    ensures { Says 256 answer.old (sentences told ms) answer.new }
{
    say_plans(answer, b"One reading", told.least, told.ours, told.most, ms);
    say_nobody(answer, told.least, told.ours, told.times);
}

// Says the three sentences about merged readings.
fn say_merged(answer: &mut Answer, told: MergedTold, ms: u16)
    ensures { Says 256 answer.old (merged_sentences told ms) answer.new }
{
    say_plans(
        answer,
        b"One merged reading",
        told.least,
        told.ours,
        told.most,
        ms,
    );
    answer.words(b"\n");
}

// What is said of a sheet, at the start of a lent buffer, in minutes too where ms is not 0; says how many bytes it has, 0 and nothing written where they do not fit.
pub fn asked(out: &mut [u8], told: Told, ms: u16) -> usize
    ensures part { (result ≤ length out.new) × (result ≡ length (take result out.new)) }
    ensures answer { result ≡ line_length out.old (asked_text told ms) }
    ensures buffer { out.new ≡ line_in out.old (asked_text told ms) }
{
    let outcome = told.outcome;
    if outcome.number != 0 {
        return wording::refused(out, outcome);
    }
    let mut answer = Answer::new();
    say_sentences(&mut answer, told, ms);
    said(out, &answer)
}

// The same of a sheet's merged readings; two functions, since both are public and what they say is `say_sentences` and `say_merged`.
pub fn merged_asked(out: &mut [u8], told: MergedTold, ms: u16) -> usize
    ensures part { (result ≤ length out.new) × (result ≡ length (take result out.new)) }
    ensures answer { result ≡ line_length out.old (merged_text told ms) }
    ensures buffer { out.new ≡ line_in out.old (merged_text told ms) }
{
    if told.outcome.number != 0 {
        return wording::refused(out, told.outcome);
    }
    let mut answer = Answer::new();
    say_merged(&mut answer, told, ms);
    said(out, &answer)
}

// Says the line about the other arrangements.
fn say_spread(answer: &mut Answer, best: u16, worst: u16)
    ensures { Says 256 answer.old (spread_text best worst) answer.new }
{
    answer.counted(
        b"The same probes, hung otherwise and disturbing each other otherwise: ",
        best,
    );
    answer.counted(b" slots at best, ", worst);
    answer.words(b" at worst.\n");
}

// What is said of the other arrangements of a sheet's probes, at the start of a lent buffer; says how many bytes it has, 0 and nothing written where they do not fit.
pub fn spread(out: &mut [u8], best: u16, worst: u16) -> usize
    ensures part { (result ≤ length out.new) × (result ≡ length (take result out.new)) }
    ensures answer { result ≡ line_length out.old (spread_text best worst) }
    ensures buffer { out.new ≡ line_in out.old (spread_text best worst) }
{
    let mut answer = Answer::new();
    say_spread(&mut answer, best, worst);
    said(out, &answer)
}
