// The front door's answers in words: each public function decides every byte of one, in a lent buffer.
#![tactic(auto)]

ghost use Rattle.std.specs.Prelude.{◌≡◌, ◌++◌, ◌≤◌, min, length, take};
ghost use Rattle.meaning.specs.Lister.{text, refusal};
ghost use Rattle.lines.specs.Line.{line_length, line_in};
ghost use Rattle.lines.specs.Text.{Says};
ghost use Rattle.wording.specs.Worded.{of_senders, subject, said_of, any_senders, the_senders, named_senders};
ghost use Rattle.wording.specs.Worded.{refused_line, blamed_line, planned_line, verdict_line, choice_line, choice_text, written_line, misread_line};

use lines::{Answer, said};
use meaning::{Choice, Judgement, Mode, Names, Outcome, Planned};

// Room for any answer.
pub const ANY_ANSWER: usize = lines::ANY_ANSWER;

// Whether a number is said of senders of a slot.
fn is_of_senders(number: u8) -> bool
    ensures { result ≡ of_senders number }
{
    11 < number && number < 16
}

// Whom a number is said of, where nobody is named.
fn any_senders(number: u8) -> &'static [u8]
    ensures { result.now ≡ subject number (any_senders number) }
{
    if !is_of_senders(number) {
        return b"";
    }
    if number == 15 {
        return b"two senders of the slot";
    }
    b"a sender of the slot"
}

// Says what a number says, where nobody is named.
fn say_of_any(answer: &mut Answer, number: u8)
    ensures { Says 256 answer.old (said_of Mode.Packets number (any_senders number)) answer.new }
{
    answer.words(any_senders(number));
    answer.words(sayings::words(number));
}

// Says senders by their names, for 15 both.
fn say_the_senders(answer: &mut Answer, number: u8, names: Names)
    ensures { Says 256 answer.old (the_senders number names) answer.new }
{
    let first = names.first as u16;
    if number != 15 {
        return answer.counted(b"sender ", first);
    }
    let second = names.second as u16;
    answer.counted(b"senders ", first);
    answer.counted(b" and ", second);
}

// Says whom a refusal is said of by name, and their slot.
fn say_named_senders(answer: &mut Answer, outcome: Outcome, names: Names)
    ensures { Says 256 answer.old (subject outcome.number (named_senders outcome names)) answer.new }
{
    if !is_of_senders(outcome.number) {
        return answer.words(b"");
    }
    say_the_senders(answer, outcome.number, names);
    answer.counted(b" of slot ", outcome.place);
}

// Says the number and the place of a refusal, and a colon.
fn say_refusal(answer: &mut Answer, outcome: Outcome)
    ensures { Says 256 answer.old (refusal outcome ++ text ": ") answer.new }
{
    let number = outcome.number as u16;
    let place = outcome.place;
    answer.counted(b"refused ", number);
    answer.counted(b" ", place);
    answer.words(b": ");
}

// Says the line of a refusal that names nobody.
fn say_refused(answer: &mut Answer, outcome: Outcome)
    ensures { Says 256 answer.old (refused_line outcome) answer.new }
{
    say_refusal(answer, outcome);
    say_of_any(answer, outcome.number);
    answer.words(b"\n");
}

// Says the line of a refusal by the judge of a mode.
fn say_blamed(answer: &mut Answer, mode: Mode, outcome: Outcome, names: Names)
    ensures { Says 256 answer.old (blamed_line mode outcome names) answer.new }
{
    say_refusal(answer, outcome);
    say_named_senders(answer, outcome, names);
    answer.words(sayings::words_in(mode, outcome.number));
    answer.words(b"\n");
}

// Says the line of a planner's answer; no plan of ours has more bytes than a u16 counts.
fn say_planned(answer: &mut Answer, planned: Planned)
    ensures { Says 256 answer.old (planned_line planned) answer.new }
{
    if planned.outcome.number != 0 {
        return say_refused(answer, planned.outcome);
    }
    let slots = planned.slots;
    let colours = planned.colours as u16;
    let bytes = planned.bytes.min(65535) as u16;
    answer.counted(b"planned ", slots);
    answer.counted(b" slots, ", colours);
    answer.counted(b" colours, ", bytes);
    answer.words(b" bytes\n");
}

// Says the line of the answer of a mode's judge.
fn say_verdict(answer: &mut Answer, mode: Mode, judgement: Judgement)
    ensures { Says 256 answer.old (verdict_line mode judgement) answer.new }
{
    let verdict = judgement.verdict;
    if verdict.outcome.number != 0 {
        return say_blamed(answer, mode, verdict.outcome, judgement.names);
    }
    answer.counted(b"passed ", verdict.slots);
    answer.words(b" slots\n");
}

// Says which of two plans was chosen.
fn say_choice(answer: &mut Answer, choice: Choice)
    ensures { Says 256 answer.old (choice_line choice) answer.new }
{
    match choice {
        Choice::First => answer.words(b"first\n"),
        Choice::Second => answer.words(b"second\n"),
        Choice::Neither => answer.words(b"neither\n"),
    }
}

// Says the choice and the judge's answer on both plans.
fn say_chosen(answer: &mut Answer, choice: Choice, first: Judgement, second: Judgement)
    ensures { Says 256 answer.old (choice_text choice first second) answer.new }
{
    say_choice(answer, choice);
    answer.words(b"first: ");
    say_verdict(answer, Mode::Packets, first);
    answer.words(b"second: ");
    say_verdict(answer, Mode::Packets, second);
}

// Says the line of who writes a text, a sheet or a book, by how many bytes it has.
fn say_written(answer: &mut Answer, outcome: Outcome, bytes: usize)
    ensures { Says 256 answer.old (written_line outcome bytes) answer.new }
{
    if outcome.number != 0 {
        return say_refused(answer, outcome);
    }
    answer.words(b"written ");
    answer.long(bytes as u64);
    answer.words(b" bytes\n");
}

// Says the refusal of a text.
fn say_misread(answer: &mut Answer, number: u8, place: u64)
    ensures { Says 256 answer.old (misread_line number place) answer.new }
{
    answer.counted(b"refused ", number as u16);
    answer.words(b" ");
    answer.long(place);
    answer.words(b": ");
    say_of_any(answer, number);
    answer.words(b"\n");
}

// A refusal in words, at the start of a lent buffer; says how many bytes it has, 0 and nothing written where they do not fit.
pub fn refused(out: &mut [u8], outcome: Outcome) -> usize
    ensures part { (result ≤ length out.new) × (result ≡ length (take result out.new)) }
    ensures answer { result ≡ line_length out.old (refused_line outcome) }
    ensures buffer { out.new ≡ line_in out.old (refused_line outcome) }
{
    let mut answer = Answer::new();
    say_refused(&mut answer, outcome);
    said(out, &answer)
}

// The same of a planner's answer.
pub fn planned(out: &mut [u8], planned: Planned) -> usize
    ensures part { (result ≤ length out.new) × (result ≡ length (take result out.new)) }
    ensures answer { result ≡ line_length out.old (planned_line planned) }
    ensures buffer { out.new ≡ line_in out.old (planned_line planned) }
{
    let mut answer = Answer::new();
    say_planned(&mut answer, planned);
    said(out, &answer)
}

// The same of the answer of a mode's judge.
pub fn verdict(out: &mut [u8], mode: Mode, judgement: Judgement) -> usize
    ensures part { (result ≤ length out.new) × (result ≡ length (take result out.new)) }
    ensures answer { result ≡ line_length out.old (verdict_line mode judgement) }
    ensures buffer { out.new ≡ line_in out.old (verdict_line mode judgement) }
{
    let mut answer = Answer::new();
    say_verdict(&mut answer, mode, judgement);
    said(out, &answer)
}

// The same of a choice and the judge's answers on both plans.
pub fn chosen(out: &mut [u8], choice: Choice, first: Judgement, second: Judgement) -> usize
    ensures part { (result ≤ length out.new) × (result ≡ length (take result out.new)) }
    ensures answer { result ≡ line_length out.old (choice_text choice first second) }
    ensures buffer { out.new ≡ line_in out.old (choice_text choice first second) }
{
    let mut answer = Answer::new();
    say_chosen(&mut answer, choice, first, second);
    said(out, &answer)
}

// The same of the answer of who writes a text, a sheet or a book.
pub fn written(out: &mut [u8], outcome: Outcome, bytes: usize) -> usize
    ensures part { (result ≤ length out.new) × (result ≡ length (take result out.new)) }
    ensures answer { result ≡ line_length out.old (written_line outcome bytes) }
    ensures buffer { out.new ≡ line_in out.old (written_line outcome bytes) }
{
    let mut answer = Answer::new();
    say_written(&mut answer, outcome, bytes);
    said(out, &answer)
}

// The same of a text that is refused.
pub fn misread(out: &mut [u8], number: u8, place: u64) -> usize
    ensures part { (result ≤ length out.new) × (result ≡ length (take result out.new)) }
    ensures answer { result ≡ line_length out.old (misread_line number place) }
    ensures buffer { out.new ≡ line_in out.old (misread_line number place) }
{
    let mut answer = Answer::new();
    say_misread(&mut answer, number, place);
    said(out, &answer)
}
