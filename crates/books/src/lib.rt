// Wake books by the program's arguments: a plan's book written to a file, or said in words, a line for each probe.
#![tactic(auto)]

ghost use Rattle.std.specs.Prelude.{◌≤◌, length};
ghost use Rattle.meaning.specs.Book.{any_book, book_made};
ghost use Rattle.files.specs.Status.{answered, refused, status_of, OrFailed};

use files::{Answer, Status, Stream, within};
use meaning::{Blame, Judgement, Mode, Probe};

// Room for the words of any book: six bytes for each of its slots, and sixty for what else a line has.
const ANY_WORDS: usize = 361000;

// Says why there is no book, in the judge's words.
fn say_refused(rt: &HostRuntime, to: Stream, blame: Blame) -> Status
    ensures { OrFailed refused result }
{
    let mut line = [0u8; wording::ANY_ANSWER];
    let m = wording::verdict(&mut line, Mode::Packets, Judgement::from(Err(blame)));
    files::say(rt, to, &line[..m], Ok(Answer::Refused))
}

// Writes a book that was made to its file, and says how long it is.
fn write_made(rt: &HostRuntime, to: Stream, out: usize, book: &[u8]) -> Status
    ensures { OrFailed answered result }
{
    files::write_file(rt, to, out, book)?;
    let mut line = [0u8; wording::ANY_ANSWER];
    let m = wording::written(&mut line, meaning::ACCEPTED, book.len());
    files::say(rt, to, &line[..m], Ok(Answer::Answered))
}

// Writes the book of a plan to its file, and says how long it is; a refusal leaves the file alone.
pub fn write_book(rt: &HostRuntime, to: Stream, out: usize, sheet: &[u8], plan: &[u8]) -> Status
    ensures { OrFailed (status_of (book_made sheet.now plan.now any_book).answer.outcome) result }
{
    let mut book = files::room::<{ meaning::ANY_BOOK }>();
    match book::wake_book(sheet, plan, &mut book) {
        Ok(bytes) => {
            let n = within(bytes, &book);
            write_made(rt, to, out, &book[..n])
        }
        Err(blame) => say_refused(rt, to, blame),
    }
}

// Puts the line of each probe of a book at the start of a text; says where they end.
fn put_lines(book: &[u8], text: &mut [u8]) -> usize
    ensures { result ≤ length text.new }
{
    let mut at = 0;
    let mut end = 0;
    for probe in 2..65 {
        if book.len() <= at {
            break;
        }
        end += waking::wake_line(Probe(probe), &book[at..], &mut text[end..]);
        at += waking::entry_length(&book[at..]);
    }
    end
}

// Says the lines of a book that was made.
fn say_made(rt: &HostRuntime, book: &[u8]) -> Status
    ensures { OrFailed answered result }
{
    let mut text = [0u8; ANY_WORDS];
    let m = put_lines(book, &mut text);
    files::say(rt, Stream::Output, &text[..m], Ok(Answer::Answered))
}

// Says the book of a plan, a line for each probe.
pub fn say_book(rt: &HostRuntime, sheet: &[u8], plan: &[u8]) -> Status
    ensures { OrFailed (status_of (book_made sheet.now plan.now any_book).answer.outcome) result }
{
    let mut book = files::room::<{ meaning::ANY_BOOK }>();
    match book::wake_book(sheet, plan, &mut book) {
        Ok(bytes) => {
            let n = within(bytes, &book);
            say_made(rt, &book[..n])
        }
        Err(blame) => say_refused(rt, Stream::Output, blame),
    }
}
