// The lines that the lister prints: each function decides every byte of one, in a lent buffer.
#![tactic(auto)]

ghost use Rattle.std.specs.Prelude.{◌≡◌, [], ◌++◌, ◌+◌, ◌≤◌, leb, length};
ghost use Rattle.meaning.specs.Lister.{decimal, said, senders_text, refusal_line, numbers_line, slot_line};
ghost use Rattle.lines.specs.Text.{Says};
ghost use Rattle.lines.specs.Line.{line_length, line_in, Written, fitting, Put};

use meaning::{Outcome, Probe, Slot};
use std::marker::Model;

// Room for any answer.
pub const ANY_ANSWER: usize = 256;

// A text as it is said, piece by piece, with room for N bytes: what has no room is cut off.
#[derive(Drop)]
pub struct Text<const N: usize> {
    bytes: [u8; N],
    length: usize,
}

impl<const N: usize> Model for Text<N> {
    ghost use Rattle.std.specs.Prelude.{◌≤◌, List, ℕ, take};

    ghost Value = { List ℕ };

    ghost view = { λ t. take t.length t.bytes };

    ghost invariant = { λ t. t.length ≤ N };
}

impl<const N: usize> Text<N> {
    pub fn new() -> Self
        ensures { result ≡ [] }
    {
        Text {
            bytes: [0; N],
            length: 0,
        }
    }

    // The bytes so far.
    pub fn as_slice(&self) -> &[u8]
        ensures { result.now ≡ self.now }
    {
        let all = &self.bytes[..];
        &all[..self.length]
    }

    // Says bytes.
    pub fn words(&mut self, bytes: &[u8])
        ensures { Says N self.old bytes.now self.new }
    {
        let at = self.length;
        let n = bytes.len().min(N - at);
        let all = &mut self.bytes[..];
        all[at..at + n].copy_from_slice(&bytes[..n]);
        self.length = at + n;
    }

    // Says a number, in decimal of at most so many digits.
    pub fn number(&mut self, most: u8, n: u64)
        ensures { Says N self.old (decimal most n) self.new }
    {
        if most == 0 {
            return self.words(b"");
        }
        if n < 10 {
            return self.words(&[48 + n as u8]);
        }
        self.number(most - 1, n / 10);
        self.words(&[48 + (n % 10) as u8]);
    }

    // Says a number of up to 20 digits.
    pub fn long(&mut self, n: u64)
        ensures { Says N self.old (decimal 20 n) self.new }
    {
        self.number(20, n);
    }

    // Says words and then a number.
    pub fn counted(&mut self, words: &[u8], n: u16)
        ensures { Says N self.old (words.now ++ decimal 5 n) self.new }
    {
        self.words(words);
        self.number(5, u64::from(n));
    }
}

// A text with room for any answer.
pub type Answer = Text<ANY_ANSWER>;

// What was said, at the start of a lent buffer; says how many bytes it has, 0 and nothing written where they do not fit.
pub fn said(out: &mut [u8], text: &Answer) -> usize
    ensures { Written out.old text.now out.new result }
{
    put_words(text.as_slice(), out, 0)
}

// Puts bytes at a place; says where they end.
fn put_text(bytes: &[u8], out: &mut [u8], at: usize) -> usize
    requires { at + length bytes.now ≤ length out.old }
    ensures { Put out.old at bytes.now out.new result }
{
    // Byte by byte: most are a byte or two, and `copy_from_slice` took graphs twice as long.
    for i in 0..bytes.len() {
        out[at + i] = bytes[i];
    }
    at + bytes.len()
}

// How many digits a number has, of which at most so many are said.
pub fn digits(most: u8, n: u64) -> u8
    ensures count { result ≡ length (decimal most n) }
    ensures few { result ≤ most }
{
    if most == 0 {
        return 0;
    }
    if n < 10 {
        return 1;
    }
    digits(most - 1, n / 10) + 1
}

// Puts a number's digits at a place, of at most so many; says where they end. Straight into the buffer: by a `Text` of their own, lists took up to 1.7 times as long.
fn put_digits(most: u8, n: u64, out: &mut [u8], at: usize) -> usize
    requires { at + length (decimal most n) ≤ length out.old }
    ensures { Put out.old at (decimal most n) out.new result }
{
    if most == 0 {
        return at;
    }
    if n < 10 {
        out[at] = 48 + n as u8;
        return at + 1;
    }
    let last = put_digits(most - 1, n / 10, out, at);
    out[last] = 48 + (n % 10) as u8;
    last + 1
}

// Puts a number at a place; says where it ends.
fn put_number(n: u16, out: &mut [u8], at: usize) -> usize
    requires { at + length (decimal 5 n) ≤ length out.old }
    ensures { Put out.old at (decimal 5 n) out.new result }
{
    put_digits(5, n as u64, out, at)
}

// Puts bytes at a place, or nothing where they do not all fit; says where they end. This and `put_counted` take a buffer and a place, not a `Text`: the texts of graphs and wake books are made in lent buffers of any length.
pub fn put_words(bytes: &[u8], out: &mut [u8], at: usize) -> usize
    ensures { Put out.old at (fitting out.old at bytes.now) out.new result }
{
    if out.len() < at {
        return at;
    }
    if out.len() - at < bytes.len() {
        return at;
    }
    put_text(bytes, out, at)
}

// Puts words and then a number at a place; says where they end.
fn put_said(words: &[u8], n: u16, out: &mut [u8], at: usize) -> usize
    requires { at + length (words.now ++ decimal 5 n) ≤ length out.old }
    ensures { Put out.old at (words.now ++ decimal 5 n) out.new result }
{
    let next = put_text(words, out, at);
    put_number(n, out, next)
}

// Puts words and then a number at a place, or nothing where they do not all fit; says where they end.
pub fn put_counted(words: &[u8], n: u16, out: &mut [u8], at: usize) -> usize
    ensures { Put out.old at (fitting out.old at (words.now ++ decimal 5 n)) out.new result }
{
    if out.len() < at {
        return at;
    }
    let room = out.len() - at;
    if room < words.len() {
        return at;
    }
    if room - words.len() < digits(5, n as u64) as usize {
        return at;
    }
    put_said(words, n, out, at)
}

fn say_refusal(text: &mut Answer, outcome: Outcome)
    ensures { Says 256 text.old (refusal_line outcome) text.new }
{
    let number = u16::from(outcome.number);
    text.counted(b"refused ", number);
    text.counted(b" ", outcome.place);
    text.words(b"\n");
}

// A refusal's line: its number and place.
pub fn refusal_line(outcome: Outcome, out: &mut [u8]) -> usize
    ensures answer { result ≡ line_length out.old (refusal_line outcome) }
    ensures buffer { out.new ≡ line_in out.old (refusal_line outcome) }
{
    let mut text = Answer::new();
    say_refusal(&mut text, outcome);
    said(out, &text)
}

fn say_numbers(text: &mut Answer, colours: u8, slots: u16, packets: u16, heaviest: u16, least: u16)
    ensures { Says 256 text.old (numbers_line colours slots packets heaviest least) text.new }
{
    let colours = u16::from(colours);
    text.counted(b"colours ", colours);
    text.counted(b" slots ", slots);
    text.counted(b" packets ", packets);
    text.counted(b" heaviest ", heaviest);
    text.counted(b" least ", least);
    text.words(b"\n");
}

// Line one: the colours, the slots, all packets, those of the heaviest branch, and the fewest slots of any plan.
pub fn numbers_line(
    colours: u8,
    slots: u16,
    packets: u16,
    heaviest: u16,
    least: u16,
    out: &mut [u8],
) -> usize
    ensures answer { result ≡ line_length out.old (numbers_line colours slots packets heaviest least) }
    ensures buffer { out.new ≡ line_in out.old (numbers_line colours slots packets heaviest least) }
{
    let mut text = Answer::new();
    say_numbers(&mut text, colours, slots, packets, heaviest, least);
    said(out, &text)
}

// Whether a slot's line has room.
fn slot_fits(number: Slot, senders: &[u8], room: usize) -> bool
    ensures { result ≡ leb (length (slot_line number.0 senders.now)) room }
{
    let n = number.0;
    let around = 2 + digits(5, n as u64) as usize;
    if room < around {
        return false;
    }
    let mut left = room - around;
    for v in senders {
        let need = 1 + digits(5, *v as u64) as usize;
        if left < need {
            return false;
        }
        left -= need;
    }
    true
}

// Puts a sender behind a space; says where it ends.
fn put_sender(v: Probe, out: &mut [u8], at: usize) -> usize
    requires { at + length (said "" v.0) ≤ length out.old }
    ensures { Put out.old at (said "" v.0) out.new result }
{
    put_said(b" ", v.0 as u16, out, at)
}

// Puts the senders of a slot at a place, each after a space; says where they end.
fn put_senders(senders: &[u8], out: &mut [u8], at: usize) -> usize
    requires { at + length (senders_text senders.now) ≤ length out.old }
    ensures { Put out.old at (senders_text senders.now) out.new result }
{
    let mut end = at;
    for v in senders {
        end = put_sender(Probe(*v), out, end);
    }
    end
}

// The line of one slot: its number and its senders, of which there may be more than a `Text` has room for.
pub fn slot_line(number: Slot, senders: &[u8], out: &mut [u8]) -> usize
    ensures answer { result ≡ line_length out.old (slot_line number.0 senders.now) }
    ensures buffer { out.new ≡ line_in out.old (slot_line number.0 senders.now) }
{
    if !slot_fits(number, senders, out.len()) {
        return 0;
    }
    let n = number.0;
    let at = put_number(n, out, 0);
    let colon = put_text(b":", out, at);
    let end = put_senders(senders, out, colon);
    put_text(b"\n", out, end)
}
