// A wake book as a person reads it: the line of each probe, from the bytes of its entry.
#![tactic(auto)]

ghost use Rattle.std.specs.Prelude.{◌≡◌, ◌++◌, ◌+◌, ◌≤◌, length, take};
ghost use Rattle.meaning.specs.Lister.{decimal};
ghost use Rattle.meaning.specs.Sheet.{two_at};
ghost use Rattle.meaning.specs.Book.{list_at, behind_list, slots_text, wake_line};
ghost use Rattle.lines.specs.Line.{line_length, line_in};
ghost use Rattle.lines.specs.Fits.{Fits};

use meaning::Probe;

// A line as it is said into a lent buffer, piece by piece, and where it ends.
#[derive(Drop)]
struct Line<'a> {
    out: &'a mut [u8],
    end: usize,
}

impl Line<'_> {
    // Says bytes.
    fn words(&mut self, bytes: &[u8])
        ensures same_reference { self.new.out.ghost_name ≡ self.old.out.ghost_name }
        ensures said { Fits self.old.out.now self.old.end bytes.now self.new.out.now self.new.end }
    {
        self.end = lines::put_words(bytes, self.out, self.end);
    }

    // Says words and then a number.
    fn counted(&mut self, words: &[u8], n: u16)
        ensures same_reference { self.new.out.ghost_name ≡ self.old.out.ghost_name }
        ensures said { Fits self.old.out.now self.old.end (words.now ++ decimal 5 n) self.new.out.now self.new.end }
    {
        self.end = lines::put_counted(words, n, self.out, self.end);
    }
}

// What two bytes at a place say, high first; a byte past the end is 0.
fn two_at(entry: &[u8], at: usize) -> u16
    requires { at ≤ 300000 }
    ensures { result ≡ two_at entry.now at }
{
    u16::from_be_bytes([laws::number_at(entry, at), laws::number_at(entry, at + 1)])
}

// Where the list behind the one at a place begins.
fn behind_list(entry: &[u8], at: usize) -> usize
    requires { at ≤ 131072 }
    ensures { (result ≡ behind_list entry.now at) × (result ≤ at + 131072) }
{
    at + 2 + 2 * (two_at(entry, at) as usize)
}

// How many bytes an entry has: its two lists.
pub fn entry_length(entry: &[u8]) -> usize
    ensures answer { result ≡ behind_list entry.now (behind_list entry.now 0) }
    ensures few { result ≤ 262144 }
{
    behind_list(entry, behind_list(entry, 0))
}

// How long the slots of the list at a place are in words.
fn slots_length(entry: &[u8], at: usize) -> usize
    requires { at ≤ 131072 }
    ensures { result ≡ length (slots_text (list_at entry.now at)) }
{
    let many = two_at(entry, at);
    if many == 0 {
        return 8;
    }
    let mut all = 0;
    for i in 0..many {
        let slot = two_at(entry, at + 2 + 2 * (i as usize));
        all += 1 + lines::digits(5, slot as u64) as usize;
    }
    all
}

// Says the slots of the list at a place.
fn say_slots(line: &mut Line, entry: &[u8], at: usize)
    requires { at ≤ 131072 }
    ensures same_reference { line.new.out.ghost_name ≡ line.old.out.ghost_name }
    ensures said { Fits line.old.out.now line.old.end (slots_text (list_at entry.now at)) line.new.out.now line.new.end }
{
    let many = two_at(entry, at);
    if many == 0 {
        return line.words(b" no slot");
    }
    for i in 0..many {
        let slot = two_at(entry, at + 2 + 2 * (i as usize));
        line.counted(b" ", slot);
    }
}

// The line of a probe, from the start of its entry on, at the start of a lent buffer; says how many bytes it has, 0 and nothing written where they do not fit.
pub fn wake_line(probe: Probe, entry: &[u8], out: &mut [u8]) -> usize
    ensures part { (result ≤ length out.new) × (result ≡ length (take result out.new)) }
    ensures answer { result ≡ line_length out.old
        (wake_line probe.0 (list_at entry.now 0) (list_at entry.now (behind_list entry.now 0))) }
    ensures buffer { out.new ≡ line_in out.old
        (wake_line probe.0 (list_at entry.now 0) (list_at entry.now (behind_list entry.now 0))) }
{
    let v = probe.0 as u16;
    let second = behind_list(entry, 0);
    let words = 28 + lines::digits(5, v as u64) as usize;
    let need = words + slots_length(entry, 0) + slots_length(entry, second);
    if out.len() < need {
        return 0;
    }
    let mut line = Line { out, end: 0 };
    line.counted(b"probe ", v);
    line.words(b" sends in");
    say_slots(&mut line, entry, 0);
    line.words(b", listens in");
    say_slots(&mut line, entry, second);
    line.words(b"\n");
    line.end
}
