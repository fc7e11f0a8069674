// A plan is read slot by slot, and each slot's number is put into the lists of who sends and of who hears in it.
#![tactic(auto)]

ghost use Rattle.std.specs.Prelude.{◌≡◌, ◌+◌, ◌≤◌, length};
ghost use Rattle.meaning.specs.Plan.{senders_at, slots_from};
ghost use Rattle.slot.specs.Place.{slot_at};
ghost use Rattle.reader.specs.Noted.{two_set, noted, noted_sender, noted_slot, noted_slots};

use meaning::Slot;

// Puts a number at a place, two bytes, high first.
fn put_two(place: usize, number: u16, book: &mut [u8])
    requires { place + 2 ≤ length book.old }
    ensures { book.new ≡ two_set place number book.old }
{
    book[place..place + 2].copy_from_slice(&number.to_be_bytes());
}

// A slot more in the list at a place, which begins with its count; nothing where the list has no room.
fn note(place: usize, slot: Slot, book: &mut [u8])
    ensures { book.new ≡ noted place slot.0 book.old }
{
    let room = book.len();
    if room < 4 || room - 4 < place {
        return;
    }
    let many = u16::from_be_bytes([book[place], book[place + 1]]);
    let behind = place + 2 + 2 * (many as usize);
    if room - 2 < behind || many == u16::MAX {
        return;
    }
    put_two(behind, slot.0, book);
    put_two(place, many + 1, book);
}

// A slot more in a sender's own list, and in that of what its parent hears; a sender that is no node has neither.
fn note_sender(places: &[usize; 130], slot: Slot, sender: u8, book: &mut [u8])
    ensures { book.new ≡ noted_sender places.now slot.0 sender book.old }
{
    if 65 <= sender {
        return;
    }
    let at = 2 * (sender as usize);
    note(places[at], slot, book);
    note(places[at + 1], slot, book);
}

// The same for each sender of a slot.
fn note_slot(places: &[usize; 130], slot: Slot, senders: &[u8], book: &mut [u8])
    ensures { book.new ≡ noted_slot places.now slot.0 senders.now book.old }
{
    for sender in senders {
        note_sender(places, slot, *sender, book);
    }
}

// A plan, and where its next slot begins.
#[derive(Clone, Copy)]
pub struct Reader<'a> {
    pub plan: &'a [u8],
    pub at: usize,
}

impl<'a> Reader<'a> {
    // A reader at the first slot of a plan, which begins behind their number.
    fn open(plan: &'a [u8]) -> Self
        ensures same_reference { result.plan ≡ plan.entry }
        ensures same_plan { result.plan.now ≡ plan.now }
        ensures place { result.at ≡ 2 }
    {
        Reader { plan, at: 2 }
    }

    // The senders of the slot that a reader is at.
    fn senders(self) -> &'a [u8]
        ensures { result.now ≡ senders_at self.entry.plan.now self.entry.at }
    {
        slot::senders_at(self.plan, self.at)
    }

    // The reader behind that slot.
    fn behind(self) -> Self
        ensures same_reference { result.plan ≡ self.entry.plan }
        ensures same_plan { result.plan.now ≡ self.entry.plan.now }
        ensures place { result.at ≡ (slot_at self.entry.plan.now self.entry.at).next }
    {
        let here = slot::slot_at(self.plan, self.at);
        Reader {
            plan: self.plan,
            at: here.next,
        }
    }
}

// Puts the number of each of a plan's slots, counted from 1, into the lists of who sends and of who hears in it. The places are flat, two a node, as its contract reads them.
pub fn note_slots(plan: &[u8], many: u16, places: &[usize; 130], book: &mut [u8])
    ensures { book.new ≡ noted_slots places.now 1 (slots_from plan.now 2 many) book.old }
{
    let mut r = Reader::open(plan);
    for k in 0..many {
        note_slot(places, Slot(k + 1), r.senders(), book);
        r = r.behind();
    }
}
