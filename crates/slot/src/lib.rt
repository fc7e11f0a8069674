// What is done with a slot: where it stands in a plan, its test, moving its packets, and whether any packet is outside the gateway.
#![tactic(auto)]

ghost use Rattle.std.specs.Prelude.{◌≡◌, ◌+◌, ◌-◌, ◌≤◌, ◌<◌, Err, length, get_or};
ghost use Rattle.meaning.specs.Words.{by_node, least};
ghost use Rattle.meaning.specs.Yard.{is_probe};
ghost use Rattle.meaning.specs.Sheet.{two_at};
ghost use Rattle.meaning.specs.Plan.{senders_at};
ghost use Rattle.meaning.specs.Conflict.{entry};
ghost use Rattle.meaning.specs.Rounds.{outside};
ghost use Rattle.meaning.specs.Judge.{no_probe, not_rising, no_packet, slot_tested};
ghost use Rattle.meaning.specs.Returned.{number_of};
ghost use Rattle.meaning.specs.Results.{tested_answer};
ghost use Rattle.laws.specs.Few.{at_most63};
ghost use Rattle.slot.specs.Place.{slot_at};
ghost use Rattle.slot.specs.SlotSenders.{Nodes, first_two, blaming, lone_tested};
ghost use Rattle.slot.specs.Move.{hop_within, moved_within};

use meaning::{Blame, Fault, Names, Probe, Refusal, Slot};

// Where a slot stands in a plan.
#[derive(Clone, Copy)]
pub struct SlotAt {
    pub first: usize,
    pub many: usize,
    pub next: usize,
}

// The slot at a place of a plan; a place past the end counts as the end.
pub fn slot_at(plan: &[u8], at: usize) -> SlotAt
    ensures { result ≡ slot_at plan.now at }
{
    let end = plan.len();
    if end <= at {
        return SlotAt {
            first: end + 1,
            many: 0,
            next: end + 1,
        };
    }
    let many = plan[at] as usize;
    SlotAt {
        first: at + 1,
        many,
        next: at + 1 + many,
    }
}

// The senders of the slot at a place of a plan: those that stand there where the plan cuts it short, none past its end.
pub fn senders_at(plan: &[u8], at: usize) -> &[u8]
    ensures { result.now ≡ senders_at plan.now at }
{
    let end = plan.len();
    if end <= at {
        return &plan[end..];
    }
    let first = at + 1;
    let next = first + plan[at] as usize;
    if end < next {
        return &plan[first..];
    }
    &plan[first..next]
}

// How many slots a plan says it has.
pub fn slot_count(plan: &[u8]) -> u16
    ensures answer { result ≡ two_at plan.now 0 }
    ensures bytes { (get_or plan.now 0 0 < 256) × (get_or plan.now 1 0 < 256) }
{
    u16::from_be_bytes([laws::number_at(plan, 0), laws::number_at(plan, 1)])
}

// Whether a sender is one of the probes 2 to p + 1, by one comparison: 254 for less 2, which wraps a byte below 2 above any p.
fn is_probe(p: u8, sender: u8) -> bool
    requires { p ≤ 63 }
    ensures { result ≡ is_probe p sender }
{
    (sender as u16 + 254) % 256 < p as u16
}

// The four searches count by hand and say a number for none: with position, for and Option judging took up to 1.7 times as long.
// 12: the place of the first sender that is no probe, or their number where none is.
fn no_probe(p: u8, slot: &[u8]) -> usize
    ensures { result ≡ least (length slot.now) (no_probe (at_most63 p) slot.now) }
{
    let probes = laws::at_most_63(p);
    let mut i = 0;
    while i < slot.len() {
        if !is_probe(probes, slot[i]) {
            return i;
        }
        i += 1;
    }
    i
}

// 13: the place of the first sender that is not above the one before, or what is behind the last.
fn not_rising(slot: &[u8]) -> usize
    ensures { result ≡ least (length slot.now - 1) (not_rising slot.now) + 1 }
{
    let mut i = 0;
    while i + 1 < slot.len() {
        if slot[i + 1] <= slot[i] {
            return i + 1;
        }
        i += 1;
    }
    i + 1
}

// 14: the place of the first sender that holds no packet, or their number where each does.
fn no_packet(held: &[u16; 65], slot: &[u8]) -> usize
    requires { Nodes slot.now }
    ensures { result ≡ least (length slot.now) (no_packet held.now slot.now) }
{
    let mut i = 0;
    while i < slot.len() {
        let v = slot[i] as usize;
        if held[v] == 0 {
            return i;
        }
        i += 1;
    }
    i
}

// The places of two senders; their number, twice, where there are no such two.
#[derive(Clone, Copy)]
struct Two {
    first: usize,
    second: usize,
}

// 15: the first two senders that conflict; it stops there.
fn two_conflict(table: &[[bool; 65]; 65], slot: &[u8]) -> Two
    requires { Nodes slot.now }
    ensures { result ≡ first_two (entry table.now) slot.now }
{
    let mut first = slot.len();
    let mut second = slot.len();
    let mut i = 0;
    'pairs: while i + 1 < slot.len() {
        let x = slot[i] as usize;
        let mut j = i + 1;
        while j < slot.len() {
            let y = slot[j] as usize;
            if table[x][y] {
                first = i;
                second = j;
                break 'pairs;
            }
            j += 1;
        }
        i += 1;
    }
    Two { first, second }
}

// A fault at its slot, and whom it names.
fn blamed(fault: Fault, slot: Slot, first: u8, second: u8) -> Blame
    ensures { tested_answer (Err result) ≡ blaming (number_of fault) slot.0 first second }
{
    Blame {
        refusal: Refusal {
            fault,
            place: slot.0,
        },
        names: Names { first, second },
    }
}

// 12 and 14 of a slot with one sender, the usual slot of a crowded yard: 13 and 15 want two.
fn lone_tested(p: u8, held: &[u16; 65], number: Slot, sender: u8) -> Result<(), Blame>
    ensures { tested_answer result ≡ lone_tested (at_most63 p) held.now number.0 sender }
{
    if !is_probe(laws::at_most_63(p), sender) {
        return Err(blamed(Fault::NoProbe, number, sender, 0));
    }
    let node = sender as usize;
    if held[node] == 0 {
        return Err(blamed(Fault::NoPacket, number, sender, 0));
    }
    Ok(())
}

// 12 to 15 of one slot, each over the whole slot before the next, and whom the number names.
pub fn slot_tested(
    p: u8,
    table: &[[bool; 65]; 65],
    held: &[u16; 65],
    number: Slot,
    slot: &[u8],
) -> Result<(), Blame>
    ensures { tested_answer result ≡ slot_tested (at_most63 p) (entry table.now) held.now number.0 slot.now }
{
    let many = slot.len();
    if many == 1 {
        return lone_tested(p, held, number, slot[0]);
    }
    let stranger = no_probe(p, slot);
    if stranger < many {
        return Err(blamed(Fault::NoProbe, number, slot[stranger], 0));
    }
    let later = not_rising(slot);
    if later < many {
        return Err(blamed(Fault::NotAbove, number, slot[later], 0));
    }
    let empty = no_packet(held, slot);
    if empty < many {
        return Err(blamed(Fault::NoPacket, number, slot[empty], 0));
    }
    let two = two_conflict(table, slot);
    let first = two.first;
    let second = two.second;
    if first < many {
        return Err(blamed(Fault::Conflict, number, slot[first], slot[second]));
    }
    Ok(())
}

// Moves one packet of a sender to its parent; where one of them has no place, the sender no packet or the parent no room, nothing moves.
fn hop(parents: &[u8; 65], sender: Probe, held: &mut [u16; 65])
    ensures { held.new ≡ hop_within (by_node parents.now) sender.0 held.old }
{
    let from = sender.0 as usize;
    if 65 <= from {
        return;
    }
    let parent = parents[from];
    if 65 <= parent {
        return;
    }
    let up = parent as usize;
    if held[from] == 0 {
        return;
    }
    if 65535 <= held[up] {
        return;
    }
    held[from] -= 1;
    held[up] += 1;
}

// Moves a packet of each sender, in turn; a lone one needs no loop. It counts by hand, as the searches do, for their speed.
pub fn move_packets(parents: &[u8; 65], slot: &[u8], held: &mut [u16; 65])
    ensures { held.new ≡ moved_within (by_node parents.now) slot.now held.old }
{
    if slot.len() == 1 {
        hop(parents, Probe(slot[0]), held);
        return;
    }
    let mut i = 0;
    while i < slot.len() {
        hop(parents, Probe(slot[i]), held);
        i += 1;
    }
}

// Whether any packet is outside the gateway.
pub fn any_outside(p: u8, held: &[u16; 65]) -> bool
    ensures { result ≡ outside (at_most63 p) held.now }
{
    let probes = laws::at_most_63(p);
    for k in 0..probes {
        let v = (k + 2) as usize;
        if held[v] != 0 {
            return true;
        }
    }
    false
}

// The packets, as wide as what a node may come to hold.
pub fn wide(packets: [u8; 65]) -> [u16; 65]
    ensures { result ≡ packets }
{
    let mut held = [0u16; 65];
    for i in 0..65 {
        held[i] = packets[i] as u16;
    }
    held
}
