// What may be sent and where it goes, of packets and of merged readings: what is held at first, who is ready, and what a slot that is sent does to what is held.
#![tactic(auto)]

ghost use Rattle.std.specs.Prelude.{◌≡◌};
ghost use Rattle.meaning.specs.Words.{by_node, tab, places};
ghost use Rattle.meaning.specs.Rounds.{one_each, ready, goes_in, waits};
ghost use Rattle.laws.specs.Few.{at_most63};
ghost use Rattle.slot.specs.Move.{moved_within};
ghost use Rattle.sending.specs.First.{first_held};

use meaning::Mode;
use std::array;

// One reading of each probe, by node.
fn readings(p: u8) -> [u16; 65]
    ensures { result ≡ tab places (one_each (at_most63 p)) }
{
    let last = laws::at_most_63(p) as usize + 1;
    array::from_fn(|v| u16::from((2 <= v) & (v <= last)))
}

// What is held before the first slot, by node: the packets, or one reading of each probe, whatever its packets are.
pub fn first_held(mode: Mode, p: u8, packets: [u8; 65]) -> [u16; 65]
    ensures { result ≡ first_held mode (at_most63 p) packets }
{
    match mode {
        Mode::Packets => slot::wide(packets),
        Mode::Merged => readings(p),
    }
}

// Who waits for a child that has not sent yet, by node.
fn waiting(p: u8, parents: &[u8; 65], held: &[u16; 65]) -> [bool; 65]
    ensures { result ≡ tab places (waits (at_most63 p) (by_node parents.now) held.now) }
{
    let mut flags = [false; 65];
    for k in 0..laws::at_most_63(p) as usize {
        let up = parents[k + 2] as usize;
        if up < 65 {
            flags[up] |= 0 < held[k + 2];
        }
    }
    flags
}

// Who is ready, by node, as 1: has not sent yet, and all its children have.
pub fn ready(p: u8, parents: &[u8; 65], held: &[u16; 65]) -> [u16; 65]
    ensures { result ≡ ready (at_most63 p) (by_node parents.now) held.now }
{
    let waits = waiting(p, parents, held);
    array::from_fn(|v| u16::from((0 < held[v]) & !waits[v]))
}

// What a slot that is sent does to what is held: each packet goes to the sender's parent, each reading counts as brought in.
pub fn send(mode: Mode, parents: &[u8; 65], slot: &[u8], held: &mut [u16; 65])
    ensures { held.new ≡ moved_within (goes_in mode (by_node parents.now)) slot.now held.old }
{
    match mode {
        Mode::Packets => slot::move_packets(parents, slot, held),
        Mode::Merged => slot::move_packets(&[1u8; 65], slot, held),
    }
}
