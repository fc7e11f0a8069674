// Who sends in the slot of a colour, and the slot in bytes. `held` is what each node may send: the packets it holds, or 1 where its merged reading is ready.
#![tactic(auto)]

ghost use Rattle.std.specs.Prelude.{◌≡◌, not, ◌||◌, ◌&&◌, ◌≤◌, ◌<◌, length, MatchOption};
ghost use Rattle.meaning.specs.Words.{some, tab, places, by_node};
ghost use Rattle.meaning.specs.Plan.{front};
ghost use Rattle.meaning.specs.Conflict.{entry};
ghost use Rattle.meaning.specs.Rounds.{holds, owners_by_probe};
ghost use Rattle.laws.specs.Few.{at_most63};
ghost use Rattle.chosen.specs.TurnSlot.{turn_by, whole, turn_length, turn_in};
ghost use Rattle.chosen.specs.Kept.{flag, blocked_by, Considered, Joining, nobody, Chosen, NextFree, senders_by, Written};

use meaning::{Colour, Probe};
use std::array;

// Marks the probe that is chosen and all that conflict with it.
fn block(row: &[bool; 65], blocked: &mut [bool; 65])
    ensures { blocked.new ≡ tab places (λ k. flag blocked.old k || flag row.now k) }
{
    for (i, flag) in blocked.iter_mut().enumerate() {
        *flag |= row[i];
    }
}

// Who owns the slot of colour s, by node: has the colour and may send. All places and no branch: a compiler does many at once.
fn owning(own: &[u8; 65], s: Colour, held: &[u16; 65]) -> [bool; 65]
    ensures { result ≡ owners_by_probe (by_node own.now) s.0 (holds held.now) }
{
    let colour = s.0;
    array::from_fn(|i| (own[i] == colour) & (0 < held[i]))
}

// Whether any flag is up. `iter().any(..)` was tried: it looks at one place at a time, and plans took up to a quarter longer.
fn any_of(flags: &[bool; 65]) -> bool
    ensures { result ≡ some places (flag flags.now) }
{
    let mut any = false;
    for up in flags {
        any |= *up;
    }
    any
}

// Who is to send if its turn comes now, by node: an owner, or one that may and conflicts with no owner.
fn free_to_send(held: &[u16; 65], owners: &[bool; 65], blocked: &[bool; 65]) -> [bool; 65]
    ensures { result ≡ tab places (λ v. flag owners.now v || holds held.now v && not (flag blocked.now v)) }
{
    array::from_fn(|i| owners[i] | ((0 < held[i]) & !blocked[i]))
}

// One more sends: whoever conflicts with it is no longer free, but the owners stay.
fn shut(row: &[bool; 65], owners: &[bool; 65], free: &mut [bool; 65])
    ensures { free.new ≡ tab places (λ v. flag owners.now v || flag free.old v && not (flag row.now v)) }
{
    for (i, flag) in free.iter_mut().enumerate() {
        *flag = owners[i] | (*flag & !row[i]);
    }
}

// What a slot is made of: at most 63 probes, who conflicts with whom, and what each node may send.
#[derive(Clone, Copy)]
struct Turn<'a> {
    probes: u8,
    ghost few: { probes ≤ 63 },
    table: &'a [[bool; 65]; 65],
    held: &'a [u16; 65],
}

impl<'a> Turn<'a> {
    // The turn of probe v to be chosen: it is, if it may and conflicts with none chosen so far.
    fn consider(
        &self,
        may: &[bool; 65],
        v: Probe,
        chosen: &mut [bool; 65],
        blocked: &mut [bool; 65],
    )
        requires node { v.0 < 65 }
        requires known { blocked.old ≡ blocked_by (entry self.now.table.now) chosen.old }
        ensures { Considered (entry self.now.table.now) (flag may.now) v.0
            chosen.old chosen.new blocked.new }
    {
        let i = v.0 as usize;
        if !may[i] {
            return;
        }
        if blocked[i] {
            return;
        }
        chosen[i] = true;
        block(&self.table[i], blocked);
    }

    // Takes, in rising number, each probe that may and conflicts with none chosen so far.
    fn join(&self, may: &[bool; 65], chosen: &mut [bool; 65], blocked: &mut [bool; 65])
        requires { blocked.old ≡ blocked_by (entry self.now.table.now) chosen.old }
        ensures { Joining (entry self.now.table.now) (flag may.now) chosen.old self.now.probes chosen.new blocked.new }
    {
        for k in 0..self.probes {
            self.consider(may, Probe(k + 2), chosen, blocked);
        }
    }

    // Chooses the owners of the slot of colour s; says whether there is any. An Option of both arrays by value was tried, with `find` in next_free: plans took up to a seventh longer.
    fn choose(
        &self,
        own: &[u8; 65],
        s: Colour,
        chosen: &mut [bool; 65],
        blocked: &mut [bool; 65],
    ) -> bool
        requires fresh { chosen.old ≡ nobody }
        requires free { blocked.old ≡ nobody }
        ensures { Chosen self.now.probes self.now.table.now own.now s.0 self.now.held.now chosen.new blocked.new result }
    {
        let mine = owning(own, s, self.held);
        if !any_of(&mine) {
            return false;
        }
        self.join(&mine, chosen, blocked);
        any_of(chosen)
    }

    // The first place from k on, below the last probe's, whose probe is free to send, if there is one: nothing else is done on the way, since few are free. `find` was tried, see `choose`.
    fn next_free(&self, free: &[bool; 65], k: u8) -> Option<u8>
        requires { k ≤ self.now.probes }
        ensures { MatchOption result (NextFree free.now k self.now.probes self.now.probes) (λ j. (j < self.now.probes) × NextFree free.now k self.now.probes j) }
    {
        for j in k..self.probes {
            if free[j as usize + 2] {
                return Some(j);
            }
        }
        None
    }

    // Writes the slot of these owners, and of those that join them, at the start of the rest of the buffer; says how many bytes it took.
    fn write_senders(&self, rest: &mut [u8], owners: &[bool; 65], blocked: &[bool; 65]) -> usize
        requires known { blocked.now ≡ blocked_by (entry self.now.table.now) owners.now }
        requires room { 64 ≤ length rest.old }
        ensures { Written (senders_by self.now.probes self.now.table.now self.now.held.now owners.now) rest.old rest.new result }
    {
        let mut free = free_to_send(self.held, owners, blocked);
        rest[0] = 0;
        let mut n: usize = 0;
        let mut k: u8 = 0;
        while let Some(j) = self.next_free(&free, k) {
            n += 1;
            rest[n] = j + 2;
            shut(&self.table[(j + 2) as usize], owners, &mut free);
            k = j + 1;
        }
        rest[0] = n as u8;
        n + 1
    }
}

// Writes bytes at the start of the rest, and nothing where they do not fit; says how many.
fn put_whole(rest: &mut [u8], bytes: &[u8]) -> usize
    ensures answer { result ≡ length (whole rest.old bytes.now) }
    ensures rest { rest.new ≡ front rest.old (whole rest.old bytes.now) }
{
    if rest.len() < bytes.len() {
        return 0;
    }
    rest[..bytes.len()].copy_from_slice(bytes);
    bytes.len()
}

// Writes the slot of colour s at the start of the rest; says how many bytes it took, 0 and nothing written where nobody sends or it does not fit, not None: what a public function answers may not change.
pub fn write_slot(
    rest: &mut [u8],
    p: u8,
    table: &[[bool; 65]; 65],
    own: &[u8; 65],
    s: Colour,
    held: &[u16; 65],
) -> usize
    ensures answer { result ≡ turn_length rest.old (turn_by (at_most63 p) table.now own.now s.0 held.now) }
    ensures rest { rest.new
        ≡ turn_in rest.old (turn_by (at_most63 p) table.now own.now s.0 held.now) }
{
    let turn = Turn {
        probes: laws::at_most_63(p),
        table,
        held,
    };
    let mut chosen = [false; 65];
    let mut blocked = [false; 65];
    if !turn.choose(own, s, &mut chosen, &mut blocked) {
        return 0;
    }
    // Any slot fits into 64 bytes: only near a buffer's end it is written elsewhere first.
    if rest.len() < 64 {
        let mut slot = [0u8; 64];
        let bytes = turn.write_senders(&mut slot, &chosen, &blocked);
        return put_whole(rest, &slot[..bytes]);
    }
    turn.write_senders(rest, &chosen, &blocked)
}
