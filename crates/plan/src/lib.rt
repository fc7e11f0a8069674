// The planners of packets, by probe and by level, and of merged readings: a sheet and a lent buffer in, the plan or a numbered refusal out.
#![tactic(auto)]

ghost use Rattle.std.specs.Prelude.{◌≡◌, cond, eqb, ltb, length, get_or};
ghost use Rattle.meaning.specs.Words.{tab, places};
ghost use Rattle.meaning.specs.Plan.{room_for, front};
ghost use Rattle.meaning.specs.Answer.{given, plan_made_in, plan_made, merged_made};
ghost use Rattle.meaning.specs.Results.{test_answer, plan_answer, Answers};
ghost use Rattle.sheet.specs.Tree.{tree_of};
ghost use Rattle.meaning.specs.Rounds.{rounds, by_probe_in, by_probe, by_level};
ghost use Rattle.plan.specs.ColourTurn.{Ready, Turned};
ghost use Rattle.plan.specs.TurnByTurn.{goes_by, way_by, from, turn_on, round_by, Going, held_by, sendings_by, slots_by, ToFill, Filled};
ghost use Rattle.plan.specs.Answered.{ground_test, slots_on, Finished};

use meaning::{Colour, Fault, Mode, Plan, Refusal};
use sheet::Tree;
use std::array;

// What was written into the rest of a buffer.
#[derive(Clone, Copy)]
struct Made {
    bytes: usize,
    slots: usize,
}

// How many slots a turn made that took so many bytes.
fn slots_in(bytes: usize) -> usize
    ensures { result ≡ cond (eqb bytes 0) 0 1 }
{
    usize::from(bytes != 0)
}

// What a planner goes by: what a reading brings in, the probes, their parents, who conflicts with whom, their colours, and how many colours there are.
#[derive(Clone, Copy)]
struct Way<'a> {
    mode: Mode,
    probes: u8,
    parents: &'a [u8; 65],
    table: &'a [[bool; 65]; 65],
    own: &'a [u8; 65],
    colours: u8,
}

impl<'a> Way<'a> {
    // The turn of colour s: writes the slot of those that may send at the start of the rest and sends it; says how many bytes it took, 0 where there is no slot.
    fn turn(&self, s: Colour, held: &mut [u16; 65], rest: &mut [u8]) -> usize
        requires { Ready self.now.probes (goes_by self.now) held.old (length rest.old) }
        ensures { Turned (goes_by self.now) (turn_on self.now s.0 held.old) held.old held.new rest.old rest.new result }
    {
        let p = self.probes;
        let bytes = match self.mode {
            Mode::Packets => chosen::write_slot(rest, p, self.table, self.own, s, held),
            Mode::Merged => {
                let ready = sending::ready(p, self.parents, held);
                chosen::write_slot(rest, p, self.table, self.own, s, &ready)
            }
        };
        if bytes == 0 {
            return 0;
        }
        sending::send(self.mode, self.parents, &rest[1..bytes], held);
        bytes
    }

    // A round: the turn of each colour, each slot into the rest that begins where the last ended.
    fn round(&self, held: &mut [u16; 65], rest: &mut [u8]) -> Made
        requires { Ready self.now.probes (goes_by self.now) held.old (length rest.old) }
        ensures { Going self.now.probes (goes_by self.now) (round_by self.now held.old)
            held.new rest.old rest.new result.bytes result.slots }
    {
        let mut at: usize = 0;
        let mut slots: usize = 0;
        for s in 0..self.colours {
            let bytes = self.turn(Colour(s + 1), held, &mut rest[at..]);
            at += bytes;
            slots += slots_in(bytes);
        }
        Made { bytes: at, slots }
    }

    // Rounds while anything is outside the gateway, as many as sendings at most.
    fn run(&self, sendings: u32, held: &mut [u16; 65], rest: &mut [u8]) -> Made
        requires { Ready self.now.probes (goes_by self.now) held.old (length rest.old) }
        ensures { Going self.now.probes (goes_by self.now) (rounds (way_by self.now) sendings (from held.old))
            held.new rest.old rest.new result.bytes result.slots }
    {
        let mut at: usize = 0;
        let mut slots: usize = 0;
        for r in 0..sendings {
            if !slot::any_outside(self.probes, held) {
                return Made { bytes: at, slots };
            }
            let more = self.round(held, &mut rest[at..]);
            at += more.bytes;
            slots += more.slots;
        }
        Made { bytes: at, slots }
    }

    // Writes the plan: its slots behind two bytes, and then their number into those.
    fn fill(&self, packets: [u8; 65], sendings: u32, buf: &mut [u8]) -> Made
        requires { ToFill self.now.mode self.now.probes self.now.parents.now packets (length buf.old) }
        ensures { Filled (slots_by (way_by self.now) sendings (held_by self.now.mode self.now.probes packets))
            buf.old buf.new result.bytes result.slots }
    {
        let mut held = sending::first_held(self.mode, self.probes, packets);
        let made = self.run(sendings, &mut held, &mut buf[2..]);
        let bytes = made.bytes;
        let slots = made.slots;
        buf[0] = (slots / 256 % 256) as u8;
        buf[1] = (slots % 256) as u8;
        let end = bytes + 2;
        Made { bytes: end, slots }
    }
}

// How many sendings bring everything in: the hops, or one a probe.
fn sendings_in(mode: Mode, tree: &Tree) -> u32
    ensures { result ≡ sendings_by mode tree.now.probes tree.now.hops }
{
    match mode {
        Mode::Packets => tree.hops,
        Mode::Merged => u32::from(tree.probes),
    }
}

// Two bytes for the number of slots and two for each sending are room enough.
fn room_test(room: usize, sendings: u32) -> Result<(), Refusal>
    ensures { test_answer result ≡ given 9 0 (ltb room (room_for sendings)) }
{
    if room < 2 + 2 * (sendings as usize) {
        return Err(Refusal {
            fault: Fault::PlanRoom,
            place: 0,
        });
    }
    Ok(())
}

// Reads the sheet and tests the room.
fn prepare(mode: Mode, sheet: &[u8], room: usize) -> Result<Tree, Refusal>
    ensures { Answers (ground_test mode sheet.now room) (tree_of sheet.now) result }
{
    let tree = sheet::read(sheet)?;
    room_test(room, sendings_in(mode, &tree))?;
    Ok(tree)
}

// Fills the buffer with the plan and answers for it. The table comes by value, as docs/RULES.md has it of planning.
fn finish(
    mode: Mode,
    tree: Tree,
    table: [[bool; 65]; 65],
    own: [u8; 65],
    m: u8,
    buf: &mut [u8],
) -> Result<Plan, Refusal>
    requires { ToFill mode tree.probes tree.parents tree.packets (length buf.old) }
    ensures { Finished (slots_on mode tree table own m) m buf.old buf.new (plan_answer result) }
{
    let way = Way {
        mode,
        probes: tree.probes,
        parents: &tree.parents,
        table: &table,
        own: &own,
        colours: m,
    };
    let made = way.fill(tree.packets, sendings_in(mode, &tree), buf);
    let slots = made.slots;
    if 65535 < slots {
        return Err(Refusal {
            fault: Fault::TooManySlots,
            place: 0,
        });
    }
    Ok(Plan {
        colours: way.colours,
        slots: slots as u16,
        bytes: made.bytes,
    })
}

// Each probe's colour, where levels are coloured: that of its level.
fn colours_by_level(levels: [u8; 65], colours: [u8; 65]) -> [u8; 65]
    ensures { result ≡ tab places (λ v. get_or colours (get_or levels v 0) 0) }
{
    array::from_fn(|v| laws::number_at(&colours, levels[v] as usize))
}

// The plan by probe of any sheet, of packets or of merged readings, into any buffer, or a numbered refusal.
fn by_probe_in(mode: Mode, sheet: &[u8], buf: &mut [u8]) -> Result<Plan, Refusal>
    ensures answer { plan_answer result ≡ (plan_made_in mode (by_probe_in mode) sheet.now (length buf.old)).answer }
    ensures buffer { buf.new
        ≡ front buf.old (plan_made_in mode (by_probe_in mode) sheet.now (length buf.old)).written }
{
    let tree = prepare(mode, sheet, buf.len())?;
    let p = tree.probes;
    let table = tree.conflicts(sheet);
    let own = colour::colouring(table, 2, p);
    let m = colour::used(own);
    finish(mode, tree, table, own, m, buf)
}

// The plan by probe of any sheet, into any buffer, or a numbered refusal.
pub fn by_probe(sheet: &[u8], buf: &mut [u8]) -> Result<Plan, Refusal>
    ensures answer { plan_answer result ≡ (plan_made by_probe sheet.now (length buf.old)).answer }
    ensures buffer { buf.new ≡ front buf.old (plan_made by_probe sheet.now (length buf.old)).written }
{
    by_probe_in(Mode::Packets, sheet, buf)
}

// The plan of merged readings of any sheet, into any buffer, or a numbered refusal.
pub fn merged(sheet: &[u8], buf: &mut [u8]) -> Result<Plan, Refusal>
    ensures answer { plan_answer result ≡ (merged_made sheet.now (length buf.old)).answer }
    ensures buffer { buf.new ≡ front buf.old (merged_made sheet.now (length buf.old)).written }
{
    by_probe_in(Mode::Merged, sheet, buf)
}

// The plan by level of any sheet, into any buffer, or a numbered refusal.
pub fn by_level(sheet: &[u8], buf: &mut [u8]) -> Result<Plan, Refusal>
    ensures answer { plan_answer result ≡ (plan_made by_level sheet.now (length buf.old)).answer }
    ensures buffer { buf.new ≡ front buf.old (plan_made by_level sheet.now (length buf.old)).written }
{
    let tree = prepare(Mode::Packets, sheet, buf.len())?;
    let p = tree.probes;
    let levels = tree.levels;
    let table = tree.conflicts(sheet);
    let depth = tree.depth();
    let above = conflict::level_table(p, levels, table);
    let colours = colour::colouring(above, 1, depth.0);
    let own = colours_by_level(levels, colours);
    let m = colour::used(colours);
    finish(Mode::Packets, tree, table, own, m, buf)
}
