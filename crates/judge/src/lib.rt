// The judge, of packets and of merged readings: a sheet and anybody's plan in, the verdict and whom it names out.
#![tactic(auto)]

ghost use Rattle.std.specs.Prelude.{◌≡◌, true, Err, is_ok, ◌≤◌, length};
ghost use Rattle.meaning.specs.declared.Mode.TheVariants.{Merged};
ghost use Rattle.meaning.specs.Returned.{number_of};
ghost use Rattle.meaning.specs.Judge.{judgement_in, judgement};
ghost use Rattle.meaning.specs.Results.{tested_answer, judge_answer};
ghost use Rattle.meaning.specs.Legal.{GoodIn, Good};
ghost use Rattle.meaning.specs.Merged.{MergedGood};
ghost use Rattle.judge.specs.SlotTurn.{judging, judging_from, names_in, unnamed_at};
ghost use Rattle.judge.specs.InYard.{Ready, Named, Comes, tested_in, slot_in, slots_in, plan_in, names_of};

use meaning::{Blame, Fault, Mode, Refusal, Slot};

// A refusal that names nobody.
fn unnamed(fault: Fault, place: u16) -> Blame
    ensures { tested_answer (Err result) ≡ unnamed_at (number_of fault) place }
{
    Blame::from(Refusal { fault, place })
}

// What a plan is judged by: what a reading brings in, the probes, their parents and who conflicts with whom.
#[derive(Clone, Copy)]
struct Yard<'a> {
    mode: Mode,
    probes: u8,
    parents: &'a [u8; 65],
    table: &'a [[bool; 65]; 65],
}

impl<'a> Yard<'a> {
    // 12 to 15 of one slot, by what may be sent of what is held: every packet, or the readings that are ready.
    fn tested(self, held: &[u16; 65], number: Slot, slot: &[u8]) -> Result<(), Blame>
        ensures { tested_answer result ≡ tested_in self.entry held.now number.0 slot.now }
    {
        // No `match` of both modes: the usual plan then took a tenth longer to judge.
        if let Mode::Merged = self.mode {
            let may = sending::ready(self.probes, self.parents, held);
            return slot::slot_tested(self.probes, self.table, &may, number, slot);
        }
        slot::slot_tested(self.probes, self.table, held, number, slot)
    }

    // The slot at a place, 11 first, which names nobody; a passed slot moves what its senders send, and says where the next begins.
    fn slot_judged(
        self,
        plan: &[u8],
        number: Slot,
        at: usize,
        held: &mut [u16; 65],
    ) -> Result<usize, Blame>
        requires inside { at ≤ length plan.now }
        requires ready { Ready self held.old }
        ensures answer { judging at held.new result ≡ slot_in self.entry plan.now number.0 (judging_from at held.old) }
        ensures names { Named self.entry plan.now (judging at held.new result) (names_in result) }
    {
        let here = slot::slot_at(plan, at);
        let first = here.first;
        let next = here.next;
        if plan.len() < next {
            return Err(unnamed(Fault::PlanShort, number.0));
        }
        let slot = &plan[first..next];
        self.tested(held, number, slot)?;
        sending::send(self.mode, self.parents, slot, held);
        Ok(next)
    }

    // The slots of a plan in order, up to the first that is refused; where the last ends.
    fn slots_judged(self, plan: &[u8], many: u16, held: &mut [u16; 65]) -> Result<usize, Blame>
        requires two { 2 ≤ length plan.now }
        requires ready { Ready self held.old }
        ensures { Comes self.entry plan.now (slots_in self.entry plan.now many (judging_from 2 held.old)) held.new result }
    {
        let mut at: usize = 2;
        for k in 0..many {
            at = self.slot_judged(plan, Slot(k + 1), at, held)?;
        }
        Ok(at)
    }

    // The slots of a plan, then 16, then 17.
    fn plan_judged_by(self, first: [u16; 65], plan: &[u8]) -> Result<(), Blame>
        requires two { 2 ≤ length plan.now }
        requires ready { Ready self first }
        ensures answer { (tested_answer result).outcome ≡ plan_in self.entry first plan.now }
        ensures names { (tested_answer result).names ≡ names_of self.entry first plan.now (tested_answer result).outcome.number }
    {
        let many = slot::slot_count(plan);
        let mut held = first;
        let end = self.slots_judged(plan, many, &mut held)?;
        if end < plan.len() {
            return Err(unnamed(Fault::PlanLong, many));
        }
        if slot::any_outside(self.probes, &held) {
            return Err(unnamed(Fault::PacketsLeft, many));
        }
        Ok(())
    }
}

// Judges a plan against a sheet: the sheet first, then the plan; says how many slots a passed plan has, or names whom a refused slot blames.
fn judgement_in(mode: Mode, sheet: &[u8], plan: &[u8]) -> Result<u16, Blame>
    ensures answer { judge_answer result ≡ judgement_in mode sheet.now plan.now }
    ensures exact { (is_ok result ≡ true → GoodIn mode sheet.now plan.now)
        × (GoodIn mode sheet.now plan.now → is_ok result ≡ true) }
{
    let tree = sheet::read(sheet)?;
    if plan.len() < 2 {
        return Err(unnamed(Fault::PlanShort, 0));
    }
    let probes = tree.probes;
    let parents = tree.parents;
    let table = tree.conflicts(sheet);
    let first = sending::first_held(mode, probes, tree.packets);
    let yard = Yard {
        mode,
        probes,
        parents: &parents,
        table: &table,
    };
    yard.plan_judged_by(first, plan)?;
    Ok(slot::slot_count(plan))
}

// Judges a plan that brings in every packet.
pub fn judgement(sheet: &[u8], plan: &[u8]) -> Result<u16, Blame>
    ensures answer { judge_answer result ≡ judgement sheet.now plan.now }
    ensures exact { (is_ok result ≡ true → Good sheet.now plan.now)
        × (Good sheet.now plan.now → is_ok result ≡ true) }
{
    judgement_in(Mode::Packets, sheet, plan)
}

// Judges a merged plan, in which each probe sends once, after all its children.
pub fn merged_judgement(sheet: &[u8], plan: &[u8]) -> Result<u16, Blame>
    ensures answer { judge_answer result ≡ judgement_in Merged sheet.now plan.now }
    ensures exact { (is_ok result ≡ true → MergedGood sheet.now plan.now)
        × (MergedGood sheet.now plan.now → is_ok result ≡ true) }
{
    judgement_in(Mode::Merged, sheet, plan)
}
