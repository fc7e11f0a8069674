// The lister: the whole text that it prints for a sheet.
#![tactic(auto)]

ghost use Rattle.std.specs.Prelude.{◌≡◌, true, ◌≤◌, length, take};
ghost use Rattle.meaning.specs.Sheet.{all_packets, heaviest, least_slots};
ghost use Rattle.meaning.specs.Plan.{slots_from, front};
ghost use Rattle.meaning.specs.Answer.{is_accepted, sheet_test};
ghost use Rattle.meaning.specs.Lister.{slot_lines, numbers_line};
ghost use Rattle.lines.specs.Line.{line_length, line_in};
ghost use Rattle.listing.specs.Listed.{listed_length, listed_in};

use meaning::{Outcome, Slot};

// The lines of so many slots of a plan; says where they end.
fn slot_lines(plan: &[u8], slots: u16, out: &mut [u8]) -> usize
    requires { length (slot_lines 0 (slots_from plan.now 2 slots)) ≤ length out.old }
    ensures answer { result ≡ length (slot_lines 0 (slots_from plan.now 2 slots)) }
    ensures buffer { out.new ≡ front out.old (slot_lines 0 (slots_from plan.now 2 slots)) }
{
    let mut place: usize = 2;
    let mut at: usize = 0;
    for k in 0..slots {
        let senders = slot::senders_at(plan, place);
        at += lines::slot_line(Slot(k + 1), senders, &mut out[at..]);
        place += 1 + laws::number_at(plan, place) as usize;
    }
    at
}

// Line one of an accepted sheet.
fn first(sheet: &[u8], colours: u8, slots: u16, out: &mut [u8]) -> usize
    requires { is_accepted (sheet_test sheet.now) ≡ true }
    ensures answer { result
        ≡ line_length out.old (numbers_line colours slots (all_packets sheet.now) (heaviest sheet.now) (least_slots sheet.now)) }
    ensures buffer { out.new
        ≡ line_in out.old (numbers_line colours slots (all_packets sheet.now) (heaviest sheet.now) (least_slots sheet.now)) }
{
    let tree = sheet::read(sheet).unwrap();
    let all = branch::all_packets(&tree);
    let most = branch::heaviest(&tree);
    let least = branch::least_slots(&tree);
    lines::numbers_line(colours, slots, all, most, least, out)
}

// The whole text for a sheet, at the start of a lent buffer that has room for any; says how many bytes it has.
pub fn list(sheet: &[u8], out: &mut [u8]) -> usize
    ensures part { (result ≤ length out.new) × (result ≡ length (take result out.new)) }
    ensures answer { result ≡ listed_length sheet.now out.old }
    ensures buffer { out.new ≡ listed_in sheet.now out.old }
{
    if out.len() < meaning::ANY_TEXT {
        return 0;
    }
    let mut buf = [0u8; meaning::ANY_PLAN];
    let plan = match plan::by_probe(sheet, &mut buf) {
        Ok(plan) => plan,
        Err(refusal) => return lines::refusal_line(Outcome::from(refusal), out),
    };
    let slots = plan.slots;
    let head = first(sheet, plan.colours, slots, out);
    head + slot_lines(&buf, slots, &mut out[head..])
}
