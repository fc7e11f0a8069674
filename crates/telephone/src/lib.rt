// The telephone: how long a reading takes, told of a sheet before anything is sent. The theorems about it stand in proofs/Limits.antt.
#![tactic(auto)]

ghost use Rattle.std.specs.Prelude.{◌≡◌, ◌*◌, min};
ghost use Rattle.meaning.specs.Telephone.{times_any, asked};
ghost use Rattle.meaning.specs.Results.{told_answer};

use meaning::{Limits, Refusal};

// Colours times the packets and the lag of the slowest branch, or the hops where they are fewer.
fn at_most(colours: u8, slowest: u16, hops: u32) -> u32
    ensures { result ≡ min (colours * slowest) hops }
{
    let product = colours as u32 * slowest as u32;
    hops.min(product)
}

// Our slots by the fewest of any plan, rounded up, or the colours where they are fewer; 0 where no slot is needed.
fn times_any(colours: u8, ours: u16, least: u16) -> u8
    ensures { result ≡ times_any colours ours least }
{
    if least == 0 {
        return 0;
    }
    let fewest = least as u32;
    let quotient = (ours as u32 + (fewest - 1)) / fewest;
    quotient.min(colours as u32) as u8
}

// The slots of any sheet at least, in our plan by probe and at most, and how many times anybody's ours is, or the refusal.
pub fn ask(sheet: &[u8]) -> Result<Limits, Refusal>
    ensures { told_answer result ≡ asked sheet.now }
{
    let mut buf = [0u8; meaning::ANY_PLAN];
    let plan = plan::by_probe(sheet, &mut buf)?;
    let tree = sheet::read(sheet)?;
    let least = branch::least_slots(&tree);
    let slowest = branch::slowest(&tree);
    let most = at_most(plan.colours, slowest, tree.hops) as u16;
    let times = times_any(plan.colours, plan.slots, least);
    Ok(Limits {
        least,
        ours: plan.slots,
        most,
        times,
    })
}
