// The telephone of merged readings: how long one takes, told of a sheet before anything is sent. The theorems about it stand in proofs/MergedLimits.antt.
#![tactic(auto)]

ghost use Rattle.std.specs.Prelude.{◌≡◌, ◌*◌, min};
ghost use Rattle.meaning.specs.Merged.{merged_asked};
ghost use Rattle.meaning.specs.Results.{merged_told_answer};

use meaning::{MergedLimits, Refusal};

// Colours times depth, or the probes where they are fewer.
fn at_most(colours: u8, depth: u8, p: u8) -> u16
    ensures { result ≡ min (colours * depth) p }
{
    let product = colours as u16 * depth as u16;
    product.min(p as u16)
}

// The slots of a merged reading of any sheet at least, in our plan and at most, or the refusal.
pub fn ask(sheet: &[u8]) -> Result<MergedLimits, Refusal>
    ensures { merged_told_answer result ≡ merged_asked sheet.now }
{
    let mut buf = [0u8; meaning::ANY_MERGED];
    let plan = plan::merged(sheet, &mut buf)?;
    let tree = sheet::read(sheet)?;
    let depth = tree.depth();
    let most = at_most(plan.colours, depth.0, tree.probes);
    Ok(MergedLimits {
        least: depth.0 as u16,
        ours: plan.slots,
        most,
    })
}
