// Plans by the program's arguments: one that was made is written to its file, a judgement is said; and what is asked of merged readings.
#![tactic(auto)]

ghost use Rattle.std.specs.Prelude.{◌≡◌, length, replicate};
ghost use Rattle.meaning.specs.Plan.{any_merged, deciding_merged};
ghost use Rattle.meaning.specs.Answer.{merged_made};
ghost use Rattle.meaning.specs.Merged.{merged_asked};
ghost use Rattle.files.specs.Status.{status_of, OrFailed};

use files::{Answer, Status, Stream, within};
use meaning::{Judgement, MergedTold, Mode, Planned};

// Writes a plan that was made to its file, and says what it has; a refusal leaves the file alone.
pub fn write_planned(
    rt: &HostRuntime,
    to: Stream,
    out: usize,
    planned: Planned,
    plan: &[u8],
) -> Status
    ensures { OrFailed (status_of planned.outcome) result }
{
    if planned.outcome.number == 0 {
        let n = within(planned.bytes, plan);
        files::write_file(rt, to, out, &plan[..n])?;
    }
    let mut line = [0u8; wording::ANY_ANSWER];
    let m = wording::planned(&mut line, planned);
    files::say(rt, to, &line[..m], Ok(Answer::from(planned.outcome)))
}

// Says what a judge says of a plan.
pub fn say_judgement(rt: &HostRuntime, mode: Mode, judgement: Judgement) -> Status
    ensures { OrFailed (status_of judgement.verdict.outcome) result }
{
    let mut line = [0u8; wording::ANY_ANSWER];
    let m = wording::verdict(&mut line, mode, judgement);
    files::say(
        rt,
        Stream::Output,
        &line[..m],
        Ok(Answer::from(judgement.verdict.outcome)),
    )
}

// Room for as much of a merged plan as decides its verdict; all zeros.
pub fn merged_room() -> [u8; meaning::DECIDING_MERGED]
    ensures zeros { result ≡ replicate deciding_merged 0 }
    ensures long { deciding_merged ≡ length result }
{
    files::room::<{ meaning::DECIDING_MERGED }>()
}

// Writes the plan of merged readings to its file, and says what it has; a refusal leaves the file alone.
pub fn write_merged(rt: &HostRuntime, to: Stream, out: usize, sheet: &[u8]) -> Status
    ensures { OrFailed (status_of (merged_made sheet.now any_merged).answer.outcome) result }
{
    let mut plan = [0u8; meaning::ANY_MERGED];
    let planned = Planned::from(plan::merged(sheet, &mut plan));
    write_planned(rt, to, out, planned, &plan)
}

// Says how long a merged reading of the sheet takes, in minutes too where it is said how long a slot is.
pub fn say_merged_asked(rt: &HostRuntime, sheet: &[u8], ms: u16) -> Status
    ensures { OrFailed (status_of (merged_asked sheet.now).outcome) result }
{
    let told = MergedTold::from(merged::ask(sheet));
    let mut line = [0u8; wording::ANY_ANSWER];
    let m = dealer::merged_asked(&mut line, told, ms);
    files::say(
        rt,
        Stream::Output,
        &line[..m],
        Ok(Answer::from(told.outcome)),
    )
}
