// The front door: answers, plans, judges, chooses, lists, makes wake books, merges readings, draws graphs and hangs the same probes otherwise, by file names.
// The first word of an answer is fixed, so that a script can go by it.
#![tactic(auto)]

ghost use Rattle.std.specs.Prelude.{◌<◌};

use files::{Answer, Failed, Status, Stream};
use meaning::{Blame, Choice, Judgement, Mode, Outcome, Plan, Planned, Refusal, Told};
use std::process::ExitCode;

// The arguments; in front of them stands what the starting script knows of an output (`files`).
const COMMAND: usize = 2;

const SHEET: usize = 3;

const PLAN: usize = 4;

const SECOND: usize = 5;

const OUT: usize = 6;

// What is asked for.
#[derive(Clone, Copy)]
enum Command {
    Ask,
    List,
    ByProbe,
    ByLevel,
    Judge,
    Choose,
    Graph,
    Table,
    Worst,
    Best,
    Book,
    Merged,
    MergedJudge,
    MergedAsk,
    Help,
    Version,
}

// What is asked for, how many words stand with it at least and at most, and which of them names what is made, where one does.
#[derive(Clone, Copy)]
struct Form {
    command: Command,
    least: usize,
    most: usize,
    made: Option<usize>,
}

fn taking(command: Command, least: usize, most: usize, made: Option<usize>) -> Form {
    Form {
        command,
        least,
        most,
        made,
    }
}

// The command of a word, by its place among the words.
fn form_of(word: &[u8]) -> Option<Form> {
    let words =
        b"ask list probe level judge choose graph table worst best book merged merged-judge merged-ask --help --version";
    let form = match grammar::place_of(words, 16, word) {
        0 => taking(Command::Ask, 4, 5, None),
        1 => taking(Command::List, 4, 4, None),
        2 => taking(Command::ByProbe, 5, 5, Some(PLAN)),
        3 => taking(Command::ByLevel, 5, 5, Some(PLAN)),
        4 => taking(Command::Judge, 5, 5, None),
        5 => taking(Command::Choose, 6, 7, Some(OUT)),
        6 => taking(Command::Graph, 5, 5, Some(PLAN)),
        7 => taking(Command::Table, 4, 4, None),
        8 => taking(Command::Worst, 5, 5, Some(PLAN)),
        9 => taking(Command::Best, 5, 5, Some(PLAN)),
        10 => taking(Command::Book, 5, 6, Some(SECOND)),
        11 => taking(Command::Merged, 5, 5, Some(PLAN)),
        12 => taking(Command::MergedJudge, 5, 5, None),
        13 => taking(Command::MergedAsk, 4, 5, None),
        14 => taking(Command::Help, 3, 3, None),
        15 => taking(Command::Version, 3, 3, None),
        _ => return None,
    };
    Some(form)
}

// The milliseconds behind the sheet; 0 where it says no slot's length.
fn slot_length(rt: &HostRuntime) -> u16 {
    let mut word = [0u8; 16];
    files::arg(rt, PLAN, &mut word).map_or(0, |n| dealer::milliseconds(&word[..n]))
}

// Whether as many words stand as a command takes; the fifth, of those that ask how long, is a slot's length.
fn is_complete(rt: &HostRuntime, form: &Form, count: usize) -> bool {
    let is_timed = count == 5 && matches!(form.command, Command::Ask | Command::MergedAsk);
    form.least <= count && count <= form.most && (!is_timed || slot_length(rt) != 0)
}

// Puts how long a reading of the sheet takes, in minutes too where it is said how long a slot is, and how long otherwise arranged; says where it ends.
fn put_asked(rt: &HostRuntime, sheet: &[u8], told: Told, text: &mut [u8]) -> usize {
    let n = dealer::asked(text, told, slot_length(rt));
    if told.outcome.number != 0 {
        return n;
    }
    match arrangement::spread_of(sheet) {
        Ok(spread) => n + dealer::spread(&mut text[n..], spread.best, spread.worst),
        Err(_) => n,
    }
}

// Says so, two lines in one write.
fn ask(rt: &HostRuntime, sheet: &[u8]) -> Status {
    let told = Told::from(telephone::ask(sheet));
    let mut text = [0u8; 2 * wording::ANY_ANSWER];
    let n = put_asked(rt, sheet, told, &mut text);
    let end = files::within(n, &text);
    files::say(
        rt,
        Stream::Output,
        &text[..end],
        Ok(Answer::from(told.outcome)),
    )
}

// The number and place of the sheet's refusal, or of none.
fn tested(sheet: &[u8]) -> Outcome {
    sheet::read(sheet).map_or_else(Outcome::from, |_| meaning::ACCEPTED)
}

// Hangs the probes of the sheet otherwise: writes the sheet that is made to its file, and says how long it is; a refusal leaves the file alone.
fn hang<F: FnOnce(&[u8], &mut [u8]) -> usize>(
    rt: &HostRuntime,
    to: Stream,
    sheet: &[u8],
    arranged: F,
) -> Status
    requires { F.IsAlwaysCallable arranged }
{
    let mut made = [0u8; arrangement::LONGEST_SHEET];
    let n = files::within(arranged(sheet, &mut made), &made);
    let outcome = tested(sheet);
    if outcome.number == 0 {
        files::write_file(rt, to, PLAN, &made[..n])?;
    }
    let mut line = [0u8; wording::ANY_ANSWER];
    let m = wording::written(&mut line, outcome, n);
    files::say(rt, to, &line[..m], Ok(Answer::from(outcome)))
}

// Lists the sheet; a refusal is said with its meaning.
fn list(rt: &HostRuntime, sheet: &[u8]) -> Status {
    if let Err(refusal) = sheet::read(sheet) {
        let mut line = [0u8; wording::ANY_ANSWER];
        let n = wording::refused(&mut line, Outcome::from(refusal));
        return files::say(rt, Stream::Output, &line[..n], Ok(Answer::Refused));
    }
    let mut text = files::text_room();
    let n = listing::list(sheet, &mut text);
    files::say(rt, Stream::Output, &text[..n], Ok(Answer::Answered))
}

fn make_plan<F: FnOnce(&[u8], &mut [u8]) -> Result<Plan, Refusal>>(
    rt: &HostRuntime,
    to: Stream,
    sheet: &[u8],
    planner: F,
) -> Status
    requires { F.IsAlwaysCallable planner }
{
    let mut plan = files::plan_room();
    let planned = planner(sheet, &mut plan);
    plans::write_planned(rt, to, PLAN, Planned::from(planned), &plan)
}

// Judges the plan in a file, read into a room of its mode.
fn judge<F: FnOnce(&[u8], &[u8]) -> Result<u16, Blame>>(
    rt: &HostRuntime,
    sheet: &[u8],
    mode: Mode,
    plan: &mut [u8],
    judged: F,
) -> Status
    requires { F.IsAlwaysCallable judged }
{
    let n = files::read_file(rt, Stream::Output, PLAN, plan)?;
    plans::say_judgement(rt, mode, Judgement::from(judged(sheet, &plan[..n])))
}

// Judges a plan of packets; its first 96,032 bytes decide every verdict.
fn judge_packets(rt: &HostRuntime, sheet: &[u8]) -> Status {
    let mut plan = files::plan_room();
    judge(rt, sheet, Mode::Packets, &mut plan, judge::judgement)
}

// Judges a merged plan; its first 65,855 bytes decide every verdict.
fn judge_merged(rt: &HostRuntime, sheet: &[u8]) -> Status {
    let mut plan = plans::merged_room();
    judge(rt, sheet, Mode::Merged, &mut plan, judge::merged_judgement)
}

// Makes the wake book of the plan in a file: into a file where one is named, else in words.
fn book(rt: &HostRuntime, to: Stream, sheet: &[u8]) -> Status {
    let mut plan = files::plan_room();
    let n = files::read_file(rt, to, PLAN, &mut plan)?;
    if files::arg_count(rt) == 6 {
        return books::write_book(rt, to, SECOND, sheet, &plan[..n]);
    }
    books::say_book(rt, sheet, &plan[..n])
}

// Says which of two plans was chosen, and what the judge says of each.
fn say_choice(
    rt: &HostRuntime,
    to: Stream,
    sheet: &[u8],
    first: &[u8],
    second: &[u8],
    choice: Choice,
) -> Status {
    let on_first = Judgement::from(judge::judgement(sheet, first));
    let on_second = Judgement::from(judge::judgement(sheet, second));
    let answer = match choice {
        Choice::Neither => Answer::Refused,
        _ => Answer::Answered,
    };
    let mut text = [0u8; wording::ANY_ANSWER];
    let n = wording::chosen(&mut text, choice, on_first, on_second);
    files::say(rt, to, &text[..n], Ok(answer))
}

// Writes the plan that is handed back to a file, where one is named and a plan passes.
fn keep_choice(rt: &HostRuntime, to: Stream, sheet: &[u8], first: &[u8], second: &[u8]) -> Status {
    let choice = chooser::choice(sheet, first, second);
    if files::arg_count(rt) == 7 && !matches!(choice, Choice::Neither) {
        files::write_file(rt, to, OUT, chooser::choose(sheet, first, second))?;
    }
    say_choice(rt, to, sheet, first, second, choice)
}

// Chooses between the plans in two files.
fn choose(rt: &HostRuntime, to: Stream, sheet: &[u8]) -> Status {
    let mut first = files::plan_room();
    let n = files::read_file(rt, to, PLAN, &mut first)?;
    let mut second = files::plan_room();
    let m = files::read_file(rt, to, SECOND, &mut second)?;
    keep_choice(rt, to, sheet, &first[..n], &second[..m])
}

// Whether argument i stands for standard input or output.
fn is_dash_argument(rt: &HostRuntime, i: usize) -> bool {
    let mut word = [0u8; 2];
    files::arg(rt, i, &mut word).is_some_and(|n| files::is_dash(&word[..n]))
}

// Where the words go: to standard error where what is made goes to standard output.
fn words_to(rt: &HostRuntime, form: &Form) -> Stream {
    match form.made {
        Some(i) if is_dash_argument(rt, i) => Stream::Errors,
        _ => Stream::Output,
    }
}

// Whether more than one file is to be standard input or output.
fn is_dash_twice(rt: &HostRuntime) -> bool {
    let dashes = (SHEET..files::arg_count(rt)).filter(|i| is_dash_argument(rt, *i));
    dashes.count() > 1
}

// What is asked for, of a sheet.
fn answer_on(rt: &HostRuntime, what: Command, to: Stream, sheet: &[u8]) -> Status {
    match what {
        Command::Ask => ask(rt, sheet),
        Command::List => list(rt, sheet),
        Command::ByProbe => make_plan(rt, to, sheet, plan::by_probe),
        Command::ByLevel => make_plan(rt, to, sheet, plan::by_level),
        Command::Judge => judge_packets(rt, sheet),
        Command::Choose => choose(rt, to, sheet),
        Command::Graph => texts::write_graph(rt, to, PLAN, sheet),
        Command::Worst => hang(rt, to, sheet, arrangement::worst_sheet),
        Command::Best => hang(rt, to, sheet, arrangement::best_sheet),
        Command::Book => book(rt, to, sheet),
        Command::Merged => plans::write_merged(rt, to, PLAN, sheet),
        Command::MergedJudge => judge_merged(rt, sheet),
        Command::MergedAsk => plans::say_merged_asked(rt, sheet, slot_length(rt)),
        Command::Table | Command::Help | Command::Version => Err(Failed),
    }
}

// The same of the sheet in its file.
fn answer(rt: &HostRuntime, form: &Form) -> Status {
    let to = words_to(rt, form);
    let mut bytes = [0u8; meaning::DECIDING_SHEET];
    let n = files::read_file(rt, to, SHEET, &mut bytes)?;
    answer_on(rt, form.command, to, &bytes[..n])
}

fn say_usage(rt: &HostRuntime, to: Stream, status: Status) -> Status {
    files::say(
        rt,
        to,
        b"usage: yard ask SHEET [MILLISECONDS]         how long a reading takes; of slots of 1 to 60000 ms also in minutes\n\
            \x20      yard list SHEET                       the plan by probe, as text\n\
            \x20      yard probe SHEET PLAN                 the plan by probe, into the file PLAN\n\
            \x20      yard level SHEET PLAN                 the plan by level, into the file PLAN\n\
            \x20      yard judge SHEET PLAN                 whether the plan passes, or who is to blame\n\
            \x20      yard choose SHEET PLAN PLAN [OUT]     the shorter of two plans that pass, also into the file OUT\n\
            \x20      yard book SHEET PLAN [BOOK]           when each probe wakes, in words, or as bytes into the file BOOK\n\
            \x20      yard merged-ask SHEET [MILLISECONDS]  how long a merged reading takes, in which every probe sends once\n\
            \x20      yard merged SHEET PLAN                the plan of merged readings, into the file PLAN\n\
            \x20      yard merged-judge SHEET PLAN          whether a plan of merged readings passes, or who is to blame\n\
            \x20      yard graph SHEET TEXT                 the conflicts as a graph in the DIMACS format, into the file TEXT\n\
            \x20      yard table TEXT                       a graph's text as a table\n\
            \x20      yard worst SHEET OUT                  the sheet of the worst arrangement of the same probes, into the file OUT\n\
            \x20      yard best SHEET OUT                   the sheet of the best, likewise\n\
            \x20      yard --help | --version               these lines, or the version\n\
            One of the files may be -: standard input or, for what is made, standard output.\n",
        status,
    )
}

// What the first word asks for, where as many words stand as it takes.
fn asked_for(rt: &HostRuntime) -> Option<Form> {
    let mut word = [0u8; 16];
    let n = files::arg(rt, COMMAND, &mut word)?;
    let form = form_of(&word[..n])?;
    if is_complete(rt, &form, files::arg_count(rt)) {
        return Some(form);
    }
    None
}

// The exit status of what is asked for; a text is judged by itself, and everything else by a sheet.
fn run(rt: &HostRuntime) -> Status {
    let Some(form) = asked_for(rt) else {
        return say_usage(rt, Stream::Errors, Err(Failed));
    };
    match form.command {
        Command::Help => say_usage(rt, Stream::Output, Ok(Answer::Answered)),
        Command::Version => files::say(rt, Stream::Output, b"yard 3.2\n", Ok(Answer::Answered)),
        _ if is_dash_twice(rt) => say_usage(rt, Stream::Errors, Err(Failed)),
        Command::Table => texts::show_table(rt, SHEET),
        _ => answer(rt, &form),
    }
}

fn main(rt: HostRuntime) -> ExitCode {
    let status = files::tell(&rt, run(&rt));
    ExitCode::from(files::exit_number(status))
}
