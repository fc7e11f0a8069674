// The library for gateways: telephone, arrangements, planners, judge, chooser, merged readings, wake books, lister and graphs over pointers and lengths,
// as include/yard.h declares them.
#![tactic(auto)]

ghost use Rattle.std.specs.Prelude.{◌≡◌, false, cond, ◌+◌, ◌^◌, ◌<◌, length, get_or};
ghost use Rattle.meaning.specs.declared.Mode.TheVariants.{Merged};
ghost use Rattle.meaning.specs.Plan.{front};
ghost use Rattle.meaning.specs.Rounds.{by_probe, by_level};
ghost use Rattle.meaning.specs.Answer.{plan_made, merged_made};
ghost use Rattle.meaning.specs.Judge.{judgement_in, judgement, choice};
ghost use Rattle.meaning.specs.Book.{book_made};
ghost use Rattle.meaning.specs.Telephone.{asked};
ghost use Rattle.meaning.specs.Results.{plan_answer, judge_answer, book_answer, told_answer, merged_told_answer};
ghost use Rattle.meaning.specs.Merged.{merged_asked};
ghost use Rattle.arrangement.specs.Arranged.{spread_of, spread_answer, worst_sheet, best_sheet, arranged};
ghost use Rattle.listing.specs.Listed.{listed_length, listed_in};
ghost use Rattle.graph.specs.Drawing.{drawn_answer, graph_made};
ghost use Rattle.graph.specs.Reading.{graph_read};
ghost use Rattle.gateway.specs.Flat.{flat_planned, flat_verdict, flat_booked, flat_told, flat_merged_told, flat_spread, flat_drawn, flat_graph, choice_number};
ghost use Rattle.gateway.specs.Rows.{word, row_words};

use arrangement::Spread;
use graph::Graph;
use meaning::{Blame, Choice, Limits, MergedLimits, NOBODY, Plan, Refusal};
use std::array;

// What a planner answers, with C's layout.
#[repr(C)]
#[derive(Clone, Copy)]
pub struct YardPlanned {
    pub number: u8,
    pub place: u16,
    pub colours: u8,
    pub slots: u16,
    pub bytes: usize,
}

// What the judge answers, with C's layout.
#[repr(C)]
#[derive(Clone, Copy)]
pub struct YardVerdict {
    pub number: u8,
    pub place: u16,
    pub slots: u16,
    pub first: u8,
    pub second: u8,
}

// What the maker of wake books answers, with C's layout.
#[repr(C)]
#[derive(Clone, Copy)]
pub struct YardBooked {
    pub number: u8,
    pub place: u16,
    pub first: u8,
    pub second: u8,
    pub bytes: usize,
}

// What the telephone answers, with C's layout.
#[repr(C)]
#[derive(Clone, Copy)]
pub struct YardTold {
    pub number: u8,
    pub place: u16,
    pub least: u16,
    pub ours: u16,
    pub most: u16,
    pub times: u8,
}

// What the telephone answers of merged readings, with C's layout.
#[repr(C)]
#[derive(Clone, Copy)]
pub struct YardMergedTold {
    pub number: u8,
    pub place: u16,
    pub least: u16,
    pub ours: u16,
    pub most: u16,
}

// The slots of other arrangements, with C's layout.
#[repr(C)]
#[derive(Clone, Copy)]
pub struct YardSpread {
    pub number: u8,
    pub place: u16,
    pub best: u16,
    pub worst: u16,
}

// What the writer of a graph answers, with C's layout.
#[repr(C)]
#[derive(Clone, Copy)]
pub struct YardDrawn {
    pub number: u8,
    pub place: u16,
    pub bytes: usize,
}

// What the reader of a graph answers, with C's layout.
#[repr(C)]
#[derive(Clone, Copy)]
pub struct YardGraph {
    pub number: u8,
    pub place: u64,
    pub vertices: u8,
}

impl From<Result<Plan, Refusal>> for YardPlanned {
    ghost from_gives = { λ r flat. flat ≡ flat_planned (plan_answer r) };

    fn from(r: Result<Plan, Refusal>) -> YardPlanned {
        match r {
            Ok(plan) => YardPlanned {
                number: 0,
                place: 0,
                colours: plan.colours,
                slots: plan.slots,
                bytes: plan.bytes,
            },
            Err(refusal) => YardPlanned {
                number: refusal.fault.number(),
                place: refusal.place,
                colours: 0,
                slots: 0,
                bytes: 0,
            },
        }
    }
}

impl From<Result<u16, Blame>> for YardVerdict {
    ghost from_gives = { λ r flat. flat ≡ flat_verdict (judge_answer r) };

    fn from(r: Result<u16, Blame>) -> YardVerdict {
        match r {
            Ok(slots) => YardVerdict {
                number: 0,
                place: 0,
                slots,
                first: NOBODY.first,
                second: NOBODY.second,
            },
            Err(blame) => YardVerdict {
                number: blame.refusal.fault.number(),
                place: blame.refusal.place,
                slots: 0,
                first: blame.names.first,
                second: blame.names.second,
            },
        }
    }
}

impl From<Result<usize, Blame>> for YardBooked {
    ghost from_gives = { λ r flat. flat ≡ flat_booked (book_answer r) };

    fn from(r: Result<usize, Blame>) -> YardBooked {
        match r {
            Ok(bytes) => YardBooked {
                number: 0,
                place: 0,
                first: 0,
                second: 0,
                bytes,
            },
            Err(blame) => YardBooked {
                number: blame.refusal.fault.number(),
                place: blame.refusal.place,
                first: blame.names.first,
                second: blame.names.second,
                bytes: 0,
            },
        }
    }
}

impl From<Result<Limits, Refusal>> for YardTold {
    ghost from_gives = { λ r flat. flat ≡ flat_told (told_answer r) };

    fn from(r: Result<Limits, Refusal>) -> YardTold {
        match r {
            Ok(limits) => YardTold {
                number: 0,
                place: 0,
                least: limits.least,
                ours: limits.ours,
                most: limits.most,
                times: limits.times,
            },
            Err(refusal) => YardTold {
                number: refusal.fault.number(),
                place: refusal.place,
                least: 0,
                ours: 0,
                most: 0,
                times: 0,
            },
        }
    }
}

impl From<Result<MergedLimits, Refusal>> for YardMergedTold {
    ghost from_gives = { λ r flat. flat ≡ flat_merged_told (merged_told_answer r) };

    fn from(r: Result<MergedLimits, Refusal>) -> YardMergedTold {
        match r {
            Ok(merged) => YardMergedTold {
                number: 0,
                place: 0,
                least: merged.least,
                ours: merged.ours,
                most: merged.most,
            },
            Err(refusal) => YardMergedTold {
                number: refusal.fault.number(),
                place: refusal.place,
                least: 0,
                ours: 0,
                most: 0,
            },
        }
    }
}

impl From<Result<Spread, Refusal>> for YardSpread {
    ghost from_gives = { λ r flat. flat ≡ flat_spread (spread_answer r) };

    fn from(r: Result<Spread, Refusal>) -> YardSpread {
        match r {
            Ok(spread) => YardSpread {
                number: 0,
                place: 0,
                best: spread.best,
                worst: spread.worst,
            },
            Err(refusal) => YardSpread {
                number: refusal.fault.number(),
                place: refusal.place,
                best: 0,
                worst: 0,
            },
        }
    }
}

impl From<Result<usize, Refusal>> for YardDrawn {
    ghost from_gives = { λ r flat. flat ≡ flat_drawn (drawn_answer r) };

    fn from(r: Result<usize, Refusal>) -> YardDrawn {
        match r {
            Ok(bytes) => YardDrawn {
                number: 0,
                place: 0,
                bytes,
            },
            Err(refusal) => YardDrawn {
                number: refusal.fault.number(),
                place: refusal.place,
                bytes: 0,
            },
        }
    }
}

impl From<Graph> for YardGraph {
    ghost from_gives = { λ r flat. flat ≡ flat_graph r };

    fn from(r: Graph) -> YardGraph {
        YardGraph {
            number: r.number,
            place: r.place,
            vertices: r.vertices,
        }
    }
}

// Bit k where it is to be set.
fn bit_if(is: bool, k: u32) -> u64
    requires { k < 64 }
    ensures { result ≡ cond is (2 ^ k) 0 }
{
    if is { 1u64 << k } else { 0 }
}

// A table's row as a word: bit k for node k + 1.
fn word(row: &[bool; 65]) -> u64
    ensures { result ≡ word (λ k. get_or row.now (k + 1) false) }
{
    let mut w: u64 = 0;
    for k in 0..64 {
        let y = k as usize + 1;
        w += bit_if(row[y], k);
    }
    w
}

// The rows of the nodes 1 to 64 as words.
fn row_words(table: &[[bool; 65]; 65]) -> [u64; 64]
    ensures { result ≡ row_words table.now }
{
    array::from_fn(|j| word(&table[j + 1]))
}

// The telephone.
#[unsafe(no_mangle)]
pub extern "C" fn yard_ask(sheet: &[u8]) -> YardTold
    ensures { result ≡ flat_told (asked sheet.now) }
{
    telephone::ask(sheet).into()
}

// The slots of other arrangements.
#[unsafe(no_mangle)]
pub extern "C" fn yard_ask_spread(sheet: &[u8]) -> YardSpread
    ensures { result ≡ flat_spread (spread_of sheet.now) }
{
    arrangement::spread_of(sheet).into()
}

// The sheet of the worst arrangement.
#[unsafe(no_mangle)]
pub extern "C" fn yard_worst(sheet: &[u8], out: &mut [u8]) -> usize
    ensures answer { result ≡ length (arranged worst_sheet sheet.now (length out.old)) }
    ensures buffer { out.new ≡ front out.old (arranged worst_sheet sheet.now (length out.old)) }
{
    arrangement::worst_sheet(sheet, out)
}

// The sheet of the best arrangement.
#[unsafe(no_mangle)]
pub extern "C" fn yard_best(sheet: &[u8], out: &mut [u8]) -> usize
    ensures answer { result ≡ length (arranged best_sheet sheet.now (length out.old)) }
    ensures buffer { out.new ≡ front out.old (arranged best_sheet sheet.now (length out.old)) }
{
    arrangement::best_sheet(sheet, out)
}

// The plan by probe.
#[unsafe(no_mangle)]
pub extern "C" fn yard_by_probe(sheet: &[u8], buf: &mut [u8]) -> YardPlanned
    ensures answer { result ≡ flat_planned (plan_made by_probe sheet.now (length buf.old)).answer }
    ensures buffer { buf.new ≡ front buf.old (plan_made by_probe sheet.now (length buf.old)).written }
{
    plan::by_probe(sheet, buf).into()
}

// The plan by level.
#[unsafe(no_mangle)]
pub extern "C" fn yard_by_level(sheet: &[u8], buf: &mut [u8]) -> YardPlanned
    ensures answer { result ≡ flat_planned (plan_made by_level sheet.now (length buf.old)).answer }
    ensures buffer { buf.new ≡ front buf.old (plan_made by_level sheet.now (length buf.old)).written }
{
    plan::by_level(sheet, buf).into()
}

// The judge, with whom it names.
#[unsafe(no_mangle)]
pub extern "C" fn yard_judge(sheet: &[u8], plan: &[u8]) -> YardVerdict
    ensures { result ≡ flat_verdict (judgement sheet.now plan.now) }
{
    judge::judgement(sheet, plan).into()
}

// The chooser: which plan, since no reference is handed back across C. It names nobody.
#[unsafe(no_mangle)]
pub extern "C" fn yard_choose(sheet: &[u8], first: &[u8], second: &[u8]) -> u8
    ensures { result ≡ choice_number (choice sheet.now first.now second.now) }
{
    let which = chooser::choice(sheet, first, second);
    match which {
        Choice::Neither => 0,
        Choice::First => 1,
        Choice::Second => 2,
    }
}

// The plan of merged readings.
#[unsafe(no_mangle)]
pub extern "C" fn yard_merged(sheet: &[u8], buf: &mut [u8]) -> YardPlanned
    ensures answer { result ≡ flat_planned (merged_made sheet.now (length buf.old)).answer }
    ensures buffer { buf.new ≡ front buf.old (merged_made sheet.now (length buf.old)).written }
{
    plan::merged(sheet, buf).into()
}

// The judge of merged readings, with whom it names.
#[unsafe(no_mangle)]
pub extern "C" fn yard_merged_judge(sheet: &[u8], plan: &[u8]) -> YardVerdict
    ensures { result ≡ flat_verdict (judgement_in Merged sheet.now plan.now) }
{
    judge::merged_judgement(sheet, plan).into()
}

// The telephone of merged readings.
#[unsafe(no_mangle)]
pub extern "C" fn yard_merged_ask(sheet: &[u8]) -> YardMergedTold
    ensures { result ≡ flat_merged_told (merged_asked sheet.now) }
{
    merged::ask(sheet).into()
}

// The wake book of a plan.
#[unsafe(no_mangle)]
pub extern "C" fn yard_book(sheet: &[u8], plan: &[u8], book: &mut [u8]) -> YardBooked
    ensures answer { result ≡ flat_booked (book_made sheet.now plan.now (length book.old)).answer }
    ensures buffer { book.new ≡ front book.old (book_made sheet.now plan.now (length book.old)).written }
{
    book::wake_book(sheet, plan, book).into()
}

// The lister's text.
#[unsafe(no_mangle)]
pub extern "C" fn yard_list(sheet: &[u8], text: &mut [u8]) -> usize
    ensures answer { result ≡ listed_length sheet.now text.old }
    ensures buffer { text.new ≡ listed_in sheet.now text.old }
{
    listing::list(sheet, text)
}

// A graph's text, of a sheet.
#[unsafe(no_mangle)]
pub extern "C" fn yard_graph_write(sheet: &[u8], text: &mut [u8]) -> YardDrawn
    ensures answer { result ≡ flat_drawn (graph_made sheet.now (length text.old)).answer }
    ensures buffer { text.new ≡ front text.old (graph_made sheet.now (length text.old)).written }
{
    draw::graph_made(sheet, text).into()
}

// A graph's text read into words, one a row.
#[unsafe(no_mangle)]
pub extern "C" fn yard_graph_read(text: &[u8], rows: &mut [u64; 64]) -> YardGraph
    ensures answer { result ≡ flat_graph (graph_read text.now).answer }
    ensures rows { rows.new ≡ row_words (graph_read text.now).table }
{
    let mut table = [[false; 65]; 65];
    let read = parse::graph_read(text, &mut table);
    *rows = row_words(&table);
    read.into()
}
