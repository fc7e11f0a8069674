// Graphs by the program's arguments: a sheet's graph written as text, and a text of any length judged line by line and shown as a table.
#![tactic(auto)]

ghost use Rattle.std.specs.Prelude.{◌≤◌, length};
ghost use Rattle.graph.specs.Drawing.{graph_made};
ghost use Rattle.files.specs.Status.{answered, number_status, status_of, OrFailed, IsStatus};

use files::{Answer, Failed, Got, Source, Status, Stream, within};
use graph::{Graph, Reading};
use meaning::Outcome;
use std::io::Error;

// So much of a text is looked at together: a line and its newline must fit.
const PIECE: usize = 65536;

// Why a text is not judged: reading it failed, or a line is too long to be looked at.
#[derive(Clone, Copy)]
enum Unjudged {
    Unread(Error),
    TooLong,
}

// Writes the sheet's graph to its file, and says how long it is; a refusal leaves the file alone.
pub fn write_graph(rt: &HostRuntime, to: Stream, out: usize, sheet: &[u8]) -> Status
    ensures { OrFailed (status_of (graph_made sheet.now 15081).answer.outcome) result }
{
    let mut text = [0u8; graph::ANY_GRAPH];
    let drawn = draw::graph_made(sheet, &mut text);
    if let Ok(bytes) = &drawn {
        let n = within(*bytes, &text);
        files::write_file(rt, to, out, &text[..n])?;
    }
    let mut line = [0u8; wording::ANY_ANSWER];
    let outcome = drawn.map_or_else(Outcome::from, |_| meaning::ACCEPTED);
    let m = wording::written(&mut line, outcome, drawn.unwrap_or(0));
    files::say_answer(rt, to, &line[..m], &drawn)
}

// Moves what stands behind a place of a piece to its front; says how many bytes it has.
fn keep(piece: &mut [u8], from: usize) -> usize {
    let from = within(from, piece);
    piece.copy_within(from.., 0);
    piece.len() - from
}

// Reads behind what was kept of a piece; says how many bytes stand in it then.
fn fill(from: &mut Source, piece: &mut [u8], kept: usize) -> Got
    ensures { result.bytes ≤ length piece.new }
{
    let kept = within(kept, piece);
    let got = files::read_full(from, &mut piece[kept..]);
    Got {
        bytes: kept + got.bytes,
        failed: got.failed,
    }
}

// What was read of a text at its end, if it is the end.
fn at_end(got: Got, read: Reading, piece: &[u8], at: usize) -> Result<Reading, Unjudged> {
    got.whole().map_err(Unjudged::Unread)?;
    let behind = within(at, piece);
    Ok(parse::last_read(read, &piece[behind..]))
}

// Reads a text piece by piece, to its end or to its first faulty line.
fn read_text(from: &mut Source, table: &mut [[bool; 65]; 65]) -> Result<Reading, Unjudged> {
    let mut piece = [0u8; PIECE];
    let mut kept = 0;
    let mut read = parse::unread(table);
    for _ in 0..u64::MAX {
        let got = fill(from, &mut piece, kept);
        let n = got.bytes;
        let stepped = parse::lines_after(read, &piece[..n], table);
        read = stepped.read;
        if read.number != 0 {
            return Ok(read);
        }
        if n < PIECE {
            return at_end(got, read, &piece[..n], stepped.at);
        }
        if stepped.at == 0 {
            return Err(Unjudged::TooLong);
        }
        kept = keep(&mut piece, stepped.at);
    }
    Err(Unjudged::TooLong)
}

// Says the table of a graph.
fn say_table(rt: &HostRuntime, vertices: u8, table: &[[bool; 65]; 65]) -> Status
    ensures { OrFailed answered result }
{
    let mut text = [0u8; tabled::ANY_TABLE];
    let n = tabled::table_text(vertices, table, &mut text);
    files::say(rt, Stream::Output, &text[..n], Ok(Answer::Answered))
}

// Says what a text is: refused, or a table.
fn say_graph(rt: &HostRuntime, graph: Graph, table: &[[bool; 65]; 65]) -> Status
    ensures { OrFailed (number_status graph.number) result }
{
    if graph.number == 0 {
        return say_table(rt, graph.vertices, table);
    }
    let mut line = [0u8; wording::ANY_ANSWER];
    let n = wording::misread(&mut line, graph.number, graph.place);
    files::say(rt, Stream::Output, &line[..n], Ok(Answer::Refused))
}

// Says why a text is not judged.
fn say_unjudged(rt: &HostRuntime, why: Unjudged, path: &[u8]) -> Failed {
    if let Unjudged::Unread(error) = why {
        return files::say_failed(rt, Stream::Output, b"unreadable ", path, &error);
    }
    files::say_named(
        rt,
        Stream::Errors,
        b"a line is longer than 65,535 bytes: ",
        path,
    );
    files::say_named(rt, Stream::Output, b"unreadable ", path)
}

// Judges a text and shows its table; a text that is not seen whole gets no verdict.
fn show(rt: &HostRuntime, path: &[u8]) -> Status
    ensures { IsStatus result }
{
    let mut source = files::open_named(rt, Stream::Output, path)?;
    let mut table = [[false; 65]; 65];
    let read = read_text(&mut source, &mut table).map_err(|why| say_unjudged(rt, why, path))?;
    let graph = parse::ended(read, &mut table);
    say_graph(rt, graph, &table)
}

// The same of the file that argument i names.
pub fn show_table(rt: &HostRuntime, i: usize) -> Status
    ensures { IsStatus result }
{
    let mut path = files::name_room();
    let n = files::name_to_read(rt, Stream::Output, i, &mut path)?;
    show(rt, &path[..n])
}
