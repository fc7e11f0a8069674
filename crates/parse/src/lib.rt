// A graph's text read line by line into a lent table. What a text means, after docs/RULES.md, stands in crate graph's specs/.
#![tactic(auto)]

ghost use Rattle.std.specs.Prelude.{◌≡◌, ◌≤◌, drop};
ghost use Rattle.meaning.specs.Words.{places};
ghost use Rattle.conflict.specs.Marks.{marked};
ghost use Rattle.graph.specs.Table.{no_edges, is_joined, with_edge};
ghost use Rattle.graph.specs.Reading.{unread, next_line, may_stand, is_astray, line_test, taken, faulty, table_after, line_read, last_read, end_test, ended, graph_read};
ghost use Rattle.parse.specs.Tested.{number_told};
ghost use Rattle.parse.specs.Vertices.{vertices_said};
ghost use Rattle.parse.specs.Piece.{behind_last, last_begins, lines_after};

use graph::{Graph, Line, Reading};
use meaning::Fault;

// The newline.
const NEWLINE: u8 = b'\n';

// What was read of a text, and where its last line begins, which is not ended yet.
#[derive(Clone, Copy)]
pub struct Stepped {
    pub read: Reading,
    pub at: usize,
}

// Clears a table, whatever it held.
fn clear(table: &mut [[bool; 65]; 65])
    ensures { table.new ≡ no_edges }
{
    *table = [[false; 65]; 65];
}

// Before the first line.
#[tactic(auto, unfolding(graph::specs::Reading::unread))]
pub fn unread(table: &mut [[bool; 65]; 65]) -> Reading
    ensures state { result ≡ unread }
    ensures table { table.new ≡ no_edges }
{
    clear(table);
    Reading {
        number: 0,
        place: 0,
        lines: 0,
        begun: false,
        vertices: 0,
        stated: 0,
    }
}

// The number of the next line; no number above the last that 64 bits hold is told.
fn next_line(read: Reading) -> u64
    ensures { result ≡ next_line read }
{
    read.lines.saturating_add(1)
}

// Whether an edge stands in a table; what has no place is joined to nothing.
fn is_joined(table: &[[bool; 65]; 65], a: u16, b: u16) -> bool
    ensures { result ≡ is_joined table.now a b }
{
    let Some(row) = table.get(usize::from(a) + 1) else {
        return false;
    };
    row.get(usize::from(b) + 1) == Some(&true)
}

// Whether a line may stand behind what was read, but for its vertices.
#[tactic(auto, unfolding(graph::specs::Reading::may_stand))]
fn may_stand(read: Reading, table: &[[bool; 65]; 65], line: Line) -> bool
    ensures { result ≡ may_stand read table.now line }
{
    match line {
        Line::Comment => true,
        Line::Problem(n, _) => !read.begun & (n <= 63),
        Line::Edge(a, b) => read.begun & !is_joined(table, a, b),
        Line::Other => false,
    }
}

// Whether a line has a vertex out of range, or a loop.
#[tactic(auto, unfolding(graph::specs::Reading::is_astray))]
fn is_astray(read: Reading, line: Line) -> bool
    ensures { result ≡ is_astray read line }
{
    let Line::Edge(a, b) = line else {
        return false;
    };
    let n = u16::from(read.vertices);
    (a == 0) | (n < a) | ((b == 0) | (n < b) | (a == b))
}

// What is wrong with a line, 18 first.
#[tactic(auto, unfolding(graph::specs::Reading::line_test))]
fn line_test(read: Reading, table: &[[bool; 65]; 65], line: Line) -> Option<Fault>
    ensures { number_told result ≡ line_test read table.now line }
{
    if !may_stand(read, table, line) {
        return Some(Fault::LineAstray);
    }
    if is_astray(read, line) {
        return Some(Fault::VertexWrong);
    }
    None
}

// What is known after a line without a fault.
#[tactic(auto, unfolding(graph::specs::Reading::taken, crate::specs::Vertices::vertices_said))]
fn taken(read: Reading, line: Line) -> Reading
    requires few { vertices_said line ≤ 63 }
    ensures { result ≡ taken read line }
{
    let next = Reading {
        number: 0,
        place: 0,
        lines: next_line(read),
        ..read
    };
    if let Line::Problem(n, m) = line {
        return Reading {
            begun: true,
            vertices: n as u8,
            stated: m,
            ..next
        };
    }
    next
}

// What is known after a line with a fault: its place is the line.
#[tactic(auto, unfolding(graph::specs::Reading::faulty))]
fn faulty(number: u8, read: Reading) -> Reading
    ensures { result ≡ faulty number read }
{
    let line = next_line(read);
    Reading {
        number,
        place: line,
        lines: line,
        ..read
    }
}

// Two nodes are joined one way, where both have a place.
fn mark(table: &mut [[bool; 65]; 65], x: usize, y: usize)
    ensures { table.new ≡ marked places table.old x y }
{
    if x < 65 {
        if y < 65 {
            table[x][y] = true;
        }
    }
}

// One edge more, marked both ways; vertex v is probe v + 1.
#[tactic(auto, unfolding(graph::specs::Table::with_edge))]
fn join(table: &mut [[bool; 65]; 65], a: u16, b: u16)
    ensures { table.new ≡ with_edge table.old a b }
{
    let x = usize::from(a) + 1;
    let y = usize::from(b) + 1;
    mark(table, x, y);
    mark(table, y, x);
}

// The table after a line without a fault.
#[tactic(auto, unfolding(graph::specs::Reading::table_after))]
fn table_after(table: &mut [[bool; 65]; 65], line: Line)
    ensures { table.new ≡ table_after table.old line }
{
    if let Line::Edge(a, b) = line {
        join(table, a, b);
    }
}

// One line more; behind the first faulty line nothing changes.
pub fn line_read(read: Reading, line: &[u8], table: &mut [[bool; 65]; 65]) -> Reading
    ensures state { result ≡ (line_read (record { state = read; table = table.old }) line.now).state }
    ensures table { table.new ≡ (line_read (record { state = read; table = table.old }) line.now).table }
{
    if read.number != 0 {
        return read;
    }
    let said = grammar::line_of(line);
    if let Some(fault) = line_test(read, table, said) {
        return faulty(fault.number(), read);
    }
    table_after(table, said);
    taken(read, said)
}

// The bytes behind the last newline: they are an unended line.
#[tactic(auto, unfolding(graph::specs::Reading::last_read))]
pub fn last_read(read: Reading, behind: &[u8]) -> Reading
    ensures { result ≡ last_read read behind.now }
{
    if read.number != 0 {
        return read;
    }
    if behind.is_empty() {
        return read;
    }
    faulty(Fault::LineAstray.number(), read)
}

// What is wrong at the end.
#[tactic(auto, unfolding(graph::specs::Reading::end_test))]
fn end_test(read: Reading, table: &[[bool; 65]; 65]) -> Option<Fault>
    ensures { number_told result ≡ end_test read table.now }
{
    if !read.begun {
        return Some(Fault::LineAstray);
    }
    if read.stated != graph::edges(table) {
        return Some(Fault::EdgeCount);
    }
    None
}

// A refused text gives the table of 0 vertices.
fn refused(number: u8, place: u64, table: &mut [[bool; 65]; 65]) -> Graph
    ensures answer { result ≡ record { number = number; place = place; vertices = 0 } }
    ensures table { table.new ≡ no_edges }
{
    clear(table);
    Graph {
        number,
        place,
        vertices: 0,
    }
}

// What is answered at the end of a text.
pub fn ended(read: Reading, table: &mut [[bool; 65]; 65]) -> Graph
    ensures answer { result ≡ (ended (record { state = read; table = table.old })).answer }
    ensures table { table.new ≡ (ended (record { state = read; table = table.old })).table }
{
    if read.number != 0 {
        return refused(read.number, read.place, table);
    }
    if let Some(fault) = end_test(read, table) {
        return refused(fault.number(), 0, table);
    }
    Graph {
        number: 0,
        place: 0,
        vertices: read.vertices,
    }
}

// The lines of a piece that are ended, one after the other.
pub fn lines_after(read: Reading, piece: &[u8], table: &mut [[bool; 65]; 65]) -> Stepped
    ensures state { result.read ≡ (lines_after (record { state = read; table = table.old }) piece.now).state }
    ensures place { result.at ≡ last_begins piece.now }
    ensures behind { drop result.at piece.now ≡ behind_last piece.now }
    ensures table { table.new ≡ (lines_after (record { state = read; table = table.old }) piece.now).table }
{
    // By a place, not over `split`: where the last line begins is answered too, and that line is not read.
    let mut so_far = read;
    let mut at = 0;
    while at < piece.len() {
        let rest = &piece[at..];
        let n = grammar::part_length(NEWLINE, rest);
        if n == rest.len() {
            return Stepped { read: so_far, at };
        }
        so_far = line_read(so_far, &rest[..n], table);
        at += n + 1;
    }
    Stepped { read: so_far, at }
}

// A text read into a table.
pub fn graph_read(text: &[u8], table: &mut [[bool; 65]; 65]) -> Graph
    ensures answer { result ≡ (graph_read text.now).answer }
    ensures table { table.new ≡ (graph_read text.now).table }
{
    let start = unread(table);
    let stepped = lines_after(start, text, table);
    let at = stepped.at;
    ended(last_read(stepped.read, &text[at..]), table)
}
