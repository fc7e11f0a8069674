// A graph as text: what is read of it and answered. Its meaning, after docs/RULES.md, stands in specs/.
#![tactic(auto)]

ghost use Rattle.std.specs.Prelude.{◌≡◌, ◌≤◌};
ghost use Rattle.graph.specs.Table.{edges_of, edges};

// Room for any graph's text.
pub const ANY_GRAPH: usize = 15081;

// What a line is; a number above 65,535 is kept as 65,535, which is no vertex and no count of edges.
#[derive(Clone, Copy)]
pub enum Line {
    Comment,
    Problem(u16, u16),
    Edge(u16, u16),
    Other,
}

// What was read of a text so far, beside its table: a fault and its line, the lines, and what the `p` line says.
#[derive(Clone, Copy)]
pub struct Reading {
    pub number: u8,
    pub place: u64,
    pub lines: u64,
    pub begun: bool,
    pub vertices: u8,
    pub stated: u16,
}

// What the reader of a graph answers, beside its table; the vertices are 0 on refusal.
#[derive(Clone, Copy)]
pub struct Graph {
    pub number: u8,
    pub place: u64,
    pub vertices: u8,
}

// How many edges a row of a table has behind its own place.
fn edges_of(row: &[bool; 65], x: usize) -> u16
    ensures count { result ≡ edges_of row.now x }
    ensures few { result ≤ 65 }
{
    let mut n = 0;
    for (y, joined) in row.iter().enumerate() {
        n += u16::from((x < y) & *joined);
    }
    n
}

// How many edges a table has.
pub fn edges(table: &[[bool; 65]; 65]) -> u16
    ensures { result ≡ edges table.now }
{
    let mut n = 0;
    for (x, row) in table.iter().enumerate() {
        n += edges_of(row, x);
    }
    n
}
