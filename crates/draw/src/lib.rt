// Writes the conflict table of a sheet as a graph's text, as docs/RULES.md has it under "A graph as text".
#![tactic(auto)]

ghost use Rattle.std.specs.Prelude.{◌≡◌, cond, [], ◌-◌, ◌≤◌, ◌<◌, length};
ghost use Rattle.meaning.specs.Words.{places};
ghost use Rattle.meaning.specs.Plan.{front};
ghost use Rattle.lines.specs.Fits.{Fits};
ghost use Rattle.draw.specs.Copied.{Copied};
ghost use Rattle.graph.specs.Drawing.{texts, problem_line, edge_line, row_text, table_text, drawn_answer, graph_made};

use meaning::{Fault, Refusal};

// The vertex of a probe; 0 of node 0, which no edge of a sheet has.
fn vertex(x: usize) -> u16
    requires { x < places }
    ensures { result ≡ x - 1 }
{
    x.saturating_sub(1) as u16
}

// Puts the line of an edge at a place, or nothing where there is none; says where it ends.
fn put_edge(is: bool, a: u16, b: u16, out: &mut [u8], at: usize) -> usize
    ensures { Fits out.old at (cond is (edge_line a b) []) out.new result }
{
    if !is {
        return at;
    }
    let first = lines::put_counted(b"e ", a, out, at);
    let second = lines::put_counted(b" ", b, out, first);
    lines::put_words(b"\n", out, second)
}

// Puts the edges of a row whose own vertex is the smaller; says where they end.
fn put_row(table: &[[bool; 65]; 65], x: usize, out: &mut [u8], at: usize) -> usize
    requires { x < places }
    ensures { Fits out.old at (row_text table.now x) out.new result }
{
    let a = vertex(x);
    let mut end = at;
    for y in 0..65 {
        end = put_edge((x < y) & table[x][y], a, vertex(y), out, end);
    }
    end
}

// Puts all edges, by their smaller vertex and then by their larger; says where they end.
fn put_edges(table: &[[bool; 65]; 65], out: &mut [u8], at: usize) -> usize
    ensures { Fits out.old at (texts places (row_text table.now)) out.new result }
{
    let mut end = at;
    for x in 0..65 {
        end = put_row(table, x, out, end);
    }
    end
}

// Puts the line with the number of vertices and of edges; says where it ends.
fn put_problem(vertices: u8, edges: u16, out: &mut [u8], at: usize) -> usize
    ensures { Fits out.old at (problem_line vertices edges) out.new result }
{
    let first = lines::put_counted(b"p edge ", vertices as u16, out, at);
    let second = lines::put_counted(b" ", edges, out, first);
    lines::put_words(b"\n", out, second)
}

// Puts the text of a table at a place; says where it ends.
fn put_table(vertices: u8, table: &[[bool; 65]; 65], out: &mut [u8], at: usize) -> usize
    ensures { Fits out.old at (table_text vertices table.now) out.new result }
{
    let next = put_problem(vertices, graph::edges(table), out, at);
    put_edges(table, out, next)
}

// Copies the text of a table whole into a buffer, if it is long enough; says how long the text is. It keeps its room on the stack to itself: inlined, it would hold it while the table is made.
#[inline(never)]
fn copy_text(vertices: u8, table: &[[bool; 65]; 65], out: &mut [u8]) -> Option<usize>
    requires { length (table_text vertices table.now) ≤ 15081 }
    ensures { Copied (table_text vertices table.now) out.old out.new result }
{
    let mut text = [0u8; graph::ANY_GRAPH];
    let n = put_table(vertices, table, &mut text, 0);
    if out.len() < n {
        return None;
    }
    Some(lines::put_words(&text[..n], out, 0))
}

// The graph of any sheet as text, into any buffer: its bytes, or the refusal.
pub fn graph_made(sheet: &[u8], out: &mut [u8]) -> Result<usize, Refusal>
    ensures part { (drawn_answer result).bytes ≤ length out.new }
    ensures answer { drawn_answer result ≡ (graph_made sheet.now (length out.old)).answer }
    ensures buffer { out.new ≡ front out.old (graph_made sheet.now (length out.old)).written }
{
    let tree = sheet::read(sheet)?;
    let table = tree.conflicts(sheet);
    let copied = copy_text(tree.probes, &table, out);
    let Some(bytes) = copied else {
        return Err(Refusal {
            fault: Fault::TextRoom,
            place: 0,
        });
    };
    Ok(bytes)
}
