// A graph's table as a person reads it: every byte of it, in a lent buffer.
#![tactic(auto)]

ghost use Rattle.std.specs.Prelude.{◌≡◌, ◌≤◌, length, take};
ghost use Rattle.lines.specs.Line.{line_length, line_in};
ghost use Rattle.lines.specs.Text.{Says};
ghost use Rattle.tabled.specs.Tabled.{head_line, degree_in, vertex_line, shown_table};

use lines::Text;

// Room for any table: 64 lines of at most 400 bytes.
pub const ANY_TABLE: usize = 25600;

// A table as it is said.
type Table = Text<ANY_TABLE>;

// Says the line of the whole graph.
fn say_head(text: &mut Table, vertices: u8, edges: u16)
    ensures { Says 25600 text.old (head_line vertices edges) text.new }
{
    text.counted(b"vertices ", vertices as u16);
    text.counted(b" edges ", edges);
    text.words(b"\n");
}

// How many vertices a vertex is joined to.
fn degree(row: &[bool; 65]) -> u16
    ensures { result ≡ degree_in row.now }
{
    let mut n = 0;
    for k in 0..63 {
        n += u16::from(row[k + 2]);
    }
    n
}

// Says the line of a vertex: its number, its degree, and each vertex that it is joined to after a space.
fn say_vertex(text: &mut Table, v: u8, row: &[bool; 65])
    ensures { Says 25600 text.old (vertex_line v row.now) text.new }
{
    text.counted(b"", v as u16);
    text.counted(b" degree ", degree(row));
    text.words(b":");
    for k in 0..63 {
        if row[k as usize + 2] {
            text.counted(b" ", k + 1);
        }
    }
    text.words(b"\n");
}

// Says the line of the graph and one for each vertex, which has the row of the node behind it.
fn say_table(text: &mut Table, vertices: u8, table: &[[bool; 65]; 65])
    ensures { Says 25600 text.old (shown_table vertices table.now) text.new }
{
    say_head(text, vertices, graph::edges(table));
    for k in 0..vertices.min(63) {
        say_vertex(text, k + 1, &table[k as usize + 2]);
    }
}

// The table of a graph, at the start of a lent buffer; says how many bytes it has, 0 and nothing written where they do not fit.
pub fn table_text(vertices: u8, table: &[[bool; 65]; 65], out: &mut [u8]) -> usize
    ensures part { (result ≤ length out.new) × (result ≡ length (take result out.new)) }
    ensures answer { result ≡ line_length out.old (shown_table vertices table.now) }
    ensures buffer { out.new ≡ line_in out.old (shown_table vertices table.now) }
{
    let mut text = Text::new();
    say_table(&mut text, vertices, table);
    lines::put_words(text.as_slice(), out, 0)
}
