// What a line of a graph's text is, by its words: spaces cut a line into words, as newlines cut a text into lines.
#![tactic(auto)]

ghost use Rattle.std.specs.Prelude.{◌≡◌, length};
ghost use Rattle.meaning.specs.Words.{least};
ghost use Rattle.graph.specs.Part.{space, marks, part};
ghost use Rattle.graph.specs.Lines.{same, is_number, number_at, is_comment, is_problem, is_edge, line_of};

use graph::Line;

// How many bytes stand before the first mark, or before the end.
#[inline(never)]
pub fn part_length(mark: u8, bytes: &[u8]) -> usize
    ensures { result ≡ length (part mark 0 bytes.now) }
{
    bytes
        .iter()
        .position(|byte| *byte == mark)
        .unwrap_or(bytes.len())
}

// How often a space stands in a line.
fn spaces(line: &[u8]) -> usize
    ensures { result ≡ marks space line.now }
{
    line.iter().filter(|byte| **byte == b' ').count()
}

// The word behind k spaces.
fn word(line: &[u8], k: usize) -> &[u8]
    ensures { result.now ≡ part space k line.now }
{
    line.split(|byte| *byte == b' ').nth(k).unwrap_or(&[])
}

#[tactic(auto, unfolding(graph::specs::Lines::is_number))]
fn is_number(word: &[u8]) -> bool
    ensures { result ≡ is_number word.now }
{
    !word.is_empty() && !digits::others_stand(word) && (word.len() == 1 || word[0] != b'0')
}

// Whether word k of a line is just these bytes.
fn says(line: &[u8], k: usize, bytes: &[u8]) -> bool
    ensures { result ≡ same (part space k line.now) bytes.now }
{
    word(line, k) == bytes
}

// Which of so many words of a line is just these bytes; as many where none is, not None: what a public function answers may not change.
pub fn place_of(line: &[u8], many: usize, bytes: &[u8]) -> usize
    ensures { result ≡ least many (λ k. same (part space k line.now) bytes.now) }
{
    (0..many).find(|k| says(line, *k, bytes)).unwrap_or(many)
}

// Whether word k of a line is a number.
fn has_number(line: &[u8], k: usize) -> bool
    ensures { result ≡ is_number (part space k line.now) }
{
    is_number(word(line, k))
}

// The number that word k of a line says.
fn number_at(line: &[u8], k: usize) -> u16
    ensures { result ≡ number_at line.now k }
{
    digits::number_said(word(line, k))
}

fn is_comment(line: &[u8]) -> bool
    ensures { result ≡ is_comment line.now }
{
    line.starts_with(b"c")
}

#[tactic(auto, unfolding(graph::specs::Lines::is_problem, meaning::specs::Lister::text))]
fn is_problem(line: &[u8]) -> bool
    ensures { result ≡ is_problem line.now }
{
    spaces(line) == 3
        && says(line, 0, b"p")
        && says(line, 1, b"edge")
        && has_number(line, 2)
        && has_number(line, 3)
}

#[tactic(auto, unfolding(graph::specs::Lines::is_edge, meaning::specs::Lister::text))]
fn is_edge(line: &[u8]) -> bool
    ensures { result ≡ is_edge line.now }
{
    spaces(line) == 2 && says(line, 0, b"e") && has_number(line, 1) && has_number(line, 2)
}

// What a line is.
#[tactic(auto, unfolding(graph::specs::Lines::line_of))]
pub fn line_of(line: &[u8]) -> Line
    ensures { result ≡ line_of line.now }
{
    if is_comment(line) {
        Line::Comment
    } else if is_problem(line) {
        Line::Problem(number_at(line, 2), number_at(line, 3))
    } else if is_edge(line) {
        Line::Edge(number_at(line, 1), number_at(line, 2))
    } else {
        Line::Other
    }
}
