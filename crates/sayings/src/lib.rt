// The words of the numbers: `words` and `words_in` decide every byte of them.
#![tactic(auto)]

ghost use Rattle.std.specs.Prelude.{◌≡◌};
ghost use Rattle.sayings.specs.Saying.{saying, saying_in};

use meaning::Mode;

// What a number says, in the words of docs/NUMBERS.md.
pub fn words(number: u8) -> &'static [u8]
    ensures { result.now ≡ saying number }
{
    match number {
        1 => b"the sheet ends too early",
        2 => b"the sheet counts more than 63 probes, or more pairs than its nodes have",
        3 => b"bytes stand behind the sheet",
        4 => b"the probe's parent is 0, the probe itself, or no node of the yard",
        5 => b"the probe has more than 15 packets",
        6 => b"the walk from the probe to its parents never reaches the gateway",
        7 => b"the pair does not name two nodes of the yard, the smaller first",
        8 => b"the pair is not above the one before it",
        9 => b"the plan buffer is shorter than this yard wants",
        10 => b"the plan has more than 65,535 slots",
        11 => b"the plan ends too early",
        12 => b" is no probe of the yard",
        13 => b" is not above the one before it",
        14 => b" holds no packet",
        15 => b" conflict",
        16 => b"bytes stand behind the last slot",
        17 => b"packets are left outside the gateway",
        18 => b"the line may not stand there, or at 0 no p line came",
        19 => b"the edge names a vertex out of range, or one vertex twice",
        20 => b"the p line counts other edges than there are",
        21 => b"the buffer is shorter than the graph's text",
        22 => b"the buffer is shorter than the wake book",
        _ => b"no number of docs/NUMBERS.md",
    }
}

// The same in a mode: of merged readings 14 and 17 have words of their own.
pub fn words_in(mode: Mode, number: u8) -> &'static [u8]
    ensures { result.now ≡ saying_in mode number }
{
    match (mode, number) {
        (Mode::Merged, 14) => b" is not ready",
        (Mode::Merged, 17) => b"some probe never sent",
        _ => words(number),
    }
}
