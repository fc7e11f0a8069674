// The wake book: from a sheet and a plan that the judge passes, in which slots each probe sends and in which it hears a child.
#![tactic(auto)]

ghost use Rattle.std.specs.Prelude.{◌≡◌, ℕ, ◌+◌, ◌-◌, ◌*◌, ◌≤◌, ◌<◌, length, get_or};
ghost use Rattle.meaning.specs.Words.{by_node, tab, places};
ghost use Rattle.meaning.specs.Plan.{front};
ghost use Rattle.meaning.specs.Book.{book_made};
ghost use Rattle.meaning.specs.Results.{book_answer};
ghost use Rattle.book.specs.Layout.{all_sends, all_hears, sends_at, sends_of, hears_of, begun, all_begun};

use meaning::{Blame, Fault, Probe, Refusal};
use sheet::Tree;

// Where a node's two lists stand: of the slots in which it sends, and of those in which it hears a child.
#[derive(Clone, Copy)]
struct Lists {
    sends: usize,
    hears: usize,
}

// Where the lists stand by node, and how many bytes the book has.
#[derive(Clone, Copy)]
struct Layout {
    lists: [Lists; 65],
    bytes: usize,
}

// How often a probe hears a child: what its branch has less its own packets, never below 0.
fn hearings(sendings: u16, own: u8) -> usize
    ensures { result ≡ sendings - own }
{
    sendings.saturating_sub(u16::from(own)) as usize
}

// Where each list of a tree's probes is to stand; what is no probe has its lists at the end, where nothing has room.
fn laid_out(tree: &Tree, end: usize) -> Layout
    requires { tree.now.probes ≤ 63 }
    ensures lists { (all_sends result.lists ≡ tab places (sends_of tree.now.probes (by_node tree.now.parents) (by_node tree.now.packets) end))
        × (all_hears result.lists ≡ tab places (hears_of tree.now.probes (by_node tree.now.parents) (by_node tree.now.packets) end)) }
    ensures bytes { result.bytes ≡ sends_at tree.now.probes (by_node tree.now.parents) (by_node tree.now.packets) tree.now.probes }
{
    let nowhere = Lists {
        sends: end,
        hears: end,
    };
    let mut lists = [nowhere; 65];
    let mut at: usize = 0;
    for k in 0..tree.probes {
        let v = k as usize + 2;
        let sendings = branch::in_branch(tree, Probe(k + 2));
        lists[v] = Lists {
            sends: at,
            hears: at + 2 + 2 * (sendings as usize),
        };
        at += 4 + 2 * (sendings as usize) + 2 * hearings(sendings, tree.packets[v]);
    }
    Layout { lists, bytes: at }
}

// An empty list at a place, where it has room.
fn begin(place: usize, book: &mut [u8])
    ensures { book.new ≡ begun place book.old }
{
    let room = book.len();
    if room < 2 || room - 2 < place {
        return;
    }
    book[place] = 0;
    book[place + 1] = 0;
}

// Both lists of each of p probes, empty.
fn begin_all(p: u8, lists: &[Lists; 65], book: &mut [u8])
    requires { p ≤ 63 }
    ensures { book.new ≡ all_begun p (by_node (all_sends lists.now)) (by_node (all_hears lists.now)) book.old }
{
    for k in 0..p {
        let list = lists[k as usize + 2];
        begin(list.sends, book);
        begin(list.hears, book);
    }
}

// For each node where its sendings are listed, and behind that where its parent's hearings are: flat, as the public contract of `reader::note_slots` reads them.
fn by_sender(tree: &Tree, lists: &[Lists; 65]) -> [usize; 130]
    ensures own { (v : ℕ) → v < 65 → get_or result (2 * v) 0 ≡ get_or (all_sends lists.now) v 0 }
    ensures parents { (v : ℕ) → v < 65 → get_or result (2 * v + 1) 0 ≡ get_or (all_hears lists.now) (get_or tree.now.parents v 0) 0 }
{
    let mut at = [0usize; 130];
    for v in 0..65 {
        at[2 * v] = lists[v].sends;
        let up = tree.parents[v] as usize;
        if up < 65 {
            at[2 * v + 1] = lists[up].hears;
        }
    }
    at
}

// Writes the wake book of a plan that the judge passes at the start of a buffer, and says how many bytes it has, or refuses; a refusal writes nothing.
pub fn wake_book(sheet: &[u8], plan: &[u8], book: &mut [u8]) -> Result<usize, Blame>
    ensures answer { book_answer result ≡ (book_made sheet.now plan.now (length book.old)).answer }
    ensures buffer { book.new ≡ front book.old (book_made sheet.now plan.now (length book.old)).written }
{
    let slots = judge::judgement(sheet, plan)?;
    let tree = sheet::read(sheet)?;
    let layout = laid_out(&tree, book.len());
    let bytes = layout.bytes;
    if book.len() < bytes {
        return Err(Blame::from(Refusal {
            fault: Fault::BookRoom,
            place: 0,
        }));
    }
    begin_all(tree.probes, &layout.lists, book);
    let at = by_sender(&tree, &layout.lists);
    reader::note_slots(plan, slots, &at, book);
    Ok(bytes)
}
