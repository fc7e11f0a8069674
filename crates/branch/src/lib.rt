// The packets of a tree, of its heaviest branch, of its slowest one with the lag, and the fewest slots of any plan. Its tables are by node; outside them every number is 0.
// Nodes are numbers here and no bytes: the last of 255 probes is 256.
#![tactic(auto)]

ghost use Rattle.std.specs.Prelude.{◌≡◌, cond, ℕ, ◌-◌, ◌*◌, ◌<◌, ◌≤◌, length, get_or};
ghost use Rattle.meaning.specs.Words.{places, sum_probes, most_probes, by_node};
ghost use Rattle.meaning.specs.Yard.{reaches, lag_on, branch_packets, branch_lag, hears_and_sends, heaviest_of, slowest_of, least_slots_of};

use meaning::Probe;
use sheet::Tree;

// All packets of its probes.
pub fn all_packets(tree: &Tree) -> u16
    ensures { result ≡ sum_probes tree.now.probes (by_node tree.now.packets) }
{
    let mut all: u16 = 0;
    for k in 0..tree.probes {
        all += laws::number_at(&tree.packets, k as usize + 2) as u16;
    }
    all
}

// Whether the walk to parents from v comes to top, in at most as many hops as there are probes.
fn comes_to(tree: &Tree, top: usize, v: usize) -> bool
    ensures { result ≡ reaches (by_node tree.now.parents) top tree.now.probes v }
{
    let mut node = v;
    for _hop in 0..tree.probes {
        if node == top {
            return true;
        }
        let next = laws::number_at(&tree.parents, node) as usize;
        if next == node {
            return false; // as at 0, behind the gateway: the walk stays there
        }
        node = next;
    }
    node == top
}

// The packets that v brings to the branch of top.
fn brought(tree: &Tree, top: usize, v: usize) -> u8
    ensures { result ≡ cond (reaches (by_node tree.now.parents) top tree.now.probes v) (get_or tree.now.packets v 0) 0 }
{
    if comes_to(tree, top, v) {
        return laws::number_at(&tree.packets, v);
    }
    0
}

// The packets of the branch of top; a probe past the table's end has none.
fn branch(tree: &Tree, top: usize) -> u16
    ensures { (result ≡ branch_packets tree.now.probes (by_node tree.now.parents) (by_node tree.now.packets) top) × (result ≤ 255 * 63) }
{
    let mut all: u16 = 0;
    for k in 0..tree.probes.min(63) {
        all += brought(tree, top, k as usize + 2) as u16;
    }
    all
}

// The lag of the walk to parents from v when it comes to top; each hop adds at most one, so that it is never more than the hops.
fn lag_on(tree: &Tree, top: usize, v: usize) -> u8
    ensures { result ≡ lag_on (by_node tree.now.parents) (by_node tree.now.packets) top tree.now.probes 0 v }
{
    let mut node = v;
    let mut lag: u8 = 0;
    for _hop in 0..tree.probes {
        if node == top {
            return lag;
        }
        node = laws::number_at(&tree.parents, node) as usize;
        lag = (lag + 1).saturating_sub(laws::number_at(&tree.packets, node));
    }
    lag
}

// The lag that v brings to the branch of top.
fn lag_brought(tree: &Tree, top: usize, v: usize) -> u8
    ensures { result ≡ cond (reaches (by_node tree.now.parents) top tree.now.probes v)
        (lag_on (by_node tree.now.parents) (by_node tree.now.packets) top tree.now.probes 0 v) 0 }
{
    if !comes_to(tree, top, v) {
        return 0;
    }
    lag_on(tree, top, v)
}

// The lag of the branch of top.
fn branch_lag(tree: &Tree, top: usize) -> u16
    ensures { (result ≡ branch_lag tree.now.probes (by_node tree.now.parents) (by_node tree.now.packets) top) × (result ≤ 255) }
{
    let mut most: u16 = 0;
    for k in 0..tree.probes {
        most = most.max(lag_brought(tree, top, k as usize + 2) as u16);
    }
    most
}

// What top hears and sends: its branch's packets twice, less its own; never below 0.
fn hears_and_sends(tree: &Tree, top: usize) -> u16
    ensures { result ≡ hears_and_sends tree.now.probes (by_node tree.now.parents) (by_node tree.now.packets) top }
{
    let own = laws::number_at(&tree.packets, top) as u16;
    (2 * branch(tree, top)).saturating_sub(own)
}

// The most that a top weighs, 0 with no probes.
fn most_weight<F: Fn(usize) -> u16>(p: u8, weight: F) -> u16
    requires { F.IsAlwaysCallable weight }
    ensures { (weight_of : ℕ → ℕ) → ((top r : ℕ) → F.post weight top r → r ≡ weight_of top) → result ≡ most_probes p weight_of }
{
    let mut best: u16 = 0;
    for k in 0..p {
        best = best.max(weight(k as usize + 2));
    }
    best
}

// The packets of the branch of top.
pub fn in_branch(tree: &Tree, top: Probe) -> u16
    ensures { result ≡ branch_packets tree.now.probes (by_node tree.now.parents) (by_node tree.now.packets) top.0 }
{
    branch(tree, top.0 as usize)
}

// The packets of the heaviest branch, 0 with no probes.
pub fn heaviest(tree: &Tree) -> u16
    ensures { result ≡ heaviest_of tree.now.probes (by_node tree.now.parents) (by_node tree.now.packets) }
{
    most_weight(tree.probes, |top| branch(tree, top))
}

// The packets and the lag of the slowest branch, 0 with no probes.
pub fn slowest(tree: &Tree) -> u16
    ensures { result ≡ slowest_of tree.now.probes (by_node tree.now.parents) (by_node tree.now.packets) }
{
    most_weight(tree.probes, |top| branch(tree, top) + branch_lag(tree, top))
}

// The fewest slots of any plan: all packets, or more where a probe hears and sends more; 0 with no probes.
pub fn least_slots(tree: &Tree) -> u16
    ensures { result ≡ least_slots_of tree.now.probes (by_node tree.now.parents) (by_node tree.now.packets) }
{
    let all = all_packets(tree);
    let most = most_weight(tree.probes, |top| hears_and_sends(tree, top));
    all.max(most)
}
