// Walking from parent to parent, and what levels come to: hops and the depth of a yard. Tables are by node; outside them every number is 0.
#![tactic(auto)]

ghost use Rattle.std.specs.Prelude.{◌≡◌, ◌*◌, ◌≤◌, get_or};
ghost use Rattle.meaning.specs.Words.{most_probes, by_node};
ghost use Rattle.meaning.specs.Yard.{climbed, hops_of};

use meaning::{Level, Node};

// The level at which the walk from a node arrives, which has `left` hops to take; none where it never does.
pub fn climb(parents: &[u8; 65], v: Node, left: u8) -> Option<Level>
    ensures { result ≡ climbed (by_node parents.now) left v.0 }
{
    let node = v.0;
    if node == 1 {
        return Some(Level(0));
    }
    if left == 0 {
        return None;
    }
    let parent = laws::number_at(parents, node as usize);
    let level = climb(parents, Node(parent), left - 1)?;
    Some(Level(level.0 + 1))
}

// The hops of one node: its packets times its level.
fn hops_at(packets: &[u8; 65], levels: &[u8; 65], v: usize) -> u32
    ensures value { result ≡ get_or packets.now v 0 * get_or levels.now v 0 }
    ensures upper_bound { result ≤ 65025 }
{
    laws::number_at(packets, v) as u32 * laws::number_at(levels, v) as u32
}

// The sum over all probes of packets times level. By tables: the sheet reckons it before there is a tree.
pub fn hops(p: u8, packets: &[u8; 65], levels: &[u8; 65]) -> u32
    ensures { result ≡ hops_of p (by_node packets.now) (by_node levels.now) }
{
    let mut hops: u32 = 0;
    for k in 0..p {
        hops += hops_at(packets, levels, k as usize + 2);
    }
    hops
}

// The deepest level of a probe, 0 with no probes.
pub fn depth(p: u8, levels: &[u8; 65]) -> Level
    ensures { result ≡ record { 0 = most_probes p (by_node levels.now) } }
{
    let mut deepest: u8 = 0;
    for k in 0..p {
        deepest = deepest.max(laws::number_at(levels, k as usize + 2));
    }
    Level(deepest)
}
