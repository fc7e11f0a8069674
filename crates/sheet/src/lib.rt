// Reads a yard sheet once: its first refusal, or the tree that it describes, with the conflict table and the depth of that tree.
#![tactic(auto)]

ghost use Rattle.std.specs.Prelude.{◌≡◌, ◌<◌, ◌≤◌, ◌||◌, ◌&&◌, eqb, ltb, leb, drop};
ghost use Rattle.meaning.specs.Words.{tab, places, most_probes, by_node};
ghost use Rattle.meaning.specs.Sheet.{probe_records, pair_count_at, pair_count, pair_records, interfere};
ghost use Rattle.meaning.specs.Conflict.{conflict, table_of};
ghost use Rattle.meaning.specs.Answer.{in_order, probe_test, walk_test, pair_test, counts_test, sheet_test};
ghost use Rattle.meaning.specs.Returned.{number_of};
ghost use Rattle.meaning.specs.Results.{outcome_of, test_answer, Answers};
ghost use Rattle.sheet.specs.Tree.{of_the_sheet, record_byte, strayed, levels_by, tree_of};

use meaning::{Fault, Level, Node, Probe, Refusal};

// What an accepted sheet is read as; parents, packets and levels stand by node.
#[derive(Clone, Copy)]
pub struct Tree {
    pub probes: u8,
    pub parents: [u8; 65],
    pub packets: [u8; 65],
    pub levels: [u8; 65],
    pub hops: u32,
}

impl Tree {
    // The conflict table of the sheet that was read; its pairs are handed on as they stand.
    pub fn conflicts(&self, sheet: &[u8]) -> [[bool; 65]; 65]
        ensures { result ≡ table_of (conflict self.now.probes (by_node self.now.parents)
            (interfere (pair_records sheet.now) (pair_count sheet.now))) }
    {
        let pairs = pair_records(sheet);
        conflict::table(self.probes, self.parents, pairs, pair_count(sheet))
    }

    // The deepest level of a probe, 0 with no probes.
    pub fn depth(&self) -> Level
        ensures { result ≡ record { 0 = most_probes self.now.probes (by_node self.now.levels) } }
    {
        walk::depth(self.probes, &self.levels)
    }
}

// The rest of a sheet from a place on; nothing past its end.
fn rest(s: &[u8], at: usize) -> &[u8]
    ensures { result.now ≡ drop at s.now }
{
    let end = s.len();
    if at < end { &s[at..] } else { &s[end..] }
}

// Where the two bytes q stand.
fn pair_count_at(sheet: &[u8]) -> usize
    ensures { result ≡ pair_count_at sheet.now }
{
    2 * (laws::number_at(sheet, 0) as usize) + 1
}

// q, the number of interfering pairs.
fn pair_count(sheet: &[u8]) -> u16
    ensures { result ≡ pair_count sheet.now }
{
    let at = pair_count_at(sheet);
    256 * (laws::number_at(sheet, at) as u16) + laws::number_at(sheet, at + 1) as u16
}

// The probes' records: the rest of the sheet behind p.
fn probe_records(sheet: &[u8]) -> &[u8]
    ensures { result.now ≡ probe_records sheet.now }
{
    rest(sheet, 1)
}

// The pairs' records: the rest of the sheet behind q.
fn pair_records(sheet: &[u8]) -> &[u8]
    ensures { result.now ≡ pair_records sheet.now }
{
    let at = pair_count_at(sheet);
    rest(sheet, at + 2)
}

// A refusal of the sheet as a whole.
fn of_the_sheet(fault: Fault) -> Refusal
    ensures { outcome_of result ≡ of_the_sheet (number_of fault) }
{
    Refusal { fault, place: 0 }
}

// The sheet's tests before its records.
fn counts_test(sheet: &[u8]) -> Result<(), Refusal>
    ensures { test_answer result ≡ counts_test sheet.now }
{
    let length = sheet.len();
    if length == 0 {
        return Err(of_the_sheet(Fault::SheetShort));
    }
    let p = laws::number_at(sheet, 0) as usize;
    if 63 < p {
        return Err(of_the_sheet(Fault::CountTooLarge));
    }
    let at = pair_count_at(sheet);
    if length < at + 2 {
        return Err(of_the_sheet(Fault::SheetShort));
    }
    let q = pair_count(sheet) as usize;
    if p * (p + 1) / 2 < q {
        return Err(of_the_sheet(Fault::CountTooLarge));
    }
    let whole = at + 2 + 2 * q;
    if length < whole {
        return Err(of_the_sheet(Fault::SheetShort));
    }
    if whole < length {
        return Err(of_the_sheet(Fault::SheetLong));
    }
    Ok(())
}

// A parent that is 0, above n, or the probe itself.
fn parent_wrong(parent: u16, n: u16, probe: u16) -> bool
    ensures { result ≡ (eqb parent 0 || ltb n parent || eqb parent probe) }
{
    parent == 0 || n < parent || parent == probe
}

// Packets above 15; a relay has none.
fn packets_wrong(packets: u8) -> bool
    ensures { result ≡ ltb 15 packets }
{
    15 < packets
}

// 4 and 5 of probe k + 2.
fn probe_test(records: &[u8], p: u8, k: u8) -> Result<(), Refusal>
    ensures { test_answer result ≡ probe_test records.now p k }
{
    let place = k as u16 + 2;
    let at = 2 * (k as usize);
    if parent_wrong(laws::number_at(records, at) as u16, p as u16 + 1, place) {
        return Err(Refusal {
            fault: Fault::ParentWrong,
            place,
        });
    }
    if packets_wrong(laws::number_at(records, at + 1)) {
        return Err(Refusal {
            fault: Fault::TooManyPackets,
            place,
        });
    }
    Ok(())
}

// The probes' tests in rising number, up to the first that gives a number.
fn probes_test(records: &[u8], p: u8) -> Result<(), Refusal>
    ensures { test_answer result ≡ in_order p (probe_test records.now p) }
{
    for k in 0..p {
        probe_test(records, p, k)?;
    }
    Ok(())
}

// One byte of the record of node v; 0 where v is no probe.
fn record_byte(records: &[u8], p: u8, side: usize, v: usize) -> u8
    requires { (side < 2) × (v < 65) }
    ensures { result ≡ record_byte records.now p side v }
{
    let n = p as usize + 1;
    if v < 2 {
        return 0;
    }
    if n < v {
        return 0;
    }
    laws::number_at(records, 2 * (v - 2) + side)
}

// One byte of each record, by node.
fn by_node(records: &[u8], p: u8, side: usize) -> [u8; 65]
    requires { side < 2 }
    ensures { result ≡ tab places (record_byte records.now p side) }
{
    let mut table = [0u8; 65];
    for v in 0..65 {
        table[v] = record_byte(records, p, side, v);
    }
    table
}

// Each probe's parent, by node.
fn parents(records: &[u8], p: u8) -> [u8; 65]
    ensures { result ≡ tab places (record_byte records.now p 0) }
{
    by_node(records, p, 0)
}

// Each probe's packets, by node.
fn packets(records: &[u8], p: u8) -> [u8; 65]
    ensures { result ≡ tab places (record_byte records.now p 1) }
{
    by_node(records, p, 1)
}

// The refusal where the walk from this probe never arrives.
fn strayed(probe: Probe) -> Refusal
    ensures { outcome_of result ≡ strayed probe.0 }
{
    Refusal {
        fault: Fault::NeverArrives,
        place: probe.0 as u16,
    }
}

// The probes' walks in rising number, up to the first that never arrives: the level of each, by node.
fn walks_test(parents: &[u8; 65], p: u8) -> Result<[u8; 65], Refusal>
    requires { p ≤ 63 }
    ensures { Answers (in_order p (walk_test (by_node parents.now) p)) (levels_by (by_node parents.now) p) result }
{
    let mut levels = [0u8; 65];
    for k in 0..p {
        let probe = k + 2;
        let Some(level) = walk::climb(parents, Node(probe), p) else {
            return Err(strayed(Probe(probe)));
        };
        levels[probe as usize] = level.0;
    }
    Ok(levels)
}

// A pair with a = 0, a ≥ b or b > n.
fn pair_wrong(a: u16, b: u16, n: u16) -> bool
    ensures { result ≡ (eqb a 0 || leb b a || ltb n b) }
{
    a == 0 || b <= a || n < b
}

// The pair c, d is above the pair a, b: by its first, and then by its second.
fn rises(a: u16, b: u16, c: u16, d: u16) -> bool
    ensures { result ≡ (ltb a c || eqb a c && ltb b d) }
{
    a < c || a == c && b < d
}

// 7 and 8 of pair k + 1.
fn pair_test(records: &[u8], p: u8, k: u16) -> Result<(), Refusal>
    requires { k < 65535 }
    ensures { test_answer result ≡ pair_test records.now p k }
{
    let place = k + 1;
    let at = 2 * (k as usize);
    let a = laws::number_at(records, at) as u16;
    let b = laws::number_at(records, at + 1) as u16;
    if pair_wrong(a, b, p as u16 + 1) {
        return Err(Refusal {
            fault: Fault::PairWrong,
            place,
        });
    }
    if k == 0 {
        return Ok(());
    }
    let before = 2 * (k as usize - 1);
    if rises(
        laws::number_at(records, before) as u16,
        laws::number_at(records, before + 1) as u16,
        a,
        b,
    ) {
        return Ok(());
    }
    Err(Refusal {
        fault: Fault::PairNotAbove,
        place,
    })
}

// The pairs' tests in order, up to the first that gives a number.
fn pairs_test(records: &[u8], p: u8, q: u16) -> Result<(), Refusal>
    ensures { test_answer result ≡ in_order q (pair_test records.now p) }
{
    for k in 0..q {
        pair_test(records, p, k)?;
    }
    Ok(())
}

// Reads a sheet whole, by the tests in the order of RULES, "Numbers returned": counts, probes, walks, pairs.
pub fn read(sheet: &[u8]) -> Result<Tree, Refusal>
    ensures { Answers (sheet_test sheet.now) (tree_of sheet.now) result }
{
    counts_test(sheet)?;
    let probes = laws::number_at(sheet, 0);
    let records = probe_records(sheet);
    probes_test(records, probes)?;
    let parents = parents(records, probes);
    let levels = walks_test(&parents, probes)?;
    pairs_test(pair_records(sheet), probes, pair_count(sheet))?;
    let packets = packets(records, probes);
    let hops = walk::hops(probes, &packets, &levels);
    Ok(Tree {
        probes,
        parents,
        packets,
        levels,
        hops,
    })
}
