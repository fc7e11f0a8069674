// The laws of the definitions stand in proofs/. Here are the functions by which all code reads a list and a number of probes as the definitions do.
#![tactic(auto)]

ghost use Rattle.std.specs.Prelude.{◌≡◌, get_or};
ghost use Rattle.laws.specs.Few.{at_most63};

// What stands at a place of a list, 0 past its end.
pub fn number_at(list: &[u8], at: usize) -> u8
    ensures { result ≡ get_or list.now at 0 }
{
    if at < list.len() { list[at] } else { 0 }
}

// As many probes as a yard may have: then every probe has a place in a list by node.
pub fn at_most_63(p: u8) -> u8
    ensures { result ≡ at_most63 p }
{
    if p < 63 { p } else { 63 }
}
