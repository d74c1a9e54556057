//! Strictly rising lists, as sets.
ghost use Rattle.std.specs.Prelude.{◌≡◌, ◌↔◌, IsTrue, Contains};
ghost use Rattle.std.specs.List.Sorted.{IsStrictlyIncreasing};
ghost use Rattle.aig_graph.specs.Marking.{has};

pub(crate) fn is_rising(numbers: &[u32]) -> bool
    ensures { IsTrue result ↔ IsStrictlyIncreasing numbers.now }
{
    for i in 1..numbers.len() {
        if numbers[i - 1] >= numbers[i] {
            return false;
        }
    }
    true
}

/// Returns true if the number is in a rising list, by a binary search.
pub(crate) fn contains(numbers: &[u32], number: u32) -> bool
    requires { IsStrictlyIncreasing numbers.now }
    ensures value { result ≡ has numbers.now number }
    ensures contains { IsTrue result ↔ Contains numbers.now number }
{
    numbers.binary_search(&number).is_ok()
}
