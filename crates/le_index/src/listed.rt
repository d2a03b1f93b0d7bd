ghost use Rattle.std.specs.Prelude.{◌≡◌, ◌++◌, ◌≤◌, [], ◌∷◌, length, nat_lt, slice_get, true, false, OnOk};
ghost use Rattle.std.specs.List.Sorted.{IsPartitionPoint};
ghost use Rattle.le_index.specs.Candidates.{AreRising, candidate_among};

use le_lanes::next_key;
use std::alloc::{AllocError, Global};

// The clauses of one predicate, in order.
#[derive(Drop)]
pub(crate) struct Listed {
    // Their numbers.
    pub(crate) numbers: Vec<u32>,
    // The keys of their heads.
    pub(crate) keys: Vec<u32>,
}

impl Listed {
    // No clauses.
    pub(crate) fn new(alloc: Global) -> Self
        ensures numbers { result.numbers.items ≡ [] }
        ensures keys { result.keys.items ≡ [] }
    {
        Listed {
            numbers: Vec::new(alloc),
            keys: Vec::new(alloc),
        }
    }

    // One clause more.
    pub(crate) fn push(&mut self, number: u32, key: u32) -> Result<(), AllocError>
        ensures numbers { OnOk result (self.new.numbers.items ≡ self.old.numbers.items ++ number ∷ []) }
        ensures keys { OnOk result (self.new.keys.items ≡ self.old.keys.items ++ key ∷ []) }
    {
        self.numbers.push(number)?;
        self.keys.push(key)?;
        Ok(())
    }

    // The first of these clauses from a number on whose key may be met by this key.
    pub(crate) fn candidate(&self, key: u32, from: u32) -> Option<u32>
        ensures { AreRising self.now.numbers.items → length self.now.numbers.items ≡ length self.now.keys.items → result ≡ candidate_among key from self.now.numbers.items self.now.keys.items }
    {
        candidate_among(self.numbers.as_slice(), self.keys.as_slice(), key, from)
    }
}

// The first number from one on whose key may be met by this key.
fn candidate_among(numbers: &[u32], keys: &[u32], key: u32, from: u32) -> Option<u32>
    ensures { AreRising numbers.now → length numbers.now ≡ length keys.now → result ≡ candidate_among key from numbers.now keys.now }
{
    let first = first_from(numbers, from);
    if key == 0 {
        return number_at(numbers, first);
    }
    match next_key(keys, first, key) {
        Some(place) => number_at(numbers, place),
        None => None,
    }
}

// The number at a place, if there is one.
fn number_at(numbers: &[u32], place: usize) -> Option<u32>
    ensures { result ≡ slice_get numbers.now place }
{
    numbers.get(place).copied()
}

// The place of the first number that is at least this one.
fn first_from(numbers: &[u32], from: u32) -> usize
    ensures within { result ≤ length numbers.now }
    ensures parted { AreRising numbers.now → IsPartitionPoint (λ n. nat_lt n from ≡ true) (λ n. nat_lt n from ≡ false) numbers.now result }
{
    numbers.partition_point(
        |n: &u32| -> bool
            ensures { result ≡ nat_lt n.now from }
        { *n < from },
    )
}
