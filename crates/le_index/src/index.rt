ghost use Rattle.std.specs.Prelude.{◌≡◌, ◌<◌, ◌^◌, ℕ, List, length, IfOk, OnOk};
ghost use Rattle.le_terms.specs.declared.program.Clause.{Clause};
ghost use Rattle.le_index.specs.Candidates.{candidate_of};
ghost use Rattle.le_index.specs.Listing.{IsIndexOf, Lists, Adds};

use crate::key_of;
use crate::listed::Listed;
use indexmap::IndexMap;
use le_terms::{Atom, Clause};
use std::alloc::{AllocError, Global};

/// An index of a program's clauses: of each predicate the numbers of its clauses, and the keys of their
/// heads.
#[derive(Drop)]
pub struct Index {
    lists: IndexMap<u32, Listed>,
}

impl Index {
    /// The index of these clauses, which are fewer than 2^31.
    pub fn make(alloc: Global, clauses: &[Clause]) -> Result<Self, AllocError>
        requires { length clauses.now < 2 ^ 31 }
        ensures { IfOk result (λ index. IsIndexOf index clauses.now) }
    {
        let mut lists = IndexMap::new(alloc);
        for (place, clause) in clauses.iter().enumerate() {
            add(alloc, &mut lists, place as u32 + 1, &clause.head)?;
        }
        Ok(Index { lists })
    }

    /// The least number at or after `from` of a clause whose head has the predicate and, where `key` isn't
    /// 0, a key of 0 or `key`: `None` exactly where there is none. Clauses are numbered from 1.
    pub fn candidate(&self, pred: u32, key: u32, from: u32) -> Option<u32>
        ensures { (clauses : List Clause) → IsIndexOf self.now clauses → result ≡ candidate_of clauses pred key from }
    {
        match self.lists.get(&pred) {
            Some(listed) => listed.candidate(key, from),
            None => None,
        }
    }
}

// Adds the clause of a number and a head to the lists.
fn add(
    alloc: Global,
    lists: &mut IndexMap<u32, Listed>,
    number: u32,
    head: &Atom,
) -> Result<(), AllocError>
    ensures { OnOk result (Adds lists.old lists.new number head.now) }
{
    let mut listed = match lists.swap_remove(&head.pred) {
        Some(listed) => listed,
        None => Listed::new(alloc),
    };
    listed.push(number, key_of(head))?;
    lists.insert(head.pred, listed)?;
    Ok(())
}
