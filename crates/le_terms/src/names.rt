ghost use Rattle.std.specs.Prelude.{◌≡◌, ◌-◌, ◌^◌, ◌<◌, [], Some, length, take, map, slice_get, string_bytes, IfOk, OnOk, OnErr};
ghost use Rattle.le_terms.specs.Names.{number_of_name, entered, HasNoRepeats};

use indexmap::IndexSet;
use std::alloc::{AllocError, Global};
use std::marker::Model;

/// The names of constants, numbered from 0 in the order in which they were entered. No name is there
/// twice.
#[derive(Drop)]
pub struct Names {
    texts: IndexSet<String>,
}

impl Model for Names {
    ghost use Rattle.std.specs.Prelude.{ℕ, List, map, string_bytes};
    ghost use Rattle.le_terms.specs.Names.{IsNames};

    ghost Value = { List (List ℕ) };

    ghost view = { λ n. map string_bytes n.texts.keys };

    ghost invariant = { λ n. IsNames (map string_bytes n.texts.keys) };
}

impl Names {
    /// No names.
    pub fn new(alloc: Global) -> Self
        ensures { result ≡ [] }
    {
        Names {
            texts: IndexSet::new(alloc),
        }
    }

    /// The number of a name of at most 268,435,456 bytes, where fewer than 2^32 - 1 names are there. A
    /// name that isn't there is entered with the next number. Where memory runs out, the names are
    /// as before.
    pub fn number_of(&mut self, name: &str) -> Result<u32, AllocError>
        requires { length self.old < 2 ^ 32 - 1 }
        ensures number { IfOk result (λ n. n ≡ number_of_name self.old name.now) }
        ensures names { OnOk result (self.new ≡ entered self.old name.now) }
        ensures refused { OnErr result (self.new ≡ self.old) }
    {
        let place = enter(&mut self.texts, name)?;
        Ok(place as u32)
    }

    /// The name of this number, which is below the count.
    pub fn name(&self, n: u32) -> &str
        requires { n < length self.now }
        ensures name { slice_get self.now n ≡ Some result.now }
        ensures number { number_of_name self.now result.now ≡ n }
    {
        self.texts.as_slice()[n as usize].as_str()
    }

    /// How many names there are.
    pub fn count(&self) -> u32
        ensures count { result ≡ length self.now }
        ensures distinct { HasNoRepeats self.now }
    {
        self.texts.len() as u32
    }

    /// Keeps the first `n` names.
    pub fn truncate(&mut self, n: u32)
        ensures { self.new ≡ take n self.old }
    {
        self.texts.truncate(n as usize);
    }
}

// The place of a name, which is entered at the end where it isn't there.
fn enter(texts: &mut IndexSet<String>, name: &str) -> Result<usize, AllocError>
    ensures place { IfOk result (λ n. n ≡ number_of_name (map string_bytes texts.old.keys) name.now) }
    ensures texts { OnOk result (map string_bytes texts.new.keys ≡ entered (map string_bytes texts.old.keys) name.now) }
    ensures refused { OnErr result (map string_bytes texts.new.keys ≡ map string_bytes texts.old.keys) }
{
    if let Some(place) = texts.get_index_of(name) {
        return Ok(place);
    }
    let place = texts.len();
    let owned = String::from_str(*texts.allocator(), name)?;
    texts.insert(owned)?;
    Ok(place)
}
