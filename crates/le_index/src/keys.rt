ghost use Rattle.std.specs.Prelude.{◌≡◌, ◌<◌, ◌^◌};
ghost use Rattle.le_index.specs.Keys.{key_of, key_of_symbol, remainder};

use le_terms::{Atom, Sym};

// Numbers are told apart by their remainders by this one.
const MODULUS: i64 = 1_000_000_000;

/// The key of an atom: that of the first symbol of its first argument, and 0 where it has no argument.
pub fn key_of(atom: &Atom) -> u32
    ensures { result ≡ key_of atom.now }
{
    match atom.args.as_slice() {
        [] => 0,
        [first, ..] => key_of_symbol(first.root()),
    }
}

/// The key of a term's first symbol. A variable has 0, which stands for any key; terms whose keys differ and
/// aren't 0 have no unifier.
pub fn key_of_symbol(sym: Sym) -> u32
    ensures { result ≡ key_of_symbol sym }
{
    match sym {
        Sym::Var(_) => 0,
        Sym::Nil => 1,
        Sym::Cons => 2,
        Sym::Name(n) => 3 + 3 * remainder(i64::from(n)),
        Sym::Num(z) => 4 + 3 * remainder(z),
        Sym::Day(d) => 5 + 3 * remainder(i64::from(d)),
    }
}

// The remainder of a number, from 0 to 10^9 - 1.
fn remainder(z: i64) -> u32
    ensures value { result ≡ remainder z }
    ensures below { result < 10 ^ 9 }
{
    z.rem_euclid(MODULUS) as u32
}
