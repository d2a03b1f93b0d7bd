ghost use Rattle.std.specs.Prelude.{◌≡◌, ◌==◌, length};
ghost use Rattle.le_terms.specs.Variables.{occurrences};
ghost use Rattle.le_proofs.specs.Goals.{is_ground_atom};

use le_terms::{Atom, Term, is_ground};

/// Whether an atom has no variable.
pub fn is_ground_atom(atom: &Atom) -> bool
    ensures { result ≡ is_ground_atom atom.now }
{
    for term in atom.args.as_slice() {
        if !has_no_variable(term) {
            return false;
        }
    }
    true
}

// Whether a term has no variable.
fn has_no_variable(term: &Term) -> bool
    ensures { result ≡ (length (occurrences term.now) == 0) }
{
    is_ground(term)
}
