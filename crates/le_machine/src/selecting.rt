ghost use Rattle.std.specs.Prelude.{◌≡◌, length, option_map};
ghost use Rattle.le_proofs.specs.Goals.{is_delayed, selected};
ghost use Rattle.le_machine.specs.Keeping.{kind_of};

use crate::goals::Kind;
use le_literals::is_ground_atom;
use le_terms::{Form, Literal};

// The place of the selected literal: in version 1 the first, in version 2 the first that isn't a negation
// whose atom holds a variable.
pub(crate) fn select(version: u8, literals: &[Literal]) -> Option<usize>
    ensures { result ≡ option_map (λ picked. length picked.before) (selected version literals.now) }
{
    for (place, literal) in literals.iter().enumerate() {
        if !is_delayed(version, literal) {
            return Some(place);
        }
    }
    None
}

// Whether a literal is passed over when one is selected.
fn is_delayed(version: u8, literal: &Literal) -> bool
    ensures { result ≡ is_delayed version literal.now }
{
    match &literal.form {
        Form::Neg(atom) => version == 2 && !is_ground_atom(atom),
        _ => false,
    }
}

// What kind of literal it is.
pub(crate) fn kind(literal: &Literal) -> Kind
    ensures { result ≡ kind_of literal.now.form }
{
    match &literal.form {
        Form::Pos(_) => Kind::Atom,
        Form::Calc(_) => Kind::Computed,
        _ => Kind::Searched,
    }
}
