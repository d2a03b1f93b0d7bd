ghost use Rattle.std.specs.Prelude.{◌≡◌, ◌<◌, [], length, IfSome, IsNone};
ghost use Rattle.le_terms.specs.Variables.{occurrences};
ghost use Rattle.le_proofs.specs.Goals.{is_delayed};
ghost use Rattle.le_check.specs.Goals.{Chooses};

use le_literals::is_ground_atom;
use le_terms::{Form, Literal};

// The place of the literal that is selected, or of the first where none can be; none where there is no literal.
pub(crate) fn select(version: u8, literals: &[Literal]) -> Option<usize>
    ensures place { IfSome result (λ place. (place < length literals.now) × Chooses version literals.now place) }
    ensures none { IsNone result → literals.now ≡ [] }
{
    for (place, literal) in literals.iter().enumerate() {
        if !is_delayed(version, literal) {
            return Some(place);
        }
    }
    if literals.is_empty() {
        return None;
    }
    Some(0)
}

// Whether a literal is passed over when one is selected.
fn is_delayed(version: u8, literal: &Literal) -> bool
    ensures { result ≡ is_delayed version literal.now }
{
    match &literal.form {
        Form::Neg(atom) => version == 2 && !is_ground_atom(atom),
        _ => false,
    }
}
