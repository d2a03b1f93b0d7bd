ghost use Rattle.std.specs.Prelude.{◌≡◌, zip, IfOk};
ghost use Rattle.le_terms.specs.Variables.{all_occurrences};
ghost use Rattle.le_proofs.specs.Goals.{terms_under, raised};
ghost use Rattle.le_literals.specs.Changing.{CanRaise};

use crate::changing::raised_term;
use le_base::Copied;
use le_terms::Term;
use std::alloc::{AllocError, Global};

/// The equations of a clause's arguments, renamed apart by raising the numbers of their variables, with the arguments
/// of an atom, one by one and as far as both go. The numbers that come of it are less than 2^32.
pub fn head_equations(
    alloc: Global,
    next: u32,
    head: &[Term],
    args: &[Term],
) -> Result<Vec<(Term, Term)>, AllocError>
    requires { CanRaise next (all_occurrences head.now) }
    ensures { IfOk result (λ equations. equations.items ≡ zip (terms_under (raised next) head.now) args.now) }
{
    let mut equations = Vec::with_capacity(alloc, args.len())?;
    for (place, left) in head.iter().enumerate() {
        if place >= args.len() {
            return Ok(equations);
        }
        let raised = raised_term(alloc, next, left)?;
        equations.push((raised, args[place].copy(alloc)?))?;
    }
    Ok(equations)
}
