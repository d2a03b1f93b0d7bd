ghost use Rattle.std.specs.Prelude.{◌≡◌, ◌<◌, ℕ, ◌+◌, IfOk, IfSome, IfNone};
ghost use Rattle.le_terms.specs.Tree.{Tree};
ghost use Rattle.le_subst.specs.Unifiers.{IsMgu, Unifies};
ghost use Rattle.le_subst.specs.Solution.{solve_of};

use crate::Subst;
use crate::solving::solve;
use le_terms::Term;
use std::alloc::{AllocError, Global};
use std::marker::Model;
use std::sync::ledger::{Blank, Book, Ledger, Share};

/// How many unifications were made: each call of `solve_counted` is one, and nothing else is. It takes no bytes.
#[derive(Drop)]
pub struct Steps<L: Ledger> {
    book: Book<L>,
    share: Share<L>,
}

impl<L: Ledger> Model for Steps<L> {
    ghost use Rattle.std.specs.Prelude.{ℕ, ◌<◌};

    ghost Value = { ℕ };

    ghost view = { λ s. s.book.total };

    ghost invariant = { λ s. 0 < s.share.parts };
}

impl<L: Ledger> Steps<L> {
    /// No step yet, over a ledger that no step was counted in.
    pub fn begin(blank: Blank) -> Self
        requires name { blank.name ≡ L.name }
        requires parts { blank.parts ≡ L.parts }
        requires some { 0 < blank.parts }
        ensures { result ≡ 0 }
    {
        let (book, share) = blank.open::<L>();
        Steps { book, share }
    }

    // One step more.
    fn tick(&mut self)
        ensures { self.new ≡ self.old + 1 }
    {
        self.book.add(&mut self.share, 1);
    }
}

/// The answer of `solve`, as one step, whatever it is.
pub fn solve_counted<L: Ledger>(
    alloc: Global,
    equations: &[(Term, Term)],
    steps: &mut Steps<L>,
) -> Result<Option<Subst>, AllocError>
    ensures exact { IfOk result (λ answer. answer ≡ solve_of equations.now) }
    ensures mgu { IfOk result (λ answer. IfSome answer (λ subst. IsMgu subst equations.now)) }
    ensures none { IfOk result (λ answer. IfNone answer ((by : ℕ → Tree) → Unifies by equations.now → ⊥)) }
    ensures steps { steps.new ≡ steps.old + 1 }
{
    steps.tick();
    solve(alloc, equations)
}
