ghost use Rattle.std.specs.Prelude.{◌≡◌};
ghost use Rattle.le_docs.specs.Faults.{sooner as sooner_of};

use le_layout::Fault;

/// The fault that decides among one that was found and the next one.
pub fn sooner(least: Option<Fault>, fault: Fault) -> Option<Fault>
    ensures { result ≡ sooner_of least fault }
{
    match least {
        None => Some(fault),
        Some(found) => found.sooner(Some(fault)),
    }
}
