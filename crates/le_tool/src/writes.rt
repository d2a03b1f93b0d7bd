ghost use Rattle.std.specs.Prelude.{◌≡◌, ◌<◌, ◌≤◌, Ok, IfOk, OnOk, IsErrOf};
ghost use Rattle.std.specs.Io.KnownBytes.{Appends};
ghost use Rattle.le_base.specs.Outside.{Rose, AppendsPrefix};
ghost use Rattle.le_tool.specs.Lines.{refused_report};
ghost use Rattle.le_tool.specs.Statuses.{failure_status};

use crate::report::{Report, refused};
use le_base::{Refusal, Sink, WriteFault, put};
use std::alloc::{AllocError, Global};

/// Why the report isn't written to its end.
#[derive(Clone, Copy, Debug, PartialEq, Eq)]
pub enum Failure {
    /// A read failed.
    Read,
    /// A write failed.
    Write,
    /// Out of memory.
    Memory,
}

impl Failure {
    /// The status that says so.
    pub fn status(self) -> u8
        ensures { result ≡ failure_status self }
    {
        match self {
            Failure::Read => 5,
            Failure::Write => 6,
            Failure::Memory => 7,
        }
    }
}

impl From<AllocError> for Failure {
    ghost use Rattle.std.specs.Prelude.{◌≡◌};
    ghost use Rattle.le_tool.specs.declared.writes.Failure.TheVariants.{Memory};

    ghost from_gives = { λ _ failure. failure ≡ Memory };

    fn from(_error: AllocError) -> Failure {
        Failure::Memory
    }
}

/// Writes bytes whole.
pub fn say_bytes<K: Sink>(out: &mut K, bytes: &[u8]) -> Result<(), Failure>
    ensures done { OnOk result (Appends (K.written out.old) (K.written out.new) bytes.now) }
    ensures part { AppendsPrefix (K.written out.old) (K.written out.new) bytes.now }
    ensures fault { IsErrOf result Failure.Write → Rose (K.faults out.old) (K.faults out.new) }
    ensures no_read { IsErrOf result Failure.Read → ⊥ }
    ensures count { K.faults out.old ≤ K.faults out.new }
{
    match put(out, bytes) {
        Ok(()) => Ok(()),
        Err(WriteFault) => Err(Failure::Write),
    }
}

/// Writes a text whole.
pub fn say<K: Sink>(out: &mut K, text: &str) -> Result<(), Failure>
    ensures done { OnOk result (Appends (K.written out.old) (K.written out.new) text.now) }
    ensures part { AppendsPrefix (K.written out.old) (K.written out.new) text.now }
    ensures fault { IsErrOf result Failure.Write → Rose (K.faults out.old) (K.faults out.new) }
    ensures no_read { IsErrOf result Failure.Read → ⊥ }
    ensures count { K.faults out.old ≤ K.faults out.new }
{
    say_bytes(out, text.as_bytes())
}

/// Writes a report whole.
pub fn say_report<K: Sink>(out: &mut K, report: &Report) -> Result<u8, Failure>
    ensures done { IfOk result (λ status. Appends (K.written out.old) (K.written out.new) report.now.text × (status ≡ report.now.status)) }
    ensures part { AppendsPrefix (K.written out.old) (K.written out.new) report.now.text }
    ensures fault { IsErrOf result Failure.Write → Rose (K.faults out.old) (K.faults out.new) }
    ensures no_read { IsErrOf result Failure.Read → ⊥ }
    ensures count { K.faults out.old ≤ K.faults out.new }
{
    say(out, report.text.as_str())?;
    Ok(report.status)
}

/// Writes the report of a refused document.
pub fn say_refusal<K: Sink>(alloc: Global, refusal: &Refusal, out: &mut K) -> Result<u8, Failure>
    ensures done { IfOk result (λ status. Appends (K.written out.old) (K.written out.new) (refused_report refusal.now).text × (status ≡ 1)) }
    ensures part { AppendsPrefix (K.written out.old) (K.written out.new) (refused_report refusal.now).text }
    ensures fault { IsErrOf result Failure.Write → Rose (K.faults out.old) (K.faults out.new) }
    ensures no_read { IsErrOf result Failure.Read → ⊥ }
    ensures count { K.faults out.old ≤ K.faults out.new }
{
    let report = refused(alloc, refusal)?;
    say_report(out, &report)
}
