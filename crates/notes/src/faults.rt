// The lowest violation of a rule.
ghost use Rattle.std.specs.Prelude.{◌≡◌};
ghost use Rattle.meaning.specs.FaultOrder.{violation_at};
ghost use Rattle.meaning.specs.Faults.{lower};
ghost use Rattle.notes.specs.Kinds.{violation_of, known_before};

use meaning::faults::Fault;

// The lowest violation, after one more.
pub(crate) fn lowest(violation: Option<Fault>, fault: Fault) -> Fault
    ensures { violation_at result ≡ lower (violation_at fault) (violation_of violation) }
{
    violation.map_or(fault, |known| fault.min(known))
}

// Is a violation known before this place?
pub(crate) fn is_known_before(place: usize, violation: Option<Fault>) -> bool
    ensures { result ≡ known_before place (violation_of violation) }
{
    violation.is_some_and(|known| known.place < place)
}
