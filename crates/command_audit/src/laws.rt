//! What the status of an audit tells, as a law over the ends of its row.

ghost use Rattle.std.specs.Prelude.{[], ◌∷◌};
ghost use Rattle.command_rows.specs.Sound.{IsSound};
ghost use Rattle.command_audit.specs.Audit.{AuditRow, last, parts};
ghost use Rattle.command_audit.specs.Laws.{FiveHasBadLine, SixHasFound};
ghost use Rattle.command_audit.specs.Laws.{VerdictsEndRuns, ZeroHasConfirmed};

use command_rows::shown;

/// Status 0: the traces were confirmed. Status 5: their first line without a form, or their length together. Status 6: the audit
/// found a gap, a repeat or a difference. Traces that the files show with their plant always lead to the status of the verdict on
/// their lines, unless memory runs out, the files fail or a write does. An audit has no other status of its own but 0, 1, 5 and 6.
pub fn audits()
    ensures sound { IsSound parts last AuditRow (0 ∷ 1 ∷ 5 ∷ 6 ∷ []) }
    ensures done { ZeroHasConfirmed }
    ensures refused { FiveHasBadLine }
    ensures found { SixHasFound }
    ensures always { VerdictsEndRuns }
{
    shown();
}
