//! The first fault of a section, by a rule that sees one entry at a time.

ghost use Rattle.std.specs.Prelude.{◌≡◌, ◌<◌, ◌^◌, length};
ghost use Rattle.plant_file.specs.FirstFault.{first_fault, unless_fault};
ghost use Rattle.plant_rules.specs.Rules.{each_faults};

use plant_file::{Field, Place, PlantFault, Section};

// A rule, by the fault that an entry has at a key that breaks it.
pub(crate) trait Rule {
    ghost use Rattle.std.specs.Prelude.{◌≡◌};
    ghost use Rattle.plant_file.specs.declared.fault.Place.{Place};
    ghost use Rattle.plant_file.specs.declared.fault.PlantFault.{PlantFault};

    ghost fault: { Place → PlantFault };

    fn fault(at: Place) -> PlantFault
        ensures { result ≡ fault at };
}

// A rule of entries of this type.
pub(crate) trait RuleOf<E>: Rule {
    ghost use Rattle.std.specs.Prelude.{◌≡◌, List};
    ghost use Rattle.plant_file.specs.declared.fault.Field.{Field};
    ghost use Rattle.plant_rules.specs.LinksInside.{first_field};

    // The keys at which an entry breaks the rule, the first one first.
    ghost broken: { Self → E → List Field };

    fn first_broken(&self, entry: &E) -> Option<Field>
        ensures { result ≡ first_field (broken self.now entry.now) };
}

// The first fault of a section's entries by a rule.
pub(crate) fn check_section<E, R: RuleOf<E>>(
    rule: &R,
    section: Section,
    entries: &[E],
) -> Result<(), PlantFault>
    requires { length entries.now < 2 ^ 32 }
    ensures { result ≡ unless_fault tt
        (first_fault (each_faults R.fault section (R.broken rule.now) entries.now)) }
{
    for (number, entry) in entries.iter().enumerate() {
        if let Some(field) = rule.first_broken(entry) {
            let at = Place {
                section,
                entry: number as u32,
                field,
            };
            return Err(R::fault(at));
        }
    }
    Ok(())
}
