//! Who hears of a change.

ghost use Rattle.std.specs.Prelude.{◌≡◌, ◌<◌, length, All};
ghost use Rattle.change_boards.specs.declared.sort.Sort.TheVariants.{Source};
ghost use Rattle.plant_core.specs.Noticed.{marked_for_all, marked_for_others, all_marked};
ghost use Rattle.plant_core.specs.Salvos.{moved};

use change_boards::{Notices, Sort};
use crosspoint_state::Crosspoints;
use plant_config::{Change, DestId, MAX_DESTINATIONS, PanelNo};

// Gives notice of a destination to so many panels, but not to the one that changed it.
pub(crate) fn notify_others(
    notices: &mut Notices,
    panels: u32,
    asker: PanelNo,
    dest: DestId,
    sort: Sort,
)
    requires panels { panels ≡ length notices.old }
    requires dest { dest < MAX_DESTINATIONS }
    ensures { notices.new ≡ marked_for_others notices.old asker dest sort }
{
    for panel in 0..panels {
        let panel = PanelNo::of(panel);
        if panel != asker {
            notices.mark(panel, dest, sort);
        }
    }
}

// Gives notice of a destination's source to so many panels.
fn notify_all(notices: &mut Notices, panels: u32, dest: DestId)
    requires panels { panels ≡ length notices.old }
    requires dest { dest < MAX_DESTINATIONS }
    ensures { notices.new ≡ marked_for_all notices.old dest Source }
{
    for panel in 0..panels {
        notices.mark(PanelNo::of(panel), dest, Sort::Source);
    }
}

// Gives notice to so many panels of each destination whose source these changes will change.
pub(crate) fn notify_moved(
    notices: &mut Notices,
    panels: u32,
    crosspoints: &Crosspoints,
    changes: &[Change],
)
    requires panels { panels ≡ length notices.old }
    requires dests { All (λ change. change.dest < MAX_DESTINATIONS) changes.now }
    ensures { notices.new ≡ all_marked notices.old (moved crosspoints.now.entries changes.now) }
{
    for change in changes {
        if !crosspoints.is_idle(change) {
            notify_all(notices, panels, change.dest);
        }
    }
}
