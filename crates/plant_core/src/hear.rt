//! Notices: how panels get them, are told of them by their polls, and lose them.

ghost use Rattle.std.specs.Prelude.{◌≡◌, ◌<◌, length, Some, IfSome};
ghost use Rattle.std.specs.Option.{option_to_list};
ghost use Rattle.plant_config.specs.Plant.{destinations_of};
ghost use Rattle.change_boards.specs.Board.{next};
ghost use Rattle.change_boards.specs.Notices.{board_of, with_leave, with_removal};
ghost use Rattle.change_boards.specs.declared.sort.Sort.TheVariants.{Protect};
ghost use Rattle.plant_core.specs.State.{IsValid};
ghost use Rattle.plant_core.specs.Short.{IsShortDest};
ghost use Rattle.plant_core.specs.Noticed.{marked_for_others};
ghost use Rattle.plant_core.specs.Step.{told_for, poll_answers};

use crate::answer::Answer;
use crate::notify::notify_others;
use crate::state::PlantState;
use crate::wide::connected_of;
use change_boards::Sort;
use plant_config::{DestId, PanelNo};
use swp08_messages::Message;

impl PlantState {
    // Removes a panel's next notice, and answers what the panel is told for it.
    #[inline(always)]
    pub(crate) fn poll(&mut self, panel: PanelNo) -> Option<Answer>
        requires { panel < length self.old.plant.panels }
        ensures state { self.new
            ≡ record self.old { boards = with_removal self.old.boards panel } }
        ensures answer { option_to_list result ≡ poll_answers self.old panel }
        ensures valid { IsValid self.old }
    {
        let (dest, sort) = self.remove_notice(panel)?;
        Some(self.told(dest, sort))
    }

    // Removes a panel's next notice.
    #[inline(always)]
    fn remove_notice(&mut self, panel: PanelNo) -> Option<(DestId, Sort)>
        requires { panel < length self.old.plant.panels }
        ensures next { result ≡ next (board_of self.old.boards panel) }
        ensures removed { self.new
            ≡ record self.old { boards = with_removal self.old.boards panel } }
        ensures dest { IfSome result (λ notice. notice.0 < destinations_of self.old.plant) }
        ensures valid { IsValid self.old }
    {
        self.notices.remove_lowest(panel)
    }

    // What a panel is told for a notice: the source that stands, or the owner.
    #[inline]
    fn told(&self, dest: DestId, sort: Sort) -> Answer
        requires { dest < destinations_of self.now.plant }
        ensures { result ≡ told_for self.now dest sort }
    {
        let at = self.dest_place(dest);
        Answer::Say(match sort {
            Sort::Source => connected_of(at, self.standing(at)),
            Sort::Protect => match self.owner(dest) {
                Some(device) => Message::ProtectConnected {
                    at,
                    owned: true,
                    device,
                },
                None => Message::ProtectDisconnected {
                    at,
                    owned: false,
                    device: 0,
                },
            },
        })
    }

    // Gives notice of a destination to all panels but the one that changed it.
    pub(crate) fn give_notice(&mut self, asker: PanelNo, dest: DestId, sort: Sort)
        requires dest { dest < destinations_of self.old.plant }
        requires short { sort ≡ Protect → IsShortDest self.old.plant dest }
        ensures { self.new ≡ record self.old {
          boards = marked_for_others self.old.boards asker dest sort;
        } }
    {
        let panels = self.panel_count();
        notify_others(&mut self.notices, panels, asker, dest, sort);
    }

    // A panel leaves.
    #[inline(never)]
    pub(crate) fn leave(&mut self, panel: PanelNo)
        requires { panel < length self.old.plant.panels }
        ensures { self.new ≡ record self.old { boards = with_leave self.old.boards panel } }
    {
        self.notices.drop_panel(panel);
    }
}
