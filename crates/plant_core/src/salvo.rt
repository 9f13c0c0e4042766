//! Salvo groups: storing an entry, taking or clearing a group whole, and telling an entry.

ghost use Rattle.std.specs.Prelude.{◌≡◌, ◌<◌, true, false, IfSome, IfOk, IfErr};
ghost use Rattle.std.specs.Option.{option_and_then};
ghost use Rattle.swp08_messages.specs.declared.message.Message.TheVariants.{Go, GoDone};
ghost use Rattle.plant_config.specs.Plant.{sources_of};
ghost use Rattle.plant_config.specs.Sites.{source_number_of};
ghost use Rattle.crosspoint_state.specs.Applied.{are_enough};
ghost use Rattle.tie_pools.specs.Reserve.{are_enough_for};
ghost use Rattle.swp08_messages.specs.Field.{dests};
ghost use Rattle.swp08_messages.specs.Text.{IsSource};
ghost use Rattle.salvo_groups.specs.Limits.{salvo_limit};
ghost use Rattle.salvo_groups.specs.Groups.{group_of, with_store};
ghost use Rattle.salvo_groups.specs.Answers.{store_answer};
ghost use Rattle.plant_core.specs.State.{IsValid, IsChangeOf, device_of, is_master};
ghost use Rattle.plant_core.specs.Short.{IsShortChange};
ghost use Rattle.plant_core.specs.Connects.{are_permitted, change_of};
ghost use Rattle.plant_core.specs.Salvos.{stored_in, emptied, all_changed, entry_answer};
ghost use Rattle.plant_core.specs.Salvos.{validity_at};
ghost use Rattle.plant_core.specs.Step.{answered};
ghost use Rattle.plant_core.specs.AnswerInside.{SaysJust, SaysAtMost};

use crate::connect::are_permitted;
use crate::due::follow_changes;
use crate::notify::notify_moved;
use crate::state::PlantState;
use plant_config::{Change, PanelNo, SourceId};
use salvo_groups::Store;
use swp08_messages::{GoStatus, Message, Point, Validity};
use tie_pools::{Exhausted, Planned};

// What is told as the place of an entry that a group hasn't.
const NO_PLACE: Point = Point {
    matrix: 0,
    level: 0,
    dest: 0,
};

impl PlantState {
    // Stores an entry in a group where it is in range and the group has room for it, and answers so; else answers nothing.
    #[inline(never)]
    pub(crate) fn store(&mut self, at: Point, source: Option<u16>, salvo: u8) -> Option<Message>
        requires group { salvo < salvo_limit }
        requires dest { at.dest < dests }
        requires source { IsSource source }
        ensures state { self.new ≡ (stored_in self.old at source salvo
            (change_of self.old.plant at source)).state }
        ensures answer { SaysAtMost (stored_in self.old at source salvo
            (change_of self.old.plant at source)) result }
        ensures valid { IsValid self.old }
    {
        let Some(change) = self.change(at, source) else {
            return None;
        };
        match self.put(salvo, change) {
            Store::Stored => Some(Message::Stored { at, source, salvo }),
            Store::GroupFull => None,
        }
    }

    // Clears a group, or takes it whole where it is permitted and the ties that its panel may use are enough, and says which
    // it was.
    #[inline(never)]
    pub(crate) fn go(&mut self, panel: PanelNo, clear: bool, salvo: u8) -> GoStatus
        requires { salvo < salvo_limit }
        ensures state { self.new ≡ (answered self.old panel (Go clear salvo)).state }
        ensures answer { SaysJust (answered self.old panel (Go clear salvo)) (GoDone result salvo) }
        ensures valid { IsValid self.old }
    {
        if self.groups.count(salvo) == 0 {
            return GoStatus::Empty;
        }
        if clear {
            self.empty(salvo);
            return GoStatus::Cleared;
        }
        if !self.may_take(panel, salvo) {
            return GoStatus::Protected;
        }
        let Ok(planned) = self.plan_group(panel, salvo) else {
            return GoStatus::NoTie;
        };
        self.take_whole(salvo, planned);
        GoStatus::Made
    }

    // Whether no device but the panel's protects a destination of a group.
    fn may_take(&self, panel: PanelNo, salvo: u8) -> bool
        requires { salvo < salvo_limit }
        ensures { result ≡ are_permitted self.now.owners (device_of self.now.plant panel)
            (group_of self.now.groups salvo) }
    {
        let device = self.device_of(panel);
        are_permitted(&self.protects, device, self.groups.entries(salvo))
    }

    // Puts a change into a group, where it has room for it.
    fn put(&mut self, salvo: u8, change: Change) -> Store
        requires group { salvo < salvo_limit }
        requires change { IsChangeOf self.old.plant change }
        requires short { IsShortChange self.old.plant change }
        ensures state { self.new ≡ record self.old {
          groups = with_store self.old.groups salvo change;
        } }
        ensures stored { result ≡ store_answer (group_of self.old.groups salvo) change }
    {
        self.groups.store(salvo, change)
    }

    // Empties a group.
    fn empty(&mut self, salvo: u8)
        requires { salvo < salvo_limit }
        ensures { self.new ≡ emptied self.old salvo }
    {
        self.groups.clear(salvo);
    }

    // Whether the ties that a panel may use are enough for all changes of a group at once.
    fn plan_group(&mut self, panel: PanelNo, salvo: u8) -> Result<Planned, Exhausted>
        requires { salvo < salvo_limit }
        ensures state { self.new ≡ self.old }
        ensures permitted { IfOk result (λ _. are_enough_for self.old.plant self.old.crosspoints
            (is_master self.old.plant panel) (group_of self.old.groups salvo) ≡ true) }
        ensures enough { IfOk result (λ _. are_enough self.old.plant self.old.crosspoints
            (group_of self.old.groups salvo) ≡ true) }
        ensures exhausted { IfErr result (λ _. are_enough_for self.old.plant self.old.crosspoints
            (is_master self.old.plant panel) (group_of self.old.groups salvo) ≡ false) }
    {
        let master = self.is_master(panel);
        let entries = self.groups.entries(salvo);
        self.tables
            .ties
            .plan(&self.plant, &self.crosspoints, master, entries)
    }

    // Makes all changes of a group as one, for which the ties are enough, gives notice of the sources that it changes to all
    // panels, and empties it.
    fn take_whole(&mut self, salvo: u8, planned: Planned)
        requires group { salvo < salvo_limit }
        requires enough { are_enough self.old.plant self.old.crosspoints
            (group_of self.old.groups salvo) ≡ true }
        ensures { self.new ≡ emptied
            (all_changed self.old (group_of self.old.groups salvo)) salvo }
    {
        let panels = self.panel_count();
        let entries = self.groups.entries(salvo);
        notify_moved(&mut self.notices, panels, &self.crosspoints, entries);
        self.tables
            .make_group(&self.plant, &mut self.crosspoints, planned, entries);
        let tallies = &self.tables.tallies;
        let moved = self.tables.moved.as_slice();
        follow_changes(
            &mut self.due,
            &self.plant,
            &self.crosspoints,
            tallies,
            moved,
        );
        self.groups.clear(salvo);
    }

    // An entry of a group, and whether more follow.
    #[inline(never)]
    pub(crate) fn entry(&self, salvo: u8, index: u8) -> Message
        requires { salvo < salvo_limit }
        ensures entry { result ≡ entry_answer self.now salvo index }
        ensures valid { IsValid self.now }
    {
        match self.groups.entry(salvo, u32::from(index)) {
            Some(entry) => Message::Entry {
                at: self.dest_place(entry.dest),
                source: self.entry_source_number(entry.source),
                salvo,
                index,
                validity: self.validity(salvo, index),
            },
            None => Message::Entry {
                at: NO_PLACE,
                source: Some(0),
                salvo,
                index,
                validity: Validity::NoEntry,
            },
        }
    }

    // Whether more entries follow the one of an index.
    fn validity(&self, salvo: u8, index: u8) -> Validity
        requires { salvo < salvo_limit }
        ensures { result ≡ validity_at (group_of self.now.groups salvo) index }
    {
        if u32::from(index) + 1 < self.groups.count(salvo) {
            Validity::More
        } else {
            Validity::Last
        }
    }

    // The number, in its level, of the source that an entry gives.
    fn entry_source_number(&self, source: Option<SourceId>) -> Option<u16>
        requires { IfSome source (λ source. source < sources_of self.now.plant) }
        ensures { result ≡ option_and_then (source_number_of self.now.plant) source }
    {
        Some(self.plant.source_number(source?))
    }
}
