//! Connects: what they ask for, whether they may be made, and how they are made.

ghost use Rattle.std.specs.Prelude.{◌≡◌, true, false, [], ◌∷◌, IfSome, IfOk, IfErr};
ghost use Rattle.crosspoint_state.specs.Crosspoints.{is_idle};
ghost use Rattle.crosspoint_state.specs.Applied.{applied, are_enough};
ghost use Rattle.tie_pools.specs.Reserve.{are_enough_for};
ghost use Rattle.protects.specs.Owners.{allows};
ghost use Rattle.plant_core.specs.State.{IsValid, IsChangeOf, standing, device_of, is_master};
ghost use Rattle.plant_core.specs.Wide.{tells_source, tells_change};
ghost use Rattle.plant_core.specs.Connects.{source_wanted, change_of, are_permitted};
ghost use Rattle.plant_core.specs.Connects.{changed, connected};
ghost use Rattle.plant_core.specs.AnswerInside.{SaysJust};

use crate::due::follow_changes;
use crate::state::PlantState;
use crate::wide::tells_change;
use change_boards::Sort;
use plant_config::{Change, DestId, PanelNo, SourceId};
use protects::Protects;
use std::slice;
use swp08_messages::{Message, Point};
use tie_pools::{Exhausted, Planned};

impl PlantState {
    // Makes a connect where it is in range and permitted and the ties that its panel may use are enough, and answers so; else
    // answers with the source that stands.
    #[inline]
    pub(crate) fn connect(
        &mut self,
        panel: PanelNo,
        extended: bool,
        at: Point,
        source: Option<u16>,
    ) -> Message
        ensures state { self.new ≡ (connected self.old panel (tells_change extended at source)
            (tells_source extended at (standing self.old at))
            (change_of self.old.plant at source)).state }
        ensures answer { SaysJust (connected self.old panel (tells_change extended at source)
            (tells_source extended at (standing self.old at))
            (change_of self.old.plant at source)) result }
        ensures valid { IsValid self.old }
    {
        let Some(change) = self.change(at, source) else {
            return self.tally(extended, at);
        };
        if !self.may_change(panel, change.dest) {
            return self.tally(extended, at);
        }
        let Ok(planned) = self.plan(panel, &change) else {
            return self.tally(extended, at);
        };
        self.make(panel, &change, planned);
        tells_change(extended, at, source)
    }

    // Whether no device but the panel's protects a destination.
    fn may_change(&self, panel: PanelNo, dest: DestId) -> bool
        ensures { result ≡ allows self.now.owners (device_of self.now.plant panel) dest }
    {
        let device = self.device_of(panel);
        self.protects.allows(device, dest)
    }

    // The change that a connect, or the store of an entry, asks for, `None` where the destination or the source is out of
    // range.
    pub(crate) fn change(&self, at: Point, source: Option<u16>) -> Option<Change>
        ensures change { result ≡ change_of self.now.plant at source }
        ensures within { IfSome result (IsChangeOf self.now.plant) }
        ensures valid { IsValid self.now }
    {
        let dest = self.dest_of(at)?;
        let source = self.wanted(at, source)?;
        Some(Change { dest, source })
    }

    // What the destination of a connect is to carry, `None` where the source is out of range.
    fn wanted(&self, at: Point, source: Option<u16>) -> Option<Option<SourceId>>
        ensures { result ≡ source_wanted self.now.plant at source }
    {
        match source {
            Some(number) => Some(Some(self.plant.source(at.matrix, at.level, number)?)),
            None => Some(None),
        }
    }

    // Whether a change would change nothing.
    fn is_idle(&self, change: &Change) -> bool
        ensures idle { result ≡ is_idle self.now.crosspoints change.now }
        ensures valid { IsValid self.now }
    {
        self.crosspoints.is_idle(change)
    }

    // Whether the ties that a panel may use are enough for a change.
    fn plan(&mut self, panel: PanelNo, change: &Change) -> Result<Planned, Exhausted>
        requires { IsChangeOf self.old.plant change.now }
        ensures state { self.new ≡ self.old }
        ensures permitted { IfOk result
            (λ _. are_enough_for self.old.plant self.old.crosspoints
            (is_master self.old.plant panel) (change.now ∷ []) ≡ true) }
        ensures enough { IfOk result
            (λ _. are_enough self.old.plant self.old.crosspoints (change.now ∷ []) ≡ true) }
        ensures exhausted { IfErr result
            (λ _. are_enough_for self.old.plant self.old.crosspoints
            (is_master self.old.plant panel) (change.now ∷ []) ≡ false) }
    {
        let master = self.is_master(panel);
        let changes = slice::from_ref(change);
        self.tables
            .ties
            .plan(&self.plant, &self.crosspoints, master, changes)
    }

    // Makes a panel's change, for which the ties are enough, and gives notice of it to the others, unless it is idle.
    fn make(&mut self, asker: PanelNo, change: &Change, planned: Planned)
        requires change { IsChangeOf self.old.plant change.now }
        requires enough { are_enough self.old.plant self.old.crosspoints
            (change.now ∷ []) ≡ true }
        ensures { self.new ≡ changed self.old asker change.now }
    {
        if self.is_idle(change) {
            return;
        }
        self.apply(change, planned);
        self.give_notice(asker, change.dest, Sort::Source);
    }

    // Makes a change that isn't idle and for which the ties are enough, as a list of one.
    fn apply(&mut self, change: &Change, planned: Planned)
        requires change { IsChangeOf self.old.plant change.now }
        requires busy { is_idle self.old.crosspoints change.now ≡ false }
        requires enough { are_enough self.old.plant self.old.crosspoints
            (change.now ∷ []) ≡ true }
        ensures { self.new ≡ record self.old {
          crosspoints = applied self.old.plant self.old.crosspoints (change.now ∷ []);
        } }
    {
        let changes = slice::from_ref(change);
        self.tables
            .make(&self.plant, &mut self.crosspoints, planned, changes);
        let tallies = &self.tables.tallies;
        follow_changes(
            &mut self.due,
            &self.plant,
            &self.crosspoints,
            tallies,
            changes,
        );
    }
}

// Whether no device but this one protects a destination of these changes.
pub(crate) fn are_permitted(protects: &Protects, device: u16, changes: &[Change]) -> bool
    ensures { result ≡ are_permitted protects.now.entries device changes.now }
{
    changes
        .iter()
        .all(|change| protects.allows(device, change.dest))
}
