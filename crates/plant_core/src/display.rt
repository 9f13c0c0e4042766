//! Display polls: the displays of a screen that differ are shown their values.

ghost use Rattle.std.specs.Prelude.{◌≡◌, ◌<◌, ◌≤◌, true, if◌then◌else◌};
ghost use Rattle.std.specs.Prelude.{[], ◌∷◌, ◌++◌, length};
ghost use Rattle.std.specs.List.{list_any, range_with_len};
ghost use Rattle.plant_config.specs.Screens.{has_screen};
ghost use Rattle.change_boards.specs.Screens.{displays_of};
ghost use Rattle.change_boards.specs.Shown.{differs as is_news, with_shown};
ghost use Rattle.plant_core.specs.declared.answer.Answer.TheVariants.{Lamp};
ghost use Rattle.plant_core.specs.State.{IsValid};
ghost use Rattle.plant_core.specs.StateInside.{AreTalliesOf};
ghost use Rattle.plant_core.specs.DueInside.{AreKeptDue};
ghost use Rattle.plant_core.specs.Displays.{lamp_limit, display_value, differs};
ghost use Rattle.plant_core.specs.Displays.{value_in, shown_all, lamps_of};
ghost use Rattle.plant_core.specs.Displays.{refreshed, is_finished, display_polled};
ghost use Rattle.plant_core.specs.DisplaysInside.{CarrySources, first_differing};
ghost use Rattle.plant_core.specs.DisplaysInside.{lit_first};
ghost use Rattle.plant_core.specs.Answer.{room_of};

use crate::answer::{Answer, put};
use crate::state::PlantState;
use crate::tallies::Tallies;
use change_boards::{Shown, Value};
use crosspoint_state::Crosspoints;
use due_displays::DueDisplays;
use history_lock::OutBox;
use plant_config::{DestId, DisplayId, Plant};

// The most lamps that a display poll is answered with.
const LAMP_LIMIT: usize = 64;

// From what the values of displays are found.
#[derive(Clone, Copy, Debug)]
struct Picture<'a> {
    plant: &'a Plant,
    points: &'a Crosspoints,
    tallies: &'a Tallies,
}

impl Picture<'_> {
    // The value of a destination: the source there, and whether that is on air and on preview.
    fn value_at(&self, dest: DestId) -> Value
        requires found { AreTalliesOf self.now.plant.now self.now.points.now.entries
            self.now.tallies.now }
        requires carried { CarrySources self.now.plant.now self.now.points.now.entries }
        ensures { result ≡ display_value self.now.plant.now self.now.points.now.entries dest }
    {
        match self.points.source_at(dest) {
            Some(source) => Value {
                source: Some(source),
                air: self.tallies.air.on(self.plant, source),
                preview: self.tallies.preview.on(self.plant, source),
            },
            None => Value {
                source: None,
                air: false,
                preview: false,
            },
        }
    }

    // The value of a display: that of the destination that it watches.
    fn value_of(&self, display: DisplayId) -> Value
        requires found { AreTalliesOf self.now.plant.now self.now.points.now.entries
            self.now.tallies.now }
        requires carried { CarrySources self.now.plant.now self.now.points.now.entries }
        requires below { display < length self.now.plant.now.displays }
        ensures { result ≡ value_in self.now.plant.now self.now.points.now.entries display }
    {
        let found = self.plant.displays()[display.get() as usize];
        self.value_at(found.watch)
    }

    // Shows a display its value where it differs, and answers a lamp for it.
    fn show(&self, display: DisplayId, shown: &mut Shown, out: &mut OutBox<Answer>)
        requires found { AreTalliesOf self.now.plant.now self.now.points.now.entries
            self.now.tallies.now }
        requires carried { CarrySources self.now.plant.now self.now.points.now.entries }
        requires below { display < length self.now.plant.now.displays }
        requires count { length shown.old ≡ length self.now.plant.now.displays }
        requires places { length out.old.items < out.old.places }
        ensures shown { let value =
            value_in self.now.plant.now self.now.points.now.entries display in
            shown.new ≡ (if is_news shown.old display value then
            with_shown shown.old display value else shown.old) }
        ensures answers { let value =
            value_in self.now.plant.now self.now.points.now.entries display in
            out.new.items ≡ (if is_news shown.old display value then
            out.old.items ++ Lamp display value ∷ [] else out.old.items) }
        ensures places { out.new.places ≡ out.old.places }
    {
        let value = self.value_of(display);
        if shown.differs(display, value) {
            light(display, &value, shown, out);
        }
    }

    // Shows the displays of a screen that differ their values, the first 64 of these, and answers a lamp for each. It looks at
    // those that are due, and those that it has looked at aren't any more.
    fn show_first(
        &self,
        screen: u16,
        displays: &[DisplayId],
        shown: &mut Shown,
        due: &mut DueDisplays,
        out: &mut OutBox<Answer>,
    )
        requires found { AreTalliesOf self.now.plant.now self.now.points.now.entries
            self.now.tallies.now }
        requires carried { CarrySources self.now.plant.now self.now.points.now.entries }
        requires displays { displays.now ≡ displays_of self.now.plant.now screen }
        requires due { AreKeptDue self.now.plant.now self.now.points.now.entries shown.old
            due.old }
        requires count { length shown.old ≡ length self.now.plant.now.displays }
        requires empty { out.old.items ≡ [] }
        requires places { lamp_limit ≤ out.old.places }
        ensures shown { let values = value_in self.now.plant.now self.now.points.now.entries in
            shown.new ≡ shown_all values (first_differing values shown.old displays.now)
            shown.old }
        ensures answers { let values = value_in self.now.plant.now self.now.points.now.entries in
            out.new.items ≡ lamps_of values (first_differing values shown.old displays.now) }
        ensures due { AreKeptDue self.now.plant.now self.now.points.now.entries shown.new
            due.new }
        ensures places { out.new.places ≡ out.old.places }
    {
        for _turn in 0..displays.len() {
            if out.items().len() == LAMP_LIMIT {
                return;
            }
            let Some(position) = due.first(screen) else {
                return;
            };
            let display = displays[position];
            self.show(display, shown, out);
            due.remove(self.plant, display);
        }
    }
}

// Shows a display a value, and answers a lamp for it.
// kit: `value: Value`, used twice, isn't copied, since its numbers have a model; so it goes by reference.
fn light(display: DisplayId, value: &Value, shown: &mut Shown, out: &mut OutBox<Answer>)
    requires below { display < length shown.old }
    requires places { length out.old.items < out.old.places }
    ensures shown { shown.new ≡ with_shown shown.old display value.now }
    ensures answers { out.new.items ≡ out.old.items ++ Lamp display value.now ∷ [] }
    ensures places { out.new.places ≡ out.old.places }
{
    shown.show(display, *value);
    let value = *value;
    put(Answer::Lamp { display, value }, out);
}

impl PlantState {
    // A display poll: after its refresh, the first displays of the screen that differ are shown their values. One that shows
    // none says so where all is finished.
    #[inline(never)]
    pub(crate) fn poll_display(&mut self, screen: u16, refresh: bool, out: &mut OutBox<Answer>)
        requires empty { out.old.items ≡ [] }
        requires places { room_of self.old.plant ≤ out.old.places }
        ensures state { self.new ≡ (display_polled self.old screen refresh).state }
        ensures answers { out.new.items ≡ (display_polled self.old screen refresh).answers }
        ensures places { out.new.places ≡ out.old.places }
        ensures valid { IsValid self.old }
    {
        self.refresh(screen, refresh);
        self.show_first(screen, out);
        if out.items().is_empty() && self.is_finished() {
            put(Answer::Finished, out);
        }
    }

    // With a refresh the displays of a screen become such as were shown no value.
    fn refresh(&mut self, screen: u16, refresh: bool)
        ensures state { self.new ≡ refreshed self.old screen refresh }
        ensures valid { IsValid self.old }
    {
        if refresh {
            let displays = self.tables.screens.displays(screen);
            self.shown.forget(displays);
            self.due.add_all(&self.plant, displays);
        }
    }

    // Shows the first displays of a screen that differ their values.
    fn show_first(&mut self, screen: u16, out: &mut OutBox<Answer>)
        requires empty { out.old.items ≡ [] }
        requires places { lamp_limit ≤ out.old.places }
        ensures state { self.new ≡ (lit_first self.old screen).state }
        ensures answers { out.new.items ≡ (lit_first self.old screen).answers }
        ensures places { out.new.places ≡ out.old.places }
    {
        let picture = Picture {
            plant: &self.plant,
            points: &self.crosspoints,
            tallies: &self.tables.tallies,
        };
        let displays = self.tables.screens.displays(screen);
        picture.show_first(screen, displays, &mut self.shown, &mut self.due, out);
    }

    // Whether all panels have left and no display of any screen differs.
    fn is_finished(&self) -> bool
        ensures { result ≡ is_finished self.now }
    {
        self.notices.all_left() && !self.some_differs()
    }

    // Whether some display differs.
    fn some_differs(&self) -> bool
        ensures { result ≡ list_any (differs self.now)
            (range_with_len 0 (length self.now.plant.displays)) }
    {
        // Short way: where no display is due, none differs.
        if self.due.is_empty() {
            return false;
        }
        for number in 0..self.plant.displays().len() as u32 {
            if self.differs(DisplayId::of(number)) {
                return true;
            }
        }
        false
    }

    // Whether a display isn't shown its value.
    fn differs(&self, display: DisplayId) -> bool
        requires { display < length self.now.plant.displays }
        ensures { result ≡ differs self.now display }
    {
        let picture = Picture {
            plant: &self.plant,
            points: &self.crosspoints,
            tallies: &self.tables.tallies,
        };
        self.shown.differs(display, picture.value_of(display))
    }

    // Whether the plant has a screen: some display is on it.
    pub(crate) fn has_screen(&self, screen: u16) -> bool
        ensures { result ≡ has_screen self.now.plant screen }
    {
        !self.tables.screens.displays(screen).is_empty()
    }
}
