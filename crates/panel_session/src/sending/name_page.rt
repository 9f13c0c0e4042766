//! Which page of names comes next.

ghost use Rattle.std.specs.Prelude.{◌≡◌, ◌+◌, ◌≤◌, ◌++◌, IfSome, vec_len, vec_capacity};
ghost use Rattle.swp08_messages.specs.Text.{InRange};
ghost use Rattle.plant_config.specs.Plant.{PlantData};
ghost use Rattle.plant_names.specs.Pages.{max_page_len, HaveNumbers};
ghost use Rattle.panel_session.specs.NamePages.{name_pages};
ghost use Rattle.panel_session.specs.NamePagesInside.{IsNamePage, names_of, data_of, end_of};
ghost use Rattle.panel_session.specs.NamePagesInside.{pages_left};

use plant_names::{Names, Paged};
use swp08_messages::Message;

// Whose names a page has: those of the sources of a level, or those of the destinations of a matrix.
#[derive(Clone, Copy)]
pub(crate) enum NamesOf {
    Sources { level: u8 },
    Dests,
}

// A page of names from a number on, or with one name alone.
#[derive(Clone, Copy)]
pub(crate) struct NamePage {
    pub(crate) names: NamesOf,
    pub(crate) matrix: u8,
    pub(crate) size: u8,
    pub(crate) first: u16,
    pub(crate) one: bool,
}

impl NamePage {
    // The first page of those that a message asks for, `None` where it asks for no names.
    pub(crate) fn asked_by(message: Message) -> Option<NamePage>
        requires { InRange message }
        ensures pages { (plant : PlantData)
            → pages_left plant result ≡ name_pages plant message }
        ensures page { IfSome result IsNamePage }
    {
        let (names, matrix, size, first, one) = match message {
            Message::SourceNamesAsk {
                matrix,
                level,
                size,
            } => (NamesOf::Sources { level }, matrix, size, 0, false),
            Message::SourceNameAsk {
                matrix,
                level,
                size,
                number,
            } => (NamesOf::Sources { level }, matrix, size, number, true),
            Message::DestNamesAsk { matrix, size } => (NamesOf::Dests, matrix, size, 0, false),
            Message::DestNameAsk {
                matrix,
                size,
                number,
            } => (NamesOf::Dests, matrix, size, number, true),
            _ => return None,
        };
        Some(NamePage {
            names,
            matrix,
            size,
            first,
            one,
        })
    }

    // The page of the same names that begins at this number.
    pub(crate) fn at(self, first: u16) -> NamePage
        ensures { result ≡ record self { first = first } }
    {
        NamePage { first, ..self }
    }

    // Appends its DATA, where there are names from its number on, and answers how it ends.
    pub(crate) fn write(self, names: &Names, out: &mut Vec<u8>) -> Paged
        requires size { self.size ≤ 2 }
        requires room { vec_len out.old + max_page_len ≤ vec_capacity out.old }
        ensures end { result ≡ end_of names.now self }
        ensures numbers { IfSome (names_of names.now self.matrix self.names) HaveNumbers }
        ensures text { out.new.items ≡ out.old.items ++ data_of names.now self }
        ensures room { vec_capacity out.new ≡ vec_capacity out.old }
        ensures most { vec_len out.new ≤ vec_len out.old + max_page_len }
    {
        match self.names {
            NamesOf::Sources { level } => {
                names.source_page(self.matrix, level, self.size, self.first, self.one, out)
            }
            NamesOf::Dests => names.dest_page(self.matrix, self.size, self.first, self.one, out),
        }
    }
}
