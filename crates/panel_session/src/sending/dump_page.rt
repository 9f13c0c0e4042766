//! A page of a dump that is being filled.

ghost use Rattle.std.specs.Prelude.{◌≡◌, ◌+◌, ◌<◌, ◌≤◌, ◌==◌, ◌++◌, true, length};
ghost use Rattle.std.specs.Prelude.{vec_len, vec_capacity};
ghost use Rattle.swp08_messages.specs.Dump.{page_text, page_dests, max_dump_len};
ghost use Rattle.swp08_messages.specs.Field.{levels, dests, IsSource};
ghost use Rattle.panel_session.specs.Text.{no_page, page_at, goes_on, with_source};

use arrayvec::ArrayVec;
use std::marker::Model;
use swp08_messages::write_dump;

// The most destinations of a page.
const MOST_DESTS: usize = 64;

// The destinations that the page has, from `first` on. One that has none is a page of nothing.
#[derive(Drop)]
pub(crate) struct DumpPage {
    matrix: u8,
    level: u8,
    first: u16,
    sources: ArrayVec<Option<u16>, MOST_DESTS>,
}

impl Model for DumpPage {
    ghost use Rattle.swp08_messages.specs.Dump.{Page};

    ghost Value = { Page };

    ghost use Rattle.panel_session.specs.OutgoingInside.{IsFilling};
    ghost use Rattle.panel_session.specs.PageKept.{kept_page};

    ghost view = { λ page. kept_page page };

    ghost invariant = { λ page. IsFilling (kept_page page) };
}

impl DumpPage {
    // A page that has no destination yet.
    pub(crate) fn new() -> DumpPage
        ensures { result ≡ no_page }
    {
        DumpPage {
            matrix: 0,
            level: 0,
            first: 0,
            sources: ArrayVec::new(),
        }
    }

    // Makes it one that has no destination yet.
    pub(crate) fn clear(&mut self)
        ensures { self.new ≡ no_page }
    {
        if self.sources.is_empty() {
            return;
        }
        self.matrix = 0;
        self.level = 0;
        self.first = 0;
        self.sources.clear();
    }

    // Makes it one that begins with this destination and source.
    pub(crate) fn begin(&mut self, matrix: u8, level: u8, dest: u16, source: Option<u16>)
        requires matrix { matrix < levels }
        requires level { level < levels }
        requires dest { dest < dests }
        requires source { IsSource source }
        ensures { self.new ≡ with_source source (page_at matrix level dest) }
    {
        self.matrix = matrix;
        self.level = level;
        self.first = dest;
        self.sources.clear();
        self.sources.push(source);
    }

    // Whether it has no destination yet.
    pub(crate) fn is_empty(&self) -> bool
        ensures { result ≡ (length self.now.sources == 0) }
    {
        self.sources.is_empty()
    }

    // Whether it goes on with this destination.
    pub(crate) fn goes_on(&self, matrix: u8, level: u8, dest: u16) -> bool
        ensures goes_on { result ≡ goes_on self.now matrix level dest }
        ensures next { result ≡ true → self.now.first + length self.now.sources ≡ dest }
        ensures few { result ≡ true → length self.now.sources < page_dests }
    {
        self.matrix == matrix
            && self.level == level
            && usize::from(self.first) + self.sources.len() == usize::from(dest)
            && self.sources.len() < MOST_DESTS
    }

    // Its next destination has this source.
    pub(crate) fn push(&mut self, source: Option<u16>)
        requires most { length self.old.sources < page_dests }
        requires within { self.old.first + length self.old.sources < dests }
        requires source { IsSource source }
        ensures { self.new ≡ with_source source self.old }
    {
        self.sources.push(source);
    }

    // Appends its DATA.
    pub(crate) fn write(&self, out: &mut Vec<u8>)
        requires some { 1 ≤ length self.now.sources }
        requires room { vec_len out.old + max_dump_len ≤ vec_capacity out.old }
        ensures text { out.new.items ≡ out.old.items ++ page_text self.now }
        ensures room { vec_capacity out.new ≡ vec_capacity out.old }
        ensures most { length self.now.sources ≤ page_dests }
    {
        write_dump(
            self.matrix,
            self.level,
            self.first,
            self.sources.as_slice(),
            out,
        );
    }
}
