//! A page of names, as it is written.

ghost use Rattle.std.specs.Prelude.{◌≡◌, ◌+◌, ◌*◌, ◌<◌, ◌≤◌, ◌++◌, length, slice_index_or};
ghost use Rattle.std.specs.Prelude.{Some, vec_len, vec_capacity};
ghost use Rattle.std.specs.List.{flat_map};
ghost use Rattle.plant_config.specs.Limits.{level_destination_limit};
ghost use Rattle.plant_names.specs.Pages as pages;

use crate::paged::Paged;
use plant_config::Name;

const SPACE: u8 = b' ';

/// What of a level's names is asked for.
#[derive(Clone, Copy, Debug)]
pub(crate) struct PageAsk {
    /// 4, 8 or 12 bytes for each name, by the size 0, 1 or 2.
    pub(crate) size: u8,
    /// The number of the first name.
    pub(crate) first: u16,
    /// Whether the first name alone is asked for.
    pub(crate) one: bool,
}

/// What stands before the size of a page.
#[derive(Clone, Copy, Debug)]
pub(crate) struct PageHead {
    pub(crate) command: u8,
    /// 0 to 15.
    pub(crate) matrix: u8,
    /// 0 to 15.
    pub(crate) level: u8,
}

impl PageAsk {
    // How many bytes a page has for each name.
    fn bytes(self) -> usize
        requires { self.size ≤ 2 }
        ensures { result ≡ pages.bytes_of_size self.size }
    {
        4 * (usize::from(self.size) + 1)
    }

    // The most names of a page.
    fn most_names(self) -> usize
        requires { self.size ≤ 2 }
        ensures { result ≡ pages.most_names self.size }
    {
        match self.size {
            0 => 32,
            1 => 16,
            _ => 10,
        }
    }

    /// Appends the DATA of the page of a level's names, and says how it ends. It takes no memory.
    pub(crate) fn write(self, head: PageHead, names: &[Name], out: &mut Vec<u8>) -> Paged
        requires size { self.size ≤ 2 }
        requires matrix { head.matrix < 16 }
        requires level { head.level < 16 }
        requires names { length names.now ≤ level_destination_limit }
        requires room { vec_len out.old + pages.max_page_len ≤ vec_capacity out.old }
        ensures end { result ≡ pages.page_end self.one self.size self.first (Some names.now) }
        ensures text { out.new.items ≡ out.old.items ++ pages.page_data head.command head.matrix
            head.level self.one self.size self.first (Some names.now) }
        ensures room { vec_capacity out.new ≡ vec_capacity out.old }
        ensures most { vec_len out.new ≤ vec_len out.old + pages.max_page_len }
    {
        let first = usize::from(self.first);
        if first >= names.len() {
            return Paged::Nothing;
        }
        let most = if self.one { 1 } else { self.most_names() };
        let count = most.min(names.len() - first);
        self.write_names(head, &names[first..first + count], out);
        let next = first + self.most_names();
        if self.one || next >= names.len() {
            Paged::Last
        } else {
            Paged::More(next as u16)
        }
    }

    // Appends the DATA of the page of these names.
    fn write_names(self, head: PageHead, names: &[Name], out: &mut Vec<u8>)
        requires size { self.size ≤ 2 }
        requires matrix { head.matrix < 16 }
        requires level { head.level < 16 }
        requires names { length names.now ≤ pages.most_names self.size }
        requires room { vec_len out.old + pages.max_page_len ≤ vec_capacity out.old }
        ensures text { out.new.items ≡ out.old.items ++ pages.names_text head.command head.matrix
            head.level self.size self.first names.now }
        ensures room { vec_capacity out.new ≡ vec_capacity out.old }
        ensures most { vec_len out.new ≤ vec_len out.old + pages.max_page_len }
    {
        out.push_reserved(head.command);
        out.push_reserved(head.matrix * 16 + head.level);
        out.push_reserved(self.size);
        out.push_reserved((self.first / 256) as u8);
        out.push_reserved((self.first % 256) as u8);
        out.push_reserved(names.len() as u8);
        for name in names {
            push_fitted(self.bytes(), name.as_bytes(), out);
        }
    }
}

// Appends a name in so many bytes: cut to its first ones, or with spaces behind it.
fn push_fitted(count: usize, name: &[u8], out: &mut Vec<u8>)
    requires count { count ≤ 12 }
    requires room { vec_len out.old + count ≤ vec_capacity out.old }
    ensures text { out.new.items ≡ out.old.items ++ pages.fitted count name.now }
    ensures len { vec_len out.new ≡ vec_len out.old + count }
    ensures room { vec_capacity out.new ≡ vec_capacity out.old }
{
    for place in 0..count {
        out.push_reserved(byte_at(name, place));
    }
}

// The byte at a place of a name, a space behind its last one.
fn byte_at(name: &[u8], place: usize) -> u8
    ensures { result ≡ slice_index_or name.now place 32 }
{
    if place < name.len() {
        name[place]
    } else {
        SPACE
    }
}
