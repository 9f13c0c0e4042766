//! Frames, spelled and appended to what is sent.

ghost use Rattle.std.specs.Prelude.{◌≡◌, ◌≤◌, ◌++◌, IfSome, length, vec_len};
ghost use Rattle.std.specs.Prelude.{vec_capacity, ◌+◌};
ghost use Rattle.dle_framing.specs.Frame.{frame};
ghost use Rattle.swp08_messages.specs.Dump.{page_text};
ghost use Rattle.plant_names.specs.Pages.{max_page_len, HaveNumbers};
ghost use Rattle.panel_session.specs.NamePagesInside.{names_of, data_of, end_of};
ghost use Rattle.swp08_messages.specs.Text.{InRange, text};
ghost use Rattle.panel_session.specs.OutgoingKept.{most_message_frame, answer_bytes};

use crate::sending::dump_page::DumpPage;
use crate::sending::name_page::NamePage;
use dle_framing::encode_frame;
use plant_names::{Names, Paged};
use swp08_messages::Message;

// Appends the frame of a message. Short way: most are a tally or a connected, and have DATA of five bytes; those of any other
// stand in place of what was spelled.
#[inline(always)]
pub(crate) fn spell_frame(message: &Message, spelled: &mut Vec<u8>, out: &mut Vec<u8>)
    requires in_range { InRange message.now }
    requires room { max_page_len ≤ vec_capacity spelled.old }
    requires frame_room { vec_len out.old + most_message_frame ≤ vec_capacity out.old }
    ensures frame { out.new.items ≡ out.old.items ++ frame (text message.now) }
    ensures most { vec_len out.new ≤ vec_len out.old + most_message_frame }
    ensures room { vec_capacity spelled.new ≡ vec_capacity spelled.old }
    ensures frame_room { vec_capacity out.new ≡ vec_capacity out.old }
{
    if let Some(told) = message.five_byte_text() {
        encode_frame(&told, out);
        return;
    }
    spell_other(message, spelled, out);
}

// The same of any message, by its DATA.
#[inline(never)]
fn spell_other(message: &Message, spelled: &mut Vec<u8>, out: &mut Vec<u8>)
    requires in_range { InRange message.now }
    requires room { max_page_len ≤ vec_capacity spelled.old }
    requires frame_room { vec_len out.old + most_message_frame ≤ vec_capacity out.old }
    ensures frame { out.new.items ≡ out.old.items ++ frame (text message.now) }
    ensures most { vec_len out.new ≤ vec_len out.old + most_message_frame }
    ensures room { vec_capacity spelled.new ≡ vec_capacity spelled.old }
    ensures frame_room { vec_capacity out.new ≡ vec_capacity out.old }
{
    spelled.clear();
    message.write(spelled);
    encode_frame(spelled, out);
}

// Appends the frame of a page. Its DATA stand in place of what was spelled.
pub(crate) fn spell_page(page: &DumpPage, spelled: &mut Vec<u8>, out: &mut Vec<u8>)
    requires some { 1 ≤ length page.now.sources }
    requires room { max_page_len ≤ vec_capacity spelled.old }
    requires frame_room { vec_len out.old + answer_bytes (length page.now.sources)
        ≤ vec_capacity out.old }
    ensures frame { out.new.items ≡ out.old.items ++ frame (page_text page.now) }
    ensures most { vec_len out.new ≤ vec_len out.old + answer_bytes (length page.now.sources) }
    ensures room { vec_capacity spelled.new ≡ vec_capacity spelled.old }
    ensures frame_room { vec_capacity out.new ≡ vec_capacity out.old }
{
    spelled.clear();
    page.write(spelled);
    encode_frame(spelled, out);
}

// The DATA of a page of names in place of what was spelled, none where there is no such page. It answers how the page ends.
pub(crate) fn spell_names(page: NamePage, names: &Names, spelled: &mut Vec<u8>) -> Paged
    requires size { page.size ≤ 2 }
    requires room { max_page_len ≤ vec_capacity spelled.old }
    ensures end { result ≡ end_of names.now page }
    ensures numbers { IfSome (names_of names.now page.matrix page.names) HaveNumbers }
    ensures text { spelled.new.items ≡ data_of names.now page }
    ensures most { vec_len spelled.new ≤ max_page_len }
    ensures room { vec_capacity spelled.new ≡ vec_capacity spelled.old }
{
    spelled.clear();
    page.write(names, spelled)
}
