//! What a line of a trace says of the request.

ghost use Rattle.std.specs.Prelude.{◌≡◌, ◌+◌, ◌≤◌, ◌++◌, length, vec_capacity};
ghost use Rattle.swp08_messages.specs.Text.{InRange, max_len};
ghost use Rattle.plant_core.specs.declared.request.Request.TheVariants.{Told, Poll, Leave};
ghost use Rattle.plant_core.specs.declared.request.Request.TheVariants.{DisplayPoll};
ghost use Rattle.trace_lines.specs.LineRoomInside.{most_request};
ghost use Rattle.trace_lines.specs.TraceLine.{request_text, MaySpell};

use line_text::Room;
use plant_config::PanelNo;
use plant_core::Request;
use swp08_messages::Message;

// Puts the request of an entry.
pub(crate) fn put_request(request: &Request, spelled: &mut Vec<u8>, out: &mut Room)
    requires request { MaySpell request.now }
    requires spelled { max_len ≤ vec_capacity spelled.old }
    requires room { length out.old + most_request ≤ 65536 }
    ensures text { out.new ≡ out.old ++ request_text request.now }
    ensures most { length out.new ≤ length out.old + most_request }
    ensures spelled { vec_capacity spelled.new ≡ vec_capacity spelled.old }
{
    match *request {
        Request::Told {
            panel,
            item,
            message,
        } => put_told(panel, item, message, spelled, out),
        Request::Poll { panel, at, turn } => put_poll(panel, at, turn, out),
        Request::Leave { panel } => put_leave(panel, out),
        Request::DisplayPoll { screen, refresh } => put_show(screen, refresh, out),
    }
}

// Puts what a panel told, its message by the DATA in hexadecimal.
fn put_told(panel: PanelNo, item: u64, message: Message, spelled: &mut Vec<u8>, out: &mut Room)
    requires in_range { InRange message }
    requires spelled { max_len ≤ vec_capacity spelled.old }
    requires room { length out.old + most_request ≤ 65536 }
    ensures text { out.new ≡ out.old ++ request_text (Told panel item message) }
    ensures most { length out.new ≤ length out.old + most_request }
    ensures spelled { vec_capacity spelled.new ≡ vec_capacity spelled.old }
{
    spelled.clear();
    message.write(spelled);
    out.push_all(b"told ");
    out.push_decimal(u64::from(panel.get()));
    out.push_all(b" ");
    out.push_decimal(item);
    out.push_all(b" ");
    out.push_hex(spelled);
}

// Puts the poll of a panel.
fn put_poll(panel: PanelNo, item: u64, turn: u64, out: &mut Room)
    requires { length out.old + most_request ≤ 65536 }
    ensures text { out.new ≡ out.old ++ request_text (Poll panel item turn) }
    ensures most { length out.new ≤ length out.old + most_request }
{
    out.push_all(b"poll ");
    out.push_decimal(u64::from(panel.get()));
    out.push_all(b" ");
    out.push_decimal(item);
    out.push_all(b" ");
    out.push_decimal(turn);
}

// Puts the leave of a panel.
fn put_leave(panel: PanelNo, out: &mut Room)
    requires { length out.old + most_request ≤ 65536 }
    ensures text { out.new ≡ out.old ++ request_text (Leave panel) }
    ensures most { length out.new ≤ length out.old + most_request }
{
    out.push_all(b"leave ");
    out.push_decimal(u64::from(panel.get()));
}

// Puts the display poll of a screen.
fn put_show(screen: u16, refresh: bool, out: &mut Room)
    requires { length out.old + most_request ≤ 65536 }
    ensures text { out.new ≡ out.old ++ request_text (DisplayPoll screen refresh) }
    ensures most { length out.new ≤ length out.old + most_request }
{
    out.push_all(b"show ");
    out.push_decimal(u64::from(screen));
    if refresh {
        out.push_all(b" 1");
    } else {
        out.push_all(b" 0");
    }
}
