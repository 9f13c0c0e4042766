//! A packet on a stream.
ghost use Rattle.std.specs.Prelude.{◌≡◌, ◌+◌, ◌*◌, ◌≤◌, ◌++◌, length};
ghost use Rattle.std.specs.Prelude.{vec_len, vec_capacity};
ghost use Rattle.tsl_umd5.specs.Packet.{IsPacketText};
ghost use Rattle.tsl_stream.specs.Stream.{stream_text};
ghost use Rattle.tsl_stream.specs.Laws.{ReadsBack};

use crate::control::{DLE, STX};
use doubled_bytes::push_doubled;

/// Appends the one text of a packet on a stream, as the TSL UMD Protocol V5.0 spells it for TCP/IP: DLE STX, and the
/// packet with each DLE of it twice. Its count of bytes, PBC, doesn't count a DLE twice. It takes no memory.
pub fn write_stream(packet: &[u8], out: &mut Vec<u8>)
    requires packet { IsPacketText packet.now }
    requires room { vec_len out.old + 2 * length packet.now + 2 ≤ vec_capacity out.old }
    ensures text { out.new.items ≡ out.old.items ++ stream_text packet.now }

    // Behind it any text can follow: this is read as the packet, and then as that text.
    ensures reads_back { ReadsBack packet.now }
    ensures room { vec_capacity out.new ≡ vec_capacity out.old }
{
    out.push_reserved(DLE);
    out.push_reserved(STX);
    push_doubled(DLE, packet, out);
}
