//! Each message's row: its command, what it is for, and what the bytes behind the command say. What of these bytes is wanted
//! is made at once, field by field.

ghost use Rattle.std.specs.Prelude.{◌≡◌, map};
ghost use Rattle.swp08_messages.specs.declared.message.MessageKind.TheVariants.{Names};
ghost use Rattle.swp08_messages.specs.Row.{row};
ghost use Rattle.swp08_messages.specs.Text.{kind_of};

use crate::crosspoints::{CONNECT, CONNECTED, INTERROGATE, TALLY, crosspoint, destination};
use crate::dump::{DUMP_ASK, one_level};
use crate::extended::{
    EXT_CONNECT, EXT_CONNECTED, EXT_INTERROGATE, EXT_TALLY, ext_crosspoint, ext_destination,
};
use crate::field::Field;
use crate::message::{Message, MessageKind};
use crate::names::{
    DEST_NAME_ASK, DEST_NAMES_ASK, SOURCE_NAME_ASK, SOURCE_NAMES_ASK, dest_name_ask,
    dest_names_ask, source_name_ask, source_names_ask,
};
use crate::protects::{
    PROTECT_ASK, PROTECT_CONNECT, PROTECT_CONNECTED, PROTECT_DISCONNECT, PROTECT_DISCONNECTED,
    PROTECT_TALLY, protect, protect_told,
};
use crate::salvos::{
    ENTRY, ENTRY_ASK, GO, GO_DONE, STORE, STORED, entry, entry_ask, go, go_done, stored_crosspoint,
};
use crate::view::{View, Views};

impl Message {
    /// The command of the message.
    #[inline(always)]
    pub(crate) fn command(&self) -> u8
        ensures { result ≡ (row self.now).command }
    {
        match self {
            Message::Interrogate { .. } => INTERROGATE,
            Message::Connect { .. } => CONNECT,
            Message::Tally { .. } => TALLY,
            Message::Connected { .. } => CONNECTED,
            Message::ProtectAsk { .. } => PROTECT_ASK,
            Message::ProtectTally { .. } => PROTECT_TALLY,
            Message::ProtectConnect { .. } => PROTECT_CONNECT,
            Message::ProtectConnected { .. } => PROTECT_CONNECTED,
            Message::ProtectDisconnect { .. } => PROTECT_DISCONNECT,
            Message::ProtectDisconnected { .. } => PROTECT_DISCONNECTED,
            Message::DumpAsk { .. } => DUMP_ASK,
            Message::SourceNamesAsk { .. } => SOURCE_NAMES_ASK,
            Message::SourceNameAsk { .. } => SOURCE_NAME_ASK,
            Message::DestNamesAsk { .. } => DEST_NAMES_ASK,
            Message::DestNameAsk { .. } => DEST_NAME_ASK,
            Message::Store { .. } => STORE,
            Message::Go { .. } => GO,
            Message::Stored { .. } => STORED,
            Message::GoDone { .. } => GO_DONE,
            Message::EntryAsk { .. } => ENTRY_ASK,
            Message::Entry { .. } => ENTRY,
            Message::ExtInterrogate { .. } => EXT_INTERROGATE,
            Message::ExtConnect { .. } => EXT_CONNECT,
            Message::ExtTally { .. } => EXT_TALLY,
            Message::ExtConnected { .. } => EXT_CONNECTED,
        }
    }

    /// What the message is for.
    #[inline]
    pub fn kind(&self) -> MessageKind
        ensures { result ≡ kind_of self.now }
    {
        match self {
            Message::Interrogate { .. } | Message::Connect { .. } => MessageKind::Plant,
            Message::Tally { .. } | Message::Connected { .. } => MessageKind::Report,
            Message::ProtectAsk { .. } | Message::ProtectConnect { .. } => MessageKind::Plant,
            Message::ProtectDisconnect { .. } => MessageKind::Plant,
            Message::ProtectTally { .. } => MessageKind::Report,
            Message::ProtectConnected { .. } => MessageKind::Report,
            Message::ProtectDisconnected { .. } => MessageKind::Report,
            Message::DumpAsk { .. } => MessageKind::Plant,
            Message::SourceNamesAsk { .. } | Message::SourceNameAsk { .. } => MessageKind::Names,
            Message::DestNamesAsk { .. } | Message::DestNameAsk { .. } => MessageKind::Names,
            Message::Store { .. } | Message::Go { .. } => MessageKind::Plant,
            Message::EntryAsk { .. } => MessageKind::Plant,
            Message::Stored { .. } | Message::GoDone { .. } => MessageKind::Report,
            Message::Entry { .. } => MessageKind::Report,
            Message::ExtInterrogate { .. } | Message::ExtConnect { .. } => MessageKind::Plant,
            Message::ExtTally { .. } | Message::ExtConnected { .. } => MessageKind::Report,
        }
    }

    /// What is wanted of the fields behind the command, in order.
    #[inline(always)]
    pub(crate) fn fields<V: View>(&self) -> Views<V>
        ensures { result.items ≡ map V.view_of (row self.now).fields }
    {
        match *self {
            Message::Interrogate { at } | Message::ProtectAsk { at } => destination(at),
            Message::Connect { at, source }
            | Message::Tally { at, source }
            | Message::Connected { at, source } => crosspoint(at, source),
            Message::ProtectTally { at, owned, device }
            | Message::ProtectConnected { at, owned, device }
            | Message::ProtectDisconnected { at, owned, device } => protect_told(at, owned, device),
            Message::ProtectConnect { at, device } | Message::ProtectDisconnect { at, device } => {
                protect(at, device)
            }
            Message::DumpAsk { matrix, level } => one_level(matrix, level),
            Message::Store { at, source, salvo } | Message::Stored { at, source, salvo } => {
                stored_crosspoint(at, source, salvo)
            }
            Message::Go { clear, salvo } => go(clear, salvo),
            Message::GoDone { status, salvo } => go_done(status, salvo),
            Message::EntryAsk { salvo, index } => entry_ask(salvo, index),
            Message::Entry {
                at,
                source,
                salvo,
                index,
                validity,
            } => entry(at, source, salvo, index, validity),
            Message::ExtInterrogate { at } => ext_destination(at),
            Message::ExtConnect { at, source }
            | Message::ExtTally { at, source }
            | Message::ExtConnected { at, source } => ext_crosspoint(at, source),
            Message::SourceNamesAsk { .. } | Message::SourceNameAsk { .. } => self.name_fields(),
            Message::DestNamesAsk { .. } | Message::DestNameAsk { .. } => self.name_fields(),
        }
    }

    // The same of a message that asks for names.
    #[inline(always)]
    fn name_fields<V: View>(&self) -> Views<V>
        requires { kind_of self.now ≡ Names }
        ensures { result.items ≡ map V.view_of (row self.now).fields }
    {
        match *self {
            Message::SourceNamesAsk {
                matrix,
                level,
                size,
            } => source_names_ask(matrix, level, size),
            Message::SourceNameAsk {
                matrix,
                level,
                size,
                number,
            } => source_name_ask(matrix, level, size, number),
            Message::DestNamesAsk { matrix, size } => dest_names_ask(matrix, size),
            Message::DestNameAsk {
                matrix,
                size,
                number,
            } => dest_name_ask(matrix, size, number),
            _ => unreachable!(),
        }
    }

    /// The same of what DATA may have behind these, which is held to its range and isn't kept.
    pub(crate) fn spare<V: View>(&self) -> Views<V>
        ensures { result.items ≡ map V.view_of (row self.now).spare }
    {
        let mut spare = Views::new();
        if let Message::ProtectAsk { .. } = self {
            spare.push(V::of(Field::SpareLow));
        }
        spare
    }
}
