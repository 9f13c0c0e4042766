//! The plant and the sessions of its panels, while a script is worked.

ghost use Rattle.std.specs.Prelude.{◌≡◌, ℕ, ◌+◌, ◌*◌, ◌<◌, true, List, [], ◌∷◌, length, IfOk};
ghost use Rattle.std.specs.Prelude.{MatchOption};
ghost use Rattle.std.specs.Bool.{OnTrue, OnFalse};
ghost use Rattle.plant_config.specs.IsPlant.{IsPlant};
ghost use Rattle.plant_config.specs.Screens.{has_screen};
ghost use Rattle.record_replay.specs.OutputInside.{Puts, PutsLines};
ghost use Rattle.record_replay.specs.Script.{Work, Read, Leave, Show, lines, worked, LinesSpell};
ghost use Rattle.record_replay.specs.Replay.{begun};
ghost use Rattle.record_replay.specs.Streamed.{TakesLamps};
ghost use Rattle.record_replay.specs.PortInside.{SendsAll, SendsUntil, LeavesNone, LeavesPacket};
ghost use Rattle.record_replay.specs.ReplayerInside.{AreNew};

use crate::digits::Digits;
use crate::first::take_turn;
use crate::line::{Line, read_line};
use crate::output::Output;
use crate::show::{PacketRoom, tell_show};
use ctl_net::DisplayPort;
use history_lock::OutBox;
use line_text::split_line;
use panel_session::{Drain, Session};
use plant_config::{PanelNo, Plant};
use plant_core::{Answer, PlantState, Request};
use plant_names::Names;
use std::alloc::{AllocError, Global};

/// One plant, and a session for each of its panels.
#[derive(Drop)]
pub(crate) struct Replayer<'p> {
    plant: &'p Plant,
    pub(crate) state: PlantState,
    sessions: Vec<Session<'p>>,
    // Where the plant answers what no session asks for: a leave, which has no answer, and a display poll.
    outbox: OutBox<Answer>,
    packet: PacketRoom,
}

impl<'p> Replayer<'p> {
    ghost use Rattle.record_replay.specs.LineInside.{IsFound};
    ghost use Rattle.record_replay.specs.FirstInside.{IsFirst};
    ghost use Rattle.record_replay.specs.ReplayerInside.{StandsAt, MayDo, DoesWork, DoesLine};
    ghost use Rattle.record_replay.specs.ReplayerInside.{DoesScript, HasPacket, LineHasPacket};
    ghost use Rattle.record_replay.specs.ReplayerInside.{need_of};

    // Nothing happened yet. It takes all the memory that it ever needs.
    pub(crate) fn start(
        alloc: Global,
        plant: &'p Plant,
        names: &'p Names,
    ) -> Result<Replayer<'p>, AllocError>
        requires { names.now ≡ plant.now }
        ensures { IfOk result (λ replayer. StandsAt plant.now replayer (begun plant.now) 0) }
    {
        let packet = PacketRoom::new(alloc)?;
        let outbox = OutBox::new(alloc, PlantState::room_of(plant))?;
        let sessions = start_sessions(alloc, plant, names)?;
        Ok(Replayer {
            plant,
            state: PlantState::start(alloc, plant)?,
            sessions,
            outbox,
            packet,
        })
    }

    // Does the works of a script's lines, until the output or the port fails. The answer is no if the port did.
    pub(crate) fn work<K: Drain, P: DisplayPort>(
        &mut self,
        script: &[u8],
        names: &Names,
        digits: &mut Digits,
        out: &mut Output<'_, K>,
        port: &mut P,
    ) -> bool
        requires names { names.now ≡ self.old.plant.now }
        requires may { MayDo (length script.now) self.old.plant.now self.old }
        requires spelled { (works : List Work)
            × LinesSpell self.old.plant.now (worked (lines script.now)) works }
        requires takes { TakesLamps self.old.plant.now P.takes }
        ensures same_sink { out.new.out.ghost_name ≡ out.old.out.ghost_name }
        ensures does { OnTrue result (DoesScript self.old.plant.now script.now self.old
            (LeavesNone out.new.failed)
            (λ earlier text packets. PutsLines K.written K.faults earlier text out.old out.new
            × SendsAll P.was_sent P.faults packets port.old port.new)) }
        ensures stops { OnFalse result (DoesScript self.old.plant.now script.now self.old
            (LeavesPacket self.old.plant.now)
            (λ earlier text packets. PutsLines K.written K.faults earlier text out.old out.new
            × SendsUntil P.was_sent P.faults packets port.old port.new)) }
    {
        let mut rest = script;
        while !rest.is_empty() && !out.failed() {
            let Some(behind) = self.work_first(rest, names, digits, out, port) else {
                return false;
            };
            rest = behind;
        }
        true
    }

    // Does the work of the first line of a text, and answers what is behind it, `None` if the port failed.
    #[inline]
    pub(crate) fn work_first<'s, K: Drain, P: DisplayPort>(
        &mut self,
        text: &'s [u8],
        names: &Names,
        digits: &mut Digits,
        out: &mut Output<'_, K>,
        port: &mut P,
    ) -> Option<&'s [u8]>
        requires some { 0 < length text.now }
        requires names { names.now ≡ self.old.plant.now }
        requires may { MayDo (length text.now) self.old.plant.now self.old }
        requires spelled { (works : List Work)
            × LinesSpell self.old.plant.now (worked (lines text.now)) works }
        requires takes { TakesLamps self.old.plant.now P.takes }
        ensures { MatchOption result
            ((line behind : List ℕ) × IsFirst text.now line behind
            × LineHasPacket self.old.plant.now line self.old
            × Puts K.written K.faults [] out.old out.new
            × SendsUntil P.was_sent P.faults [] port.old port.new)
            (λ behind. (line : List ℕ) × IsFirst text.now line behind.now
            × DoesLine self.old.plant.now line self.old self.new
            (λ text packets. Puts K.written K.faults text out.old out.new
            × SendsAll P.was_sent P.faults packets port.old port.new)) }
    {
        if let Some(turn) = take_turn(digits, self.plant, text) {
            self.turn(turn.0, digits.bytes(), out);
            return Some(turn.1);
        }
        let (line, behind) = split_line(text);
        if self.work_line(line, names, digits, out, port) {
            Some(behind)
        } else {
            None
        }
    }

    // Does the work of a line, unless the port fails.
    fn work_line<K: Drain, P: DisplayPort>(
        &mut self,
        line: &[u8],
        names: &Names,
        digits: &mut Digits,
        out: &mut Output<'_, K>,
        port: &mut P,
    ) -> bool
        requires names { names.now ≡ self.old.plant.now }
        requires may { MayDo (length line.now) self.old.plant.now self.old }
        requires spelled { (works : List Work)
            × LinesSpell self.old.plant.now (worked (line.now ∷ [])) works }
        requires takes { TakesLamps self.old.plant.now P.takes }
        ensures does { OnTrue result (DoesLine self.old.plant.now line.now self.old self.new
            (λ text packets. Puts K.written K.faults text out.old out.new
            × SendsAll P.was_sent P.faults packets port.old port.new)) }
        ensures stops { OnFalse result (LineHasPacket self.old.plant.now line.now self.old
            × Puts K.written K.faults [] out.old out.new
            × SendsUntil P.was_sent P.faults [] port.old port.new) }
    {
        match read_line(digits, self.plant, names, line) {
            Some(found) => self.work_found(found, digits.bytes(), out, port),
            None => true,
        }
    }

    // Does what was found in a line, with the bytes of its turn, unless the port fails.
    fn work_found<K: Drain, P: DisplayPort>(
        &mut self,
        found: Line,
        bytes: &[u8],
        out: &mut Output<'_, K>,
        port: &mut P,
    ) -> bool
        requires found { (line : List ℕ) × IsFound self.old.plant.now line found bytes.now
            × MayDo (length line) self.old.plant.now self.old }
        requires takes { TakesLamps self.old.plant.now P.takes }
        ensures does { OnTrue result ((line : List ℕ)
            → IsFound self.old.plant.now line found bytes.now
            → DoesLine self.old.plant.now line self.old self.new
            (λ text packets. Puts K.written K.faults text out.old out.new
            × SendsAll P.was_sent P.faults packets port.old port.new)) }
        ensures stops { OnFalse result (((line : List ℕ)
            → IsFound self.old.plant.now line found bytes.now
            → LineHasPacket self.old.plant.now line self.old)
            × Puts K.written K.faults [] out.old out.new
            × SendsUntil P.was_sent P.faults [] port.old port.new) }
    {
        match found {
            Line::Skipped => true,
            Line::Read(panel) => {
                self.turn(panel, bytes, out);
                true
            }
            Line::Leave(panel) => {
                self.leave(panel, out);
                true
            }
            Line::Show { screen, refresh } => self.show(screen, refresh, out, port),
        }
    }

    // One turn of a panel's session with this piece.
    fn turn<K: Drain>(&mut self, panel: PanelNo, piece: &[u8], out: &mut Output<'_, K>)
        requires panel { panel < length self.old.plant.now.panels }
        requires may { MayDo (need_of (Read panel piece.now)) self.old.plant.now self.old }
        ensures { DoesWork self.old.plant.now (Read panel piece.now) self.old self.new
            (λ text packets. Puts K.written K.faults text out.old out.new) }
    {
        out.begin_turn(panel);
        // Neither the plant nor an output cuts a turn short: each such end of it is an empty type there.
        let _ = self.sessions[panel.get() as usize].work_turn(&mut self.state, piece, out);
        out.end_turn();
    }

    // A panel leaves.
    fn leave<K: Drain>(&mut self, panel: PanelNo, out: &mut Output<'_, K>)
        requires panel { panel < length self.old.plant.now.panels }
        requires may { MayDo 0 self.old.plant.now self.old }
        ensures { DoesWork self.old.plant.now (Leave panel) self.old self.new
            (λ text packets. Puts K.written K.faults text out.old out.new) }
    {
        self.state.step(&Request::Leave { panel }, &mut self.outbox);
        out.leave_line(panel);
    }

    // The displays of a screen are polled, and told what the plant answers, unless the port fails.
    fn show<K: Drain, P: DisplayPort>(
        &mut self,
        screen: u16,
        refresh: bool,
        out: &mut Output<'_, K>,
        port: &mut P,
    ) -> bool
        requires screen { has_screen self.old.plant.now screen ≡ true }
        requires may { MayDo 0 self.old.plant.now self.old }
        requires takes { TakesLamps self.old.plant.now P.takes }
        ensures does { OnTrue result
            (DoesWork self.old.plant.now (Show screen refresh) self.old self.new
            (λ text packets. Puts K.written K.faults text out.old out.new
            × SendsAll P.was_sent P.faults packets port.old port.new)) }
        ensures stops { OnFalse result
            (HasPacket self.old.plant.now (Show screen refresh) self.old
            × Puts K.written K.faults [] out.old out.new
            × SendsUntil P.was_sent P.faults [] port.old port.new) }
    {
        let poll = Request::DisplayPoll { screen, refresh };
        self.state.step(&poll, &mut self.outbox);
        let told = tell_show(
            self.plant,
            screen,
            self.outbox.items(),
            &mut self.packet,
            out,
            port,
        );
        self.outbox.clear();
        told
    }
}

// A session for each panel of a plant.
fn start_sessions<'p>(
    alloc: Global,
    plant: &'p Plant,
    names: &'p Names,
) -> Result<Vec<Session<'p>>, AllocError>
    requires { names.now ≡ plant.now }
    ensures sessions { IfOk result (λ sessions. AreNew plant.now sessions.items) }
    ensures plant { IsPlant plant.now }
{
    let panels = plant.panels().len();
    let mut sessions = Vec::with_capacity(alloc, panels)?;
    for panel in 0..panels {
        let panel = PanelNo::of(panel as u32);
        sessions.push_reserved(Session::start(alloc, plant, names, panel)?);
    }
    Ok(sessions)
}
