//! What holds of display packets.

ghost use Rattle.display_packets.specs.Laws.{DisplayPollAnswersAreLamps};

/// In a valid state the lamps that answer a display poll are of displays and sources of the plant, so that
/// `display_packet` takes them.
pub fn display_poll_answers_are_lamps()
    ensures { DisplayPollAnswersAreLamps }
{}
