//! The laws of frames and items, each a function with nothing to do.
ghost use Rattle.std.specs.Prelude.{◌≡◌, ℕ, List, [], ◌∷◌, length, replicate};
ghost use Rattle.dle_framing.specs.declared.item.Item.TheVariants.{Ack, Nak};
ghost use Rattle.dle_framing.specs.Numbers.{dle, ack, nak, most_data};
ghost use Rattle.dle_framing.specs.Frame.{frame};
ghost use Rattle.dle_framing.specs.Items.{reading};
ghost use Rattle.dle_framing.specs.Laws.{ReadsByStart, OneReadsByStart, ReadsOn, ItemsStay};
ghost use Rattle.dle_framing.specs.Laws.{IsReadAs, FramesAreGood, RowsAreGood, FramesAreShort};

use crate::control::MAX_FRAME;

/// The reading of a text goes by the text's start, and is the only one that does.
pub fn reads_by_start()
    ensures reads { ReadsByStart reading }
    ensures only { OneReadsByStart }
{}

/// Where a text goes on, its items stay, and what comes is read behind its rest alone. So the items of a text are a front
/// of those of every text that it is a front of, however the text was cut.
pub fn reads_on()
    ensures goes_on { (text more : List ℕ) → ReadsOn text more }
    ensures front { ItemsStay }
{}

/// A frame is read as one good item, its DATA, and frames in a row as their good items in that order.
pub fn reads_frame()
    ensures one { FramesAreGood }
    ensures in_a_row { RowsAreGood }
{}

/// The two answers that are no frames are read as themselves.
pub fn reads_answers()
    ensures ack { IsReadAs ack (Ack ∷ []) }
    ensures nak { IsReadAs nak (Nak ∷ []) }
{}

/// A frame has one DATA.
pub fn one_frame()
    ensures { (one other : List ℕ) → frame one ≡ frame other → one ≡ other }
{}

/// No frame is longer than 516 bytes, and that of 255 DLE is so long.
pub fn frame_room()
    ensures within { FramesAreShort }
    ensures attained { length (frame (replicate most_data dle)) ≡ MAX_FRAME }
{}
