//! Pairs of hexadecimal digits, read where they stand until another byte comes.

ghost use Rattle.std.specs.Prelude.{◌≡◌, ℕ, ◌+◌, ◌*◌, ◌^◌, ◌<◌, ◌≤◌, [], ◌∷◌, length, Ok};
ghost use Rattle.std.specs.Bool.{OnTrue, OnFalse};
ghost use Rattle.hex.specs.Hex.{decode_of};
ghost use Rattle.record_replay.specs.LineInside.{IsNoHex};
ghost use Rattle.record_replay.specs.PairsInside.{AreRead, ArePairs, IsNoPair, most_pairs};
ghost use Rattle.record_replay.specs.PairsInside.{high_of, low_of};

// The most pairs that are read: more than most turns have.
pub(crate) const MOST_PAIRS: usize = 4 * FOURS;

// So many times four pairs.
const FOURS: usize = 64;

// Stands in the tables for a byte that is no digit. With a digit's value it makes at least `NO_BYTE`, and so do two of it,
// where their sum wraps.
const NO_DIGIT: u32 = 3 << 30;

// What two bytes make is below this where they are digits, and only there.
pub(crate) const NO_BYTE: u32 = 1 << 31;

// What a byte makes as the first digit of a pair,
static HIGHS: [u32; 256] = [
    NO_DIGIT, NO_DIGIT, NO_DIGIT, NO_DIGIT, NO_DIGIT, NO_DIGIT, NO_DIGIT, NO_DIGIT, NO_DIGIT,
    NO_DIGIT, NO_DIGIT, NO_DIGIT, NO_DIGIT, NO_DIGIT, NO_DIGIT, NO_DIGIT, NO_DIGIT, NO_DIGIT,
    NO_DIGIT, NO_DIGIT, NO_DIGIT, NO_DIGIT, NO_DIGIT, NO_DIGIT, NO_DIGIT, NO_DIGIT, NO_DIGIT,
    NO_DIGIT, NO_DIGIT, NO_DIGIT, NO_DIGIT, NO_DIGIT, NO_DIGIT, NO_DIGIT, NO_DIGIT, NO_DIGIT,
    NO_DIGIT, NO_DIGIT, NO_DIGIT, NO_DIGIT, NO_DIGIT, NO_DIGIT, NO_DIGIT, NO_DIGIT, NO_DIGIT,
    NO_DIGIT, NO_DIGIT, NO_DIGIT, 0, 16, 32, 48, 64, 80, 96, 112, 128, 144, NO_DIGIT, NO_DIGIT,
    NO_DIGIT, NO_DIGIT, NO_DIGIT, NO_DIGIT, NO_DIGIT, 160, 176, 192, 208, 224, 240, NO_DIGIT,
    NO_DIGIT, NO_DIGIT, NO_DIGIT, NO_DIGIT, NO_DIGIT, NO_DIGIT, NO_DIGIT, NO_DIGIT, NO_DIGIT,
    NO_DIGIT, NO_DIGIT, NO_DIGIT, NO_DIGIT, NO_DIGIT, NO_DIGIT, NO_DIGIT, NO_DIGIT, NO_DIGIT,
    NO_DIGIT, NO_DIGIT, NO_DIGIT, NO_DIGIT, NO_DIGIT, NO_DIGIT, NO_DIGIT, 160, 176, 192, 208, 224,
    240, NO_DIGIT, NO_DIGIT, NO_DIGIT, NO_DIGIT, NO_DIGIT, NO_DIGIT, NO_DIGIT, NO_DIGIT, NO_DIGIT,
    NO_DIGIT, NO_DIGIT, NO_DIGIT, NO_DIGIT, NO_DIGIT, NO_DIGIT, NO_DIGIT, NO_DIGIT, NO_DIGIT,
    NO_DIGIT, NO_DIGIT, NO_DIGIT, NO_DIGIT, NO_DIGIT, NO_DIGIT, NO_DIGIT, NO_DIGIT, NO_DIGIT,
    NO_DIGIT, NO_DIGIT, NO_DIGIT, NO_DIGIT, NO_DIGIT, NO_DIGIT, NO_DIGIT, NO_DIGIT, NO_DIGIT,
    NO_DIGIT, NO_DIGIT, NO_DIGIT, NO_DIGIT, NO_DIGIT, NO_DIGIT, NO_DIGIT, NO_DIGIT, NO_DIGIT,
    NO_DIGIT, NO_DIGIT, NO_DIGIT, NO_DIGIT, NO_DIGIT, NO_DIGIT, NO_DIGIT, NO_DIGIT, NO_DIGIT,
    NO_DIGIT, NO_DIGIT, NO_DIGIT, NO_DIGIT, NO_DIGIT, NO_DIGIT, NO_DIGIT, NO_DIGIT, NO_DIGIT,
    NO_DIGIT, NO_DIGIT, NO_DIGIT, NO_DIGIT, NO_DIGIT, NO_DIGIT, NO_DIGIT, NO_DIGIT, NO_DIGIT,
    NO_DIGIT, NO_DIGIT, NO_DIGIT, NO_DIGIT, NO_DIGIT, NO_DIGIT, NO_DIGIT, NO_DIGIT, NO_DIGIT,
    NO_DIGIT, NO_DIGIT, NO_DIGIT, NO_DIGIT, NO_DIGIT, NO_DIGIT, NO_DIGIT, NO_DIGIT, NO_DIGIT,
    NO_DIGIT, NO_DIGIT, NO_DIGIT, NO_DIGIT, NO_DIGIT, NO_DIGIT, NO_DIGIT, NO_DIGIT, NO_DIGIT,
    NO_DIGIT, NO_DIGIT, NO_DIGIT, NO_DIGIT, NO_DIGIT, NO_DIGIT, NO_DIGIT, NO_DIGIT, NO_DIGIT,
    NO_DIGIT, NO_DIGIT, NO_DIGIT, NO_DIGIT, NO_DIGIT, NO_DIGIT, NO_DIGIT, NO_DIGIT, NO_DIGIT,
    NO_DIGIT, NO_DIGIT, NO_DIGIT, NO_DIGIT, NO_DIGIT, NO_DIGIT, NO_DIGIT, NO_DIGIT, NO_DIGIT,
    NO_DIGIT, NO_DIGIT, NO_DIGIT, NO_DIGIT, NO_DIGIT, NO_DIGIT, NO_DIGIT, NO_DIGIT, NO_DIGIT,
    NO_DIGIT, NO_DIGIT, NO_DIGIT, NO_DIGIT, NO_DIGIT, NO_DIGIT, NO_DIGIT, NO_DIGIT, NO_DIGIT,
    NO_DIGIT, NO_DIGIT, NO_DIGIT, NO_DIGIT, NO_DIGIT, NO_DIGIT, NO_DIGIT, NO_DIGIT, NO_DIGIT,
];

// and as the second one.
static LOWS: [u32; 256] = [
    NO_DIGIT, NO_DIGIT, NO_DIGIT, NO_DIGIT, NO_DIGIT, NO_DIGIT, NO_DIGIT, NO_DIGIT, NO_DIGIT,
    NO_DIGIT, NO_DIGIT, NO_DIGIT, NO_DIGIT, NO_DIGIT, NO_DIGIT, NO_DIGIT, NO_DIGIT, NO_DIGIT,
    NO_DIGIT, NO_DIGIT, NO_DIGIT, NO_DIGIT, NO_DIGIT, NO_DIGIT, NO_DIGIT, NO_DIGIT, NO_DIGIT,
    NO_DIGIT, NO_DIGIT, NO_DIGIT, NO_DIGIT, NO_DIGIT, NO_DIGIT, NO_DIGIT, NO_DIGIT, NO_DIGIT,
    NO_DIGIT, NO_DIGIT, NO_DIGIT, NO_DIGIT, NO_DIGIT, NO_DIGIT, NO_DIGIT, NO_DIGIT, NO_DIGIT,
    NO_DIGIT, NO_DIGIT, NO_DIGIT, 0, 1, 2, 3, 4, 5, 6, 7, 8, 9, NO_DIGIT, NO_DIGIT, NO_DIGIT,
    NO_DIGIT, NO_DIGIT, NO_DIGIT, NO_DIGIT, 10, 11, 12, 13, 14, 15, NO_DIGIT, NO_DIGIT, NO_DIGIT,
    NO_DIGIT, NO_DIGIT, NO_DIGIT, NO_DIGIT, NO_DIGIT, NO_DIGIT, NO_DIGIT, NO_DIGIT, NO_DIGIT,
    NO_DIGIT, NO_DIGIT, NO_DIGIT, NO_DIGIT, NO_DIGIT, NO_DIGIT, NO_DIGIT, NO_DIGIT, NO_DIGIT,
    NO_DIGIT, NO_DIGIT, NO_DIGIT, NO_DIGIT, NO_DIGIT, 10, 11, 12, 13, 14, 15, NO_DIGIT, NO_DIGIT,
    NO_DIGIT, NO_DIGIT, NO_DIGIT, NO_DIGIT, NO_DIGIT, NO_DIGIT, NO_DIGIT, NO_DIGIT, NO_DIGIT,
    NO_DIGIT, NO_DIGIT, NO_DIGIT, NO_DIGIT, NO_DIGIT, NO_DIGIT, NO_DIGIT, NO_DIGIT, NO_DIGIT,
    NO_DIGIT, NO_DIGIT, NO_DIGIT, NO_DIGIT, NO_DIGIT, NO_DIGIT, NO_DIGIT, NO_DIGIT, NO_DIGIT,
    NO_DIGIT, NO_DIGIT, NO_DIGIT, NO_DIGIT, NO_DIGIT, NO_DIGIT, NO_DIGIT, NO_DIGIT, NO_DIGIT,
    NO_DIGIT, NO_DIGIT, NO_DIGIT, NO_DIGIT, NO_DIGIT, NO_DIGIT, NO_DIGIT, NO_DIGIT, NO_DIGIT,
    NO_DIGIT, NO_DIGIT, NO_DIGIT, NO_DIGIT, NO_DIGIT, NO_DIGIT, NO_DIGIT, NO_DIGIT, NO_DIGIT,
    NO_DIGIT, NO_DIGIT, NO_DIGIT, NO_DIGIT, NO_DIGIT, NO_DIGIT, NO_DIGIT, NO_DIGIT, NO_DIGIT,
    NO_DIGIT, NO_DIGIT, NO_DIGIT, NO_DIGIT, NO_DIGIT, NO_DIGIT, NO_DIGIT, NO_DIGIT, NO_DIGIT,
    NO_DIGIT, NO_DIGIT, NO_DIGIT, NO_DIGIT, NO_DIGIT, NO_DIGIT, NO_DIGIT, NO_DIGIT, NO_DIGIT,
    NO_DIGIT, NO_DIGIT, NO_DIGIT, NO_DIGIT, NO_DIGIT, NO_DIGIT, NO_DIGIT, NO_DIGIT, NO_DIGIT,
    NO_DIGIT, NO_DIGIT, NO_DIGIT, NO_DIGIT, NO_DIGIT, NO_DIGIT, NO_DIGIT, NO_DIGIT, NO_DIGIT,
    NO_DIGIT, NO_DIGIT, NO_DIGIT, NO_DIGIT, NO_DIGIT, NO_DIGIT, NO_DIGIT, NO_DIGIT, NO_DIGIT,
    NO_DIGIT, NO_DIGIT, NO_DIGIT, NO_DIGIT, NO_DIGIT, NO_DIGIT, NO_DIGIT, NO_DIGIT, NO_DIGIT,
    NO_DIGIT, NO_DIGIT, NO_DIGIT, NO_DIGIT, NO_DIGIT, NO_DIGIT, NO_DIGIT, NO_DIGIT, NO_DIGIT,
    NO_DIGIT, NO_DIGIT, NO_DIGIT, NO_DIGIT, NO_DIGIT, NO_DIGIT, NO_DIGIT, NO_DIGIT, NO_DIGIT,
    NO_DIGIT, NO_DIGIT, NO_DIGIT, NO_DIGIT, NO_DIGIT, NO_DIGIT, NO_DIGIT, NO_DIGIT, NO_DIGIT,
    NO_DIGIT, NO_DIGIT, NO_DIGIT, NO_DIGIT, NO_DIGIT, NO_DIGIT, NO_DIGIT,
];

// Puts the bytes of the pairs at the front of a text in front of the room, up to the first that isn't two digits, and answers
// how many these are.
#[inline(always)]
pub(crate) fn read_pairs(text: &[u8], room: &mut [u8]) -> usize
    requires text { 2 * most_pairs ≤ length text.now }
    requires room { most_pairs ≤ length room.old }
    ensures read { AreRead result text.now room.new }
    ensures other { result < most_pairs → IsNoPair result text.now }
    ensures most { result ≤ most_pairs }
{
    for i in 0..FOURS {
        let read = read_four(text, 4 * i, room);
        if read < 4 {
            return 4 * i + read;
        }
    }
    MOST_PAIRS
}

// The same from this pair on, for four of them: so one test serves four.
#[inline(always)]
fn read_four(text: &[u8], at: usize, room: &mut [u8]) -> usize
    requires text { 2 * at + 8 ≤ length text.now }
    requires room { at + 4 ≤ length room.old }
    requires read { AreRead at text.now room.old }
    ensures read { AreRead (at + result) text.now room.new }
    ensures other { result < 4 → IsNoPair (at + result) text.now }
    ensures most { result ≤ 4 }
{
    if !read_pair(text, at, room) {
        return 0;
    }
    if !read_pair(text, at + 1, room) {
        return 1;
    }
    if !read_pair(text, at + 2, room) {
        return 2;
    }
    if !read_pair(text, at + 3, room) {
        return 3;
    }
    4
}

// The same for one pair, and whether it is two digits.
#[inline(always)]
fn read_pair(text: &[u8], at: usize, room: &mut [u8]) -> bool
    requires text { 2 * at + 1 < length text.now }
    requires room { at < length room.old }
    requires read { AreRead at text.now room.old }
    ensures digits { OnTrue result (AreRead (at + 1) text.now room.new) }
    ensures other { OnFalse result (IsNoPair at text.now) }
    ensures kept { OnFalse result (AreRead at text.now room.new) }
{
    let byte = byte_of(text[2 * at], text[2 * at + 1]);
    if byte >= NO_BYTE {
        return false;
    }
    room[at] = byte as u8;
    true
}

// How many pairs at the front of a text are two digits each, at most so many. Their bytes are put nowhere.
#[inline(always)]
pub(crate) fn count_pairs(text: &[u8]) -> usize
    requires { 2 * most_pairs ≤ length text.now }
    ensures digits { ArePairs result text.now }
    ensures other { result < most_pairs → IsNoPair result text.now }
    ensures most { result ≤ most_pairs }
{
    for i in 0..FOURS {
        let count = count_four(text, 4 * i);
        if count < 4 {
            return 4 * i + count;
        }
    }
    MOST_PAIRS
}

// The same from this pair on, for four of them.
#[inline(always)]
fn count_four(text: &[u8], at: usize) -> usize
    requires text { 2 * at + 8 ≤ length text.now }
    requires digits { ArePairs at text.now }
    ensures digits { ArePairs (at + result) text.now }
    ensures other { result < 4 → IsNoPair (at + result) text.now }
    ensures most { result ≤ 4 }
{
    if !is_pair(text, at) {
        return 0;
    }
    if !is_pair(text, at + 1) {
        return 1;
    }
    if !is_pair(text, at + 2) {
        return 2;
    }
    if !is_pair(text, at + 3) {
        return 3;
    }
    4
}

// Whether this pair is two digits, as those before it are.
#[inline(always)]
fn is_pair(text: &[u8], at: usize) -> bool
    requires text { 2 * at + 1 < length text.now }
    requires digits { ArePairs at text.now }
    ensures digits { OnTrue result (ArePairs (at + 1) text.now) }
    ensures other { OnFalse result (IsNoPair at text.now) }
{
    byte_of(text[2 * at], text[2 * at + 1]) < NO_BYTE
}

// The byte of two digits; at least `NO_BYTE` where one of them is none.
#[inline(always)]
pub(crate) fn byte_of(high: u8, low: u8) -> u32
    ensures digits { result < NO_BYTE → decode_of (high ∷ low ∷ []) ≡ Ok (result ∷ []) }
    ensures other { NO_BYTE ≤ result → IsNoHex (high ∷ low ∷ []) }
{
    first_of(high).wrapping_add(second_of(low))
}

#[inline(always)]
fn first_of(digit: u8) -> u32
    ensures { result ≡ high_of digit }
{
    HIGHS[digit as usize]
}

#[inline(always)]
fn second_of(digit: u8) -> u32
    ensures { result ≡ low_of digit }
{
    LOWS[digit as usize]
}
