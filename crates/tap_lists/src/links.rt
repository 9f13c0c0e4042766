//! The links of lists: for each head its first member, for each member its head and its neighbours.

ghost use Rattle.std.specs.Prelude.{◌≡◌, ◌+◌, ◌<◌, ℕ, length};
ghost use Rattle.tap_lists.specs.ListsInside.{value_at, put_at, head_led, IsWithin, IsHeld};
ghost use Rattle.tap_lists.specs.ListsInside.{walked, put_first, taken_out};

use crate::steps::Steps;
use std::sync::ledger::Ledger;

/// The value at an index, `None` also past the end.
pub(crate) fn value_at(values: &[Option<u32>], index: u32) -> Option<u32>
    ensures { result ≡ value_at values.now index }
{
    values.get(index as usize).copied().flatten()
}

/// The same, counted as one read.
pub(crate) fn read<L: Ledger>(
    values: &[Option<u32>],
    index: u32,
    steps: &mut Steps<L>,
) -> Option<u32>
    ensures value { result ≡ value_at values.now index }
    ensures counted { steps.new ≡ steps.old + 1 }
{
    steps.tick();
    value_at(values, index)
}

/// Puts a member that is in no list first in the list of a head.
pub(crate) fn put_first(
    firsts: &mut [Option<u32>],
    heads: &mut [Option<u32>],
    afters: &mut [Option<u32>],
    befores: &mut [Option<u32>],
    head: u32,
    member: u32,
)
    requires held { IsHeld firsts.old heads.old afters.old befores.old }
    requires is_head { head < length firsts.old }
    requires is_member { member < length heads.old }
    requires is_loose { value_at heads.old member ≡ None }
    ensures held { IsHeld firsts.new heads.new afters.new befores.new }
    ensures lists { walked firsts.new afters.new
        ≡ put_first (walked firsts.old afters.old) head member }
{
    let second = value_at(firsts, head);
    put(befores, second, Some(member));
    put(befores, Some(member), None);
    put(afters, Some(member), second);
    put(firsts, Some(head), Some(member));
    put(heads, Some(member), Some(head));
}

/// Takes a member out of the list in which it is.
pub(crate) fn take_out(
    firsts: &mut [Option<u32>],
    heads: &mut [Option<u32>],
    afters: &mut [Option<u32>],
    befores: &mut [Option<u32>],
    member: u32,
)
    requires held { IsHeld firsts.old heads.old afters.old befores.old }
    requires is_linked { (head : ℕ) × (value_at heads.old member ≡ Some head) }
    ensures held { IsHeld firsts.new heads.new afters.new befores.new }
    ensures lists { walked firsts.new afters.new
        ≡ taken_out (walked firsts.old afters.old) member }
{
    let head = value_at(heads, member);
    let before = value_at(befores, member);
    let after = value_at(afters, member);
    put(firsts, head_led(before, head), after);
    put(heads, Some(member), None);
    put(afters, before, after);
    put(afters, Some(member), None);
    put(befores, after, before);
}

// Gives the place at an index a value, if there is an index.
fn put(values: &mut [Option<u32>], index: Option<u32>, value: Option<u32>)
    requires { IsWithin values.old index }
    ensures { values.new ≡ put_at values.old index value }
{
    if let Some(index) = index {
        values[index as usize] = value;
    }
}

// The head of a member that nothing stands before, `None` for any other member.
fn head_led(before: Option<u32>, head: Option<u32>) -> Option<u32>
    ensures { result ≡ head_led before head }
{
    if before.is_none() { head } else { None }
}
