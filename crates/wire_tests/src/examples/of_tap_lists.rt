//! `tap_lists` in use.

ghost use Rattle.std.specs.Prelude.{◌≡◌, ◌<◌, length};
ghost use Rattle.tap_lists.specs.Lists.{IsLoose};

use std::alloc::{AllocError, Global};
use std::marker::Brand;
use std::sync::ledger::{Blank, Ledger};
use std::test::Fail;
use tap_lists::{Steps, Taps, unlinks_remove};

// Takes a member away from its head, if it is under one.
fn loosen(taps: &mut Taps, member: u32)
    ensures loose { IsLoose taps.new member }
    ensures heads { length taps.new.by_head ≡ length taps.old.by_head }
    ensures members { taps.new.members ≡ taps.old.members }
{
    unlinks_remove();
    match taps.head_of(member) {
        Some(_head) => taps.unlink(member),
        None => {}
    }
}

// Puts a member first under a head, wherever it was.
fn put_under(taps: &mut Taps, head: u32, member: u32)
    requires is_head { head < length taps.old.by_head }
    requires is_member { member < taps.old.members }
    ensures heads { length taps.new.by_head ≡ length taps.old.by_head }
    ensures members { taps.new.members ≡ taps.old.members }
{
    loosen(taps, member);
    taps.link(head, member);
}

// The first members under a head, at most ten.
fn members_under<L: Ledger>(
    alloc: Global,
    taps: &Taps,
    head: u32,
    steps: &mut Steps<L>,
) -> Result<Vec<u32>, AllocError> {
    let mut members = Vec::new(alloc);
    let mut at = taps.first(head, steps);
    for _ in 0..10 {
        let Some(member) = at else {
            break;
        };
        members.push(member)?;
        at = taps.next(member, steps);
    }
    Ok(members)
}

// The same by a count of its own.
fn counted<L: Ledger>(
    alloc: Global,
    taps: &Taps,
    head: u32,
    blank: Blank,
) -> Result<Vec<u32>, AllocError>
    requires name { blank.name ≡ L.name }
    requires parts { blank.parts ≡ L.parts }
    requires some { 0 < blank.parts }
{
    let (book, share) = blank.open::<L>();
    members_under(alloc, taps, head, &mut Steps::begin(book, share))
}

#[test]
fn the_last_linked_is_first(rt: HostRuntime) -> Result<(), Fail> {
    let mut taps = Taps::new(rt.alloc(), 2, 4)?;
    put_under(&mut taps, 1, 0);
    put_under(&mut taps, 1, 3);
    put_under(&mut taps, 1, 2);
    put_under(&mut taps, 0, 3);
    assert!(rt; taps.head_of(3) == Some(0) && taps.head_of(1) == None);

    let members = counted::<Brand>(rt.alloc(), &taps, 1, Blank::new(1))?;
    assert!(rt; members.as_slice() == [2, 0].as_slice());
    Ok(())
}
