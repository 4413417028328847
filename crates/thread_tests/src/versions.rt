//! What a watch sees of a filing that is taken and of one that is refused, and once its clerk has ended.
ghost use Rattle.std.specs.Prelude.{◌≡◌};
ghost use Rattle.fare_versions.specs.Seen.{HasSeen};

use crate::books::{file, key_out, put_at};
use crate::cases::{Case, house};
use crate::filings::NO_FARE;
use fare_law::{Action, Mem};
use fare_versions::{Clerk, FileFault, Watch};
use std::alloc::Global;
use std::sync::Wait;
use std::test::Fail;

/// The number of the version that the watch sees.
fn look(watch: &mut Watch) -> Result<u32, Mem>
    ensures { watch.new.house ≡ watch.old.house }
{
    Ok(watch.look()?.number())
}

/// The versions that the watch sees at first, after a filing and once it has learnt its receipt, the greatest version that it knows of
/// by then, and the version of the receipt.
fn seen<R: Wait>(
    rt: &R,
    alloc: Global,
    clerk: &mut Clerk,
    watch: &mut Watch,
) -> Result<[u32; 5], Fail>
    requires { watch.old.house ≡ clerk.old.house }
    ensures { watch.new.house ≡ clerk.new.house }
{
    let first = look(watch)?;
    let filed = file(rt, alloc, clerk, put_at(key_out(b'Y'), 20000))?.number();
    let second = look(watch)?;
    watch.learn(&clerk.tell());
    let third = look(watch)?;
    Ok([first, second, third, watch.seen(), filed])
}

/// Why a fare isn't dropped that isn't there, and then the clerk's version, by its receipt and by its book.
fn refused<R: Wait>(rt: &R, alloc: Global, clerk: &mut Clerk) -> (Option<FileFault>, [u32; 2])
    ensures { clerk.new.house ≡ clerk.old.house }
{
    let fault = file(rt, alloc, clerk, Action::DropFare(key_out(b'B'))).err();
    (fault, [clerk.tell().number(), clerk.book().number()])
}

/// What is told of a filing that is taken, of one that is refused, and of what the watch sees and knows once the clerk has ended.
type Told = (
    [u32; 5],
    (Option<FileFault>, [u32; 2]),
    (Result<u32, Mem>, u32),
);

fn outlive<R: Wait>(rt: &R, alloc: Global, clerk: Clerk, watch: Watch) -> Result<Told, Fail>
    requires { HasSeen clerk watch }
{
    let mut clerk = clerk;
    let mut watch = watch;
    let seen = seen(rt, alloc, &mut clerk, &mut watch);
    let refused = refused(rt, alloc, &mut clerk);
    let receipt = clerk.tell();
    clerk.end(rt);
    watch.learn(&receipt);
    let after = look(&mut watch);
    Ok((seen?, refused, (after, watch.seen())))
}

/// The same in a house of two watches.
fn publish<R: Wait>(rt: &R, alloc: Global) -> Result<Told, Fail> {
    let (clerk, watch, _other) = house(rt, alloc, &Case::NoFare)?;
    outlive(rt, alloc, clerk, watch)
}

/// A watch sees what its clerk files, and lives on when the clerk has ended. It sees nothing any more, but knows what it saw.
#[test]
fn publishes_what_is_filed(rt: HostRuntime) -> Result<(), Fail> {
    let refused = (Some(FileFault::Refused(NO_FARE)), [1, 1]);
    let told = ([0, 1, 1, 1, 1], refused, (Err(Mem), 1));
    assert!(rt; publish(&rt, rt.alloc())? == told);
    Ok(())
}
