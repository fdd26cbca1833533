//! Lists that grow, on one thread and under a lock, and fronts of them.
ghost use Rattle.std.specs.Prelude.{◌≡◌, ◌+◌, ◌<◌};

use crate::tests::numbers::{Counter, Number};
use seen_lists::{Front, ListName, NewList};
use std::marker::Brand;
use std::process::Abort;
use std::sync::{Mutex, Wait};
use std::test::Fail;
use std::thread::{Threads, join};

/// Whether a front is as late as the list after a push, before it learns of that and then.
fn learn<L: ListName<Number>>(counter: &mut Counter<L>) -> (bool, bool)
    requires { counter.old < 9 }
    ensures { counter.new ≡ counter.old + 1 }
{
    let mut front = counter.list().front();
    counter.push();
    let whole = counter.list().front();
    let before = front.reaches(&whole);
    front.learn(&whole);
    (before, front.reaches(&whole))
}

/// How many items a list has after a push, and whether a front of it that is told is as late.
fn tell<L: ListName<Number>>(counter: &mut Counter<L>) -> (u64, bool)
    requires { counter.old < 9 }
    ensures { counter.new ≡ counter.old + 1 }
{
    let mut front = counter.list().front();
    counter.push();
    counter.tell(&mut front);
    let list = counter.list();
    (list.len(), front.reaches(&list.front()))
}

/// Whether a front goes over to an older one, and an older one to it.
fn follow<L: ListName<Number>>(counter: &mut Counter<L>) -> (bool, bool)
    requires { counter.old < 9 }
    ensures { counter.new ≡ counter.old + 1 }
{
    let mut old = counter.list().front();
    counter.push();
    let mut new = counter.list().front();
    (new.follow(&old), old.follow(&new))
}

fn grow<L: ListName<Number>>(rt: &impl Abort, new: NewList<Number>) -> Result<(), Fail>
    requires book { new ≡ L.book }
    requires found { L.found ≡ 0 }
{
    let mut counter = Counter::<L>::of(new);
    assert_eq!(rt; learn(&mut counter), (false, true));
    assert_eq!(rt; tell(&mut counter), (2, true));
    assert_eq!(rt; follow(&mut counter), (false, true));
    Ok(())
}

#[test]
fn fronts_grow_and_do_not_go_back(rt: HostRuntime) -> Result<(), Fail> {
    grow::<Brand>(&rt, NewList::new(&rt))
}

/// Pushes an item under the lock, and takes the front that has it.
fn push<L: ListName<Number>, R: Wait>(
    rt: &R,
    counter: &Mutex<Counter<L>>,
) -> Option<Front<Number, L>> {
    let mut counter = counter.lock(rt);
    if counter.list().len() > 7 {
        return None;
    }
    counter.push();
    Some(counter.list().front())
}

/// Whether just one of the two is as late as the other, and whether the first is once it learns of the other.
fn learn_both<L: ListName<Number>>(
    one: Option<Front<Number, L>>,
    other: Option<Front<Number, L>>,
) -> Option<(bool, bool)> {
    let mut one = one?;
    let other = other?;
    let apart = one.reaches(&other) != other.reaches(&one);
    one.learn(&other);
    Some((apart, one.reaches(&other)))
}

/// Two threads push an item each.
fn push_both<L: ListName<Number> + Send + Sync, R: Threads + Wait + Abort + Sync>(
    rt: &R,
    new: NewList<Number>,
) -> Result<(), Fail>
    requires book { new ≡ L.book }
    requires found { L.found ≡ 0 }
{
    let counter = Mutex::new(Counter::<L>::of(new));
    let (one, other) = join(rt, || push(rt, &counter), || push(rt, &counter));
    assert_eq!(rt; learn_both(one, other), Some((true, true)));
    Ok(())
}

#[test]
fn threads_push_to_one_list(rt: HostRuntime) -> Result<(), Fail> {
    push_both::<Brand, _>(&rt, NewList::new(&rt))
}
