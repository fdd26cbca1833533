//! What is shown of a list, and visitors who look at it.
ghost use Rattle.std.specs.Prelude.{◌≡◌, [], IfOk, OnOk, length};
ghost use Rattle.left_right.specs.Handles.{pending, published};

use crate::tests::numbers::{Number, push_next};
use left_right::WriteHandle;
use seen_lists::{
    ListName, Listed, LookFault, NewList, Owners, Publisher, Receipt, SeenList, Shown, Visitor,
};
use std::alloc::{AllocError, Global};
use std::marker::Brand;
use std::process::Abort;
use std::sync::{Arc, Wait};
use std::test::Fail;

/// A snapshot: the items.
#[derive(Drop)]
struct Items {
    items: Vec<u64>,
}

/// It is of a list's first pushes: as many as it has items.
impl Listed<Number> for Items {
    ghost use Rattle.std.specs.Prelude.{length};

    ghost item = { λ s. length s.items.items };
}

/// The receipt of no items.
fn none<L: ListName<Number>>(
    alloc: Global,
    list: &SeenList<Number, L>,
) -> Result<Receipt<Number, L, Items>, AllocError>
    requires { list.now.now ≡ 0 }
    ensures { IfOk result (λ receipt. receipt ≡ 0) }
{
    let items = Items {
        items: Vec::new(alloc),
    };
    Ok(Receipt::of(Arc::new(alloc, items)?, list.front()))
}

/// Shows a receipt, to three visitors. It is shown twice, so that there is room for what is shown later.
fn shown<L: ListName<Number>, R: Wait + Drop>(
    alloc: Global,
    rt: R,
    receipt: &Receipt<Number, L, Items>,
) -> Result<WriteHandle<Shown<Number, L, Items>, Receipt<Number, L, Items>, R>, AllocError>
    ensures shown { IfOk result (λ handle. published handle ≡ receipt.now) }
    ensures none { IfOk result (λ handle. pending handle ≡ []) }
{
    let mut handle = WriteHandle::new(
        alloc,
        rt,
        Shown::of(receipt.again()?),
        Shown::of(receipt.again()?),
        3,
    )?;
    handle.append(receipt.again()?).map_err(|_| AllocError)?;
    handle.publish()?;
    Ok(handle)
}

/// The owners of the snapshot of these items.
fn owners(alloc: Global, items: &[u64]) -> Result<Owners<Number, Items>, AllocError>
    ensures { IfOk result (λ owners. owners ≡ length items.now) }
{
    let items = Items {
        items: Vec::from_slice(alloc, items)?,
    };
    Owners::of(&Arc::new(alloc, items)?)
}

/// What a visitor sees.
fn seen<L: ListName<Number>>(
    rt: &impl Abort,
    visitor: &mut Visitor<Number, L, Items>,
    items: &[u64],
) -> Result<(), Fail> {
    let snap = visitor.look()?;
    assert_eq!(rt; snap.items.as_slice(), items);
    Ok(())
}

/// A list with what is shown of it.
type Publishes<L, R> = Publisher<Number, L, Items, Shown<Number, L, Items>, R>;

/// The list, where it is shown.
fn publisher<L: ListName<Number>, R: Wait + Drop>(
    list: SeenList<Number, L>,
    last: Receipt<Number, L, Items>,
    handle: WriteHandle<Shown<Number, L, Items>, Receipt<Number, L, Items>, R>,
) -> Publishes<L, R>
    requires last { last ≡ list.now }
    requires shown { published handle ≡ list.now }
    requires none { pending handle ≡ [] }
    ensures { result ≡ list }
{
    Publisher::of(&mut Some(list), &mut Some(last), &mut Some(handle))
}

/// A visitor that knows a receipt.
fn visitor<L: ListName<Number>, R: Wait + Drop>(
    handle: &WriteHandle<Shown<Number, L, Items>, Receipt<Number, L, Items>, R>,
    last: &Receipt<Number, L, Items>,
) -> Result<Visitor<Number, L, Items>, AllocError> {
    Ok(Visitor::of(handle.handle()?, last.again()?))
}

/// Two visitors.
type Both<L> = (Visitor<Number, L, Items>, Visitor<Number, L, Items>);

/// A list that is shown while it is empty, and two visitors.
fn shown_empty<L: ListName<Number>, R: Wait + Drop>(
    alloc: Global,
    rt: R,
    list: SeenList<Number, L>,
) -> Result<(Publishes<L, R>, Both<L>), AllocError>
    requires { list ≡ record { times = 0; now = 0 } }
    ensures { IfOk result (λ opened. opened.0 ≡ record { times = 0; now = 0 }) }
{
    let first = none(alloc, &list)?;
    let handle = shown(alloc, rt, &first)?;
    let both = (visitor(&handle, &first)?, visitor(&handle, &first)?);
    Ok((publisher(list, first, handle), both))
}

/// The visitor looks before and after a push.
fn look<L: ListName<Number>, R: Wait + Drop, W: Wait + Abort>(
    rt: &W,
    alloc: Global,
    publisher: &mut Publishes<L, R>,
    visitor: &mut Visitor<Number, L, Items>,
) -> Result<(), Fail>
    requires { publisher.old ≡ record { times = 0; now = 0 } }
    ensures { OnOk result (publisher.new ≡ record { times = 1; now = 1 }) }
{
    seen(rt, visitor, &[])?;
    publisher.push(rt, &Number::of(1), owners(alloc, &[7])?);
    seen(rt, visitor, &[7])
}

/// The visitor learns of a push.
fn learn<L: ListName<Number>, R: Wait + Drop, W: Wait + Abort>(
    rt: &W,
    alloc: Global,
    publisher: &mut Publishes<L, R>,
    visitor: &mut Visitor<Number, L, Items>,
) -> Result<(), Fail>
    requires { publisher.old ≡ record { times = 1; now = 1 } }
{
    visitor.learn(publisher.push(rt, &Number::of(2), owners(alloc, &[7, 8])?));
    seen(rt, visitor, &[7, 8])
}

/// A visitor that looked at nothing learns the front of one that has, and sees what that saw.
fn hand_over<L: ListName<Number>>(
    rt: &impl Abort,
    visitor: &Visitor<Number, L, Items>,
    late: &mut Visitor<Number, L, Items>,
) -> Result<(), Fail> {
    late.learn_front(&visitor.front());
    assert!(rt; late.front().reaches(&visitor.front()));
    seen(rt, late, &[7, 8])
}

fn open<L: ListName<Number>, R: Wait + Abort>(
    rt: &R,
    alloc: Global,
    new: NewList<Number>,
) -> Result<(), Fail>
    requires book { new ≡ L.book }
    requires found { L.found ≡ 0 }
{
    let (mut publisher, (mut visitor, mut late)) = shown_empty(alloc, rt, new.named::<L>())?;
    look(rt, alloc, &mut publisher, &mut visitor)?;
    learn(rt, alloc, &mut publisher, &mut visitor)?;
    hand_over(rt, &visitor, &mut late)
}

#[test]
fn visitors_see_what_is_shown(rt: HostRuntime) -> Result<(), Fail> {
    open::<Brand, _>(&rt, rt.alloc(), NewList::new(&rt))
}

/// A visitor learns a front that is not shown.
fn learn_unshown<L: ListName<Number>, R: Wait + Abort>(
    rt: &R,
    alloc: Global,
    new: NewList<Number>,
) -> Result<(), Fail>
    requires book { new ≡ L.book }
    requires found { L.found ≡ 0 }
{
    let mut list = new.named::<L>();
    let first = none(alloc, &list)?;
    let handle = shown(alloc, rt, &first)?;
    let mut visitor = visitor(&handle, &first)?;
    push_next(&mut list);
    visitor.learn_front(&list.front());
    assert_eq!(rt; visitor.look().err(), Some(LookFault::Behind));
    Ok(())
}

#[test]
fn a_front_that_is_not_shown_is_not_seen(rt: HostRuntime) -> Result<(), Fail> {
    learn_unshown::<Brand, _>(&rt, rt.alloc(), NewList::new(&rt))
}
