use narrowing::narrow;
use orders::{Order, Table};
use records::{NarrowingFault, Record, Window};
use std::alloc::Global;
use std::process::Abort;
use std::test::Fail;

// Orders and bare windows with the same windows are narrowed alike, with the same marks, and the orders keep the rest.
fn alike(
    rt: &impl Abort,
    heap: Global,
    pairs: &[(u16, u16)],
    windows: &[Window],
    expected: Result<(), NarrowingFault>,
) -> Result<(), Fail> {
    let mut bare = windows.to_vec(heap)?;
    let mut orders = Vec::new(heap);
    for each in windows {
        orders.push(Order::new(each.last, *each))?;
    }
    let mut marks = vec![in heap; 7u8; pairs.len()]?;
    let mut same = vec![in heap; 7u8; pairs.len()]?;
    assert_eq!(rt; narrow(10, pairs, &mut bare, &mut marks), expected);
    assert_eq!(rt; narrow(10, pairs, &mut orders, &mut same), expected);
    assert_eq!(rt; &marks, &same);
    for ((order, told), asked) in orders.iter().zip(bare.iter()).zip(windows.iter()) {
        assert_eq!(rt; order.window(), told.window());
        assert_eq!(rt; order.asked, *asked);
        assert_eq!(rt; order.number, asked.last);
    }
    Ok(())
}

#[test]
fn orders_are_narrowed_as_windows(rt: HostRuntime) -> Result<(), Fail> {
    let heap = rt.alloc();
    let one_a_day = [(0, 1), (0, 1), (0, 1)];
    let three = [
        Window::from((10, 12)),
        Window::from((10, 10)),
        Window::from((11, 12)),
    ];
    alike(&rt, heap, &one_a_day, &three, Ok(()))?;
    alike(
        &rt,
        heap,
        &[(1, 1), (1, 2)],
        &[Window::from((10, 11)), Window::from((10, 11))],
        Ok(()),
    )?;
    alike(
        &rt,
        heap,
        &one_a_day,
        &[
            Window::from((10, 10)),
            Window::from((10, 12)),
            Window::from((10, 10)),
        ],
        Err(NarrowingFault::Overfull {
            windows: 2,
            mosts: 1,
        }),
    )
}

#[test]
fn a_table_holds_512_orders(rt: HostRuntime) {
    let mut table = Table::empty();
    for number in 0..512 {
        assert_eq!(rt;
            table.enter(number, Window::from((3, 4))),
            Some(usize::from(number))
        );
    }
    assert_eq!(rt; table.len(), 512);
    assert_eq!(rt; table.enter(512, Window::from((3, 4))), None);
    assert_eq!(rt; table.len(), 512);
    assert_eq!(rt; table.find(511), Some(511));
    assert_eq!(rt; table.find(512), None);
    table.remove(0);
    assert_eq!(rt; table.enter(512, Window::from((3, 4))), Some(511));
    assert_eq!(rt; table.find(1), Some(0));
    assert_eq!(rt; table.find(512), Some(511));
}

#[test]
fn orders_stand_by_number(rt: HostRuntime) {
    let mut table = Table::empty();
    assert_eq!(rt; table.enter(7, Window::from((1, 2))), Some(0));
    assert_eq!(rt; table.enter(3, Window::from((2, 2))), Some(0));
    assert_eq!(rt; table.enter(5, Window::from((0, 2))), Some(1));
    assert_eq!(rt; table.find(5), Some(1));
    assert_eq!(rt; table.told(5), Some((0, 2)));
    table.change(5, Window::from((1, 1)));
    table.begin_at(0);
    assert_eq!(rt; table.told(5), Some((1, 1)));
    table.begin_at(2);
    assert_eq!(rt; table.told(5), Some((2, 1)));
    assert_eq!(rt; table.told(7), Some((2, 2)));
    table.remove(3);
    assert_eq!(rt; table.find(7), Some(1));
    assert_eq!(rt; table.told(3), None);
}

#[test]
fn orders_are_let_out_into_enough_room(rt: HostRuntime) -> Result<(), Fail> {
    let mut table = Table::empty();
    for number in [4, 6, 9] {
        assert!(rt; table.enter(number, Window::from((0, 1))).is_some());
    }
    let days = table.plan(0, &[(0, 2), (0, 2)])?.ok_or("no plan")?;
    assert_eq!(rt; table.let_out(0, days.as_slice(), &mut [8, 8]), None);
    assert_eq!(rt; table.len(), 3);
    let mut list = [8; 4];
    assert_eq!(rt; table.let_out(0, days.as_slice(), &mut list), Some(2));
    assert_eq!(rt; list, [4, 6, 8, 8]);
    assert_eq!(rt; table.len(), 1);
    assert_eq!(rt; table.find(9), Some(0));
    Ok(())
}
