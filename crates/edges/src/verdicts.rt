use narrowing::verdict;
use records::{NarrowingFault, Window};
use std::alloc::Global;
use std::process::Abort;
use std::test::Fail;

// Days that all have one pair, from the first on, and how many marks there are.
#[derive(Clone, Copy)]
struct Days {
    first: u16,
    count: usize,
    pair: (u16, u16),
    marks: usize,
}

// The verdict on records over such days is the one expected.
fn gives(
    rt: &impl Abort,
    heap: Global,
    days: Days,
    records: &[Window],
    expected: Result<(), NarrowingFault>,
) -> Result<(), Fail> {
    let pairs = vec![in heap; days.pair; days.count]?;
    let mut marks = vec![in heap; 7u8; days.marks]?;
    assert_eq!(rt; verdict(days.first, &pairs, records, &mut marks), expected);
    Ok(())
}

// As many days as marks.
fn alike(first: u16, count: usize, pair: (u16, u16)) -> Days {
    Days {
        first,
        count,
        pair,
        marks: count,
    }
}

#[test]
fn days_are_1_to_128(rt: HostRuntime) -> Result<(), Fail> {
    let heap = rt.alloc();
    gives(
        &rt,
        heap,
        alike(0, 0, (0, 1)),
        &[],
        Err(NarrowingFault::BadRange),
    )?;
    gives(&rt, heap, alike(0, 1, (0, 1)), &[], Ok(()))?;
    gives(&rt, heap, alike(0, 128, (0, 1)), &[], Ok(()))?;
    gives(
        &rt,
        heap,
        alike(0, 129, (0, 1)),
        &[],
        Err(NarrowingFault::BadRange),
    )?;
    gives(&rt, heap, alike(65408, 128, (0, 1)), &[], Ok(()))?;
    gives(
        &rt,
        heap,
        alike(65409, 128, (0, 1)),
        &[],
        Err(NarrowingFault::BadRange),
    )?;
    gives(&rt, heap, alike(65535, 1, (0, 1)), &[], Ok(()))
}

#[test]
fn each_day_has_a_mark(rt: HostRuntime) -> Result<(), Fail> {
    let heap = rt.alloc();
    let mut short = alike(0, 56, (0, 1));
    short.marks = 55;
    gives(&rt, heap, short, &[], Err(NarrowingFault::BadRange))?;
    short.marks = 56;
    gives(&rt, heap, short, &[], Ok(()))?;
    short.marks = 57;
    gives(&rt, heap, short, &[], Ok(()))
}

#[test]
fn a_bad_pair_is_told_by_its_day(rt: HostRuntime) -> Result<(), Fail> {
    let heap = rt.alloc();
    gives(&rt, heap, alike(10, 2, (0, 512)), &[], Ok(()))?;
    gives(
        &rt,
        heap,
        alike(10, 2, (0, 513)),
        &[],
        Err(NarrowingFault::BadPair(10)),
    )?;
    gives(
        &rt,
        heap,
        alike(10, 2, (2, 1)),
        &[],
        Err(NarrowingFault::BadPair(10)),
    )?;
    let mut marks = [7u8; 2];
    assert_eq!(rt;
        verdict::<Window>(10, &[(1, 1), (2, 1)], &[], &mut marks),
        Err(NarrowingFault::BadPair(11))
    );
    assert_eq!(rt; marks, [7, 7]);
    Ok(())
}

#[test]
fn records_are_at_most_512(rt: HostRuntime) -> Result<(), Fail> {
    let heap = rt.alloc();
    let mut records = vec![in heap; Window::from((3, 3)); 512]?;
    gives(&rt, heap, alike(3, 1, (512, 512)), &records, Ok(()))?;
    records.push(Window::from((9, 3)))?;
    gives(
        &rt,
        heap,
        alike(3, 1, (0, 512)),
        &records,
        Err(NarrowingFault::TooManyRecords),
    )?;
    gives(
        &rt,
        heap,
        alike(3, 1, (0, 513)),
        &records,
        Err(NarrowingFault::BadPair(3)),
    )
}

#[test]
fn windows_lie_within_the_days(rt: HostRuntime) -> Result<(), Fail> {
    let heap = rt.alloc();
    let all = Window::from((5, 7));
    gives(&rt, heap, alike(5, 3, (0, 2)), &[all, all], Ok(()))?;
    gives(
        &rt,
        heap,
        alike(5, 3, (0, 2)),
        &[all, Window::from((4, 7))],
        Err(NarrowingFault::BadWindow(1)),
    )?;
    gives(
        &rt,
        heap,
        alike(5, 3, (0, 2)),
        &[all, Window::from((5, 8))],
        Err(NarrowingFault::BadWindow(1)),
    )?;
    gives(
        &rt,
        heap,
        alike(5, 3, (0, 2)),
        &[Window::from((6, 5)), all],
        Err(NarrowingFault::BadWindow(0)),
    )?;
    gives(
        &rt,
        heap,
        alike(5, 3, (0, 2)),
        &[all, all, Window::from((7, 7))],
        Ok(()),
    )
}

#[test]
fn a_shortage_marks_its_days(rt: HostRuntime) {
    let mut marks = [7u8; 4];
    let crowd = [
        Window::from((10, 11)),
        Window::from((11, 11)),
        Window::from((11, 11)),
    ];
    assert_eq!(rt;
        verdict(10, &[(0, 1), (0, 1), (0, 9)], &crowd, &mut marks),
        Err(NarrowingFault::Overfull {
            windows: 2,
            mosts: 1,
        })
    );
    assert_eq!(rt; marks, [0, 1, 0, 7]);
    let few = [
        Window::from((10, 12)),
        Window::from((11, 11)),
        Window::from((11, 11)),
    ];
    assert_eq!(rt;
        verdict(10, &[(1, 3), (0, 3), (1, 3)], &few, &mut marks),
        Err(NarrowingFault::Short {
            windows: 1,
            fewests: 2,
        })
    );
    assert_eq!(rt; marks, [1, 0, 1, 7]);
}
