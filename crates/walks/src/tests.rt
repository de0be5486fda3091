//! Weights at the edges of their range, and small tables.
use crate::closure::best_walks;
use crate::minutes::Minutes;
use crate::plain_wait::PlainWait;
use crate::target::best_walks_to;
use crate::weight::Weight;

#[test]
fn numbers_are_present(rt: HostRuntime) {
    assert_eq!(rt; Minutes::of(i16::MAX).get(), Some(32_767));
    assert_eq!(rt; Minutes::of(i16::MIN).get(), Some(-32_768));
    assert_eq!(rt; Minutes::absent().get(), None);
}

#[test]
fn absent_takes_over_sums_and_loses_choices(rt: HostRuntime) {
    let five = Minutes::of(5);
    let absent = Minutes::absent();
    assert!(rt; five.join(absent).is_absent());
    assert!(rt; absent.join(five).is_absent());
    assert_eq!(rt; five.choose(absent).get(), Some(5));
    assert_eq!(rt; absent.choose(five).get(), Some(5));
}

#[test]
fn the_longest_walks_reach_the_limit(rt: HostRuntime) {
    let edges = [[Minutes::of(i16::MIN)]];
    let mut out = edges;
    let mut scratch = edges;
    best_walks(&edges, &mut out, &mut scratch, 1, 15);
    assert_eq!(rt; out[0][0].get(), Some(-1_073_741_824));
}

#[test]
fn a_wait_comes_last(rt: HostRuntime) {
    let none = Minutes::absent();
    let plain = PlainWait {
        plain: Minutes::of(3),
        wait: none,
    };
    let wait = PlainWait {
        plain: none,
        wait: Minutes::of(-9),
    };
    let mut out = [PlainWait::absent(), PlainWait::absent()];
    best_walks_to(
        &[
            [PlainWait::absent(), plain],
            [PlainWait::absent(), PlainWait::absent()],
        ],
        &[PlainWait::absent(), wait],
        &mut out,
        2,
        2,
    );
    assert_eq!(rt; out[0].wait.get(), Some(-6));
    assert_eq!(rt; out[1].wait.get(), Some(-9));
    assert_eq!(rt; out[0].plain.get(), None);
}
