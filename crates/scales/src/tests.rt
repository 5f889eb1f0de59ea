ghost use Rattle.std.specs.Prelude.{◌≤◌};

use crate::*;
use std::process::Abort;
use writing::Text;

const LIMIT: i64 = 1_000_000_000_000;

#[test]
fn ticks_sum_up_to_the_limit(rt: HostRuntime) {
    let near = Ticks { ms: LIMIT - 1 };
    assert_eq!(rt; near.sum(Ticks::step()), Ticks { ms: LIMIT });
    assert_eq!(rt; near.opposite().sum(Ticks { ms: -1 }), Ticks { ms: -LIMIT });
    assert_eq!(rt; Ticks::zero().opposite(), Ticks { ms: 0 });
}

#[test]
fn ticks_are_ordered_by_milliseconds(rt: HostRuntime) {
    let early = Ticks { ms: -3 };
    let late = Ticks { ms: 4 };
    assert!(rt; early.not_after(late) && early.not_after(early) && !late.not_after(early));
}

#[test]
fn stepless_times_sum_up_to_the_limit(rt: HostRuntime) {
    let near = Stepless {
        ms: LIMIT - 2,
        steps: -1,
    };
    let sum = near.sum(Stepless { ms: 0, steps: 1 });
    assert_eq!(rt;
        sum,
        Stepless {
            ms: LIMIT - 2,
            steps: 0
        }
    );
    assert_eq!(rt;
        near.opposite(),
        Stepless {
            ms: 2 - LIMIT,
            steps: 1
        }
    );
}

#[test]
fn stepless_times_are_ordered_by_milliseconds_first(rt: HostRuntime) {
    let open = Stepless { ms: 3, steps: 9 };
    let next = Stepless { ms: 4, steps: -9 };
    let closed = Stepless { ms: 3, steps: 0 };
    assert!(rt; open.not_after(next) && !next.not_after(open));
    assert!(rt; closed.not_after(open) && !open.not_after(closed) && open.not_after(open));
}

#[test]
fn readings_reach_a_thousand_million_either_way(rt: HostRuntime) {
    assert_eq!(rt; Ticks::reading(1_000_000_000), Ticks { ms: 1_000_000_000 });
    assert_eq!(rt;
        Ticks::reading(-1_000_000_000),
        Ticks { ms: -1_000_000_000 }
    );
    let low = Stepless {
        ms: -1_000_000_000,
        steps: 0,
    };
    assert_eq!(rt; Stepless::reading(-1_000_000_000), low);
    assert_eq!(rt; low_start::<Stepless>().ms, -1_000_000_000);
}

#[test]
fn scales_have_codes_of_their_own(rt: HostRuntime) {
    assert_eq!(rt; Ticks::CODE, 0);
    assert_eq!(rt; Stepless::CODE, 1);
}

// Prints the time and compares the text.
fn check_printed<S: Scale>(rt: &impl Abort, time: S, printed: &[u8])
    requires { S.OrderedSums.size (S.OrderedSums.means time) ≤ 1000000000000 }
{
    let text = time.print();
    assert!(rt; text.as_slice().len() <= 32);
    assert!(rt; text.as_slice() == printed);
}

#[test]
fn ticks_print_in_decimal(rt: HostRuntime) {
    check_printed(&rt, Ticks { ms: 0 }, b"0");
    check_printed(&rt, Ticks { ms: 4 }, b"4");
    check_printed(&rt, Ticks { ms: -40 }, b"-40");
    check_printed(&rt, Ticks { ms: LIMIT }, b"1000000000000");
    check_printed(&rt, Ticks { ms: -LIMIT }, b"-1000000000000");
}

#[test]
fn stepless_times_print_their_steps_behind(rt: HostRuntime) {
    check_printed(&rt, Stepless { ms: 4, steps: 0 }, b"4");
    check_printed(&rt, Stepless { ms: 4, steps: 1 }, b"4+1");
    check_printed(&rt, Stepless { ms: 4, steps: -1 }, b"4-1");
    check_printed(&rt, Stepless { ms: -3, steps: 2 }, b"-3+2");
    check_printed(
        &rt,
        Stepless {
            ms: 0,
            steps: -LIMIT,
        },
        b"0-1000000000000",
    );
}

#[test]
fn printing_leaves_the_rest_of_the_text(rt: HostRuntime) {
    let mut text = Text::<36>::new();
    text.push_text(&[7, 7]);
    text.push_text(Ticks { ms: -12 }.print().as_slice());
    assert_eq!(rt; text.as_slice().len(), 5);
    text.push_byte(7);
    assert!(rt; text.as_slice() == b"\x07\x07-12\x07".as_slice());
}
