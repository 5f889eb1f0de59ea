ghost use Rattle.std.specs.Prelude.{◌≡◌, ◌<◌, ◌≤◌, length, IfSome};
ghost use Rattle.std.specs.List.{AllByRecursion};
ghost use Rattle.std.proofs.Props.{props};
ghost use Rattle.bounds.specs.Bounds.{largest};

use crate::*;
use scales::{OrderedSums, Scale, Stepless, Ticks, low_start};
use std::process::Abort;
use std::test::Fail;

const LOW: i64 = -1_000_000_000;

// The weights that the tests use, and their places.
const TICKS: [Ticks; 4] = [
    Ticks { ms: 0 },
    Ticks { ms: 1 },
    Ticks { ms: 4 },
    Ticks { ms: 5 },
];

const STEPLESS: [Stepless; 4] = [
    Stepless { ms: 0, steps: 0 },
    Stepless { ms: 0, steps: 1 },
    Stepless { ms: 4, steps: 0 },
    Stepless { ms: 5, steps: 0 },
];

const ZERO: u16 = 0;

const STEP: u16 = 1;

const FOUR: u16 = 2;

const FIVE: u16 = 3;

// A row of weights, none of which is too large.
#[derive(Drop)]
struct Weights<'a, S: OrderedSums> {
    row: &'a [S],
    ghost light: { AllByRecursion (λ w. S.OrderedSums.size (S.OrderedSums.means w) ≤ largest) row.now } by { Prim.hlevel props },
}

// The system of the edges, where each stands among so many devices and the origin, with its weight in the row.
fn system<'e, 'w, S: OrderedSums>(
    devices: usize,
    edges: &'e [Edge],
    weights: &Weights<'w, S>,
) -> Option<System<'e, 'w, S>>
    requires { devices ≤ 200 }
    ensures { IfSome result (λ s. s.devices ≡ devices) }
{
    for edge in edges {
        if edge.at as usize > devices
            || edge.from as usize > devices
            || edge.weight as usize >= weights.row.len()
        {
            return None;
        }
    }
    Some(System {
        devices,
        edges,
        weights: weights.row,
    })
}

// `at` is not before `from` and the weight together.
fn above(at: u8, from: u8, weight: u16) -> Edge {
    Edge {
        at,
        from,
        weight,
        opposed: false,
    }
}

// `from` is not after `at` and the weight together.
fn below(from: u8, at: u8, weight: u16) -> Edge {
    Edge {
        at,
        from,
        weight,
        opposed: true,
    }
}

// Least times from a low start.
fn find<S: Scale>(
    rt: &impl Abort,
    edges: &[Edge],
    weights: &Weights<'_, S>,
    times: &mut [S],
    spare: &mut [S],
) -> Result<bool, Fail>
    requires some { (0 < length times.old) × (length times.old ≤ 201) }
    requires rows { length spare.old ≡ length times.old }
{
    let devices = times.len() - 1;
    let Some(system) = system(devices, edges, weights) else {
        return Err(Fail::new("an edge does not fit"));
    };
    Ok(system.least_times(low_start(), times, spare).is_ok())
}

#[test]
fn a_device_with_no_bounds_stays_at_the_start(rt: HostRuntime) -> Result<(), Fail> {
    let mut times = [Ticks { ms: 7 }; 2];
    assert!(rt;
        find(
            &rt,
            &[],
            &Weights { row: &TICKS },
            &mut times,
            &mut [Ticks { ms: 7 }; 2]
        )?
    );
    assert!(rt; times[0].ms == LOW && times[1].ms == 0);
    Ok(())
}

// Whether two values mean one time.
fn alike<S: OrderedSums>(one: S, other: S) -> bool {
    one.not_after(other) && other.not_after(one)
}

// Checks that one device with no bounds stays at the start, and the origin at zero.
fn check_alone<S: Scale>(
    rt: &impl Abort,
    weights: &Weights<'_, S>,
    times: &mut [S],
    spare: &mut [S],
) -> Result<(), Fail>
    requires rows { (length times.old ≡ 2) × (length spare.old ≡ 2) }
{
    assert!(rt; find(rt, &[], weights, times, spare)?);
    assert!(rt; alike(times[0], S::reading(-1_000_000_000)) && alike(times[1], S::zero()));
    Ok(())
}

#[test]
fn with_no_bounds_ticks_stay_at_the_start(rt: HostRuntime) -> Result<(), Fail> {
    check_alone(
        &rt,
        &Weights { row: &TICKS },
        &mut [Ticks { ms: 7 }; 2],
        &mut [Ticks { ms: 7 }; 2],
    )
}

#[test]
fn with_no_bounds_stepless_times_stay_at_the_start(rt: HostRuntime) -> Result<(), Fail> {
    check_alone(
        &rt,
        &Weights { row: &STEPLESS },
        &mut [Stepless { ms: 7, steps: 7 }; 2],
        &mut [Stepless { ms: 7, steps: 7 }; 2],
    )
}

// The first of 200 devices is not before the origin, and each other is a step after the one before. Devices go by numbers, which the
// loop counts.
fn chain() -> [Edge; 200] {
    let mut edges = [above(0, 200, ZERO); 200];
    for device in 1..200u8 {
        edges[device as usize] = above(device, device - 1, STEP);
    }
    edges
}

#[test]
fn a_chain_of_ticks_rises_step_by_step(rt: HostRuntime) -> Result<(), Fail> {
    let mut times = [Ticks { ms: 7 }; 201];
    assert!(rt;
        find(
            &rt,
            &chain(),
            &Weights { row: &TICKS },
            &mut times,
            &mut [Ticks { ms: 7 }; 201]
        )?
    );
    assert!(rt;
        times[0].ms == 0 && times[100].ms == 100 && times[199].ms == 199 && times[200].ms == 0
    );
    Ok(())
}

#[test]
fn a_chain_of_stepless_times_rises_step_by_step(rt: HostRuntime) -> Result<(), Fail> {
    let mut times = [Stepless { ms: 7, steps: 7 }; 201];
    assert!(rt;
        find(
            &rt,
            &chain(),
            &Weights { row: &STEPLESS },
            &mut times,
            &mut [Stepless { ms: 7, steps: 7 }; 201],
        )?
    );
    assert!(rt;
        times[0].steps == 0
            && times[100].steps == 100
            && times[199].ms == 0
            && times[199].steps == 199
    );
    Ok(())
}

// Bounds on two devices, and the least time that they leave the first: a weight, where there is one.
#[derive(Clone, Copy)]
struct Case {
    edges: [Edge; 2],
    least: Result<Option<u16>, Unmet>,
}

fn cases() -> [Case; 7] {
    [
        // Held from above only, or not at all.
        Case {
            edges: [below(0, 2, FOUR), above(0, 1, FIVE)],
            least: Ok(None),
        },
        Case {
            edges: [above(0, 1, ZERO), above(1, 0, ZERO)],
            least: Ok(None),
        },
        // Held by the origin, twice alike, or through the other device, or from both sides.
        Case {
            edges: [above(0, 2, FIVE), above(0, 2, FIVE)],
            least: Ok(Some(FIVE)),
        },
        Case {
            edges: [above(1, 2, FOUR), above(0, 1, ZERO)],
            least: Ok(Some(FOUR)),
        },
        Case {
            edges: [above(0, 2, FIVE), below(0, 2, FIVE)],
            least: Ok(Some(FIVE)),
        },
        // A cycle that gains, and one through the origin.
        Case {
            edges: [above(0, 1, STEP), above(1, 0, ZERO)],
            least: Err(Unmet),
        },
        Case {
            edges: [above(0, 2, FIVE), below(0, 2, FOUR)],
            least: Err(Unmet),
        },
    ]
}

// Whether the end is the one that a case asks for.
fn agrees<S: OrderedSums>(
    least: Result<Option<u16>, Unmet>,
    end: Result<Option<S>, Unmet>,
    weights: &Weights<'_, S>,
) -> bool {
    match (least, end) {
        (Err(Unmet), Err(Unmet)) => true,
        (Ok(None), Ok(None)) => true,
        (Ok(Some(place)), Ok(Some(time))) => match weights.row.get(place as usize) {
            Some(weight) => alike(time, *weight),
            None => false,
        },
        _ => false,
    }
}

// Checks every case.
fn check_ends<S: Scale>(
    rt: &impl Abort,
    weights: &Weights<'_, S>,
    times: &mut [S],
    spare: &mut [S],
) -> Result<(), Fail>
    requires rows { (length times.old ≡ 3) × (length spare.old ≡ 3) }
{
    for case in cases() {
        let Some(system) = system(2, &case.edges, weights) else {
            return Err(Fail::new("an edge does not fit"));
        };
        let end = system.least_end(low_start(), 0, times, spare);
        assert!(rt; agrees(case.least, end, weights));
    }
    Ok(())
}

#[test]
fn ends_of_ticks_agree(rt: HostRuntime) -> Result<(), Fail> {
    check_ends(
        &rt,
        &Weights { row: &TICKS },
        &mut [Ticks { ms: 7 }; 3],
        &mut [Ticks { ms: 7 }; 3],
    )
}

#[test]
fn ends_of_stepless_times_agree(rt: HostRuntime) -> Result<(), Fail> {
    check_ends(
        &rt,
        &Weights { row: &STEPLESS },
        &mut [Stepless { ms: 7, steps: 7 }; 3],
        &mut [Stepless { ms: 7, steps: 7 }; 3],
    )
}

#[test]
fn turning_exchanges_the_ends(rt: HostRuntime) {
    let mut edges = [above(0, 2, FIVE), below(1, 0, STEP)];
    turn(&mut edges);
    assert_eq!(rt; edges, [above(2, 0, FIVE), below(0, 1, STEP)]);
}
