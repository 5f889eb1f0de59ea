use crate::*;
use bounds::Edge;
use scales::{Scale, Stepless, Ticks};

#[test]
fn five_bytes_name_operators(rt: HostRuntime) {
    assert_eq!(rt; Operator::try_from(b'<'), Ok(Operator::Before));
    assert_eq!(rt; Operator::try_from(b'l'), Ok(Operator::NotAfter));
    assert_eq!(rt; Operator::try_from(b'='), Ok(Operator::With));
    assert_eq!(rt; Operator::try_from(b'g'), Ok(Operator::NotBefore));
    assert_eq!(rt; Operator::try_from(b'>'), Ok(Operator::After));
    assert_eq!(rt; Operator::try_from(b'!'), Err(NoOperator));
    assert_eq!(rt; Operator::try_from(0), Err(NoOperator));
}

#[test]
fn devices_and_constants_have_limits(rt: HostRuntime) {
    let pair = Asked::pair(199, b'<', 0);
    assert!(rt; !pair.is_foreign(200) && pair.is_foreign(199));
    assert!(rt; !Asked::clock(0, b'<', 1_000_000).is_outside());
    let higher = Asked::clock(0, b'<', 1_000_001);
    assert!(rt; higher.is_outside());
}

#[test]
fn before_a_constant_is_a_step_and_not_a_millisecond(rt: HostRuntime) {
    let line = Line {
        x: 0,
        op: Operator::Before,
        right: Right::Constant(4),
    };
    let ticks: Ticks = line.weight();
    assert_eq!(rt; ticks.ms, -3);
    let stepless: Stepless = line.weight();
    assert_eq!(rt; stepless.ms, -4);
    assert_eq!(rt; stepless.steps, 1);
}

#[test]
fn with_has_two_edges(rt: HostRuntime) {
    let line = Line {
        x: 0,
        op: Operator::With,
        right: Right::Constant(7),
    };
    let edges = line.edges(3, 5);
    let up = Edge {
        at: 0,
        from: 3,
        weight: 5,
        opposed: false,
    };
    let down = Edge {
        at: 3,
        from: 0,
        weight: 5,
        opposed: true,
    };
    assert_eq!(rt; edges.first, up);
    assert_eq!(rt; edges.second, Some(down));
}
