use crate::*;
use std::test::Fail;

#[test]
fn prints_the_end_or_the_fault(rt: HostRuntime) -> Result<(), Fail> {
    assert!(rt; transcript(rt.alloc(), b"STOP\x00\x02Z")?.as_slice() == b"Z\n".as_slice());
    assert!(rt; transcript(rt.alloc(), b"STOP\x01\x02Zmore")?.as_slice() == b"Z\n".as_slice());
    assert!(rt;
        transcript(rt.alloc(), b"STOP\x02\x02Z")?.as_slice() == b"fault 2 4 heading\n".as_slice()
    );
    assert!(rt; transcript(rt.alloc(), b"")?.as_slice() == b"fault 2 0 heading\n".as_slice());
    assert!(rt;
        transcript(rt.alloc(), b"STOP\x00\x02?")?.as_slice() == b"fault 3 6 command\n".as_slice()
    );
    assert!(rt;
        transcript(rt.alloc(), b"STOP\x00\x02")?.as_slice() == b"fault 4 6 command\n".as_slice()
    );
    let long = [0x53u8; 60001];
    assert!(rt; transcript(rt.alloc(), &long)?.as_slice() == b"fault 1 60000 heading\n".as_slice());
    Ok(())
}
