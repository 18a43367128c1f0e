use er_event::Games;
use er_paper::{SlipFault, read_slip};
use std::test::Fail;

#[test]
fn a_slip_is_read(rt: HostRuntime) -> Result<(), Fail> {
    let games = Games { x: 2, y: 1, d: 0 };
    let (slip, more) = (
        b"{\"a\":2,\"b\":1,\"d\":0}",
        b"{\"a\":2,\"b\":1,\"d\":0,\"e\":0}",
    );
    assert_eq!(rt; read_slip(rt.alloc(), slip.as_slice()), Ok(games));
    assert_eq!(rt; read_slip(rt.alloc(), more.as_slice()), Err(SlipFault::Bad));
    Ok(())
}
