//! The adapters of the standard streams.
use ann_shelf::Out;
use folder_shelf::StdOut;

#[test]
fn the_standard_streams_take_a_piece(rt: HostRuntime) {
    let mut out = StdOut::out(&rt);
    assert!(rt; out.write(b"\n").is_ok());
    let mut err = StdOut::err(&rt);
    assert!(rt; err.write(b"\n") == Ok(1));
}
