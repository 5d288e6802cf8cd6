// Headers of worked examples, and the order of versions by hand.
use lisp_header::{LispHeader, newer, read_header, successor, write_header};

const PLAIN: LispHeader = LispHeader {
    nonce: None,
    echo: false,
    versions: None,
    status: None,
    instance: None,
    key: 0,
};

#[test]
fn headers_are_read_and_what_does_not_count_is_written_as_0(rt: HostRuntime) {
    let nonce = LispHeader {
        nonce: Some(0x2a),
        ..PLAIN
    };
    let tenant = LispHeader {
        status: Some(1),
        instance: Some(100),
        ..PLAIN
    };
    let versions = LispHeader {
        versions: Some((5, 0x107)),
        ..PLAIN
    };
    for (octets, header, written) in [
        (
            [0x90, 0, 0, 0x2a, 0, 0, 0, 0],
            nonce,
            [0x80, 0, 0, 0x2a, 0, 0, 0, 0],
        ),
        (
            [0x48, 0, 0, 0, 0, 0, 0x64, 1],
            tenant,
            [0x48, 0, 0, 0, 0, 0, 0x64, 1],
        ),
        (
            [0x34, 0, 0x51, 7, 9, 9, 9, 9],
            versions,
            [0x10, 0, 0x51, 7, 0, 0, 0, 0],
        ),
        ([0x24, 1, 2, 3, 4, 5, 6, 7], PLAIN, [0; 8]),
    ] {
        let read = read_header(&octets, 0);
        assert_eq!(rt; read, Ok(header));
        if let Ok(header) = read {
            assert_eq!(rt; write_header(&header), written);
        }
    }
}

#[test]
fn versions_go_round_a_circle(rt: HostRuntime) {
    assert_eq!(rt; newer(1, 4095), true);
    assert_eq!(rt; successor(4095), 1);
    assert_eq!(rt; successor(7), 8);
}
