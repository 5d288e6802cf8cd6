// Checksums that another program computed, and prefixes.
use ip_headers::{
    Addr, IpHeader, Prefix, V6Header, check_udp, checksum, read_ip, read_udp, udp_payload,
    write_udp, write_v6,
};
use octets::{NoMemory, Octets};
use std::test::Fail;

const FROM: Addr = Addr::V4(0x0a01_0005);

const TO: Addr = Addr::V4(0x0a02_0009);

#[test]
fn checksums_pad_an_odd_last_octet(rt: HostRuntime) {
    let octets = [0x00, 0x01, 0xf2, 0x03, 0xf4, 0xf5, 0xf6, 0xf7];
    assert_eq!(rt; checksum(&octets), 0x220d);
    assert_eq!(rt; checksum(&octets[..7]), 0x2304);
    assert_eq!(rt; checksum(&[]), 0xffff);
}

#[test]
fn a_computed_sum_of_zero_is_written_as_all_ones(rt: HostRuntime) -> Result<(), NoMemory> {
    let mut out = Octets::new(rt.alloc());
    write_udp(FROM, TO, 1000, 2000, b"abc", true, &mut out)?;
    let summed = [
        0x03, 0xe8, 0x07, 0xd0, 0x00, 0x0b, 0x1b, 0xad, 0x61, 0x62, 0x63,
    ];
    assert_eq!(rt; out.as_slice(), summed.as_slice());
    let mut out = Octets::new(rt.alloc());
    write_udp(FROM, TO, 1000, 2000, &[0xe0, 0x11], true, &mut out)?;
    let ones = [0x03, 0xe8, 0x07, 0xd0, 0x00, 0x0a, 0xff, 0xff, 0xe0, 0x11];
    assert_eq!(rt; out.as_slice(), ones.as_slice());
    Ok(())
}

/// A packet from 2001:db8::1 to 2001:db8:0:1::2 with a datagram of five octets.
const OVER_V6: [u8; 53] = [
    0x6b, 0x81, 0x23, 0x45, 0x00, 0x0d, 0x11, 0x09, 0x20, 0x01, 0x0d, 0xb8, 0x00, 0x00, 0x00, 0x00,
    0x00, 0x00, 0x00, 0x00, 0x00, 0x00, 0x00, 0x01, 0x20, 0x01, 0x0d, 0xb8, 0x00, 0x00, 0x00, 0x01,
    0x00, 0x00, 0x00, 0x00, 0x00, 0x00, 0x00, 0x02, 0xc0, 0x00, 0x10, 0xf6, 0x00, 0x0d, 0xca, 0x61,
    0x01, 0x02, 0x03, 0x04, 0x05,
];

const HEADER_V6: V6Header = V6Header {
    source: 0x2001_0db8_0000_0000_0000_0000_0000_0001,
    dest: 0x2001_0db8_0000_0001_0000_0000_0000_0002,
    class: 0xb8,
    flow: 0x1_2345,
    payload: 13,
    next: 17,
    hops: 9,
};

#[test]
fn a_sum_over_ipv6_counts_its_addresses(rt: HostRuntime) -> Result<(), NoMemory> {
    let (from, to) = (Addr::V6(HEADER_V6.source), Addr::V6(HEADER_V6.dest));
    let mut out = Octets::new(rt.alloc());
    write_v6(&HEADER_V6, &mut out)?;
    write_udp(from, to, 49152, 4342, &[1, 2, 3, 4, 5], true, &mut out)?;
    assert_eq!(rt; out.as_slice(), OVER_V6.as_slice());
    Ok(())
}

#[test]
fn a_datagram_of_an_odd_length_is_read_by_its_sum(rt: HostRuntime) -> Result<(), Fail> {
    let packet = read_ip(&OVER_V6, 0)?;
    assert_eq!(rt; packet.header, IpHeader::V6(HEADER_V6));
    let udp = read_udp(&packet)?;
    check_udp(&packet, &udp, false)?;
    assert_eq!(rt; udp_payload(&packet, &udp), [1, 2, 3, 4, 5].as_slice());
    Ok(())
}

#[test]
fn a_prefix_covers_the_longer_ones_below_it(rt: HostRuntime) -> Result<(), Fail> {
    let eight = Prefix::new(FROM, 8).ok_or("8 bits")?;
    assert_eq!(rt; eight.addr, Addr::V4(0x0a00_0000));
    assert!(rt; eight.covers(&Prefix::host(TO)));
    assert!(rt; !Prefix::host(TO).covers(&eight));
    let all = Prefix::new(Addr::V6(1), 0).ok_or("0 bits")?;
    assert_eq!(rt; all.addr, Addr::V6(0));
    assert!(rt; !all.covers(&eight));
    assert_eq!(rt; Prefix::new(FROM, 33), None);
    Ok(())
}
