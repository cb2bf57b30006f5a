//! Numbers and addresses, read and written.
use crate::{address, number, push_address};
use outside_ports::Addr;
use std::test::Fail;

#[test]
fn numbers_have_no_sign_and_no_leading_zero(rt: HostRuntime) {
    let cases: [(&[u8], Option<u64>); 10] = [
        (b"0", Some(0)),
        (b"7", Some(7)),
        (b"18446744073709551615", Some(u64::MAX)),
        (b"18446744073709551616", None),
        (b"", None),
        (b"00", None),
        (b"07", None),
        (b"+7", None),
        (b"-7", None),
        (b"7 ", None),
    ];
    for (word, wanted) in cases {
        assert!(rt; number(word) == wanted);
    }
}

#[test]
fn addresses_are_written_as_they_are_read(rt: HostRuntime) -> Result<(), Fail> {
    let alloc = rt.alloc();
    let cases: [(&[u8], Option<Addr>); 9] = [
        (
            b"192.0.2.1:5060",
            Some(Addr {
                ip: 0xc000_0201,
                port: 5060,
            }),
        ),
        (b"0.0.0.0:1", Some(Addr { ip: 0, port: 1 })),
        (
            b"255.255.255.255:65535",
            Some(Addr {
                ip: u32::MAX,
                port: u16::MAX,
            }),
        ),
        (b"192.0.2.1:0", None),
        (b"192.0.2.1:65536", None),
        (b"192.0.2.1", None),
        (b"192.0.2:5060", None),
        (b"192.0.2.256:5060", None),
        (b"192.0.02.1:5060", None),
    ];
    for (word, wanted) in cases {
        assert!(rt; address(word) == wanted);
        if let Some(found) = wanted {
            let mut text = Vec::new(alloc);
            push_address(alloc, &mut text, found)?;
            assert!(rt; text.as_slice() == word);
        }
    }
    Ok(())
}
