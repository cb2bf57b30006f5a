//! Where a URI is sent.

use super::settings;
use crate::address_of;
use outside_ports::Addr;
use std::test::Fail;

/// A URI, the last number of the address 192.0.2.x to which it is sent, and the port; 0 where it has none.
const DESTINATIONS: [(&str, u32, u16); 12] = [
    ("sip:b@192.0.2.9", 9, 5060),
    ("sip:192.0.2.9:5080;lr", 9, 5080),
    ("SIP:b@192.0.2.9", 9, 5060),
    // the first of a name counts, without regard to case; its port stands for one that is absent
    ("sip:b@proxy.example", 7, 5070),
    ("sip:b@PROXY.EXAMPLE:5090", 7, 5090),
    ("sip:b@other.example", 0, 0),
    ("sips:b@192.0.2.9", 0, 0),
    ("tel:1234", 0, 0),
    ("b@192.0.2.9", 0, 0),
    ("", 0, 0),
    // what the uri of a start line can't have
    ("sip:b c@192.0.2.9", 0, 0),
    ("sip:b\x7f@192.0.2.9", 0, 0),
];

#[test]
fn a_uri_is_sent_to_its_host(rt: HostRuntime) -> Result<(), Fail> {
    let settings = settings(rt.alloc())?;
    for (uri, last, port) in &DESTINATIONS {
        let expected = if *port == 0 {
            None
        } else {
            Some(Addr {
                ip: 3_221_225_984 + *last,
                port: *port,
            })
        };
        assert_eq!(rt;
            address_of(&settings.hosts, uri.as_bytes()),
            expected,
            "{uri:?}"
        );
    }
    Ok(())
}
