//! What no clause of `host_and_port` says: that it finds the parts of an address, and removes the
//! brackets round a host.

use crate::tcp_address::host_and_port;

#[test]
fn addresses_are_parted_at_the_last_colon(rt: HostRuntime) {
    for (address, parts) in [
        ("127.0.0.1:11211", Some(("127.0.0.1", 11211))),
        ("[::1]:11211", Some(("::1", 11211))),
        ("::1:11211", Some(("::1", 11211))),
        ("a:65536", None),
    ] {
        assert_eq!(rt; host_and_port(address), parts, "{address}");
    }
}
