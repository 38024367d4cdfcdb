//! The input of a few updates, against bytes that were written by hand.

use crate::same::same;
use dn_formats::Text;
use made_input::make_input;

/// The frame of the first update: 0.0.0.0/8 with metric 0, by 192.0.2.1 over interface 2.
const FIRST: [u8; 64] = [
    1, 1, 0, 64, 60, 0, 0, 0, 24, 0, 1, 5, 0, 0, 0, 0, 0, 0, 0, 0, 2, 8, 0, 0, 254, 11, 0, 1, 0, 0,
    0, 0, 8, 0, 1, 0, 0, 0, 0, 0, 8, 0, 5, 0, 192, 0, 2, 1, 8, 0, 4, 0, 2, 0, 0, 0, 8, 0, 6, 0, 0,
    0, 0, 0,
];

/// The frame of the fifth update: the router's own 120.208.0.0/12 with metric 0.
const FIFTH: [u8; 48] = [
    1, 1, 0, 48, 44, 0, 0, 0, 24, 0, 1, 5, 0, 0, 0, 0, 0, 0, 0, 0, 2, 12, 0, 0, 254, 11, 0, 2, 0,
    0, 0, 0, 8, 0, 1, 0, 120, 208, 0, 0, 8, 0, 6, 0, 0, 0, 0, 0,
];

/// The script of every input.
const SCRIPT: &[u8] = b"take m0 all
take m1 all
take m2 all
take m3 all
take m4 all
take m5 all
take m6 all
take m7 all
loops
";

/// Whether the texts of feeds have this one at a place.
fn has(feeds: &[Text], place: usize, bytes: &[u8]) -> bool {
    match feeds.get(place) {
        Some(text) => text.as_bytes() == bytes,
        None => false,
    }
}

#[test]
fn five_updates_go_to_the_first_five_feeds(rt: HostRuntime) {
    let made = make_input(rt.alloc(), 5).expect(&rt, "memory");
    same(&rt, &made.feeds.len(), &8);
    assert!(rt; has(made.feeds.as_slice(), 0, &FIRST));
    assert!(rt; has(made.feeds.as_slice(), 4, &FIFTH));
    assert!(rt; has(made.feeds.as_slice(), 5, &[]));
    assert!(rt; made.script.as_bytes() == SCRIPT);
    assert!(rt;
        made.topology
            .as_bytes()
            .starts_with(b"routers = [\"m0\", \"m1\", ")
    );
}
