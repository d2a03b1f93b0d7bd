use crate::{next_in, next_key};
use std::test::Fail;

// The keys of 40 clauses: 0 at 3 and 20, 7 at 37, else 9.
fn keys() -> [u32; 40] {
    let mut keys = [9; 40];
    keys[3] = 0;
    keys[20] = 0;
    keys[37] = 7;
    keys
}

// The class of the ten digits and of byte 255.
fn digits() -> [u8; 32] {
    let mut class = [0; 32];
    class[6] = 255;
    class[7] = 3;
    class[31] = 128;
    class
}

#[test]
fn the_least_place_is_found(rt: HostRuntime) -> Result<(), Fail> {
    let keys = keys();
    let text = b"a colon (:) is no digit, and a slash (/) is none; 7 is one.";
    let class = digits();
    let last = [10, 58, 47, 254, 255];
    assert_eq!(rt;
        [
            next_key(&keys, 0, 7),
            next_key(&keys, 4, 7),
            next_key(&keys, 21, 7),
            next_key(&keys, 21, 5),
            next_key(&keys, 38, 7),
            next_key(&keys, 41, 9),
            next_in(text, 0, &class),
            next_in(text, 51, &class),
            next_in(&last, 1, &class),
        ],
        [
            Some(3),
            Some(20),
            Some(37),
            None,
            None,
            None,
            Some(50),
            None,
            Some(4),
        ]
    );
    Ok(())
}
