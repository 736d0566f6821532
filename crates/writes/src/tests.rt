// What fits comes, in parts too, as long as there is input.
use crate::came;
use std::io::Read;

#[test]
fn what_fits_comes(rt: HostRuntime) {
    let bytes = [1u8, 2, 3, 4, 5, 6, 7, 8, 9, 10, 11, 12, 13, 14, 15, 16];
    let mut input = bytes[..9].chain(&bytes[9..]);
    let mut buf = [0u8; 16];
    assert!(rt; came(&mut input, &mut buf, 16));
    assert_eq!(rt; buf, bytes);
    assert!(rt; !came(&mut input, &mut buf, 1));
    assert!(rt; !came(&mut input, &mut buf, 17));
}
