use mk_model::{divides, is_below};

#[test]
fn below_is_the_larger_entry_first(rt: HostRuntime) {
    assert!(rt; is_below(&[2, 1, 0], &[0, 0, 2], &[1, 1, 0]));
    assert!(rt; !is_below(&[2, 1, 0], &[1, 1, 0], &[0, 0, 2]));
    assert!(rt; is_below(&[1, 3, 2, 0], &[1, 1, 0, 1], &[1, 0, 2, 0]));
    assert!(rt; !is_below(&[2, 1, 0], &[1, 1, 0], &[1, 1, 0]));
}

#[test]
fn divides_has_no_larger_entry(rt: HostRuntime) {
    assert!(rt; divides(&[0, 2, 0, 0], &[0, 2, 2, 0]));
    assert!(rt; divides(&[0, 2, 2, 0], &[0, 2, 2, 0]));
    assert!(rt; !divides(&[1, 0, 0, 0], &[0, 2, 2, 0]));
}
