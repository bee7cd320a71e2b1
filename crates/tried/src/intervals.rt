// Intervals and their thirds.
use grid::interval::{CELLS, Interval};

#[test]
fn thirds_of_the_grid(rt: HostRuntime) {
    let grid = Interval::whole();
    assert_eq!(rt; grid.length(), CELLS);
    assert_eq!(rt; grid.middle(), 581_130_733);
    assert!(rt; grid.level() < 19);
    let thirds = grid.cut();
    assert_eq!(rt; thirds.low.first(), 0);
    assert_eq!(rt; thirds.middle.first(), 387_420_489);
    assert_eq!(rt; thirds.high.first(), 774_840_978);
    assert_eq!(rt; thirds.middle.middle(), 581_130_733);
    assert_eq!(rt; thirds.low.middle(), 193_710_244);
    assert_eq!(rt; thirds.high.middle(), 968_551_222);
}

#[test]
fn what_is_an_interval(rt: HostRuntime) {
    assert!(rt; Interval::new(0, 0).is_some());
    assert!(rt; Interval::new(1, 0).is_none());
    assert!(rt; Interval::new(CELLS, 0).is_none());
    assert!(rt; Interval::new(CELLS - 1, 19).is_some());
    assert!(rt; Interval::new(CELLS, 19).is_none());
    assert!(rt; Interval::new(0, 20).is_none());
    assert!(rt; Interval::new(387_420_489, 1).is_some());
    assert!(rt; Interval::new(387_420_488, 1).is_none());
}
