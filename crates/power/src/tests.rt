// Both modules by their numbers.
use super::*;
use grammar::Quantity;
use std::test::Fail;

// A loop, a demand, a number of advances from the start, and then the current and the lines.
const MAGNET: [(Loop, i64, u32, i64, u32); 9] = [
    (Loop::I, 20_000_000, 0, 0, 0),
    (Loop::I, 20_000_000, 1, 1_250_000, 0),
    (Loop::I, 20_000_000, 2, 2_421_875, 0),
    (Loop::I, 20_000_000, 3, 3_520_507, 0),
    (Loop::I, 20_000_000, 38, 18_278_368, 0),
    (Loop::I, 20_000_000, 39, 18_385_970, 1 << 20),
    (Loop::V, -40_000_000, 1, -1_250_000, 0),
    (Loop::I, 15, 1, 0, 0),
    (Loop::I, 16, 1, 1, 0),
];

#[test]
fn magnet(rt: HostRuntime) -> Result<(), Fail> {
    for (choice, demand, advances, current, lines) in &MAGNET {
        let mut magnet = Magnet::new();
        start(&mut magnet, *choice, Quantity::clamped(*demand))?;
        magnet.advance_by(*advances);
        assert_eq!(rt; magnet.current().millionths(), *current);
        assert_eq!(rt; magnet.live_lines(), *lines);
    }
    Ok(())
}

#[test]
fn magnet_readings(rt: HostRuntime) -> Result<(), Fail> {
    let mut magnet = Magnet::new();
    start(&mut magnet, Loop::I, Quantity::clamped(-20_000_000))?;
    magnet.advance();
    assert_eq!(rt; magnet.voltage().millionths(), -2_500_000);
    assert_eq!(rt; magnet.temperature(1).millionths(), 28_750_000);
    assert_eq!(rt; magnet.temperature(0).millionths(), 0);
    assert_eq!(rt; magnet.temperature(2).millionths(), 0);
    assert!(rt; magnet.choose_loop(Loop::V).is_err());
    assert!(rt; magnet.apply(Quantity::clamped(20_000_001)).is_err());
    assert_eq!(rt; magnet.demand().millionths(), -20_000_000);
    magnet.switch_off();
    assert_eq!(rt; magnet.demand().millionths(), 0);
    assert!(rt; rest(&mut magnet).is_err());
    Ok(())
}

#[test]
fn recording(rt: HostRuntime) -> Result<(), Fail> {
    let first = Record {
        lines: 0xFFFF_FFFF,
        current: 10_000_000_000,
        voltage: -2,
        temperatures: [1, 2, 3, -4],
    };
    let last = Record {
        lines: 1 << 19,
        current: 7,
        voltage: 8,
        temperatures: [0, 0, 0, 9],
    };
    let mut tape = Recording::new(vec![in rt.alloc(); first, last]?);
    assert_eq!(rt; tape.current().millionths(), 0);
    tape.advance();
    assert_eq!(rt; tape.live_lines(), 0x3F6_0000);
    assert_eq!(rt; tape.current().millionths(), 9_999_999_999);
    assert_eq!(rt; tape.voltage().millionths(), -2);
    assert_eq!(rt; tape.temperature(4).millionths(), -4);
    assert_eq!(rt; tape.temperature(5).millionths(), 0);
    tape.advance_by(5);
    assert_eq!(rt; tape.live_lines(), 0);
    assert_eq!(rt; tape.current().millionths(), 7);
    assert_eq!(rt; Recording::SENSORS, 4);
    Ok(())
}
