// Lines judged in their circumstances.
// The tables are statics, because the proof of a test that lends so large a constant outgrows its memory.
use crate::lines::compare;
use cells::{Ratings, Span};
use grammar::{Quantity, Text};
use judging::judge;
use power::Loop;
use request::{Access, Circumstances, Control, Origin};
use std::test::Fail;

// Circumstances by what sets them apart: a USER at a socket in REMOTE, with the module off in loop I, no trip and
// a store that is able, but for what the name says. Rated 20 A and 40 V, limits of 5 A and 10 V, all either way.
#[derive(Clone, Copy, PartialEq, Eq, Debug)]
enum Scene {
    Off,
    On,
    OffInV,
    OnInV,
    AdminOff,
    AdminOn,
    PanelInLocal,
    PanelInRemote,
    SocketInLocal,
    Tripped,
    TrippedWhileOn,
    Unable,
}

// A line on each ground of a request, and lines close by that are accepted.
static JUDGED: [(Scene, &[u8], Result<&str, u8>); 87] = [
    // 18: the panel writes in REMOTE. It may ask there, and it writes in LOCAL.
    (Scene::PanelInRemote, b"MOFF", Err(18)),
    (Scene::PanelInRemote, b"MSAVE", Err(18)),
    (Scene::PanelInRemote, b"MST:?", Ok("tell the status")),
    (Scene::PanelInRemote, b"PASSWORD:?", Ok("tell the access")),
    (Scene::PanelInLocal, b"MOFF", Ok("switch off")),
    (Scene::PanelInLocal, b"MON", Ok("switch on")),
    // 15: a socket writes in LOCAL.
    (Scene::SocketInLocal, b"MOFF", Err(15)),
    (Scene::SocketInLocal, b"MWG:100:1", Err(15)),
    (
        Scene::SocketInLocal,
        b"MWI:?",
        Ok("tell the target of loop I, asked by MWI"),
    ),
    (Scene::Off, b"MOFF", Ok("switch off")),
    // 07: the password matches nothing.
    (Scene::Off, b"PASSWORD:wrong", Err(7)),
    (Scene::Off, b"PASSWORD:", Err(7)),
    (Scene::Off, b"PASSWORD:abcdefghijklmnopqrstuvwxy", Err(7)),
    (Scene::Off, b"PASSWORD:PS-ADMI", Err(7)),
    (Scene::Off, b"password:ps-admin", Ok("give a password")),
    (Scene::Off, b"PASSWORD:Lock", Ok("give a password")),
    (Scene::Off, b"PASSWORD:user", Ok("give a password")),
    // 05: the seat may not write, or read, the cell.
    (Scene::Off, b"MWG:11:5", Err(5)),
    (Scene::AdminOff, b"MWG:11:5", Ok("write 5 to cell 11")),
    (Scene::Off, b"MWG:90:0x1", Err(5)),
    (Scene::AdminOff, b"MWG:90:0x1", Ok("write 0x1 to cell 90")),
    (Scene::Off, b"MWG:16:new", Err(5)),
    (
        Scene::AdminOff,
        b"MWG:16:new",
        Ok("write a password to cell 16"),
    ),
    (Scene::Off, b"MWG:0:MB", Err(5)),
    (Scene::AdminOff, b"MWG:0:MB", Err(5)),
    (Scene::Off, b"MWG:100:-1", Ok("write -1 to cell 100")),
    (Scene::Off, b"MRG:16", Err(5)),
    (Scene::AdminOff, b"MRG:16:?", Ok("tell cell 16")),
    (Scene::Off, b"MRG:0", Ok("tell cell 0")),
    // 08: a trip stands.
    (Scene::Tripped, b"MON", Err(8)),
    (Scene::Tripped, b"MRESET", Ok("reset")),
    (Scene::Tripped, b"MOFF", Ok("switch off")),
    // 09: not while on.
    (Scene::On, b"MON", Err(9)),
    (Scene::Off, b"MON", Ok("switch on")),
    (Scene::On, b"LOOP:V", Err(9)),
    (Scene::AdminOn, b"MWG:10:-1", Err(9)),
    (Scene::AdminOn, b"MWG:11:1", Err(9)),
    (Scene::AdminOn, b"MWG:12:-1", Err(9)),
    (Scene::AdminOn, b"MWG:13:1", Err(9)),
    (Scene::AdminOn, b"MWG:1:Q7", Ok("write Q7 to cell 1")),
    (Scene::On, b"MWG:15:1", Ok("write 1 to cell 15")),
    // 19: the present loop is chosen again.
    (Scene::Off, b"LOOP:I", Err(19)),
    (Scene::Off, b"LOOP:V", Ok("choose loop V")),
    (Scene::OffInV, b"LOOP:V", Err(19)),
    (Scene::OffInV, b"LOOP:I", Ok("choose loop I")),
    // 20: a setpoint of the other loop.
    (Scene::On, b"MWV:1", Err(20)),
    (Scene::On, b"MWVR:1", Err(20)),
    (Scene::OnInV, b"MWI:1", Err(20)),
    (Scene::OnInV, b"MWIR:1", Err(20)),
    (Scene::OnInV, b"MWV:1", Ok("set loop V to 1 at once")),
    (Scene::On, b"MSRV:1", Ok("set the rate of loop V to 1")),
    // 13: a setpoint while off.
    (Scene::Off, b"MWI:1", Err(13)),
    (Scene::Off, b"MWIR:1", Err(13)),
    (Scene::OffInV, b"MWVR:1", Err(13)),
    (Scene::On, b"MWIR:1", Ok("ramp loop I to 1")),
    // 10: a setpoint outside the rated span, or a limit that is not lawful.
    (Scene::On, b"MWI:20.000001", Err(10)),
    (Scene::On, b"MWIR:-20.000001", Err(10)),
    (Scene::OnInV, b"MWV:40.000001", Err(10)),
    (Scene::OnInV, b"MWVR:-9999.999999", Err(10)),
    (Scene::AdminOff, b"MWG:10:-20.000001", Err(10)),
    (Scene::AdminOff, b"MWG:10:0.000001", Err(10)),
    (Scene::AdminOff, b"MWG:10:-20", Ok("write -20 to cell 10")),
    (Scene::AdminOff, b"MWG:11:20.000001", Err(10)),
    (Scene::AdminOff, b"MWG:11:-0.000001", Err(10)),
    (Scene::AdminOff, b"MWG:11:0", Ok("write 0 to cell 11")),
    (Scene::AdminOff, b"MWG:12:-40.000001", Err(10)),
    (Scene::AdminOff, b"MWG:12:-40", Ok("write -40 to cell 12")),
    (Scene::AdminOff, b"MWG:13:40.000001", Err(10)),
    (Scene::AdminOff, b"MWG:13:40", Ok("write 40 to cell 13")),
    // 11: a setpoint outside the software limits; their ends are inside.
    (Scene::On, b"MWI:5.000001", Err(11)),
    (Scene::On, b"MWI:20", Err(11)),
    (Scene::On, b"MWI:5", Ok("set loop I to 5 at once")),
    (Scene::On, b"MWIR:-5.000001", Err(11)),
    (Scene::On, b"MWIR:-5", Ok("ramp loop I to -5")),
    (Scene::OnInV, b"MWV:10.000001", Err(11)),
    (Scene::OnInV, b"MWV:10", Ok("set loop V to 10 at once")),
    (Scene::OnInV, b"MWVR:-10.000001", Err(11)),
    (Scene::OnInV, b"MWVR:-10", Ok("ramp loop V to -10")),
    // 14: a rate that is not above 0.
    (Scene::Off, b"MSRI:0", Err(14)),
    (Scene::Off, b"MSRV:-1", Err(14)),
    (
        Scene::Off,
        b"MSRI:0.000001",
        Ok("set the rate of loop I to 0.000001"),
    ),
    (Scene::Off, b"MWG:14:0", Err(14)),
    (Scene::Off, b"MWG:15:-0.000001", Err(14)),
    (
        Scene::Off,
        b"MWG:14:9999.999999",
        Ok("write 9999.999999 to cell 14"),
    ),
    // 06: the store is not able to save.
    (Scene::Unable, b"MSAVE", Err(6)),
    (Scene::Unable, b"MWG:100:1", Ok("write 1 to cell 100")),
    (Scene::Off, b"MSAVE", Ok("save the cells")),
];

// Lines against which several grounds hold: the first of the table counts.
static FIRST: [(Scene, &[u8], Result<&str, u8>); 16] = [
    // The grounds of the line come first.
    (Scene::PanelInRemote, b"MWG:100:?", Err(12)),
    (Scene::SocketInLocal, b"MWI:abc", Err(12)),
    (Scene::SocketInLocal, b"MWG:16:lock", Err(2)),
    (Scene::Off, b"MRG:16:!", Err(2)),
    // 18 and 07, 18 and 05, 15 and 07, 15 and 13.
    (Scene::PanelInRemote, b"PASSWORD:wrong", Err(18)),
    (Scene::PanelInRemote, b"MWG:0:MB", Err(18)),
    (Scene::SocketInLocal, b"PASSWORD:wrong", Err(15)),
    (Scene::SocketInLocal, b"MWI:30", Err(15)),
    // 05 and 09 and 10; 09 and 10.
    (Scene::On, b"MWG:11:30", Err(5)),
    (Scene::AdminOn, b"MWG:11:30", Err(9)),
    // 08 and 09; 09 and 19.
    (Scene::TrippedWhileOn, b"MON", Err(8)),
    (Scene::On, b"LOOP:I", Err(9)),
    // 20 and 13 and 10; 20 and 10; 13 and 10; 10 and 11.
    (Scene::Off, b"MWV:50", Err(20)),
    (Scene::On, b"MWV:50", Err(20)),
    (Scene::Off, b"MWI:30", Err(13)),
    (Scene::On, b"MWI:30", Err(10)),
];

fn either_way(millionths: i64) -> Span {
    Span {
        low: Quantity::clamped(millionths.saturating_neg()),
        high: Quantity::clamped(millionths),
    }
}

// A USER at a socket in REMOTE, with the module off in loop I.
fn usual() -> Circumstances {
    Circumstances {
        origin: Origin::Socket,
        control: Control::Remote,
        access: Access::User,
        password: Text::new(b"PS-ADMIN").unwrap(),
        tripped: false,
        on: false,
        present: Loop::I,
        rated: Ratings {
            current: either_way(20_000_000),
            voltage: either_way(40_000_000),
        },
        limits: Ratings {
            current: either_way(5_000_000),
            voltage: either_way(10_000_000),
        },
        able: true,
        sensors: 1,
    }
}

fn circumstances(scene: Scene) -> Circumstances {
    let mut c = usual();
    match scene {
        Scene::Off => {}
        Scene::On => c.on = true,
        Scene::OffInV => c.present = Loop::V,
        Scene::OnInV => {
            c.on = true;
            c.present = Loop::V;
        }
        Scene::AdminOff => c.access = Access::Admin,
        Scene::AdminOn => {
            c.access = Access::Admin;
            c.on = true;
        }
        Scene::PanelInLocal => {
            c.origin = Origin::Panel;
            c.control = Control::Local;
        }
        Scene::PanelInRemote => c.origin = Origin::Panel,
        Scene::SocketInLocal => c.control = Control::Local,
        Scene::Tripped => c.tripped = true,
        Scene::TrippedWhileOn => {
            c.tripped = true;
            c.on = true;
        }
        Scene::Unable => c.able = false,
    }
    c
}

#[test]
fn judged(rt: HostRuntime) -> Result<(), Fail> {
    for (scene, line, wanted) in JUDGED.iter().chain(&FIRST) {
        compare(&rt, line, judge(line, &circumstances(*scene)), *wanted)?;
    }
    Ok(())
}
