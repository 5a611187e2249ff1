// Lines as people type them: what each asks, or the ground on which it is refused.
#![tactic(auto)]

ghost use Rattle.std.specs.Prelude.{◌≡◌};
ghost use Rattle.power.specs.Magnets.{magnet_meaning};

use cells::Ratings;
use grammar::Text;
use judging::judge;
use power::{Loop, Magnet, PowerModule};
use request::{Access, Circumstances, Control, Origin};
use std::io;

static TYPED: [&str; 15] = [
    "MON",
    "mst:?",
    "MST",
    "HELLO",
    "LOOP:v",
    "LOOP:I",
    "MWI:10.5875",
    "MWI:10,5875",
    "MWV:50",
    "MSRI:0",
    "MWG:100:007.50",
    "MWG:11:5",
    "MRT:1",
    "MRT:2:?",
    "PASSWORD:ps-admin",
];

// Each line is judged in the same circumstances.
fn main(rt: HostRuntime) -> io::Result<()> {
    introduce(&rt)?;
    let magnet = Magnet::new();
    let c = circumstances_of(&magnet);
    for typed in &TYPED {
        show_line(&rt, typed, &c)?;
    }
    println!(rt; "")?;
    println!(rt;
        "Three grounds stand against MWV:50: the other loop is chosen, the module is off, and 50 V"
    )?;
    println!(rt;
        "is outside the ratings. The first of them counts. That a refused line is refused on the"
    )?;
    println!(rt;
        "first ground of one table that holds, and that against an accepted line none holds, is"
    )?;
    println!(rt; "proved for every line in all circumstances.")
}

fn introduce(rt: &HostRuntime) -> io::Result<()> {
    println!(rt; "Lines as people type them")?;
    println!(rt; "")?;
    println!(rt;
        "A line is a command and its fields, with colons between them; letter case does not count."
    )?;
    println!(rt;
        "Here a USER types at a socket in REMOTE. The magnet is off, in loop I, and no trip stands;"
    )?;
    println!(rt;
        "the software limits are as wide as the ratings, 20 A and 40 V either way. Below is what"
    )?;
    println!(rt; "each line asks, or the number with which it is refused, and the ground.")?;
    println!(rt; "")
}

fn show_line(rt: &HostRuntime, typed: &str, c: &Circumstances) -> io::Result<()> {
    match judge(typed.as_bytes(), c) {
        Ok(request) => println!(rt; "  '{typed}' asks: {request}."),
        Err(refusal) => {
            println!(rt;
                "  '{typed}' is refused with {:02}: {refusal}.",
                refusal.number()
            )
        }
    }
}

// A USER at a socket in REMOTE; no trip stands, the store is able, and every cell has its factory value.
fn circumstances_of(magnet: &Magnet) -> Circumstances
    ensures on { result.on ≡ (magnet_meaning magnet.now).on }
    ensures present { result.present ≡ (magnet_meaning magnet.now).loop }
{
    let rated = Ratings {
        current: magnet.rated(Loop::I),
        voltage: magnet.rated(Loop::V),
    };
    Circumstances {
        origin: Origin::Socket,
        control: Control::Remote,
        access: Access::User,
        password: Text::new(b"PS-ADMIN").unwrap(),
        tripped: false,
        on: magnet.is_on(),
        present: magnet.present_loop(),
        rated,
        limits: rated,
        able: true,
        sensors: Magnet::SENSORS,
    }
}
