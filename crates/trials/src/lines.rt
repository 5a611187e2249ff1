// Lines as they come in: what each is read as.
// The tables are statics, because the proof of a test that lends so large a constant outgrows its memory.
use reading::read_line;
use request::{LineRefusal, Request};
use std::alloc::{AllocError, Global};
use std::fmt::Display;
use std::process::Abort;
use std::test::Fail;

// Lines that are read at a module of one sensor, and what each asks.
static READ: [(&[u8], &str); 53] = [
    // The commands without further fields.
    (b"MON", "switch on"),
    (b"mOn", "switch on"),
    (b"MOFF", "switch off"),
    (b"mreset", "reset"),
    (b"MSAVE", "save the cells"),
    // The commands with one more field: a value, or the question mark.
    (b"LOOP:I", "choose loop I"),
    (b"loop:v", "choose loop V"),
    (b"LOOP:?", "tell the present loop"),
    (b"MWI:10.5875", "set loop I to 10.5875 at once"),
    (b"mwi:-0", "set loop I to 0 at once"),
    (b"MWI:?", "tell the target of loop I, asked by MWI"),
    (b"MWIR:-1", "ramp loop I to -1"),
    (b"MwIr:?", "tell the target of loop I, asked by MWIR"),
    (b"MWV:007.50", "set loop V to 7.5 at once"),
    (b"MWV:?", "tell the target of loop V, asked by MWV"),
    (b"MWVR:2", "ramp loop V to 2"),
    (b"MWVR:?", "tell the target of loop V, asked by MWVR"),
    (b"MSRI:10", "set the rate of loop I to 10"),
    (b"MSRI:?", "tell the rate of loop I"),
    (b"MSRV:0.5", "set the rate of loop V to 0.5"),
    (b"MSRV:?", "tell the rate of loop V"),
    (b"MSRV:-3", "set the rate of loop V to -3"),
    // Passwords: any field but the question mark.
    (b"PASSWORD:ps-admin", "give a password"),
    (b"PASSWORD:LOCK", "give a password"),
    (b"PASSWORD:abcdefghijklmnopqrstuvwx", "give a password"),
    (
        b"PASSWORD:abcdefghijklmnopqrstuvwxy",
        "give a password that is no text",
    ),
    (b"PASSWORD:", "give a password that is no text"),
    (b"PASSWORD:??", "give a password that is no text"),
    (b"PASSWORD:a\nb", "give a password that is no text"),
    (b"PASSWORD:\x00", "give a password that is no text"),
    (b"PASSWORD:\xff", "give a password that is no text"),
    (b"password:?", "tell the access"),
    // Cells.
    (b"MWG:011:5", "write 5 to cell 11"),
    (b"MWG:127:-9999.999999", "write -9999.999999 to cell 127"),
    (b"MWG:90:0X3", "write 0x3 to cell 90"),
    (b"MWG:91:0x00000000", "write 0x0 to cell 91"),
    (b"MWG:1:HALL B, Q7", "write HALL B, Q7 to cell 1"),
    (b"MWG:000:MB", "write MB to cell 0"),
    (b"mwg:16:Secret", "write a password to cell 16"),
    (b"MRG:100", "tell cell 100"),
    (b"MRG:100:?", "tell cell 100"),
    (b"mrg:016", "tell cell 16"),
    // The other questions.
    (b"MST:?", "tell the status"),
    (b"MRI:?", "tell the current"),
    (b"MRV:?", "tell the voltage"),
    (b"VER:?", "tell the version"),
    (b"MRID", "tell the identification"),
    (b"mrid:?", "tell the identification"),
    (b"MRT:?", "tell the highest temperature"),
    (b"MRT:NUM:?", "tell the number of sensors"),
    (b"mrt:nUm:?", "tell the number of sensors"),
    (b"MRT:1:?", "tell the temperature of sensor 1"),
    (b"MRT:001:?", "tell the temperature of sensor 1"),
];

// Lines that are refused there whatever the circumstances, and the number of the refusal.
static REFUSED: [(&[u8], u8); 116] = [
    // The first field is no command.
    (b"", 1),
    (b":", 1),
    (b"XYZ", 1),
    (b"MO", 1),
    (b"MONX", 1),
    (b"\x20MON", 1),
    (b"MON\x20", 1),
    (b"MON\x00", 1),
    (b"MON\n", 1),
    (b"\xffMON", 1),
    (b"MO\xce", 1),
    (b"?:?", 1),
    (b"XYZ:1:2:3:4", 1),
    // Too few fields.
    (b"LOOP", 4),
    (b"MWI", 4),
    (b"MWIR", 4),
    (b"MWV", 4),
    (b"MWVR", 4),
    (b"MSRI", 4),
    (b"MSRV", 4),
    (b"PASSWORD", 4),
    (b"MST", 4),
    (b"MRI", 4),
    (b"MRV", 4),
    (b"VER", 4),
    (b"MWG", 4),
    (b"MWG:100", 4),
    (b"MWG:x", 4),
    (b"MRG", 4),
    (b"MRT", 4),
    // Too many fields.
    (b"MON:", 2),
    (b"MOFF:?", 2),
    (b"MRESET:1", 2),
    (b"MSAVE::", 2),
    (b"LOOP:I:", 2),
    (b"MWI:1:2", 2),
    (b"MWIR:?:", 2),
    (b"MWV:1:", 2),
    (b"MWVR:1:2:3", 2),
    (b"MSRI:1:?", 2),
    (b"MSRV::", 2),
    (b"PASSWORD:a:b", 2),
    (b"MST:?:", 2),
    (b"MRI:?:?", 2),
    (b"MRV:?:", 2),
    (b"VER:?:?", 2),
    (b"MRID:?:", 2),
    (b"MWG:100:1:", 2),
    (b"MWG:1:a:b", 2),
    (b"MRG:100:?:", 2),
    (b"MRT:1:?:?", 2),
    // A field is not the wanted word or digits.
    (b"LOOP:", 2),
    (b"LOOP:X", 2),
    (b"LOOP:IV", 2),
    (b"LOOP:\xc9", 2),
    (b"MST:", 2),
    (b"MST:!", 2),
    (b"MST:?\n", 2),
    (b"MRI:1", 2),
    (b"MRV:??", 2),
    (b"VER:\x20?", 2),
    (b"MRID:", 2),
    (b"MRID:1", 2),
    (b"MRG:", 2),
    (b"MRG:-1", 2),
    (b"MRG:1A", 2),
    (b"MRG:1\x00", 2),
    (b"MRG:0100", 2),
    (b"MRG:1000", 2),
    (b"MRG:100:", 2),
    (b"MRG:7:!", 2),
    (b"MWG::1", 2),
    (b"MWG:-1:1", 2),
    (b"MWG:0100:1", 2),
    (b"MWG:?:1", 2),
    (b"MRT:", 2),
    (b"MRT:NUM", 2),
    (b"MRT:1", 2),
    (b"MRT:NUM:", 2),
    (b"MRT:NUMB:?", 2),
    (b"MRT::?", 2),
    (b"MRT:0001:?", 2),
    (b"MRT:1:", 2),
    (b"MRT:9:!", 2),
    // No such cell, no such sensor.
    (b"MRG:7", 3),
    (b"MRG:128:?", 3),
    (b"MRG:999", 3),
    (b"MWG:2:abc", 3),
    (b"MWG:17:?", 3),
    (b"MRT:0:?", 3),
    (b"MRT:2:?", 3),
    (b"MRT:999:?", 3),
    // A number is wanted.
    (b"MWI:", 12),
    (b"MWI:10000", 12),
    (b"MWI:??", 12),
    (b"MWI:1\n", 12),
    (b"MWIR:1e3", 12),
    (b"MWV:+1", 12),
    (b"MWVR:1.", 12),
    (b"MSRI:.5", 12),
    (b"MSRI:\xff", 12),
    (b"MSRV:1,5", 12),
    (b"MWG:100:?", 12),
    (b"MWG:10:0x3", 12),
    (b"MWG:14:", 12),
    // A mask or a text is malformed.
    (b"MWG:90:?", 2),
    (b"MWG:90:3", 2),
    (b"MWG:90:0x", 2),
    (b"MWG:91:0x4", 2),
    (b"MWG:1:", 2),
    (b"MWG:1:?", 2),
    (b"MWG:1:abcdefghijklmnopqrstuvwxy", 2),
    (b"MWG:0:tab\there", 2),
    (b"MWG:1:\xc4", 2),
    (b"MWG:16:lock", 2),
    (b"MWG:16:User", 2),
];

// Lines at modules of so many sensors.
static SENSORS: [(u8, &[u8], Result<&str, u8>); 6] = [
    (4, b"MRT:4:?", Ok("tell the temperature of sensor 4")),
    (4, b"MRT:5:?", Err(3)),
    (8, b"MRT:008:?", Ok("tell the temperature of sensor 8")),
    (8, b"MRT:9:?", Err(3)),
    (8, b"MRT:264:?", Err(3)),
    (8, b"MRT:0:?", Err(3)),
];

// An outcome as text: what is asked, or the number of the refusal.
fn told(heap: Global, outcome: Result<impl Display + Drop, u8>) -> Result<String, AllocError> {
    match outcome {
        Ok(asked) => format!(in heap; "{asked}"),
        Err(number) => format!(in heap; "refused {number}"),
    }
}

// That an outcome is the wanted one; a failure shows the line.
pub(crate) fn compare(
    rt: &(impl Abort + AllocGlobal),
    line: &[u8],
    outcome: Result<Request, LineRefusal>,
    wanted: Result<&str, u8>,
) -> Result<(), Fail> {
    let typed = std::str::from_utf8(line).unwrap_or("(not text)");
    let outcome = told(rt.alloc(), outcome.map_err(LineRefusal::number))?;
    let wanted = told(rt.alloc(), wanted)?;
    assert_eq!(rt; outcome, wanted, "{}", typed);
    Ok(())
}

#[test]
fn read(rt: HostRuntime) -> Result<(), Fail> {
    for (line, asked) in &READ {
        compare(&rt, line, read_line(line, 1), Ok(*asked))?;
    }
    for (line, number) in &REFUSED {
        compare(&rt, line, read_line(line, 1), Err(*number))?;
    }
    for (sensors, line, wanted) in &SENSORS {
        compare(&rt, line, read_line(line, *sensors), *wanted)?;
    }
    Ok(())
}

// A line of 1,024 bytes is read, and one of 1,025 is refused before anything else is looked at.
#[test]
fn long_lines(rt: HostRuntime) -> Result<(), Fail> {
    let mut line = [b'x'; 1025];
    compare(&rt, b"1,025 x", read_line(&line, 1), Err(99))?;
    compare(&rt, b"1,024 x", read_line(&line[0..1024], 1), Err(1))?;
    line[0..9].copy_from_slice(b"PASSWORD:");
    compare(&rt, b"1,025 bytes", read_line(&line, 1), Err(99))?;
    compare(
        &rt,
        b"1,024 bytes",
        read_line(&line[0..1024], 1),
        Ok("give a password that is no text"),
    )
}
