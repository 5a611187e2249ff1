// From the bytes of a line to what it asks: the grounds of the line, in their order.
ghost use Rattle.std.specs.Prelude.{◌≡◌, ℤ, not, [], Some};
ghost use Rattle.request.specs.Forms.{form, is_query};
ghost use Rattle.request.specs.Grounds.{Reads, ReadsFields, ReadsNumber, on_ground, line_refusal, field_refusal};
ghost use Rattle.request.specs.Lines.{parsed, asked, requested, SetsTo};
ghost use Rattle.request.specs.Requests.{Request as Meant, request_of, setpoint, set_rate, ask};
ghost use Rattle.request.specs.declared.commands.Command.TheVariants.{Mrid, Mrg, Mrt, Mwg, Loop as LOOP, Password as PASSWORD};
ghost use Rattle.request.specs.declared.refusals.LineRefusal.TheVariants.{WrongField};
ghost use Rattle.request.specs.declared.requests.Question.TheVariants.{Target, Rate};

use crate::words::{find_cell, is_query, read_loop, read_value, read_word, sensor_exists};
use grammar::{Fields, Quantity, read_index, read_number, same_word, split_fields};
use power::Loop;
use request::{Approach, Command, LineRefusal, Question, Request};

const LONGEST_LINE: usize = 1024;

// What a line asks of a module with so many sensors, or the first ground of the line against it.
pub fn read_line(line: &[u8], sensors: u8) -> Result<Request, LineRefusal>
    ensures cases { Reads request_of (line_refusal sensors (parsed line.now)) (asked (parsed line.now)) result }
{
    if line.len() > LONGEST_LINE {
        return Err(LineRefusal::LongLine);
    }
    let fields = split_fields(line);
    let command = Command::named(fields.first).ok_or(LineRefusal::NoCommand)?;
    let counts = field_counts(command);
    if fields.count < counts.fewest {
        return Err(LineRefusal::FewFields);
    }
    if fields.count > counts.most {
        return Err(LineRefusal::WrongField);
    }
    read_fields(command, sensors, &fields)
}

// What a command with these fields asks; there are as many as it may have.
// A match, which has to be complete, and no table of functions: the commands want different fields.
fn read_fields(command: Command, sensors: u8, fields: &Fields<'_>) -> Result<Request, LineRefusal>
    ensures cases { ReadsFields sensors command fields.now result }
{
    match command {
        Command::Mon => Ok(Request::SwitchOn),
        Command::Moff => Ok(Request::SwitchOff),
        Command::Mreset => Ok(Request::Reset),
        Command::Msave => Ok(Request::Save),
        Command::Loop => read_loop_field(fields.second),
        Command::Mwi => read_setpoint(Loop::I, Approach::AtOnce, fields.second),
        Command::Mwir => read_setpoint(Loop::I, Approach::Ramp, fields.second),
        Command::Mwv => read_setpoint(Loop::V, Approach::AtOnce, fields.second),
        Command::Mwvr => read_setpoint(Loop::V, Approach::Ramp, fields.second),
        Command::Msri => read_rate(Loop::I, fields.second),
        Command::Msrv => read_rate(Loop::V, fields.second),
        Command::Mwg => read_cell_write(fields),
        Command::Password => Ok(read_password(fields.second)),
        Command::Mst => read_query(Question::Status, fields.second),
        Command::Mri => read_query(Question::Current, fields.second),
        Command::Mrv => read_query(Question::Voltage, fields.second),
        Command::Ver => read_query(Question::Version, fields.second),
        Command::Mrid => read_identification(fields),
        Command::Mrg => read_cell_query(fields),
        Command::Mrt => read_sensor_query(sensors, fields),
    }
}

// A question, whose field has to be the question mark.
fn read_query(question: Question, field: &[u8]) -> Result<Request, LineRefusal>
    ensures cases { Reads request_of (on_ground (not (is_query field.now)) WrongField) (Some (ask question)) result }
{
    if !is_query(field) {
        return Err(LineRefusal::WrongField);
    }
    Ok(Request::Ask(question))
}

fn read_loop_field(field: &[u8]) -> Result<Request, LineRefusal>
    ensures cases { Reads request_of (field_refusal 0 LOOP 2 field.now []) (requested LOOP 2 field.now []) result }
{
    if is_query(field) {
        return Ok(Request::Ask(Question::PresentLoop));
    }
    let choice = read_loop(field).ok_or(LineRefusal::WrongField)?;
    Ok(Request::ChooseLoop(choice))
}

// A setpoint, or the question for it.
fn read_setpoint(of: Loop, approach: Approach, field: &[u8]) -> Result<Request, LineRefusal>
    ensures cases { ReadsNumber (Target of approach) (setpoint of approach) field.now result }
{
    let question = Question::Target(of, approach);
    read_number_or_query(field, question, |v| Request::Setpoint(of, approach, v))
}

// A rate, or the question for it.
fn read_rate(of: Loop, field: &[u8]) -> Result<Request, LineRefusal>
    ensures cases { ReadsNumber (Rate of) (set_rate of) field.now result }
{
    read_number_or_query(field, Question::Rate(of), |v| Request::SetRate(of, v))
}

// A number that is to be set, or the question for it.
fn read_number_or_query<F: FnOnce(Quantity) -> Request>(
    field: &[u8],
    question: Question,
    set: F,
) -> Result<Request, LineRefusal>
    requires { F.IsAlwaysCallable set }
    ensures cases { (meaning : ℤ → Meant) → SetsTo (F.post set) meaning → ReadsNumber question meaning field.now result }
{
    if is_query(field) {
        return Ok(Request::Ask(question));
    }
    let v = read_number(field).ok_or(LineRefusal::NoNumber)?;
    Ok(set(v))
}

// Anything but the question mark is a password, right or wrong.
fn read_password(field: &[u8]) -> Request
    ensures value { Some (request_of result) ≡ requested PASSWORD 2 field.now [] }
{
    if is_query(field) {
        Request::Ask(Question::Access)
    } else {
        Request::Password(read_word(field))
    }
}

// The question mark may be left out.
fn read_identification(fields: &Fields<'_>) -> Result<Request, LineRefusal>
    ensures cases { ReadsFields 0 Mrid fields.now result }
{
    if fields.count > 1 && !is_query(fields.second) {
        return Err(LineRefusal::WrongField);
    }
    Ok(Request::Ask(Question::Identification))
}

// Here too.
fn read_cell_query(fields: &Fields<'_>) -> Result<Request, LineRefusal>
    ensures cases { ReadsFields 0 Mrg fields.now result }
{
    let index = read_index(fields.second).ok_or(LineRefusal::WrongField)?;
    if fields.count > 2 && !is_query(fields.third) {
        return Err(LineRefusal::WrongField);
    }
    let cell = find_cell(index).ok_or(LineRefusal::NoSuch)?;
    Ok(Request::Ask(Question::Cell(cell)))
}

// Of two fields the hottest sensor; of three their number, or one of them.
#[tactic(auto, unfolding(request::specs::Forms::is_num))]
fn read_sensor_query(sensors: u8, fields: &Fields<'_>) -> Result<Request, LineRefusal>
    ensures cases { ReadsFields sensors Mrt fields.now result }
{
    if fields.count <= 2 {
        return read_query(Question::Hottest, fields.second);
    }
    if !is_query(fields.third) {
        return Err(LineRefusal::WrongField);
    }
    if same_word(fields.second, b"NUM") {
        return Ok(Request::Ask(Question::SensorCount));
    }
    let index = read_index(fields.second).ok_or(LineRefusal::WrongField)?;
    if !sensor_exists(sensors, index) {
        return Err(LineRefusal::NoSuch);
    }
    Ok(Request::Ask(Question::Sensor(index as u8)))
}

fn read_cell_write(fields: &Fields<'_>) -> Result<Request, LineRefusal>
    ensures cases { ReadsFields 0 Mwg fields.now result }
{
    let index = read_index(fields.second).ok_or(LineRefusal::WrongField)?;
    let cell = find_cell(index).ok_or(LineRefusal::NoSuch)?;
    let value = read_value(cell.role, fields.third)?;
    Ok(Request::WriteCell(cell, value))
}

// How many fields a line has at least and at most, its command counted.
#[derive(Clone, Copy)]
struct FieldCounts {
    fewest: usize,
    most: usize,
}

// How many fields a line of this command may have.
fn field_counts(command: Command) -> FieldCounts
    ensures fewest { result.fewest ≡ (form command).fewest }
    ensures most { result.most ≡ (form command).most }
{
    let (fewest, most) = match command {
        Command::Mon | Command::Moff | Command::Mreset | Command::Msave => (1, 1),
        Command::Mrid => (1, 2),
        Command::Mrg | Command::Mrt => (2, 3),
        Command::Mwg => (3, 3),
        _ => (2, 2),
    };
    FieldCounts { fewest, most }
}
