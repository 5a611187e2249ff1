// Whether a request is accepted in these circumstances: the grounds of a request, in their order.
ghost use Rattle.std.specs.Prelude.{◌≡◌, not, pos, if◌then◌else◌, Some, int_lt};
ghost use Rattle.cells.specs.Values.{lawful, value_of};
ghost use Rattle.cells.specs.declared.roles.Role.TheVariants.{RateI};
ghost use Rattle.grammar.specs.Texts.{bytes_of};
ghost use Rattle.std.specs.Option.{option_map};
ghost use Rattle.request.specs.Facts.{facts_of};
ghost use Rattle.request.specs.Forms.{that};
ghost use Rattle.request.specs.Grounds.{Admits, on_ground, request_refusal, further_refusal, matched, may_write};
ghost use Rattle.request.specs.Requests.{request_of, switch_on, save, choose_loop, setpoint, write_cell, password, ask, rate_in};
ghost use Rattle.request.specs.declared.refusals.LineRefusal.TheVariants.{WhileOn, OutsideRating, RateNotPositive};
ghost use Rattle.request.specs.declared.requests.Question.TheVariants.{Cell as OfCell};

use crate::facts::{comes_from, is_within};
use cells::{CellValue, Ratings, Role, Writer};
use grammar::{Quantity, Text, same_word};
use power::Loop;
use request::{
    Access, Approach, Cell, Circumstances, Control, LineRefusal, Origin, Question, Request,
};

// Nothing where the request is accepted, else the first ground against it.
pub fn decide(request: &Request, c: &Circumstances) -> Result<(), LineRefusal>
    ensures cases { Admits (request_refusal (facts_of c.now) (request_of request.now)) result }
{
    // All but the questions are writes.
    if !matches!(request, Request::Ask(_)) {
        refuse_if(
            comes_from(c, Origin::Panel, Control::Remote),
            LineRefusal::PanelInRemote,
        )?;
        refuse_if(
            comes_from(c, Origin::Socket, Control::Local),
            LineRefusal::SocketInLocal,
        )?;
    }
    decide_further(request, c)
}

// Refuses on this ground where it holds.
fn refuse_if(holds: bool, on: LineRefusal) -> Result<(), LineRefusal>
    ensures cases { Admits (on_ground holds on) result }
{
    if holds { Err(on) } else { Ok(()) }
}

// The grounds past those of control. A match, which has to be complete, and no table of functions: each kind of
// request has other parts.
fn decide_further(request: &Request, c: &Circumstances) -> Result<(), LineRefusal>
    ensures cases { Admits (further_refusal (facts_of c.now) (request_of request.now)) result }
{
    match *request {
        Request::SwitchOn => decide_switch_on(c),
        Request::ChooseLoop(choice) => decide_loop(choice, c),
        Request::Setpoint(of, approach, v) => decide_setpoint(of, approach, v, c),
        Request::SetRate(_, v) => decide_rate(v),
        Request::WriteCell(cell, value) => decide_write(cell, value, c),
        Request::Save => decide_save(c),
        Request::Password(word) => decide_password(word, c),
        Request::Ask(Question::Cell(cell)) => decide_read(cell, c),
        Request::SwitchOff | Request::Reset | Request::Ask(_) => Ok(()),
    }
}

fn decide_switch_on(c: &Circumstances) -> Result<(), LineRefusal>
    ensures cases { Admits (further_refusal (facts_of c.now) switch_on) result }
{
    refuse_if(c.tripped, LineRefusal::TripStanding)?;
    refuse_if(c.on, LineRefusal::WhileOn)
}

fn decide_save(c: &Circumstances) -> Result<(), LineRefusal>
    ensures cases { Admits (further_refusal (facts_of c.now) save) result }
{
    refuse_if(!c.able, LineRefusal::Unable)
}

fn decide_loop(choice: Loop, c: &Circumstances) -> Result<(), LineRefusal>
    ensures cases { Admits (further_refusal (facts_of c.now) (choose_loop choice)) result }
{
    refuse_if(c.on, LineRefusal::WhileOn)?;
    refuse_if(choice == c.present, LineRefusal::SameLoop)
}

fn decide_setpoint(
    of: Loop,
    approach: Approach,
    v: Quantity,
    c: &Circumstances,
) -> Result<(), LineRefusal>
    ensures cases { Admits (further_refusal (facts_of c.now) (setpoint of approach v.millionths)) result }
{
    refuse_if(of != c.present, LineRefusal::OtherLoop)?;
    refuse_if(!c.on, LineRefusal::WhileOff)?;
    refuse_if(!is_within(&c.rated, of, v), LineRefusal::OutsideRating)?;
    refuse_if(!is_within(&c.limits, of, v), LineRefusal::OutsideLimits)
}

fn decide_rate(v: Quantity) -> Result<(), LineRefusal>
    ensures cases { Admits (on_ground (not (int_lt (pos 0) v.millionths)) RateNotPositive) result }
{
    refuse_if(v.millionths() <= 0, LineRefusal::RateNotPositive)
}

fn decide_password(word: Option<Text>, c: &Circumstances) -> Result<(), LineRefusal>
    ensures cases { Admits (further_refusal (facts_of c.now) (password (option_map bytes_of word))) result }
{
    refuse_if(!matches_any(word, &c.password), LineRefusal::NoMatch)
}

// Whether a word is LOCK, USER or the password, in any letter case.
fn matches_any(word: Option<Text>, key: &Text) -> bool
    ensures value { result ≡ matched (option_map bytes_of word) (bytes_of key.now) }
{
    word.is_some_and(|text| {
        let word = text.as_bytes();
        same_word(word, b"LOCK") || same_word(word, b"USER") || same_word(word, key.as_bytes())
    })
}

// A USER does not read the password.
fn decide_read(cell: Cell, c: &Circumstances) -> Result<(), LineRefusal>
    ensures cases { Admits (further_refusal (facts_of c.now) (ask (OfCell cell))) result }
{
    refuse_if(
        cell.role == Role::Password && c.access != Access::Admin,
        LineRefusal::NotAllowed,
    )
}

fn decide_write(cell: Cell, value: CellValue, c: &Circumstances) -> Result<(), LineRefusal>
    ensures cases { Admits (further_refusal (facts_of c.now) (write_cell cell (value_of value))) result }
{
    let allowed = may_write(cell.role.writer(), c.access == Access::Admin);
    refuse_if(!allowed, LineRefusal::NotAllowed)?;
    // A match, and no table of functions: a limit goes by the circumstances, a start rate does not, and other cells
    // have no ground of their own.
    match cell.role {
        Role::LowI | Role::HighI | Role::LowV | Role::HighV => decide_limit(cell.role, value, c),
        Role::RateI | Role::RateV => decide_start_rate(value),
        _ => Ok(()),
    }
}

// A software limit, for a seat that may write it.
fn decide_limit(role: Role, value: CellValue, c: &Circumstances) -> Result<(), LineRefusal>
    ensures cases { Admits (if c.now.on then Some WhileOn else on_ground (not (lawful c.now.rated role (value_of value))) OutsideRating) result }
{
    refuse_if(c.on, LineRefusal::WhileOn)?;
    refuse_if(
        !is_lawful(role, &c.rated, value),
        LineRefusal::OutsideRating,
    )
}

// A start rate, for a seat that may write it.
fn decide_start_rate(value: CellValue) -> Result<(), LineRefusal>
    ensures cases { Admits (on_ground (that (rate_in RateI (value_of value)) (λ v. not (int_lt (pos 0) v))) RateNotPositive) result }
{
    match value {
        CellValue::Number(v) => decide_rate(v),
        CellValue::Mask(_) | CellValue::Text(_) => Ok(()),
    }
}

fn may_write(writer: Writer, admin: bool) -> bool
    ensures value { result ≡ may_write writer admin }
{
    match writer {
        Writer::Nobody => false,
        Writer::Admin => admin,
        Writer::User => true,
    }
}

// Over cells' values, where the cells' own `lawful_value` goes by raw ones.
fn is_lawful(role: Role, rated: &Ratings, value: CellValue) -> bool
    ensures value { result ≡ lawful rated.now role (value_of value) }
{
    match value {
        CellValue::Number(v) => role.is_lawful_number(rated, v.millionths()),
        CellValue::Mask(m) => role.is_lawful_mask(m),
        CellValue::Text(text) => role.is_lawful_text(text.as_bytes()),
    }
}
