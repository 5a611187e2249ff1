// What circumstances say of a request.
ghost use Rattle.std.specs.Prelude.{◌≡◌, ◌&&◌};
ghost use Rattle.request.specs.Bounds.{bounds_of};
ghost use Rattle.request.specs.Facts.{same_origin, same_control, low_of, high_of, within};

use cells::{Ratings, Span};
use grammar::Quantity;
use power::Loop;
use request::{Circumstances, Control, Origin};

// Whether a line comes from there while control is so.
pub(crate) fn comes_from(c: &Circumstances, origin: Origin, control: Control) -> bool
    ensures value { result ≡ same_origin origin c.now.origin && same_control control c.now.control }
{
    c.origin == origin && c.control == control
}

// Whether a setpoint of this loop is inside the span that it has here, ends included.
pub(crate) fn is_within(spans: &Ratings, of: Loop, v: Quantity) -> bool
    ensures value { result ≡ within (bounds_of spans.now) of v.millionths }
{
    span_of(spans, of).contains(v)
}

fn span_of(spans: &Ratings, of: Loop) -> Span
    ensures low { result.low.millionths ≡ low_of (bounds_of spans.now) of }
    ensures high { result.high.millionths ≡ high_of (bounds_of spans.now) of }
{
    match of {
        Loop::I => spans.current,
        Loop::V => spans.voltage,
    }
}
