// How a ramp moves.
ghost use Rattle.std.specs.Prelude.{◌≡◌, ◌+◌, ◌*◌, ◌<◌, ◌≤◌, map, ◌-ℤ◌, unsigned_abs};
ghost use Rattle.control.specs.Ramps.{course_of, begun, distance, pace_of, pace_in, ticked, ticked_by, towards, position, total, Ramped, Inside};

use super::Ramp;
use grammar::Quantity;

// Ticks in a second.
const TICKS: u64 = 1000;

impl Ramp {
    pub fn new(start: Quantity, target: Quantity) -> Ramp
        ensures value { course_of result ≡ begun start.millionths target.millionths }
    {
        Ramp {
            start,
            target,
            sum: 0,
        }
    }

    pub fn target(&self) -> Quantity
        ensures value { result.millionths ≡ (course_of self.now).target }
    {
        self.target
    }

    // One tick at this rate; a rate below zero moves nothing.
    pub fn tick(&mut self, rate: Quantity)
        ensures after { course_of self.new ≡ ticked (course_of self.old) (pace_of rate.millionths) }
    {
        let sum = self.sum + pace(rate);
        self.sum = sum.min(self.longest());
    }

    // Where the demand is now: between start and target.
    pub fn position(&self) -> Quantity
        ensures value { result.millionths ≡ position (course_of self.now) }
    {
        let start = self.start.millionths();
        let target = self.target.millionths();
        let at = moved(start, target, self.sum / TICKS);
        Quantity::clamped(at)
    }

    // A tick at each of these rates.
    pub fn run(&mut self, rates: &[Quantity])
        ensures after { course_of self.new ≡ ticked_by (course_of self.old) (map pace_in rates.now) }
        ensures run { Ramped (course_of self.old).start (course_of self.old).target ((course_of self.old).sum + total (map pace_in rates.now)) (position (course_of self.new)) }
    {
        for rate in rates {
            self.tick(*rate);
        }
    }

    // The sum at which the target is reached.
    fn longest(&self) -> u64
        ensures value { result ≡ 1000 * distance (course_of self.now) }
    {
        let way = self.target.millionths() - self.start.millionths();
        TICKS * way.unsigned_abs()
    }
}

// So far from a start towards a target, and no further than that.
fn moved(start: i64, target: i64, travel: u64) -> i64
    requires { (Inside start) × ((Inside target) × (travel ≤ unsigned_abs (target -ℤ start))) }
    ensures value { result ≡ towards start target travel }
    ensures inside { Inside result }
{
    if start <= target {
        start + travel as i64
    } else {
        start - travel as i64
    }
}

// What a rate adds in a tick.
fn pace(rate: Quantity) -> u64
    ensures value { result ≡ pace_of rate.millionths }
    ensures bound { result < 10000000000 }
{
    u64::try_from(rate.millionths()).unwrap_or(0)
}

// The demand after a tick at each of these rates, on a ramp from a start to a target.
pub fn demand_after(start: Quantity, target: Quantity, rates: &[Quantity]) -> Quantity
    ensures run { Ramped start.millionths target.millionths (total (map pace_in rates.now)) result.millionths }
{
    let mut ramp = Ramp::new(start, target);
    ramp.run(rates);
    ramp.position()
}
