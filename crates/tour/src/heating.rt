// A magnet that is heated until its supply trips.
ghost use Rattle.power.specs.Magnets.{magnet_meaning};
ghost use Rattle.tour.specs.Heating.{RunsToTrip};

use power::{Magnet, PowerModule};

// Advances the magnet until a trip line is up, and answers after how many milliseconds that was.
// It gives up after `most`.
pub fn run_to_trip(magnet: &mut Magnet, most: u32) -> Option<u32>
    ensures cases { RunsToTrip (magnet_meaning magnet.old) most result (magnet_meaning magnet.new) }
{
    for n in 0..most {
        if magnet.live_lines() != 0 {
            return Some(n);
        }
        magnet.advance();
    }
    None
}
