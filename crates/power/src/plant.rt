// What a supply is connected to: the part of a module that has readings, and that time changes.
ghost use Rattle.std.specs.Prelude.{◌≡◌, ℕ};
ghost use Rattle.power.specs.Meaning.{Readings, Counted, Sound, temperature_at};
ghost use Rattle.power.specs.declared.setting.Setting.{Setting};

use crate::setting::Setting;
use grammar::Quantity;

// A question answers its part and changes nothing.
pub trait Plant {
    // How many temperature sensors the plant has, 1 to 8.
    const SENSORS: u8;

    ghost SENSORS: { ℕ };

    ghost readings: { Self → Readings };

    // Whether an advance at this setting leads from one plant to the other.
    ghost steps: { Setting → Self → Self → Type 0 };

    // One millisecond.
    fn advance(&mut self, setting: Setting)
        ensures step { steps setting self.old self.new };

    // The trip lines that are up now, as bits of the status register.
    fn lines(&self) -> u32
        ensures value { result ≡ (readings self.now).lines };

    fn current(&self) -> Quantity
        ensures value { result.millionths ≡ (readings self.now).current };

    fn voltage(&self) -> Quantity
        ensures value { result.millionths ≡ (readings self.now).voltage };

    // Sensors count from 1; any other reads 0.
    fn temperature(&self, sensor: u8) -> Quantity
        ensures value { result.millionths ≡ temperature_at (readings self.now) sensor };

    ghost counted: { Counted SENSORS };

    ghost sound: { (p : Self) → Sound SENSORS (readings p) };
}
