// A power module with the standard ratings, whatever plant it is connected to.
ghost use Rattle.std.specs.Prelude.{◌≡◌};
ghost use Rattle.std.proofs.Common.{rules};
ghost use Rattle.power.specs.Meaning.{advanced};
ghost use Rattle.power.specs.Settings.{supply_meaning, start};

use crate::loops::Loop;
use crate::modules::{PowerModule, Refused};
use crate::plant::Plant;
use crate::ratings::standard_span;
use crate::setting::Setting;
use grammar::{Quantity, Span};

#[derive(Drop)]
pub struct Supply<P> {
    setting: Setting,
    plant: P,
}

impl<P: Plant> Supply<P> {
    // Off, in loop I, at demand 0.
    pub fn with_plant(plant: P) -> Supply<P>
        ensures value { supply_meaning P.readings result ≡ start (P.readings plant) }
        ensures kept { result.plant ≡ plant }
    {
        Supply {
            setting: Setting {
                on: false,
                chosen: Loop::I,
                demand: Quantity::clamped(0),
            },
            plant,
        }
    }
}

impl<P: Plant> PowerModule for Supply<P> {
    const SENSORS: u8 = P::SENSORS;

    ghost meaning = { supply_meaning P.readings };

    ghost SENSORS = { P.SENSORS };

    ghost counted = { P.counted };

    ghost lawful = { λ m. record {
      demand = (m.setting.demand.low, m.setting.demand.high);
      readings = P.sound m.plant;
      span_i = Prim.search rules;
      span_v = Prim.search rules;
    } };

    fn switch_on(&mut self) {
        self.setting.on = true;
    }

    fn switch_off(&mut self) {
        self.setting.demand = Quantity::clamped(0);
        self.setting.on = false;
    }

    fn choose_loop(&mut self, choice: Loop) -> Result<(), Refused> {
        if self.setting.on {
            return Err(Refused);
        }
        self.setting.chosen = choice;
        Ok(())
    }

    fn apply(&mut self, demand: Quantity) -> Result<(), Refused> {
        if !self.setting.on || !standard_span(self.setting.chosen).contains(demand) {
            return Err(Refused);
        }
        self.setting.demand = demand;
        Ok(())
    }

    fn advance(&mut self)
        ensures after { supply_meaning P.readings self.new ≡ advanced (supply_meaning P.readings self.old) (P.readings self.new.plant) }
        ensures step { P.steps self.old.setting self.old.plant self.new.plant }
    {
        self.plant.advance(self.setting);
    }

    fn is_on(&self) -> bool {
        self.setting.on
    }

    fn present_loop(&self) -> Loop {
        self.setting.chosen
    }

    fn demand(&self) -> Quantity {
        self.setting.demand
    }

    fn live_lines(&self) -> u32 {
        self.plant.lines()
    }

    fn current(&self) -> Quantity {
        self.plant.current()
    }

    fn voltage(&self) -> Quantity {
        self.plant.voltage()
    }

    fn temperature(&self, sensor: u8) -> Quantity {
        self.plant.temperature(sensor)
    }

    fn rated(&self, of: Loop) -> Span {
        standard_span(of)
    }
}
