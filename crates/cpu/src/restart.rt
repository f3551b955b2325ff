//! A restart.

ghost use Rattle.std.specs.Prelude.{◌≡◌, ◌<◌};
ghost use Rattle.space.specs.Cells.{put_channel};
ghost use Rattle.cpu.specs.Restarts.{cleared, cleared_channels, restarted};
ghost use Rattle.cpu.specs.State.{Scenario, FitsRun};

use crate::machine::{FIRST_ADDRESS, Machine};
use space::{Chan, Eras};
use words::Wide;

impl Machine {
    /// What the computer does by itself when its checks fail or its power comes back: it goes on at 4000, with
    /// interrupts inhibited and none asked for; what waited is forgotten and the output channels hold 0. All else
    /// stays.
    #[tactic(auto, unfolding(crate::specs::Restarts::restarted))]
    pub fn restart(&mut self)
        ensures state { self.new ≡ restarted self.old }
        ensures fits { (scenario : Scenario) → FitsRun scenario self.old → FitsRun scenario self.new }
    {
        self.put(Eras::Z, Wide::of_u16(FIRST_ADDRESS));
        self.clear_channels();
        self.end_instruction(false, self.cycles());
        self.set_inhibit(true);
        self.set_inside(false);
        self.use_up();
        self.withdraw_all();
    }

    /// Stores 0 on each of those channels.
    #[tactic(auto, unfolding(crate::specs::Restarts::cleared))]
    fn clear_channels(&mut self)
        ensures { self.new ≡ record self.old { cells = cleared self.old.cells cleared_channels } }
    {
        self.clear(0o5);
        self.clear(0o6);
        self.clear(0o10);
        self.clear(0o11);
        self.clear(0o12);
        self.clear(0o13);
        self.clear(0o14);
        self.clear(0o34);
        self.clear(0o35);
    }

    /// Stores 0 on a channel.
    fn clear(&mut self, channel: u16)
        requires { channel < 0o1000 }
        ensures { self.new ≡ record self.old { cells = put_channel self.old.cells channel 0 } }
    {
        self.set_channel(Chan::of_low_bits(channel), Wide::of_u16(0));
    }
}
