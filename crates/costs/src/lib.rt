// What a job puts into a chain, defined: its costs at each position, S of each stretch, the time of a setting, its energy by two powers, and dearer jobs.
#![tactic(auto)]

ghost use Rattle.std.specs.Prelude.{◌≡◌};
ghost use Rattle.costs.specs.Energy.{plain};

// The powers at which a centre bills energy (request 106): one for computing and verifying, one for saving and recovering.
#[derive(Clone, Copy)]
pub struct Powers {
    pub computing: u64,
    pub saving: u64,
}

impl Powers {
    // The powers 1 and 1, by which energy is time.
    pub fn plain() -> Powers
        ensures { result ≡ plain }
    {
        Powers {
            computing: 1,
            saving: 1,
        }
    }
}
