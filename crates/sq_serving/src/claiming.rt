// Which pumps of an engine claim.
ghost use Rattle.std.specs.Prelude.{◌≡◌, ◌||◌, ◌==◌, false, if◌then◌else◌};
ghost use Rattle.sq_serving.specs.Claiming.{resumed, rests, claiming_pumps};

/// Which pumps of an engine claim: the first ones, unless all are paused.
#[derive(Clone, Copy, Debug)]
pub struct Claiming {
    /// How many pumps the engine has.
    pub all: u32,
    /// How many of them claim.
    pub first: u64,
    pub is_paused: bool,
}

impl Claiming {
    /// Each of `pumps` pumps.
    pub fn all(pumps: u32) -> Claiming
        ensures { result ≡ record { all = pumps; first = pumps; is_paused = false } }
    {
        Claiming {
            all: pumps,
            first: u64::from(pumps),
            is_paused: false,
        }
    }

    /// Lets the pumps go on, all of them if just none was to claim.
    pub fn resume(&mut self)
        ensures { self.new ≡ resumed self.old }
    {
        self.is_paused = false;
        if self.first == 0 {
            self.first = u64::from(self.all);
        }
    }

    /// Returns whether no pump claims.
    pub fn is_paused(self) -> bool
        ensures { result ≡ rests self }
    {
        self.is_paused || self.first == 0
    }

    /// Returns how many pumps claim.
    pub fn pumps(self) -> u64
        ensures { result ≡ claiming_pumps self }
    {
        if self.is_paused { 0 } else { self.first }
    }
}
