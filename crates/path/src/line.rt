// The straight line from one number to another, in N steps.
ghost use Rattle.std.specs.Prelude.{◌≡◌, ◌<◌};
ghost use Rattle.path.specs.Path.{line, along};
ghost use Rattle.path.specs.Inside.{Steps, line_end};

// A line of n steps from one number to another.
#[derive(Clone, Copy)]
pub struct Line {
    pub n: u32,
    pub from: u32,
    pub to: u32,
}

impl Line {
    // N times the height of the line at step i: (N-i) from + i to.
    pub fn height(self, i: u32) -> u32
        requires { Steps self.n i × ((self.from < line_end) × (self.to < line_end)) }
        ensures { result ≡ line self.n self.from self.to i }
    {
        (self.n - i) * self.from + i * self.to
    }

    // The number that lies on the line at step i: ((N-i) from + i to) / N.
    #[tactic(auto, unfolding(crate::specs::Path::along))]
    pub(crate) fn at(self, i: u32) -> u32
        requires { Steps self.n i × ((self.from < line_end) × (self.to < line_end)) }
        ensures { result ≡ along self.n self.from self.to i }
    {
        self.height(i) / self.n
    }
}
