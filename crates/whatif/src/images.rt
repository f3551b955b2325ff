//! The machines that trials hold.

ghost use Rattle.std.specs.Prelude.{◌≡◌, ◌<◌};
ghost use Rattle.whatif.specs.Images.{less_image, most_images, no_images, with_image};

/// How many machines are held, and the most that were at once.
#[derive(Clone, Copy, PartialEq, Eq, Debug)]
pub struct Images {
    /// How many are held.
    pub held: u64,
    /// The most that were at once.
    pub most: u64,
}

impl Images {
    /// None.
    pub fn none() -> Images
        ensures { result ≡ no_images }
    {
        Images { held: 0, most: 0 }
    }

    /// One more is held.
    pub fn take(&mut self)
        requires { self.old.held < most_images }
        ensures { self.new ≡ with_image self.old }
    {
        self.held += 1;
        self.most = self.most.max(self.held);
    }

    /// One is let go.
    pub fn give(&mut self)
        requires { 0 < self.old.held }
        ensures { self.new ≡ less_image self.old }
    {
        self.held -= 1;
    }
}
