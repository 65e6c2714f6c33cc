// The modes of a field: which calls it has, and what an accepted house call leaves behind.
ghost use Rattle.std.specs.Prelude.{◌≡◌};

// A mode of a field.
pub trait Mode {
    // the mode after an accepted house call
    ghost counted: { Self → Self };

    // Counts an accepted house call.
    fn count(&mut self)
        ensures { self.new ≡ counted self.old };
}

// A field that works has all calls, and counts none.
#[derive(Clone, Copy)]
pub struct Working;

impl Mode for Working {
    ghost counted = { λ m. m };

    fn count(&mut self) {}
}
