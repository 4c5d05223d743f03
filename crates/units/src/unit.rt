ghost use Rattle.std.specs.Prelude.{◌≡◌};

// One element of a version: it can be copied, and its kind names a blank.
pub trait Unit: Copy {
    // the unit that stands where a table holds nothing
    ghost blank: { Self };

    fn blank() -> Self
        ensures { result ≡ blank };
}
