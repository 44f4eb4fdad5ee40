//! Commands that are only a name.
//!
//! Each is one variant of `Lone`, and adding one changes five files (docs/FIRST-CHANGE.md adds
//! one).

ghost use Rattle.std.specs.Prelude.{◌≡◌};
ghost use Rattle.mc_protocol.specs.Lones.{closes};

/// A command that is only a name and takes no step (protocol.txt, "Other commands").
#[derive(Clone, Copy, Debug, PartialEq, Eq)]
pub enum Lone {
    Version,
    Quit,
}

impl Lone {
    /// Returns whether the command ends its stream.
    pub fn closes(self) -> bool
        ensures { result ≡ closes self }
    {
        match self {
            Lone::Version => false,
            Lone::Quit => true,
        }
    }
}
