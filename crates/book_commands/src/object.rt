//! The objects that a run is handed.
ghost use Rattle.std.specs.Prelude.{◌≡◌};
ghost use Rattle.book_commands.specs.Numbers.{object_number};

/// An object that a run is handed, which counts its own faults.
#[derive(Clone, Copy)]
pub enum Object {
    /// From which the input is read.
    Source,
    /// From which certificates are read.
    Files,
    /// To which the text is written.
    Sink,
    /// Which keeps the rows of the desk.
    Keeper,
    /// Where connections come from.
    Door,
}

impl Object {
    /// The number of the object in a printed log.
    pub fn number(self) -> u8
        ensures { result ≡ object_number self }
    {
        match self {
            Object::Source => 1,
            Object::Files => 2,
            Object::Sink => 3,
            Object::Keeper => 4,
            Object::Door => 5,
        }
    }
}
