// The kinds of block that have a directory: parameter, command and preset blocks have the same outer form.
ghost use Rattle.std.specs.Prelude.{◌≡◌};
ghost use Rattle.blocks.specs.Directory.{kind_number, record_length};

#[derive(Clone, Copy)]
pub enum Kind {
    Parameters = 1,
    Commands = 3,
    Presets = 4,
}

impl Kind {
    // What word 0 of the block has to be.
    pub fn number(self) -> u16
        ensures { result ≡ kind_number self }
    {
        self as u16
    }

    // How many words each of its records has.
    pub fn record_length(self) -> usize
        ensures { result ≡ record_length self }
    {
        match self {
            Kind::Parameters => 17,
            Kind::Commands | Kind::Presets => 3,
        }
    }
}
