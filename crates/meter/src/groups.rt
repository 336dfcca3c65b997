// The setup groups (paper 01, "The meter's record"). A meter keeps them and sends them back; of its measurements only the
// figures of request 1 depend on them, by the code of the window.
ghost use Rattle.std.specs.Prelude.{◌≡◌};
ghost use Rattle.meter.specs.Groups.{setup_ok, no_setup, code_of};

#[derive(Clone, Copy, Debug, PartialEq, Eq)]
pub struct Setup {
    // The words from 0x2000 on.
    pub standard: [u16; 16],
    // The words from 0x2200 on.
    pub output: [u16; 24],
}

impl Setup {
    // Where the code of the window stands in its group: at 0x200a.
    const CODE_AT: usize = 0x0a;

    // The setup of a new meter: every word 0.
    // Stays by hand: the default of an array tells each of its words, and that these are the words of the definition was a lemma more.
    pub(crate) fn blank() -> Setup
        ensures { result ≡ no_setup }
    {
        Setup {
            standard: [0; 16],
            output: [0; 24],
        }
    }

    pub(crate) fn within(self) -> bool
        ensures { result ≡ setup_ok self }
    {
        setup::standard_ok(self.standard) & setup::output_ok(self.output)
    }

    // The code of the window.
    pub(crate) fn code(self) -> u16
        ensures { result ≡ code_of self }
    {
        self.standard[Setup::CODE_AT]
    }
}
