// Average power and its peak (paper 02, request 1): the average of the last full window, the largest since new, and the window
// that is open. Powers are in hundredths of W.
#![tactic(auto)]

ghost use Rattle.std.specs.Prelude.{◌≡◌, ◌<◌};
ghost use Rattle.average.specs.Windows.{coded_minutes, window_seconds, no_average, joined_by, mean_of, closed_by, after_second, recoded_by, minutes_of, average_ok};
ghost use Rattle.average.specs.Fits.{Joins};

use signed::Signed;

// In seconds.
const A_MINUTE: u16 = 60;

// The open window. By default it is just opened, and no second has joined it.
#[derive(Clone, Copy, Debug, Default, PartialEq, Eq)]
pub struct Window {
    // How many seconds have joined it.
    pub seconds: u16,
    // The sum of positive 3-phase P over them, in hundredths of a watt-second.
    pub sum: u64,
}

impl Window {
    // The window with one second more. A negative P adds 0 to its sum.
    // `Joins` stays a clause: it is of a window and a power together, and two functions ask it, one for the other.
    fn joined(self, p: Signed) -> Window
        requires { Joins self p }
        ensures { result ≡ joined_by self p }
    {
        Window {
            seconds: self.seconds + 1,
            sum: self.sum + p.above(),
        }
    }

    // The sum over the seconds, rounded down.
    fn mean(self) -> u64
        requires { 0 < self.seconds }
        ensures { result ≡ mean_of self }
    {
        self.sum / u64::from(self.seconds)
    }
}

// `last` and `peak` stay numbers, no Option: request 1 has 0 on a new meter, and sends it.
#[derive(Clone, Copy, Debug, Default, PartialEq, Eq)]
pub struct Average {
    pub window: Window,
    // The average of the last full window; 0 while there is none.
    pub last: u64,
    // The largest average of a full window since new; 0 while there is none.
    pub peak: u64,
}

impl Average {
    // The figures of a new meter: all 0.
    pub fn blank() -> Average
        ensures { result ≡ no_average }
    {
        Average::default()
    }

    // Whether the figures are within limits at a ratio of t tenths, in windows of the code at 0x200a.
    #[tactic(auto, unfolding(crate::specs::Windows::average_ok))]
    pub fn within(self, t: u32, code: u16) -> bool
        ensures { result ≡ average_ok t code self }
    {
        let limit = ratio::power_limit(t);
        self.window.seconds < window_seconds(code)
            && self.window.sum <= u64::from(self.window.seconds) * limit
            && self.last <= self.peak
            && self.peak <= limit
    }

    // The figures after one more second. The second that fills the window closes it and opens the next.
    #[tactic(auto, unfolding(crate::specs::Windows::after_second))]
    pub fn after(self, code: u16, p: Signed) -> Average
        requires { Joins self.window p }
        ensures { result ≡ after_second code self p }
    {
        let window = self.window.joined(p);
        if window.seconds < window_seconds(code) {
            Average { window, ..self }
        } else {
            self.closed(window)
        }
    }

    // The figures after a full window.
    fn closed(self, full: Window) -> Average
        requires { 0 < full.seconds }
        ensures { result ≡ closed_by self full }
    {
        let mean = full.mean();
        Average {
            window: Window::default(),
            last: mean,
            peak: self.peak.max(mean),
        }
    }

    // The figures when a code is stored at 0x200a: another one than before opens a new window.
    pub fn recoded(self, before: u16, after: u16) -> Average
        ensures { result ≡ recoded_by before after self }
    {
        if before == after {
            self
        } else {
            Average {
                window: Window::default(),
                ..self
            }
        }
    }

    // The whole minutes of the open window.
    pub fn minutes(self) -> u16
        ensures { result ≡ minutes_of self }
    {
        self.window.seconds / A_MINUTE
    }
}

// The minutes of a window by its code. The setup's ranges let no code above 6 through.
// The code stays a number, the word at 0x200a as a write stores it: in a record out of limits it may be any.
#[tactic(auto, unfolding(crate::specs::Windows::coded_minutes))]
fn coded_minutes(code: u16) -> u16
    ensures { result ≡ coded_minutes code }
{
    match code {
        0 => 5,
        1 => 8,
        2 => 10,
        3 => 15,
        4 => 20,
        5 => 30,
        _ => 60,
    }
}

// The accepted samples that fill a window, one a second.
#[tactic(auto, using(crate::proofs::Limits::coded_fits))]
fn window_seconds(code: u16) -> u16
    ensures { result ≡ window_seconds code }
{
    coded_minutes(code) * A_MINUTE
}
