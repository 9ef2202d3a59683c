ghost use Rattle.std.specs.Prelude.{◌≡◌, Ok, OnOk};
ghost use Rattle.xns_host.specs.Settings.{usual_settings, settings_answer, wrong_setting, is_within, AreTermsOf, IsFit, IsPaceOf};

use crate::host_fault::HostFault;
use crate::setting::Setting;
use xns_agenda::Pace;
use xns_connection::Terms;
use xns_spp::MOST_PENDING;

/// What a host is made with. Each has its range, which [`Settings::check`] asks. Times are in milliseconds.
#[derive(Clone, Copy, Debug, PartialEq, Eq)]
pub struct Settings {
    /// How many connections there are at most: 1 to 65,535.
    pub connections: usize,
    /// How many items a connection keeps until they are handed up: 1 to 64.
    pub window: usize,
    /// How many items a connection keeps until they are acknowledged: 1 to 64.
    pub backlog: usize,
    /// The first wait for an acknowledgement, where no time was measured: from 1.
    pub first_wait: u32,
    /// The longest wait: from `first_wait`.
    pub longest_wait: u32,
    /// How much longer a measured wait is than the measured time at least: 1 to `first_wait`.
    pub least_wait: u32,
    /// How long the peer may be silent before it is asked for a word, where nothing waits for it. 0: it is never asked, but after 10 seconds
    /// while a call wants its answer or the connection closes.
    pub idle: u32,
    /// How many packets go out in vain at least before a silent peer is given up: from 1.
    pub tries: u8,
    /// How long the waits in vain take together at least before a silent peer is given up: 1 to 86,400,000, a day.
    pub patience: u32,
    /// How many packets of no connection wait to go out at most: 1 to 1,024.
    pub strays: usize,
    /// Whether Echo requests are answered: of the programs at one station one should.
    pub answers_echo: bool,
    /// Whether the program is told, by an [`Event::Opened`](crate::Event::Opened), when the peer of a connection that it opened is there.
    pub tells_opened: bool,
}

impl Default for Settings {
    fn default() -> Settings
        ensures { result ≡ usual_settings }
    {
        Settings {
            connections: 64,
            window: 8,
            backlog: 16,
            first_wait: 250,
            longest_wait: 8_000,
            least_wait: 10,
            idle: Pace::USUAL_IDLE,
            tries: 8,
            patience: 32_000,
            strays: 16,
            answers_echo: true,
            tells_opened: false,
        }
    }
}

/// Whether a number is in a range.
fn is_within(low: usize, number: usize, high: usize) -> bool
    ensures { result ≡ is_within low number high }
{
    low <= number && number <= high
}

impl Settings {
    /// The first setting that is out of its range.
    fn wrong(&self) -> Option<Setting>
        ensures { result ≡ wrong_setting self.now }
    {
        if !is_within(1, self.connections, 65_535) {
            return Some(Setting::Connections);
        }
        if !is_within(1, self.window, MOST_PENDING) {
            return Some(Setting::Window);
        }
        if !is_within(1, self.backlog, MOST_PENDING) {
            return Some(Setting::Backlog);
        }
        if self.first_wait == 0 {
            return Some(Setting::FirstWait);
        }
        if self.longest_wait < self.first_wait {
            return Some(Setting::LongestWait);
        }
        if !is_within(1, self.least_wait as usize, self.first_wait as usize) {
            return Some(Setting::LeastWait);
        }
        if self.tries == 0 {
            return Some(Setting::Tries);
        }
        if !is_within(1, self.patience as usize, 86_400_000) {
            return Some(Setting::Patience);
        }
        if !is_within(1, self.strays, 1_024) {
            return Some(Setting::Strays);
        }
        None
    }

    /// Whether each setting is in its range. An `Err` is [`HostFault::OutOfRange`] with the first one that is not.
    pub fn check(&self) -> Result<(), HostFault>
        ensures answer { result ≡ settings_answer self.now }
        ensures fit { OnOk result (IsFit self.now) }
    {
        match self.wrong() {
            Some(setting) => Err(HostFault::OutOfRange { setting }),
            None => Ok(()),
        }
    }

    /// How long a connection waits.
    pub fn pace(&self) -> Pace
        requires { IsFit self.now }
        ensures { IsPaceOf self.now result }
    {
        Pace {
            first: self.first_wait,
            longest: self.longest_wait,
            least: self.least_wait,
            idle: self.idle,
            tries: self.tries,
            patience: self.patience,
        }
    }

    /// What a connection is made with.
    pub fn terms(&self) -> Terms
        requires { IsFit self.now }
        ensures { AreTermsOf self.now result }
    {
        Terms {
            window: self.window,
            backlog: self.backlog,
            pace: self.pace(),
        }
    }
}
