ghost use Rattle.std.specs.Prelude.{◌≡◌};
ghost use Rattle.xns_c.specs.Settings.{given_or, idle_in, settings_in};

use xns_host::Settings;

/// What a host is made with. A field that is 0 has its default. Times are in milliseconds.
#[repr(C)]
#[derive(Clone, Copy)]
pub struct XnsSettings {
    /// How many connections there are at most.
    pub connections: usize,
    /// How many items a connection keeps until they are handed up.
    pub window: usize,
    /// How many items a connection keeps until they are acknowledged.
    pub backlog: usize,
    /// The first wait for an acknowledgement.
    pub first_wait: u32,
    /// The longest wait.
    pub longest_wait: u32,
    /// How long the peer may be silent before it is asked for a word. The largest number: it is never asked, unless a call wants its answer or
    /// the connection closes.
    pub idle: u32,
    /// How many packets go out in vain at least before a silent peer is given up.
    pub tries: u8,
    /// Whether Echo requests are left unanswered: 0 is no.
    pub no_echo: u8,
    /// How much longer a measured wait is than the measured time at least.
    pub least_wait: u16,
    /// Whether the program is told when a connection that it opened is confirmed: 0 is no.
    pub tells_opened: u8,
    /// How long the waits in vain take together at least before a silent peer is given up.
    pub patience: u32,
}

/// A number of things, or the usual one where it is 0.
fn count_in(given: usize, usual: usize) -> usize
    ensures { result ≡ given_or usual given }
{
    if given == 0 { usual } else { given }
}

/// A time, or the usual one where it is 0.
fn time_in(given: u32, usual: u32) -> u32
    ensures { result ≡ given_or usual given }
{
    if given == 0 { usual } else { given }
}

/// A short time, or the usual one where it is 0.
fn short_time_in(given: u16, usual: u32) -> u32
    ensures { result ≡ given_or usual given }
{
    if given == 0 { usual } else { u32::from(given) }
}

/// How many packets go out in vain, or the usual number where it is 0.
fn tries_in(given: u8, usual: u8) -> u8
    ensures { result ≡ given_or usual given }
{
    if given == 0 { usual } else { given }
}

/// How long the peer may be silent, which is 0 where it is never asked.
fn idle_in(given: u32, usual: u32) -> u32
    ensures { result ≡ idle_in usual given }
{
    if given == u32::MAX {
        return 0;
    }
    time_in(given, usual)
}

impl XnsSettings {
    ghost use Rattle.std.specs.Prelude.{◌≡◌};
    ghost use Rattle.xns_c.specs.Settings.{settings_in};

    /// The settings of a host that C's settings stand for.
    pub fn settings(&self) -> Settings
        ensures { result ≡ settings_in self.now }
    {
        let usual = Settings::default();
        let first_wait = time_in(self.first_wait, usual.first_wait);
        Settings {
            connections: count_in(self.connections, usual.connections),
            window: count_in(self.window, usual.window),
            backlog: count_in(self.backlog, usual.backlog),
            first_wait,
            longest_wait: time_in(self.longest_wait, usual.longest_wait),
            least_wait: short_time_in(self.least_wait, usual.least_wait.min(first_wait)),
            idle: idle_in(self.idle, usual.idle),
            tries: tries_in(self.tries, usual.tries),
            patience: time_in(self.patience, usual.patience),
            strays: usual.strays,
            answers_echo: self.no_echo == 0,
            tells_opened: self.tells_opened != 0,
        }
    }
}
