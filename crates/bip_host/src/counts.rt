//! What actors count.
ghost use Rattle.std.specs.Prelude.{◌≡◌, true};
ghost use Rattle.bip_host.specs.Counts.{counted_up, with_posted};

/// What came of a message that was to be put.
#[derive(Clone, Copy, Debug, PartialEq, Eq)]
pub enum Posted {
    Sent,
    /// There was no memory for it.
    Lost,
}

/// What an actor has counted so far.
#[derive(Clone, Copy, Debug, Default, PartialEq, Eq)]
pub struct Counts {
    /// Of how many grants it went on to send the notifications.
    pub told: u64,
    /// How many messages it lost for want of memory.
    pub lost: u64,
    /// How many tokens and forks it sent.
    pub passes: u64,
    /// How many request tokens it sent.
    pub asks: u64,
    /// How many of its requests it heard to be refused.
    pub refusals: u64,
    /// How often a request of its found a row busy.
    pub busy: u64,
    /// Whether memory was wanted for a decision.
    pub wanted_memory: bool,
}

impl Counts {
    /// Counts a message that is lost, where it is.
    pub(crate) fn post(&mut self, posted: Posted)
        ensures { self.new ≡ with_posted posted self.old }
    {
        match posted {
            Posted::Sent => {}
            Posted::Lost => self.lose(),
        }
    }

    /// Counts a message that is lost.
    pub(crate) fn lose(&mut self)
        ensures { self.new ≡ record self.old { lost = counted_up self.old.lost } }
    {
        self.lost = self.lost.saturating_add(1);
    }

    /// Counts a grant whose notifications are sent.
    pub(crate) fn tell(&mut self)
        ensures { self.new ≡ record self.old { told = counted_up self.old.told } }
    {
        self.told = self.told.saturating_add(1);
    }

    /// Counts a token or a fork that is sent.
    pub(crate) fn pass(&mut self)
        ensures { self.new ≡ record self.old { passes = counted_up self.old.passes } }
    {
        self.passes = self.passes.saturating_add(1);
    }

    /// Counts a request token that is sent.
    pub(crate) fn ask(&mut self)
        ensures { self.new ≡ record self.old { asks = counted_up self.old.asks } }
    {
        self.asks = self.asks.saturating_add(1);
    }

    /// Counts a request that is refused.
    pub(crate) fn refuse(&mut self)
        ensures { self.new ≡ record self.old { refusals = counted_up self.old.refusals } }
    {
        self.refusals = self.refusals.saturating_add(1);
    }

    /// Counts a request that found a row busy.
    pub(crate) fn find_busy(&mut self)
        ensures { self.new ≡ record self.old { busy = counted_up self.old.busy } }
    {
        self.busy = self.busy.saturating_add(1);
    }

    /// Notes that memory was wanted.
    pub(crate) fn lack(&mut self)
        ensures { self.new ≡ record self.old { wanted_memory = true } }
    {
        self.wanted_memory = true;
    }
}
