//! Why a measurement gives no figures.
use ring_board::SubscribeFault;
use ring_counters::{IdFault, MakeFault as CountersFault};
use ring_ends::SplitFault;
use ring_rings::MakeFault;
use ring_service::SendFault;
use ring_storm::StormFault;
use std::alloc::{AllocError, AllocFailed};
use std::io;

/// Why a request gets `error` and this text.
#[derive(Clone, Copy)]
pub struct Fault(pub &'static str);

impl Fault {
    pub const NO_CONTENDER: Fault = Fault("no such contender at this size");

    pub const BAD_REQUEST: Fault = Fault("a word of the request is missing or no number");

    pub const NO_BUFFER: Fault = Fault("no buffer has this capacity, or memory ran out");

    pub const NO_STORM: Fault = Fault("the storm gives no report");

    pub const NO_SHARES: Fault = Fault("no shares are left, or memory ran out");

    pub const OUT_OF_MEMORY: Fault = Fault("out of memory");

    pub const NO_SYSTEM: Fault = Fault("clock or output cannot be used");
    /// A message was refused, or found no room if there has to be some.
    pub const REFUSED: Fault = Fault("a message was refused");
    /// This many tries were made in vain that another thread must have stopped.
    pub const STUCK: Fault = Fault("nothing came for a long time");
    /// A message that came is not the one that was sent.
    pub const WRONG_MESSAGE: Fault = Fault("a message is wrong");
}

impl From<MakeFault> for Fault {
    fn from(_fault: MakeFault) -> Fault {
        Fault::NO_BUFFER
    }
}

impl From<CountersFault> for Fault {
    fn from(_fault: CountersFault) -> Fault {
        Fault::NO_BUFFER
    }
}

impl From<SplitFault> for Fault {
    fn from(_fault: SplitFault) -> Fault {
        Fault::NO_SHARES
    }
}

impl From<SubscribeFault> for Fault {
    fn from(_fault: SubscribeFault) -> Fault {
        Fault::NO_SHARES
    }
}

impl From<SendFault> for Fault {
    fn from(_fault: SendFault) -> Fault {
        Fault::REFUSED
    }
}

impl From<IdFault> for Fault {
    fn from(_fault: IdFault) -> Fault {
        Fault::REFUSED
    }
}

impl From<StormFault> for Fault {
    fn from(_fault: StormFault) -> Fault {
        Fault::NO_STORM
    }
}

impl From<AllocError> for Fault {
    fn from(_error: AllocError) -> Fault {
        Fault::OUT_OF_MEMORY
    }
}

impl<T: Drop> From<AllocFailed<T>> for Fault {
    fn from(_error: AllocFailed<T>) -> Fault {
        Fault::OUT_OF_MEMORY
    }
}

impl From<io::Error> for Fault {
    fn from(_error: io::Error) -> Fault {
        Fault::NO_SYSTEM
    }
}
