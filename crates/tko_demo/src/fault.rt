//! Why a demonstration ends.
ghost use Rattle.std.specs.Prelude.{◌≡◌};
ghost use Rattle.tko_demo.specs.Faults.{demo_fault_line};

use std::alloc::AllocError;
use tko_bytes::NoMemory;

/// Why a demonstration ends before its end.
#[derive(Clone, Copy, Debug, PartialEq, Eq)]
pub enum DemoFault {
    /// The system gives no port of 127.0.0.1, or not the one that a server had before.
    Port,
    /// The system gives no thread.
    Thread,
    /// A reply was not the one that the request must get, or none came.
    Reply,
    /// The input failed.
    Read,
    /// The output failed.
    Write,
    Memory,
}

impl DemoFault {
    /// The line that reports it, with its LF.
    pub(crate) fn line(self) -> &'static str
        ensures { result.now ≡ demo_fault_line self }
    {
        match self {
            DemoFault::Port => "fault: demo: no port of 127.0.0.1\n",
            DemoFault::Thread => "fault: demo: no thread\n",
            DemoFault::Reply => "fault: demo: a reply is not the one that is due\n",
            DemoFault::Read => "fault: read\n",
            DemoFault::Write => "fault: write\n",
            DemoFault::Memory => "fault: memory\n",
        }
    }
}

impl From<AllocError> for DemoFault {
    ghost use Rattle.std.specs.Prelude.{◌≡◌};
    ghost use Rattle.tko_demo.specs.declared.fault.DemoFault.TheVariants as fault;

    ghost from_gives = { λ _ e. e ≡ fault.Memory };

    fn from(_: AllocError) -> DemoFault {
        DemoFault::Memory
    }
}

impl From<NoMemory> for DemoFault {
    ghost use Rattle.std.specs.Prelude.{◌≡◌};
    ghost use Rattle.tko_demo.specs.declared.fault.DemoFault.TheVariants as fault;

    ghost from_gives = { λ _ e. e ≡ fault.Memory };

    fn from(_: NoMemory) -> DemoFault {
        DemoFault::Memory
    }
}
