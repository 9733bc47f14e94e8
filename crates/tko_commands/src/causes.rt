//! Which fault of the program each cause is.

use crate::outcomes::OutcomesFault;
use crate::reading::InputFault;
use crate::writing::WriteFault;
use crate::{Fault, OutsideRange};
use std::alloc::AllocError;
use tko_bytes::NoMemory;
use tko_explain::KeysFault;
use tko_model::{OpenFault, SettingsFault};
use tko_pools::ConfigFault;
use tko_runs::{RunFault, ScheduleFault};
use tko_session::SessionFault;

impl From<ConfigFault> for Fault {
    ghost use Rattle.tko_commands.specs.Faults.{fault_of_config};
    ghost use Rattle.std.specs.Prelude.{◌≡◌};

    ghost from_gives = { λ cause fault. fault ≡ fault_of_config cause };

    fn from(cause: ConfigFault) -> Fault {
        match cause {
            ConfigFault::Memory => Fault::Memory,
            cause => Fault::Config(cause),
        }
    }
}

impl From<KeysFault> for Fault {
    ghost use Rattle.tko_commands.specs.Faults.{fault_of_keys};
    ghost use Rattle.std.specs.Prelude.{◌≡◌};

    ghost from_gives = { λ cause fault. fault ≡ fault_of_keys cause };

    fn from(cause: KeysFault) -> Fault {
        match cause {
            KeysFault::Config(cause) => Fault::from(cause),
            KeysFault::Against(ConfigFault::Memory) => Fault::Memory,
            KeysFault::Against(cause) => Fault::Against(cause),
        }
    }
}

impl From<AllocError> for Fault {
    ghost use Rattle.std.specs.Prelude.{◌≡◌};
    ghost use Rattle.tko_commands.specs.declared.fault.Fault.TheVariants.{Memory};

    ghost from_gives = { λ _ fault. fault ≡ Memory };

    fn from(_: AllocError) -> Fault {
        Fault::Memory
    }
}

impl From<OutcomesFault> for Fault {
    ghost use Rattle.tko_commands.specs.Faults.{fault_of_outcomes};
    ghost use Rattle.std.specs.Prelude.{◌≡◌};

    ghost from_gives = { λ cause fault. fault ≡ fault_of_outcomes cause };

    fn from(cause: OutcomesFault) -> Fault {
        match cause {
            OutcomesFault::Word(number) => Fault::Outcomes(number),
            OutcomesFault::Memory => Fault::Memory,
        }
    }
}

impl From<SettingsFault> for Fault {
    ghost use Rattle.tko_commands.specs.Faults.{fault_of_setting};
    ghost use Rattle.std.specs.Prelude.{◌≡◌};

    ghost from_gives = { λ cause fault. fault ≡ fault_of_setting cause };

    fn from(cause: SettingsFault) -> Fault {
        Fault::Settings(OutsideRange::without_option(cause))
    }
}

impl From<OpenFault> for Fault {
    ghost use Rattle.tko_commands.specs.Faults.{fault_of_opening};
    ghost use Rattle.std.specs.Prelude.{◌≡◌};

    ghost from_gives = { λ cause fault. fault ≡ fault_of_opening cause };

    fn from(cause: OpenFault) -> Fault {
        match cause {
            OpenFault::Settings(setting) => Fault::from(setting),
            OpenFault::Memory => Fault::Memory,
        }
    }
}

impl From<SessionFault> for Fault {
    ghost use Rattle.tko_commands.specs.Faults.{fault_of_session};
    ghost use Rattle.std.specs.Prelude.{◌≡◌};

    ghost from_gives = { λ cause fault. fault ≡ fault_of_session cause };

    fn from(cause: SessionFault) -> Fault {
        match cause {
            SessionFault::Read => Fault::Read,
            SessionFault::Write(_) => Fault::Write,
            SessionFault::LineTooLong => Fault::LineTooLong,
            SessionFault::Memory => Fault::Memory,
        }
    }
}

impl From<InputFault> for Fault {
    ghost use Rattle.tko_commands.specs.Faults.{fault_of_reading};
    ghost use Rattle.std.specs.Prelude.{◌≡◌};

    ghost from_gives = { λ cause fault. fault ≡ fault_of_reading cause };

    fn from(cause: InputFault) -> Fault {
        match cause {
            InputFault::Input => Fault::Read,
            InputFault::Memory => Fault::Memory,
        }
    }
}

impl From<WriteFault> for Fault {
    ghost use Rattle.std.specs.Prelude.{◌≡◌};
    ghost use Rattle.tko_commands.specs.declared.fault.Fault.TheVariants.{Write};

    ghost from_gives = { λ _ fault. fault ≡ Write };

    fn from(_: WriteFault) -> Fault {
        Fault::Write
    }
}

impl From<ScheduleFault> for Fault {
    ghost use Rattle.tko_commands.specs.Faults.{fault_of_schedule};
    ghost use Rattle.std.specs.Prelude.{◌≡◌};

    ghost from_gives = { λ cause fault. fault ≡ fault_of_schedule cause };

    fn from(cause: ScheduleFault) -> Fault {
        match cause {
            ScheduleFault::Line(number) => Fault::Line(number),
            ScheduleFault::Settings(setting) => Fault::from(setting),
            ScheduleFault::Memory => Fault::Memory,
        }
    }
}

impl From<NoMemory> for Fault {
    ghost use Rattle.std.specs.Prelude.{◌≡◌};
    ghost use Rattle.tko_commands.specs.declared.fault.Fault.TheVariants.{Memory};

    ghost from_gives = { λ _ fault. fault ≡ Memory };

    fn from(_: NoMemory) -> Fault {
        Fault::Memory
    }
}

impl From<RunFault> for Fault {
    ghost use Rattle.tko_commands.specs.Faults.{fault_of_run};
    ghost use Rattle.std.specs.Prelude.{◌≡◌};

    ghost from_gives = { λ cause fault. fault ≡ fault_of_run cause };

    fn from(cause: RunFault) -> Fault {
        match cause {
            RunFault::Step(_) | RunFault::Call(_) => Fault::Check,
            RunFault::Memory => Fault::Memory,
        }
    }
}
