ghost use Rattle.std.specs.Prelude.{◌≡◌};
ghost use Rattle.step_plan.specs.Number.{number_of};

/// How a run ends.
#[derive(Clone, Copy, Debug, PartialEq, Eq)]
pub enum Status {
    Proved,
    /// The condition of this number is the first that isn't shown to be valid.
    NotProved(u32),
    Words,
    ProgramRefused,
    ProofRefused,
    TrailingCerts,
    ReadFault,
    WriteFault,
    Limit,
    Memory,
    ScheduleRefused,
    /// The schedule is none of a run of the program.
    Illegal,
    /// A number on a run is too large.
    ValueLimit,
    /// A number is too large while invariants are looked for.
    InvariantsWide,
}

impl Status {
    /// The number that the process ends with.
    pub fn number(&self) -> u8
        ensures { result ≡ number_of self.now }
    {
        match self {
            Status::Proved => 0,
            Status::NotProved(_) => 1,
            Status::Words => 2,
            Status::ProgramRefused => 3,
            Status::ProofRefused => 4,
            Status::TrailingCerts => 5,
            Status::ReadFault => 6,
            Status::WriteFault => 7,
            Status::Limit => 8,
            Status::Memory => 9,
            Status::ScheduleRefused => 10,
            Status::Illegal => 11,
            Status::ValueLimit => 12,
            Status::InvariantsWide => 13,
        }
    }
}
