// What is wanted of an argument, for the line that says what is wrong with it.

const ADDRESS: &str = "an address up to 0xffffffff, decimal or 0x";

#[derive(Clone, Copy)]
pub enum Wanted {
    ToolUse,
    Rom,
    Recording,
    Entry,
    Gap,
    From,
    // FROM again, once it is a number; likewise TO
    Start,
    To,
    End,
    RamBase,
    RamLength,
    PortBase,
    PortEnd,
    PortBits,
    Stop,
    Budget,
    Register,
    Value,
    AnOption,
    // an option that a use has no place for
    WithRun,
    WithWay,
    WithRunOrReplay,
    NoMoreWords,
}

impl Wanted {
    // What such an argument is called.
    pub fn name(self) -> &'static str {
        match self {
            Wanted::ToolUse => "the use",
            Wanted::Rom => "ROM",
            Wanted::Recording => "RECORDING",
            Wanted::Entry => "ENTRY",
            Wanted::Gap => "GAP",
            Wanted::From | Wanted::Start => "FROM",
            Wanted::To | Wanted::End => "TO",
            Wanted::RamBase => "BASE of --ram",
            Wanted::RamLength => "LENGTH of --ram",
            Wanted::PortBase => "BASE of --port",
            Wanted::PortEnd => "END of --port",
            Wanted::PortBits => "BITS of --port",
            Wanted::Stop => "--stop",
            Wanted::Budget => "--budget",
            Wanted::Register => "N of --er",
            Wanted::Value => "VALUE of --er",
            Wanted::AnOption | Wanted::WithRun | Wanted::WithWay | Wanted::WithRunOrReplay =>
                "the option",
            Wanted::NoMoreWords => "a word too many",
        }
    }

    // What is expected where it stands.
    pub fn expected(self) -> &'static str {
        match self {
            Wanted::ToolUse => "figure, way, list, run, replay or help",
            Wanted::Rom | Wanted::Recording => "a file",
            Wanted::Entry | Wanted::From | Wanted::To => ADDRESS,
            Wanted::RamBase | Wanted::PortBase | Wanted::PortEnd | Wanted::Stop => ADDRESS,
            Wanted::Gap => "a number of states below 10^18, decimal or 0x",
            Wanted::Start => "an even address inside the ROM",
            Wanted::End => "an address not below FROM",
            Wanted::RamLength => "an even number up to 65536",
            Wanted::PortBits => "8 or 16",
            Wanted::Budget => "a number of steps up to 1000000",
            Wanted::Register => "a register's number, 0 to 7",
            Wanted::Value => "a number up to 0xffffffff, decimal or 0x",
            Wanted::AnOption =>
                "--plain, --port, --ram, --budget, --stop, --er, --routine, --trace or --deep; `h8 help` says more",
            Wanted::WithRun => "it with `h8 run` only",
            Wanted::WithWay => "it with `h8 way` only",
            Wanted::WithRunOrReplay => "it with `h8 run` or `h8 replay` only",
            Wanted::NoMoreWords => "what `h8 help` says",
        }
    }
}
