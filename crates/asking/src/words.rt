// Words and options.
#![tactic(auto, unfolding(crate::specs::Words::kind_of, crate::specs::Words::use_of))]

ghost use Rattle.std.specs.Prelude.{◌≡◌};
ghost use Rattle.asking.specs.Words.{kind_of, use_of, help_asked};

#[derive(Clone, Copy, Debug, PartialEq, Eq)]
pub enum Kind {
    AWord,
    PlainOption,
    RamOption,
    PortOption,
    BudgetOption,
    StopOption,
    ErOption,
    RoutineOption,
    DeepOption,
    TraceOption,
}

#[derive(Clone, Copy, Debug, PartialEq, Eq)]
pub enum Use {
    ForFigure,
    ForWay,
    ForList,
    ForRun,
    ForReplay,
    ForHelp,
}

// A word, or which option; none for an option that is not known.
pub fn kind_of(s: &[u8]) -> Option<Kind>
    ensures { result ≡ kind_of s.now }
{
    match s {
        b"--plain" => Some(Kind::PlainOption),
        b"--ram" => Some(Kind::RamOption),
        b"--port" => Some(Kind::PortOption),
        b"--budget" => Some(Kind::BudgetOption),
        b"--stop" => Some(Kind::StopOption),
        b"--er" => Some(Kind::ErOption),
        b"--routine" => Some(Kind::RoutineOption),
        b"--deep" => Some(Kind::DeepOption),
        b"--trace" => Some(Kind::TraceOption),
        [b'-', b'-', ..] => None,
        _ => Some(Kind::AWord),
    }
}

// The use that the first word names.
pub fn use_of(s: &[u8]) -> Option<Use>
    ensures { result ≡ use_of s.now }
{
    match s {
        b"help" => Some(Use::ForHelp),
        b"figure" => Some(Use::ForFigure),
        b"way" => Some(Use::ForWay),
        b"list" => Some(Use::ForList),
        b"run" => Some(Use::ForRun),
        b"replay" => Some(Use::ForReplay),
        _ => None,
    }
}

// As other programs are asked for help.
pub fn asks_help(s: &[u8]) -> bool
    ensures { result ≡ help_asked s.now }
{
    matches!(s, b"--help" | b"-h")
}
