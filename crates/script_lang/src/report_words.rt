//! The words of report lines that stand for one thing each.

ghost use Rattle.std.specs.Prelude.{◌≡◌, find, bytes_eq};
ghost use Rattle.script_lang.specs.Reports.{refusal_name as name_of_refusal};
ghost use Rattle.script_lang.specs.ReportReading.{found, line_name, line_names, command_name, commands, result_name, results, refusals};

use crate::printing::refusal_name;
use crate::report::OfficeRefusal;

/// The first word of a line.
#[derive(Clone, Copy, Debug, PartialEq, Eq)]
pub(crate) enum LineWord {
    Replica,
    Down,
    Answer,
    Read,
    Recovery,
    End,
}

const LINES: [LineWord; 6] = [
    LineWord::Replica,
    LineWord::Down,
    LineWord::Answer,
    LineWord::Read,
    LineWord::Recovery,
    LineWord::End,
];

impl LineWord {
    /// The word.
    #[tactic(auto, unfolding(crate::specs::ReportReading::line_name))]
    fn name(self) -> &'static [u8]
        ensures { result.now ≡ line_name self }
    {
        match self {
            LineWord::Replica => b"replica",
            LineWord::Down => b"down",
            LineWord::Answer => b"answer",
            LineWord::Read => b"read",
            LineWord::Recovery => b"recovery",
            LineWord::End => b"end",
        }
    }
}

/// The kind of a line, by its first word.
pub(crate) fn line_word(text: &[u8]) -> Option<LineWord>
    ensures { result ≡ found line_name line_names text.now }
{
    find_line(&LINES, text)
}

/// The first of these words that a text is.
fn find_line(words: &[LineWord], text: &[u8]) -> Option<LineWord>
    ensures { result ≡ find (λ x. bytes_eq (line_name x) text.now) words.now }
{
    words.iter().copied().find(|word| word.name() == text)
}

/// The command that was answered.
#[derive(Clone, Copy, Debug, PartialEq, Eq)]
pub(crate) enum CommandWord {
    Create,
    Append,
    Hflush,
    Hsync,
    Close,
}

const COMMANDS: [CommandWord; 5] = [
    CommandWord::Create,
    CommandWord::Append,
    CommandWord::Hflush,
    CommandWord::Hsync,
    CommandWord::Close,
];

impl CommandWord {
    /// The word.
    #[tactic(auto, unfolding(crate::specs::ReportReading::command_name))]
    fn name(self) -> &'static [u8]
        ensures { result.now ≡ command_name self }
    {
        match self {
            CommandWord::Create => b"create",
            CommandWord::Append => b"append",
            CommandWord::Hflush => b"hflush",
            CommandWord::Hsync => b"hsync",
            CommandWord::Close => b"close",
        }
    }
}

/// The command that a word names.
pub(crate) fn command_word(text: &[u8]) -> Option<CommandWord>
    ensures { result ≡ found command_name commands text.now }
{
    find_command(&COMMANDS, text)
}

/// The first of these words that a text is.
fn find_command(words: &[CommandWord], text: &[u8]) -> Option<CommandWord>
    ensures { result ≡ find (λ x. bytes_eq (command_name x) text.now) words.now }
{
    words.iter().copied().find(|word| word.name() == text)
}

/// The first word of a result.
#[derive(Clone, Copy, Debug, PartialEq, Eq)]
pub(crate) enum ResultWord {
    Ok,
    Abandoned,
    AllBad,
    Lost,
    Refused,
    Waiting,
    BadSum,
    Malformed,
    Ended,
    Nothing,
    Unequal,
    NoneUpdated,
}

const RESULTS: [ResultWord; 12] = [
    ResultWord::Ok,
    ResultWord::Abandoned,
    ResultWord::AllBad,
    ResultWord::Lost,
    ResultWord::Refused,
    ResultWord::Waiting,
    ResultWord::BadSum,
    ResultWord::Malformed,
    ResultWord::Ended,
    ResultWord::Nothing,
    ResultWord::Unequal,
    ResultWord::NoneUpdated,
];

impl ResultWord {
    /// The word.
    #[tactic(auto, unfolding(crate::specs::ReportReading::result_name))]
    fn name(self) -> &'static [u8]
        ensures { result.now ≡ result_name self }
    {
        match self {
            ResultWord::Ok => b"ok",
            ResultWord::Abandoned => b"abandoned",
            ResultWord::AllBad => b"allbad",
            ResultWord::Lost => b"lost",
            ResultWord::Refused => b"refused",
            ResultWord::Waiting => b"waiting",
            ResultWord::BadSum => b"badsum",
            ResultWord::Malformed => b"malformed",
            ResultWord::Ended => b"ended",
            ResultWord::Nothing => b"nothing",
            ResultWord::Unequal => b"unequal",
            ResultWord::NoneUpdated => b"noneupdated",
        }
    }
}

/// The result that a word begins.
pub(crate) fn result_word(text: &[u8]) -> Option<ResultWord>
    ensures { result ≡ found result_name results text.now }
{
    find_result(&RESULTS, text)
}

/// The first of these words that a text is.
fn find_result(words: &[ResultWord], text: &[u8]) -> Option<ResultWord>
    ensures { result ≡ find (λ x. bytes_eq (result_name x) text.now) words.now }
{
    words.iter().copied().find(|word| word.name() == text)
}

const REFUSALS: [OfficeRefusal; 9] = [
    OfficeRefusal::Known,
    OfficeRefusal::Unknown,
    OfficeRefusal::NotOpen,
    OfficeRefusal::NotClosed,
    OfficeRefusal::LeaseLost,
    OfficeRefusal::OldStamp,
    OfficeRefusal::OldRecovery,
    OfficeRefusal::TooLong,
    OfficeRefusal::Memory,
];

/// The office's refusal that a word names.
pub(crate) fn refusal_word(text: &[u8]) -> Option<OfficeRefusal>
    ensures { result ≡ found name_of_refusal refusals text.now }
{
    find_refusal(&REFUSALS, text)
}

/// The first of these refusals that a text names.
fn find_refusal(names: &[OfficeRefusal], text: &[u8]) -> Option<OfficeRefusal>
    ensures { result ≡ find (λ x. bytes_eq (name_of_refusal x) text.now) names.now }
{
    names
        .iter()
        .copied()
        .find(|refusal| refusal_name(*refusal) == text)
}
