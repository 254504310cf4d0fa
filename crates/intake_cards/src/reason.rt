//! Why a statement or an operand is changed, or not carried at all.

/// Why a statement or an operand is not carried unchanged.
#[derive(Clone, Copy, Debug, PartialEq, Eq)]
pub enum RemarkReason {
    // Carried in other words.
    /// Letters in lower case were read as upper case.
    LowerCase,
    /// An abbreviation was spelled out.
    SpelledOut,
    /// Parentheses in a COMMENT became brackets.
    Brackets,
    /// The asterisks of a box around a COMMENT are away.
    Box,
    /// A COMMENT was cut at 200 characters.
    CutComment,
    /// A text without numbers got some.
    Numbered,
    /// SEQ1 and SEQ2 got eight digits.
    EightDigits,
    /// SYSLIB was given on the command line.
    GivenSyslib,
    /// The text came from a file of `--relfile`.
    RelfileText,
    /// An element that the profile lacks is carried as another one.
    StandIn,
    /// Two elements of the input have one name and type here.
    FallTogether,
    /// Several statements share a list.
    Split,
    /// An id that a list names twice is written once.
    Double,
    /// The blanks of a COMMENT are as cards have them.
    Blanks,
    /// Characters of a COMMENT that no record may have became question marks.
    Unprintable,
    /// A module that is assembled of a source or a macro has a stand-in that is replaced.
    Assembled,
    /// Of two internal holds of one reason RECEIVE keeps the later one.
    LaterHold,
    /// Columns 73 to 80 of a statement's card hold a text, which is not read.
    TextInNumbers,
    /// A command begins on a card of its own.
    OwnCard,
    /// GROUP has the ids of SELECT.
    GroupOfSelect,
    /// A hold in a SYSMOD that is on another one, or of another kind, goes to the hold file.
    HeldOutside,
    /// A SYSTEM hold on a SYSMOD that the one with its statement supersedes holds that one too.
    PassedOn,
    /// APARs and USERMODs of `--known` are in EXCLUDE.
    KnownExcluded,
    /// The list has the source ids of `--known` that begin so.
    KnownSources,
    // Dropped.
    /// Blank cards end a text that has numbers.
    BlankEnd,
    /// A source id of more than the profile's characters, which no command of the profile can name.
    LongSource,
    /// It changes no decision.
    NoDecision,
    /// A value that has not the form it must have.
    BadValue,
    /// The profile has no such statement, and it is about no SYSMOD.
    NoService,
    /// Without it more fails and nothing less.
    Stricter,
    /// A record that ends an update.
    EndOfUpdate,
    /// A statement about load modules.
    LoadModules,
    /// Elements that no other SYSMOD of the files changes, of a SYSMOD with more than it may have.
    PassedOver,
    /// A hold of a copy of a SYSMOD that is not carried, where the copy that is carried has one of its reason.
    HeldAlready,
    // Left out.
    /// FIXCAT holds hold nothing unless they are asked for.
    Fixcat,
    /// The id has not seven characters of those that ids have.
    BadId,
    /// The name of an element has not one to eight characters of those that names have, or begins with a digit.
    BadName,
    /// An operand that is not known.
    UnknownOperand,
    /// A statement that is not known.
    UnknownStatement,
    /// A statement that the profile lacks.
    OutsideProfile,
    /// An operand that must be there is not.
    Missing,
    /// An operand has no value, although it must have one.
    NoValue,
    /// An operand or a statement that is given twice.
    Twice,
    /// A list of more than 1,000 ids.
    LongList,
    /// More statements than the profile takes.
    TooMany,
    /// No SYSLIB, and none given on the command line.
    NoSyslib,
    /// The text is elsewhere, in a file of `--relfile` or a library.
    TextElsewhere,
    /// A text with characters that are no ASCII.
    NoAscii,
    /// A text or an update that is not as the profile has it.
    BadText,
    /// Operands that exclude each other.
    Contradiction,
    /// A statement that is not allowed at this place.
    OutOfPlace,
    /// A card inside a comment begins like a statement.
    StatementInComment,
    /// Another copy of the SYSMOD is carried.
    OtherCopy,
    /// An operand that decides whether the SYSMOD goes on, which a stand-in can't have.
    Level,
    /// The SYSMOD has a statement that can't be carried.
    WholeSysmod,
    /// A list names the SYSMOD itself.
    NamesItself,
    /// Service has no NPRE and no DELETE.
    NotInService,
    /// A function brings no update.
    UpdateInFunction,
    /// A period is missing.
    NoPeriod,
    /// The period stands in columns 73 to 80, which are not read.
    LatePeriod,
    /// A parenthesis is open.
    OpenParenthesis,
    /// A parenthesis without its partner.
    StrayParenthesis,
    /// A character that no word has.
    StrayCharacter,
    /// A comment is open.
    OpenComment,
    /// The period is followed by more than blanks and comments.
    TextAfterPeriod,
    /// No text follows the statement.
    NoText,
    /// A card of a text has no number, or one that is not higher than the one before.
    Misnumbered,
    /// A line has more than 80 columns.
    LongLine,
    /// SELECT or GROUP is missing.
    NoList,
    /// The word stands for SYSMODs or source ids that are not known.
    NeedsKnown,
    /// No source id of `--known` begins so.
    NoSource,
    /// The profile has no such operand.
    NoOperand,
    /// The profile has no such command.
    NoCommand,
    /// What was written is not read.
    NotRead,
}

impl RemarkReason {
    /// The reason in words.
    pub fn words(self) -> &'static str {
        match self {
            RemarkReason::LowerCase => "lower case was read as upper case",
            RemarkReason::SpelledOut => "spelled out",
            RemarkReason::Brackets => "inner parentheses became brackets",
            RemarkReason::Box => "the asterisks of its box are away",
            RemarkReason::CutComment => "cut at 200 characters",
            RemarkReason::Numbered => "the text got numbers",
            RemarkReason::EightDigits => "got eight digits",
            RemarkReason::GivenSyslib => "SYSLIB as given by --syslib",
            RemarkReason::RelfileText => "the text is that of a file of --relfile",
            RemarkReason::StandIn => "a stand-in",
            RemarkReason::FallTogether => "stands for two elements",
            RemarkReason::Split => "stands in several statements",
            RemarkReason::HeldOutside => "stands in the file of holds",
            RemarkReason::PassedOn =>
                "also holds the SYSMOD that supersedes it: BYPASS it there if this one is installed already",
            RemarkReason::Double => "an id that stands there twice is named once",
            RemarkReason::Blanks => "its blanks are as cards have them",
            RemarkReason::Unprintable => "question marks for what no record may have",
            RemarkReason::Assembled =>
                "the stand-in of a module that is assembled of it is replaced",
            RemarkReason::LaterHold => "RECEIVE keeps a later one of its reason",
            RemarkReason::PassedOver =>
                "no other SYSMOD of these files changes so many of its elements",
            RemarkReason::HeldAlready => "the copy that is carried has one of its reason",
            RemarkReason::StatementInComment => "it stands in a comment",
            RemarkReason::OtherCopy => "another copy of it is carried",
            RemarkReason::Level =>
                "it decides whether the SYSMOD goes on, and a stand-in can't have it",
            RemarkReason::TextInNumbers => "columns 73 to 80 hold a text, which is not read",
            RemarkReason::OwnCard => "stands on a card of its own",
            RemarkReason::GroupOfSelect => "GROUP has the ids of SELECT",
            RemarkReason::Stricter => "without it more fails and nothing less",
            RemarkReason::NoDecision => "it changes no decision",
            RemarkReason::BadValue => "a bad value",
            RemarkReason::NoService => "no statement of service",
            RemarkReason::EndOfUpdate => "an update ends without it",
            RemarkReason::LoadModules => "load modules are not decided on",
            RemarkReason::Fixcat => "a FIXCAT hold holds nothing unless it is asked for",
            RemarkReason::BadId => "a bad id",
            RemarkReason::BadName => "a bad name",
            RemarkReason::UnknownOperand => "smpe does not know this operand, and may not drop it",
            RemarkReason::UnknownStatement => "an unknown statement",
            RemarkReason::OutsideProfile => "no statement of the profile",
            RemarkReason::Missing => "it is missing",
            RemarkReason::NoValue => "its value is missing",
            RemarkReason::Twice => "stands there twice",
            RemarkReason::LongList => "more than 1,000 ids",
            RemarkReason::TooMany => "more statements than a SYSMOD may have",
            RemarkReason::NoSyslib => "no SYSLIB, and none given by --syslib",
            RemarkReason::TextElsewhere =>
                "its text is in another file or library: give --relfile, or put the text after the statement",
            RemarkReason::NoAscii => "characters that are no ASCII",
            RemarkReason::BadText => "the text has not the form that smpe reads",
            RemarkReason::Contradiction => "these operands cannot stand together",
            RemarkReason::OutOfPlace => "may not stand there",
            RemarkReason::WholeSysmod => "a statement of it can't be carried",
            RemarkReason::NamesItself => "names the SYSMOD itself",
            RemarkReason::NotInService => "only a function may have it",
            RemarkReason::UpdateInFunction => "a function brings no update",
            RemarkReason::NoPeriod => "its period is missing",
            RemarkReason::LatePeriod =>
                "its period stands behind column 72: put it on a card of its own",
            RemarkReason::OpenParenthesis => "a parenthesis is not closed in columns 1 to 72",
            RemarkReason::StrayParenthesis => "a parenthesis without its partner",
            RemarkReason::StrayCharacter => "a character that stands in no word",
            RemarkReason::OpenComment => "a comment is not closed: put */ at its end",
            RemarkReason::TextAfterPeriod => "more stands behind its period",
            RemarkReason::KnownExcluded => "EXCLUDE names the APARs or USERMODs of --known",
            RemarkReason::KnownSources => "the list names the source ids of --known that begin so",
            RemarkReason::BlankEnd => "blank cards end a text that has numbers",
            RemarkReason::NoText => "no text follows: put it after the statement",
            RemarkReason::Misnumbered => {
                "columns 73 to 80 of a card must have eight digits, higher than those before"
            }
            RemarkReason::LongSource =>
                "it changes no decision here, since no command can name this source id",
            RemarkReason::LongLine =>
                "the line has more than 80 columns; put the rest on a line of its own",
            RemarkReason::NoList => "SELECT or GROUP is missing",
            RemarkReason::NeedsKnown =>
                "only --known FILE tells which these are: give it, or write their ids",
            RemarkReason::NoSource => "no source id of --known begins so",
            RemarkReason::NoOperand => "the profile has no such operand",
            RemarkReason::NoCommand => "the profile has no such command",
            RemarkReason::NotRead => "what was written is not read",
        }
    }
}
