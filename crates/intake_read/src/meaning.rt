//! The meanings of the words of statements.
use terms::Kind;

/// The meaning of a statement's word.
#[derive(Clone, Copy, Debug, PartialEq, Eq)]
pub(crate) enum WideWord {
    /// The beginning of a SYSMOD.
    Header(Kind),
    Item(ItemWord),
}

/// The meaning of the word of a statement that is not a header.
#[derive(Clone, Copy, Debug, PartialEq, Eq)]
pub(crate) enum ItemWord {
    Ver,
    If,
    Hold,
    Release,
    Assign,
    Element,
    /// JCLIN, MOVE, RENAME, DELETE.
    LoadModules,
    /// FEATURE, PRODUCT, NULL.
    NoService,
    Unknown,
}

impl WideWord {
    /// The meaning of a statement's word, which is given without its `++`.
    pub(crate) fn read(word: &[u8]) -> WideWord {
        match word {
            b"FUNCTION" => WideWord::Header(Kind::Function),
            b"PTF" => WideWord::Header(Kind::Ptf),
            b"APAR" => WideWord::Header(Kind::Apar),
            b"USERMOD" => WideWord::Header(Kind::Usermod),
            _ => WideWord::Item(ItemWord::read(word)),
        }
    }

    /// Whether a statement of this word needs a text in parentheses after the word.
    pub(crate) fn needs_name(self) -> bool {
        match self {
            WideWord::Header(_) => true,
            WideWord::Item(word) => matches!(
                word,
                ItemWord::Ver | ItemWord::Hold | ItemWord::Release | ItemWord::Element
            ),
        }
    }
}

impl ItemWord {
    // The meaning of a word that is not a header's, which is given without its `++`.
    fn read(word: &[u8]) -> ItemWord {
        match word {
            b"VER" => ItemWord::Ver,
            b"IF" => ItemWord::If,
            b"HOLD" => ItemWord::Hold,
            b"RELEASE" => ItemWord::Release,
            b"ASSIGN" => ItemWord::Assign,
            b"JCLIN" | b"MOVE" | b"RENAME" | b"DELETE" => ItemWord::LoadModules,
            b"FEATURE" | b"PRODUCT" | b"NULL" => ItemWord::NoService,
            _ if is_element(word) => ItemWord::Element,
            _ => ItemWord::Unknown,
        }
    }

    /// Whether a statement of this word is kept outside the SYSMODs, so that its fault leaves no SYSMOD out.
    pub(crate) fn stands_alone(self) -> bool {
        matches!(
            self,
            ItemWord::Hold | ItemWord::Release | ItemWord::Assign | ItemWord::NoService
        )
    }
}

/// Words of element statements that no language follows.
static PLAIN_ELEMENTS: &[u8] = b"MAC SRC MACUPD SRCUPD MOD ZAP PROGRAM JAR JARUPD PRODXML SHELLSCR";

/// Words of data elements, which a language may follow.
static DATA_ELEMENTS: &[u8] =
    b"BOOK BSIND CGM CLIST DATA DATA1 DATA2 DATA3 DATA4 DATA5 DATA6 EXEC FONT GDF HELP IMG \
    MSG PARM PNL PROBJ PROC PRSRC PSEG PUBLB SAMP SKL TBL TEXT USER1 USER2 USER3 USER4 USER5 UTIN UTOUT";

/// Words of elements of file systems, which a language may follow.
static FILE_ELEMENTS: &[u8] =
    b"HFS AIX1 AIX2 AIX3 AIX4 AIX5 CLIENT1 CLIENT2 CLIENT3 CLIENT4 CLIENT5 OS21 OS22 OS23 \
    OS24 OS25 UNIX1 UNIX2 UNIX3 UNIX4 UNIX5 WIN1 WIN2 WIN3 WIN4 WIN5";

/// The codes of languages.
static LANGUAGES: &[u8] =
    b"ARA CHS CHT DAN DES DEU ELL ENG ENP ENU ESP FIN FRA FRB FRC FRS HEB ISL ITA ITS JPN KOR NLB \
    NLD NOR PTB PTG RMS RUS SVE THA TRK";

/// How many letters the code of a language has.
const LANGUAGE_LENGTH: usize = 3;

/// Whether the word is one of the list, in which blanks separate words.
pub(crate) fn is_listed(word: &[u8], list: &[u8]) -> bool {
    list.split(|byte| *byte == b' ')
        .any(|listed| *listed == *word)
}

// Whether a language may follow the word.
fn may_have_language(word: &[u8]) -> bool {
    is_listed(word, DATA_ELEMENTS) || is_listed(word, FILE_ELEMENTS)
}

// Whether the word ends with a language, as PNLENU does.
fn has_language(word: &[u8]) -> bool {
    if word.len() < LANGUAGE_LENGTH {
        return false;
    }
    let (element, language) = word.split_at(word.len() - LANGUAGE_LENGTH);
    is_listed(language, LANGUAGES) && may_have_language(element)
}

// Whether the word, without its `++`, is that of an element statement.
fn is_element(word: &[u8]) -> bool {
    is_listed(word, PLAIN_ELEMENTS) || may_have_language(word) || has_language(word)
}

/// Whether cards after a statement of this word may be its text.
pub(crate) fn may_have_inline_text(word: &[u8]) -> bool {
    match WideWord::read(word) {
        WideWord::Item(ItemWord::Element | ItemWord::Unknown) => true,
        WideWord::Item(ItemWord::LoadModules) => word == b"JCLIN".as_slice(),
        _ => false,
    }
}

/// Whether an operand of this name says that no text follows the statement: the text is elsewhere, or there is none.
pub(crate) fn excludes_inline_text(operand: &[u8]) -> bool {
    matches!(
        operand,
        b"RELFILE" | b"TXLIB" | b"LKLIB" | b"FROMDS" | b"DELETE"
    )
}

/// Whether the value of an operand of this name is read in upper case.
pub(crate) fn is_read_in_upper_case(operand: &[u8]) -> bool {
    matches!(
        operand,
        b"FMID"
            | b"PRE"
            | b"REQ"
            | b"SUP"
            | b"NPRE"
            | b"DELETE"
            | b"VERSION"
            | b"REASON"
            | b"CLASS"
            | b"DATE"
            | b"DISTLIB"
            | b"SYSLIB"
            | b"RELFILE"
            | b"DISTMOD"
            | b"ASSEM"
            | b"TO"
    )
}
