//! Gathers the statements of a file, one after the other, as SYSMODs and the items outside SYSMODs.
use crate::errors::WideError;
use crate::items::{
    Note, NoteReason, OtherReason, SwallowedStatement, WideAssign, WideElement, WideFile, WideHold,
    WideIf, WideOther, WideRelease, WideSysmod, WideVer,
};
use crate::meaning::{ItemWord, WideWord};
use crate::operands::upper_case_members;
use crate::statement::WideStatement;
use intake_cards::{Card, CardPlace};
use std::alloc::{AllocError, Global};

/// The statements so far: the items of the file, the SYSMOD that is begun, and a hold that is to be handed out.
#[derive(Drop)]
pub(crate) struct FileSoFar {
    alloc: Global,
    file: WideFile,
    begun: Option<WideSysmod>,
    hold: Option<WideHold>,
}

impl FileSoFar {
    /// No statements.
    pub fn new(alloc: Global) -> FileSoFar {
        FileSoFar {
            alloc,
            file: WideFile {
                sysmods: Vec::new(alloc),
                held: Vec::new(alloc),
                releases: Vec::new(alloc),
                assigns: Vec::new(alloc),
                others: Vec::new(alloc),
                swallowed: Vec::new(alloc),
                notes: Vec::new(alloc),
            },
            begun: None,
            hold: None,
        }
    }

    /// Ends the SYSMOD that is begun, and returns all statements except the holds that `take_hold` handed out.
    pub fn into_file(self) -> Result<WideFile, WideError> {
        let FileSoFar {
            alloc: _,
            mut file,
            begun,
            hold: _,
        } = self;
        if let Some(sysmod) = begun {
            file.sysmods.push(sysmod)?;
        }
        Ok(file)
    }

    /// Hands out the last statement, once, if it is a hold outside SYSMODs.
    pub fn take_hold(&mut self) -> Option<WideHold> {
        self.hold.take()
    }

    /// Adds a card in a comment that looks like the beginning of a statement.
    pub fn add_swallowed(&mut self, swallowed: SwallowedStatement) -> Result<(), AllocError> {
        self.file.swallowed.push(swallowed)?;
        Ok(())
    }

    // Notes that the statement at that place has words in lower case: counts it in the note on these, or begins that
    // note.
    fn note_lower_case(&mut self, place: CardPlace) -> Result<(), AllocError> {
        for note in self.file.notes.iter_mut() {
            if note.reason == NoteReason::LowerCase {
                note.count = note.count.saturating_add(1);
                return Ok(());
            }
        }
        self.file.notes.push(Note {
            place,
            reason: NoteReason::LowerCase,
            count: 1,
            tail: [b' '; 8],
        })?;
        Ok(())
    }

    /// Notes the text in columns 73 to 80 of the card.
    pub fn note_tail(&mut self, card: &Card) -> Result<(), AllocError> {
        self.file.notes.push(Note {
            place: card.place,
            reason: NoteReason::TextInNumbers,
            count: 1,
            tail: card.number_columns(),
        })?;
        Ok(())
    }

    /// Adds the next statement.
    pub fn add(&mut self, statement: WideStatement) -> Result<(), WideError> {
        if statement.has_lower {
            self.note_lower_case(statement.place)?;
        }
        match WideWord::read(statement.word.as_slice()) {
            WideWord::Header(kind) => {
                let sysmod = WideSysmod::from_header(self.alloc, kind, statement)?;
                self.begin_sysmod(sysmod)
            }
            WideWord::Item(word) => self.add_below_header(word, statement),
        }
    }

    // Adds a statement that is not a header: as an item, or, if it is faulty, as a statement that makes none.
    fn add_below_header(
        &mut self,
        word: ItemWord,
        statement: WideStatement,
    ) -> Result<(), WideError> {
        if let Some(reason) = statement.fault {
            if word.stands_alone() {
                self.file
                    .others
                    .push(WideOther::from_statement(reason, statement))?;
                return Ok(());
            }
            return self.add_other_to_sysmod(reason, statement);
        }
        self.add_item(word, statement)
    }

    // Ends the SYSMOD that is begun, if there is one, and begins this one.
    fn begin_sysmod(&mut self, sysmod: WideSysmod) -> Result<(), WideError> {
        if let Some(before) = self.begun.replace(sysmod) {
            self.file.sysmods.push(before)?;
        }
        Ok(())
    }

    // Adds a statement that makes no item, for this reason, to the SYSMOD that is begun. Returns `Statement` if no
    // SYSMOD is begun.
    fn add_other_to_sysmod(
        &mut self,
        reason: OtherReason,
        statement: WideStatement,
    ) -> Result<(), WideError> {
        match &mut self.begun {
            Some(sysmod) => {
                sysmod
                    .others
                    .push(WideOther::from_statement(reason, statement))?;
                Ok(())
            }
            None => Err(WideError::Statement {
                place: statement.place,
                word: statement.word,
                name: statement.name,
                reason,
            }),
        }
    }

    // Adds a statement without a fault as the item that its word means. Returns `Statement` if it belongs to a SYSMOD
    // and none is begun.
    fn add_item(&mut self, word: ItemWord, statement: WideStatement) -> Result<(), WideError> {
        match word {
            ItemWord::Hold => self.add_hold(statement)?,
            ItemWord::Release => self
                .file
                .releases
                .push(WideRelease::from_statement(self.alloc, statement)?)?,
            ItemWord::Assign => self
                .file
                .assigns
                .push(WideAssign::from_statement(self.alloc, statement)?)?,
            ItemWord::NoService => self.file.others.push(WideOther::from_statement(
                OtherReason::NoService,
                statement,
            ))?,
            ItemWord::Ver => self.add_ver(statement)?,
            ItemWord::If => self.add_if(statement)?,
            ItemWord::Element => self.add_element(statement)?,
            ItemWord::LoadModules => self.add_other_to_sysmod(OtherReason::LoadModules, statement)?,
            ItemWord::Unknown => self.add_other_to_sysmod(OtherReason::UnknownWord, statement)?,
        }
        Ok(())
    }

    // Adds a hold to the SYSMOD that is begun, or keeps it to be handed out.
    fn add_hold(&mut self, statement: WideStatement) -> Result<(), WideError> {
        let hold = WideHold::from_statement(self.alloc, statement)?;
        match &mut self.begun {
            Some(sysmod) => sysmod.holds.push(hold)?,
            None => self.hold = Some(hold),
        }
        Ok(())
    }

    // Adds a `++VER` to the SYSMOD that is begun. One without SRELs makes no item. Returns `Statement` if no SYSMOD is
    // begun.
    fn add_ver(&mut self, statement: WideStatement) -> Result<(), WideError> {
        let Some(srels) = upper_case_members(self.alloc, statement.name.as_slice())? else {
            return self.add_other_to_sysmod(OtherReason::NoName, statement);
        };
        let Some(sysmod) = &mut self.begun else {
            return self.add_other_to_sysmod(OtherReason::Misplaced, statement);
        };
        sysmod
            .vers
            .push(WideVer::from_statement(self.alloc, srels, statement)?)?;
        Ok(())
    }

    // Adds an `++IF` to the last `++VER` of the SYSMOD that is begun. If there is no `++VER`, it makes no item. Returns
    // `Statement` if no SYSMOD is begun.
    fn add_if(&mut self, statement: WideStatement) -> Result<(), WideError> {
        if let Some(sysmod) = &mut self.begun {
            if let Some(last) = sysmod.vers.last_mut() {
                last.ifs
                    .push(WideIf::from_statement(self.alloc, statement)?)?;
                return Ok(());
            }
        }
        self.add_other_to_sysmod(OtherReason::Misplaced, statement)
    }

    // Adds an element to the SYSMOD that is begun. Returns `Statement` if no SYSMOD is begun.
    fn add_element(&mut self, statement: WideStatement) -> Result<(), WideError> {
        let Some(sysmod) = &mut self.begun else {
            return self.add_other_to_sysmod(OtherReason::Misplaced, statement);
        };
        sysmod
            .elements
            .push(WideElement::from_statement(self.alloc, statement)?)?;
        Ok(())
    }
}
