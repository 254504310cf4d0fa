//! The remarks of a run, as they are gathered.

use crate::place::CardPlace;
use crate::reason::RemarkReason;
use crate::remark::{Deed, Remark};
use crate::remark_list::RemarkList;
use fields::{Id, Name};
use std::alloc::{AllocError, Global};

/// The statement that remarks are about.
#[derive(Clone, Copy, Debug)]
pub struct Subject<'a> {
    /// Where it begins.
    pub place: CardPlace,
    /// Its word without the plus signs; empty if the remark is about no statement.
    pub word: &'a [u8],
    /// The id or the name in it, unchanged; empty if it has none.
    pub id: &'a [u8],
}

/// Which element a stand-in is for.
#[derive(Debug, Drop)]
pub struct StandIn {
    /// Where the statement begins.
    pub place: CardPlace,
    /// The type of the stand-in, as it is spelled, and its name.
    pub elem_type: &'static [u8],
    pub stand_in: Name,
    /// The word of the statement that brings the element, and the element's name.
    pub word: Vec<u8>,
    pub name: Vec<u8>,
    /// Its DISTLIB; empty if it has none.
    pub library: Vec<u8>,
}

/// The remarks so far, and what is counted beside them.
#[derive(Debug, Drop)]
pub struct Remarks {
    /// In the order in which they were made.
    pub list: RemarkList,
    /// How many remarks are about stand-ins.
    pub stand_ins: usize,
    /// Which element each stand-in is for.
    pub named: Vec<StandIn>,
    /// The SYSMODs that have stand-ins.
    pub with_stand_ins: Vec<Id>,
    /// How many SYSMODs are left out that have elements, NPRE or DELETE.
    pub forbidding: usize,
    /// How many assignments of PTFIN lack ids that their statement names.
    pub cut_assigns: usize,
}

/// A reason why a SYSMOD is left out: the first remark that gives it, by its place in the list, and how many more are
/// like it.
#[derive(Clone, Copy)]
struct Cause {
    place: usize,
    more: usize,
}

// The causes that the remarks give, in the order of their first remarks.
fn causes_of(alloc: Global, list: &RemarkList) -> Result<Vec<Cause>, AllocError> {
    let mut causes: Vec<Cause> = Vec::new(alloc);
    for place in 0..list.len() {
        let Some(remark) = list.get(place) else {
            continue;
        };
        match like_cause(list, causes.as_mut_slice(), &remark) {
            Some(cause) => cause.more = cause.more.saturating_add(1),
            None => causes.push(Cause { place, more: 0 })?,
        }
    }
    Ok(causes)
}

// The cause whose first remark is like this one, or `None` if there is none.
fn like_cause<'a>(
    list: &RemarkList,
    causes: &'a mut [Cause],
    remark: &Remark<'_>,
) -> Option<&'a mut Cause> {
    causes.iter_mut().find(|cause| {
        list.get(cause.place)
            .is_some_and(|first| first.is_like(remark))
    })
}

impl Remarks {
    /// No remark, and nothing counted.
    pub fn new(alloc: Global) -> Remarks {
        Remarks {
            list: RemarkList::new(alloc),
            stand_ins: 0,
            named: Vec::new(alloc),
            with_stand_ins: Vec::new(alloc),
            forbidding: 0,
            cut_assigns: 0,
        }
    }

    /// Remarks what was done with an operand, or with the whole statement if `operand` is empty. `text` is the value or
    /// the text that is meant, unchanged. A stand-in is counted.
    pub fn tell(
        &mut self,
        alloc: Global,
        subject: &Subject<'_>,
        operand: &[u8],
        deed: Deed,
        reason: RemarkReason,
        text: &[u8],
    ) -> Result<(), AllocError> {
        if matches!(reason, RemarkReason::StandIn | RemarkReason::Assembled) {
            self.stand_ins = self.stand_ins.saturating_add(1);
        }
        let mut statement = Vec::with_capacity(alloc, 2)?;
        if !subject.word.is_empty() {
            statement.extend_from_slice(b"++")?;
            statement.extend_from_slice(subject.word)?;
        }
        self.list.push(&Remark {
            place: subject.place,
            statement: statement.as_slice(),
            id: subject.id,
            operand,
            deed,
            reason,
            text,
        })
    }

    /// Remarks that the operand, or the whole statement if `operand` is empty, is carried in other words, or with a
    /// shorter text.
    pub fn tell_carried(
        &mut self,
        alloc: Global,
        subject: &Subject<'_>,
        operand: &[u8],
        reason: RemarkReason,
        text: &[u8],
    ) -> Result<(), AllocError> {
        self.tell(alloc, subject, operand, Deed::Carried, reason, text)
    }

    /// Remarks that the operand, or the whole statement if `operand` is empty, is not carried, although the statement
    /// or the SYSMOD to which it belongs is.
    pub fn tell_dropped(
        &mut self,
        alloc: Global,
        subject: &Subject<'_>,
        operand: &[u8],
        reason: RemarkReason,
        text: &[u8],
    ) -> Result<(), AllocError> {
        self.tell(alloc, subject, operand, Deed::Dropped, reason, text)
    }

    /// Remarks that a SYSMOD is left out because of the operand, or because of the whole statement if `operand` is
    /// empty.
    pub fn tell_left_out(
        &mut self,
        alloc: Global,
        subject: &Subject<'_>,
        operand: &[u8],
        reason: RemarkReason,
        text: &[u8],
    ) -> Result<(), AllocError> {
        self.tell(alloc, subject, operand, Deed::LeftOut, reason, text)
    }

    /// Adds the others after these, with their stand-ins.
    pub fn append(&mut self, mut others: Remarks) -> Result<(), AllocError> {
        self.stand_ins = self.stand_ins.saturating_add(others.stand_ins);
        self.named.append(&mut others.named)?;
        self.with_stand_ins.append(&mut others.with_stand_ins)?;
        self.list.append(others.list)
    }

    /// Adds the remarks on a SYSMOD that is left out after these. Of remarks that are alike only the first is added,
    /// and its text is then the number of the others.
    pub fn append_causes(&mut self, alloc: Global, others: Remarks) -> Result<(), AllocError> {
        let causes = causes_of(alloc, &others.list)?;
        for cause in causes.iter() {
            let Some(mut remark) = others.list.get(cause.place) else {
                continue;
            };
            let more = cause.more;
            let count_text = format!(in alloc; "{more} more")?;
            if more > 0 {
                remark.text = count_text.as_bytes();
            }
            self.list.push(&remark)?;
        }
        Ok(())
    }
}
