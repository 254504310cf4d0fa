//! The items of a PTFIN, and what its statements make so far.
ghost use Rattle.std.specs.Prelude.{◌≡◌, IfOk, IsSome};
ghost use Rattle.terms.specs.Ptfin.{nothing, after, items_of, with_ver as begun_with_ver, with_if as begun_with_if};
ghost use Rattle.terms.specs.Ptfin.{with_hold as begun_with_hold, with_change as begun_with_change};
ghost use Rattle.mcs.specs.Statements.{statement_of};
ghost use Rattle.mcs.specs.Files.{Suits, IsOwnHold, begun_of, begun_in, so_far, items};

use crate::said::Statement;
use fields::{Id, Source};
use std::alloc::{AllocError, Global};
use std::marker::Model;
use sysmods_values::{ElemChange, Hold, IfReq, Sysmod, Ver};

/// `++ASSIGN`: the source that the ids get, in the order of the statement.
#[derive(Drop)]
pub struct Assign {
    pub source: Source,
    pub to: Vec<Id>,
}

impl Model for Assign {
    ghost use Rattle.terms.specs.Types as terms;

    ghost Value = { terms.Assign };

    ghost view = { λ a. record { source = a.source; to = a.to.items } };
}

/// An item of PTFIN.
#[derive(Drop)]
pub enum Item {
    Sysmod(Sysmod),
    Assign(Assign),
}

/// A SYSMOD to which the next statement may belong, and the place of its last `++VER`, to which an `++IF` belongs.
#[derive(Drop)]
pub(crate) struct Begun {
    pub sysmod: Sysmod,
    pub last: Option<usize>,
}

/// What the statements so far make: the whole items, and the SYSMOD that has begun, if one has.
#[derive(Drop)]
pub(crate) struct SoFar {
    pub whole: Vec<Item>,
    pub current: Option<Begun>,
}

// The whole items, with the SYSMOD that has begun after them, if one has.
fn with_current(mut whole: Vec<Item>, current: Option<Begun>) -> Result<Vec<Item>, AllocError>
    ensures { IfOk result (λ found. items found.items ≡ items_of (record {
      whole = items whole.items;
      current = begun_in current;
    })) }
{
    if let Some(begun) = current {
        whole.push(Item::Sysmod(begun.sysmod))?;
    }
    Ok(whole)
}

// The SYSMOD with one more `++VER`, which becomes its last.
fn with_ver(begun: Begun, ver: Ver) -> Result<Begun, AllocError>
    ensures { IfOk result (λ next. begun_of next ≡ begun_with_ver ver (begun_of begun)) }
{
    let mut sysmod = begun.sysmod;
    let place = sysmod.insert_ver(ver)?;
    Ok(Begun {
        sysmod,
        last: Some(place),
    })
}

// The SYSMOD with one more `++IF` in its last `++VER`.
fn with_if(begun: Begun, condition: IfReq) -> Result<Begun, AllocError>
    requires { IsSome begun.last }
    ensures { IfOk result (λ next. begun_of next ≡ begun_with_if condition (begun_of begun)) }
{
    let last = begun.last;
    let place = last.unwrap();
    let mut sysmod = begun.sysmod;
    sysmod.push_if(place, condition)?;
    Ok(Begun { sysmod, last })
}

// The SYSMOD with one more hold.
fn with_hold(begun: Begun, hold: Hold) -> Result<Begun, AllocError>
    requires { IsOwnHold begun hold }
    ensures { IfOk result (λ next. begun_of next ≡ begun_with_hold hold (begun_of begun)) }
{
    let last = begun.last;
    let mut sysmod = begun.sysmod;
    sysmod.push_hold(hold)?;
    Ok(Begun { sysmod, last })
}

// The SYSMOD with this element statement.
fn with_change(begun: Begun, change: ElemChange) -> Result<Begun, AllocError>
    ensures { IfOk result (λ next. begun_of next ≡ begun_with_change change (begun_of begun)) }
{
    let last = begun.last;
    let mut sysmod = begun.sysmod;
    sysmod.insert_change(change)?;
    Ok(Begun { sysmod, last })
}

impl SoFar {
    /// The state before the first statement: no item, and no SYSMOD that has begun.
    pub fn new(alloc: Global) -> SoFar
        ensures { so_far result ≡ nothing }
    {
        SoFar {
            whole: Vec::new(alloc),
            current: None,
        }
    }

    /// The state after one more statement, which has to be one that may come next.
    pub fn add_statement(self, alloc: Global, statement: Statement) -> Result<SoFar, AllocError>
        requires { Suits self.current (statement_of statement) }
        ensures { IfOk result (λ next. so_far next ≡ after (so_far self) (statement_of statement)) }
    {
        let SoFar { whole, current } = self;
        match statement {
            Statement::Header(kind, id) => Ok(SoFar {
                whole: with_current(whole, current)?,
                current: Some(Begun {
                    sysmod: Sysmod::new(alloc, kind, id),
                    last: None,
                }),
            }),
            Statement::Assign(assign) => {
                let mut whole = with_current(whole, current)?;
                whole.push(Item::Assign(assign))?;
                Ok(SoFar {
                    whole,
                    current: None,
                })
            }
            Statement::Ver(ver) => Ok(SoFar {
                whole,
                current: Some(with_ver(current.unwrap(), ver)?),
            }),
            Statement::If(condition) => Ok(SoFar {
                whole,
                current: Some(with_if(current.unwrap(), condition)?),
            }),
            Statement::Hold(hold) => Ok(SoFar {
                whole,
                current: Some(with_hold(current.unwrap(), hold)?),
            }),
            Statement::Change(change) => Ok(SoFar {
                whole,
                current: Some(with_change(current.unwrap(), change)?),
            }),
        }
    }

    /// The items of the file, once its last statement is added.
    pub fn into_items(self) -> Result<Vec<Item>, AllocError>
        ensures { IfOk result (λ found. items found.items ≡ items_of (so_far self)) }
    {
        let SoFar { whole, current } = self;
        with_current(whole, current)
    }
}
