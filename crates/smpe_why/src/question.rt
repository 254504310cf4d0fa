//! What is asked.
use fields::{Bypass, Id};
use std::marker::Model;

/// The ids, whether one command selects them all or each has its own, whether GROUPEXTEND is given, and BYPASS.
#[derive(Drop)]
pub struct Question<'a> {
    pub ids: &'a [Id],
    pub together: bool,
    pub groupextend: bool,
    pub bypass: &'a Bypass,
}

impl<'a> Model for Question<'a> {
    ghost use Rattle.smpe_why.specs.Telling as telling;

    ghost Value = { telling.Inquiry };

    ghost view = { λ q. record {
      ids = q.ids.now;
      together = q.together;
      groupextend = q.groupextend;
      bypass = q.bypass.now;
    } };
}
