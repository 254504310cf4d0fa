//! Sets of numbers that grow by rules.

use crate::row_text::RowText;
use crate::systems::{parse_flags, parse_numbers, print_flags};
use solve::{Rule, Rules, least};
use std::alloc::Global;
use std::test::Fail;

// The rule that the word spells, as `1,2>3`: a set that has 1 and 2 must have 3.
fn parse_rule(alloc: Global, word: &str) -> Result<Rule, Fail> {
    let (these, that) = word.split_once('>').ok_or("no rule")?;
    let that: u32 = that.parse()?;
    let these = parse_numbers(alloc, these)?;
    Ok(Rule { these, that })
}

// Adds the rule, which must be about numbers of the set.
fn add_rule(rules: &mut Rules, rule: Rule) -> Result<(), Fail> {
    if !rules.admits(rule.these.as_slice(), rule.that) {
        return Err(Fail::from("a rule that is not admitted"));
    }
    Ok(rules.add_rule(rule)?)
}

/// How many numbers there are, and a letter for each: `T` if it is in the least set that has the numbers of the start
/// and obeys the rules. The text has a letter for each number, `T` if it is in the start, and then the rules. One more
/// number, which is not in the start, follows the others.
pub(crate) fn least_set(alloc: Global, text: &str) -> Result<RowText, Fail> {
    let (letters, words) = text.split_once(' ').ok_or("no rules")?;
    let mut rules = Rules::new(alloc, parse_flags(alloc, letters)?.as_slice())?;
    rules.add_number(false)?;
    for word in words.split_whitespace() {
        add_rule(&mut rules, parse_rule(alloc, word)?)?;
    }
    let mut out = RowText::new();
    out.print_number(rules.size() as usize);
    out.print(b" ");
    print_flags(&mut out, least(alloc, &rules)?.as_slice());
    Ok(out)
}
