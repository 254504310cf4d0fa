//! The tests that a candidate fails.
ghost use Rattle.std.specs.Prelude.{◌≡◌};
ghost use Rattle.std.specs.Iterator.{YieldsFirst, item_count};
ghost use Rattle.terms.specs.Lookups.{is_nil};
ghost use Rattle.judge_system.specs.TestSets.{is_in_set, no_tests, tests_of};

use std::marker::Model;
use std::slice;
use terms::Test;

/// All tests, in the order of the codes.
const ALL_TESTS: &[Test] = &[
    Test::HeldBySystem,
    Test::HeldByUser,
    Test::ForbiddenByNpre,
    Test::OwnedByAnother,
    Test::Regression,
    Test::NothingToUpdate,
    Test::NotInTarget,
    Test::ChainDeleted,
    Test::InClash,
    Test::AlreadyAccepted,
    Test::HasDelete,
    Test::OtherLevel,
    Test::SeveralFit,
];

/// Which tests a candidate fails: a flag for each test.
#[derive(Clone, Copy, Debug)]
pub struct TestSet {
    pub held_by_system: bool,
    pub held_by_user: bool,
    pub forbidden_by_npre: bool,
    pub owned_by_another: bool,
    pub regression: bool,
    pub nothing_to_update: bool,
    pub not_in_target: bool,
    pub chain_deleted: bool,
    pub in_clash: bool,
    pub already_accepted: bool,
    pub has_delete: bool,
    pub other_level: bool,
    pub several_fit: bool,
}

impl TestSet {
    /// The set without a test.
    pub fn none() -> TestSet
        ensures { result ≡ no_tests }
    {
        TestSet {
            held_by_system: false,
            held_by_user: false,
            forbidden_by_npre: false,
            owned_by_another: false,
            regression: false,
            nothing_to_update: false,
            not_in_target: false,
            chain_deleted: false,
            in_clash: false,
            already_accepted: false,
            has_delete: false,
            other_level: false,
            several_fit: false,
        }
    }

    /// Whether the set has the test.
    pub fn contains(self, test: Test) -> bool
        ensures { result ≡ is_in_set self test }
    {
        match test {
            Test::HeldBySystem => self.held_by_system,
            Test::HeldByUser => self.held_by_user,
            Test::ForbiddenByNpre => self.forbidden_by_npre,
            Test::OwnedByAnother => self.owned_by_another,
            Test::Regression => self.regression,
            Test::NothingToUpdate => self.nothing_to_update,
            Test::NotInTarget => self.not_in_target,
            Test::ChainDeleted => self.chain_deleted,
            Test::InClash => self.in_clash,
            Test::AlreadyAccepted => self.already_accepted,
            Test::HasDelete => self.has_delete,
            Test::OtherLevel => self.other_level,
            Test::SeveralFit => self.several_fit,
        }
    }

    /// Whether the set has no test.
    pub fn is_empty(self) -> bool
        ensures { result ≡ is_nil (tests_of self) }
    {
        self.iter().next().is_none()
    }

    /// The tests, in the order of the codes.
    pub fn iter(self) -> Tests
        ensures { result ≡ tests_of self }
    {
        Tests {
            set: self,
            rest: ALL_TESTS.iter(),
        }
    }
}

/// The tests of a set that are not yet gone through. A contract sees it as their list.
#[derive(Drop)]
pub struct Tests {
    set: TestSet,
    rest: slice::Iter<'static, Test>,
}

impl Model for Tests {
    ghost use Rattle.std.specs.Prelude.{List};
    ghost use Rattle.terms.specs.declared.codes.Test as codes;

    ghost Value = { List codes.Test };

    ghost use Rattle.std.specs.Prelude.{filter};
    ghost use Rattle.std.specs.Slice.Iter.{iter_rest};
    ghost use Rattle.judge_system.specs.TestSets.{is_in_set};

    ghost view = { λ a. filter (is_in_set a.set) (iter_rest a.rest) };
}

impl Iterator for Tests {
    type Item = Test;

    ghost next_gives = { YieldsFirst (λ s. s) };

    ghost remaining = { item_count (λ s. s) };

    fn next(&mut self) -> Option<Test> {
        let set = self.set;
        self.rest.find(|test| set.contains(**test)).copied()
    }
}
