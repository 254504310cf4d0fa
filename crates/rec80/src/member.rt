//! The values that a list may have as members.
use fields::{Class, Field, HoldDate, Id, Name, Reason, Source, Srel, ZoneName};

/// A value that a list may have, as its only member or among others.
pub trait Member: Field {
    ghost use Rattle.std.specs.Prelude.{◌≡◌, ◌↔◌, ℕ, List, IsSome, IfSome};
    ghost use Rattle.std.specs.Ordering.{nat_cmp};
    ghost use Rattle.std.specs.Cmp.Lexicographic.{slice_cmp};

    ghost form: { List ℕ → Type 0 };

    ghost text: { Self → List ℕ };

    /// The value of this text.
    fn read(bytes: &[u8]) -> Option<Self>
        ensures good { IsSome result ↔ form bytes.now }
        ensures same { IfSome result (λ read. text read ≡ bytes.now) };

    ghost order: { (x y : Self) → Self.cmp x y ≡ slice_cmp nat_cmp (text x) (text y) };
}

impl Member for Id {
    ghost use Rattle.std.specs.Prelude.{refl};
    ghost use Rattle.terms.specs.Forms.{IsId};

    ghost form = { IsId };

    ghost text = { λ value. value };

    fn read(bytes: &[u8]) -> Option<Id> {
        Id::read(bytes)
    }

    ghost order = { λ x y. refl };
}

impl Member for Source {
    ghost use Rattle.std.specs.Prelude.{refl};
    ghost use Rattle.terms.specs.Forms.{IsSource};

    ghost form = { IsSource };

    ghost text = { λ value. value };

    fn read(bytes: &[u8]) -> Option<Source> {
        Source::read(bytes)
    }

    ghost order = { λ x y. refl };
}

impl Member for Name {
    ghost use Rattle.std.specs.Prelude.{refl};
    ghost use Rattle.terms.specs.Forms.{IsName};

    ghost form = { IsName };

    ghost text = { λ value. value };

    fn read(bytes: &[u8]) -> Option<Name> {
        Name::read(bytes)
    }

    ghost order = { λ x y. refl };
}

impl Member for ZoneName {
    ghost use Rattle.std.specs.Prelude.{refl};
    ghost use Rattle.terms.specs.Forms.{IsZoneName};

    ghost form = { IsZoneName };

    ghost text = { λ value. value };

    fn read(bytes: &[u8]) -> Option<ZoneName> {
        ZoneName::read(bytes)
    }

    ghost order = { λ x y. refl };
}

impl Member for Srel {
    ghost use Rattle.std.specs.Prelude.{refl};
    ghost use Rattle.terms.specs.Forms.{IsSrel};

    ghost form = { IsSrel };

    ghost text = { λ value. value };

    fn read(bytes: &[u8]) -> Option<Srel> {
        Srel::read(bytes)
    }

    ghost order = { λ x y. refl };
}

impl Member for Class {
    ghost use Rattle.std.specs.Prelude.{refl};
    ghost use Rattle.terms.specs.Forms.{IsClass};

    ghost form = { IsClass };

    ghost text = { λ value. value };

    fn read(bytes: &[u8]) -> Option<Class> {
        Class::read(bytes)
    }

    ghost order = { λ x y. refl };
}

impl Member for Reason {
    ghost use Rattle.std.specs.Prelude.{refl};
    ghost use Rattle.terms.specs.Forms.{IsClass};

    ghost form = { IsClass };

    ghost text = { λ value. value };

    fn read(bytes: &[u8]) -> Option<Reason> {
        Reason::read(bytes)
    }

    ghost order = { λ x y. refl };
}

impl Member for HoldDate {
    ghost use Rattle.std.specs.Prelude.{refl};
    ghost use Rattle.terms.specs.Forms.{IsDate};

    ghost form = { IsDate };

    ghost text = { λ value. value };

    fn read(bytes: &[u8]) -> Option<HoldDate> {
        HoldDate::read(bytes)
    }

    ghost order = { λ x y. refl };
}
