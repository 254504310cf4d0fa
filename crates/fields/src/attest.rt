//! Facts about each value of a type.

/// A value with a fact about it, for contracts that see only the value.
pub trait Attest {
    ghost form: { Self → Type 0 };

    /// Tells the proof of the caller that the fact holds. It does nothing at run time.
    fn attest(&self)
        ensures { form self.now };
}
