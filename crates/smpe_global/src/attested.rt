//! The form of sources, which their type promises.
ghost use Rattle.std.specs.Prelude.{All};
ghost use Rattle.terms.specs.Forms.{IsSource};

use sysmods_values::Sysmod;

/// Tells the proof of the caller that each source of the SYSMOD has its form. It changes nothing.
pub(crate) fn attest_sources(sysmod: &Sysmod)
    ensures { All IsSource sysmod.now.sources }
{
    let sources = sysmod.sources.as_slice();
    for source in sources {
        // Reading a source makes its form known.
        let _ = source.as_bytes();
    }
}
