//! What the definitions say about certificates.
ghost use Rattle.smpe_certificate.specs.Laws.{CertificateAccepted, AcceptedIsGreatest};

/// A certificate of a decision is accepted. What an accepted certificate keeps is the greatest set that supports itself
/// in the system that it states.
pub fn accepted_is_greatest()
    ensures accepted { CertificateAccepted }
    ensures greatest { AcceptedIsGreatest }
{}
