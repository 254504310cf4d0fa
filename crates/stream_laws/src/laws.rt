//! What a clean stream promises for every zone that was made of it.
ghost use Rattle.stream_laws.specs.Laws.{NeverClashesByElement, NeverRegresses};
ghost use Rattle.stream_laws.specs.Laws.{InstallStaysOfStream, InstallLosesNoFix};
ghost use Rattle.stream_laws.specs.Service.{ServedZonesPass, ServiceServesAll};

/// Two candidates of one owner do not clash by an element that both change.
pub fn never_clashes_by_element()
    ensures { NeverClashesByElement }
{}

/// A candidate that changes no element of another owner regresses none.
pub fn never_regresses()
    ensures { NeverRegresses }
{}

/// An APPLY or ACCEPT that checks all requisites leaves the zone of the stream.
pub fn install_stays_of_stream()
    ensures { InstallStaysOfStream }
{}

/// An APPLY or ACCEPT loses no fix.
pub fn install_loses_no_fix()
    ensures { InstallLosesNoFix }
{}

/// In a zone that is served no candidate regresses an element of its owner, and no two candidates clash by one.
pub fn served_zones_pass()
    ensures { ServedZonesPass }
{}

/// Whatever commands have run from the state without zones, all zones are of their streams and lack no fix.
pub fn service_serves_all()
    ensures { ServiceServesAll }
{}
