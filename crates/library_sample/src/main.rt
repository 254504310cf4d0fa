//! What an APPLY of a service set into an empty target zone would install, asked of the library: without a database,
//! and without a job. Standard input is a PTFIN and the file `holddata` a hold file, both in records of 80 bytes.
#![tactic(auto)]

use anyhow::{Context, Result};
use change::{Installed, install_judged};
use judge::{Decided, install_system};
use mcs::{HoldItem, Item, read_hold, read_ptfin};
use select::{Selection, candidates};
use solve::{Solver, Worklist};
use std::alloc::Global;
use std::fs;
use std::io::{Read, Write};
use sysmods::{GlobalZone, Srel, ZoneName};
use zones::{Bypass, YyDdd, Zone, ZoneKind};

// A global zone that has received the SYSMODs of this PTFIN. The first one that is refused ends the program.
fn received(alloc: Global, ptfin: &[u8]) -> Result<GlobalZone> {
    let mut global = GlobalZone::new(alloc);
    for item in read_ptfin(alloc, ptfin)? {
        if let Item::Sysmod(sysmod) = item {
            global.receive(alloc, sysmod)?;
        }
    }
    Ok(global)
}

// Puts the holds of this hold file into the global zone. Only the holds inside SYSMODs are internal.
fn hold(alloc: Global, global: &mut GlobalZone, holddata: &[u8]) -> Result<()> {
    for item in read_hold(alloc, holddata)? {
        if let HoldItem::Hold(hold) = item
            && !hold.internal
        {
            global.hold(hold)?;
        }
    }
    Ok(())
}

// What the operands FUNCTIONS and PTFS choose: all functions and PTFs.
fn functions_and_ptfs(alloc: Global) -> Selection {
    let mut selection = Selection::none(alloc);
    selection.functions = true;
    selection.ptfs = true;
    selection
}

// Which candidates an APPLY into the zone keeps, and the zone that it makes of the old one.
fn apply(alloc: Global, global: &GlobalZone, zone: &Zone) -> Result<(Decided, Zone)> {
    let candidates = candidates(alloc, global, zone, &functions_and_ptfs(alloc))?;
    let judged = install_system(alloc, global, zone, None, &candidates, &Bypass::none(alloc))?;
    let kept = Worklist.greatest(alloc, &judged.system)?;
    let decided = judged.decided(alloc, &kept)?;
    let date = YyDdd::new(2024, 140);
    let Installed { delta, .. } = install_judged(alloc, judged, zone, &decided.kept, date)?;
    Ok((decided, delta.apply(alloc, zone)?))
}

// Writes a line for each candidate, which says that it is kept, or which SYSMODs cause its failure.
fn write_decided<W: Write>(decided: &Decided, out: &mut W) -> Result<()> {
    for id in decided.kept.as_slice() {
        writeln!(out, "{id} is kept")?;
    }
    for (id, failure) in decided.failed.as_slice() {
        write!(out, "{id} fails because of")?;
        for causer in failure.causers.as_slice() {
            write!(out, " {causer}")?;
        }
        writeln!(out)?;
    }
    Ok(())
}

// Writes a line for each element of the zone, which says which SYSMOD brought it last.
fn write_elements<W: Write>(zone: &Zone, out: &mut W) -> Result<()> {
    for element in zone.elements() {
        let (name, rmid) = (element.name, element.rmid);
        writeln!(out, "{name} comes from {rmid}")?;
    }
    Ok(())
}

fn main(rt: HostRuntime) -> Result<()> {
    let alloc = rt.alloc();
    let mut ptfin = Vec::new(alloc);
    rt.reader().read_to_end(&mut ptfin)?;
    let mut global = received(alloc, &ptfin)?;
    hold(alloc, &mut global, &fs::read(&rt, "holddata")?)?;
    let srel = Srel::read(b"Z038").context("an SREL")?;
    let related = ZoneName::read(b"DLB1").context("a zone's name")?;
    let empty = Zone::new(alloc, ZoneKind::Target, srel, Some(related));
    let (decided, zone) = apply(alloc, &global, &empty)?;
    let mut out = rt.stdout();
    write_decided(&decided, &mut out)?;
    write_elements(&zone, &mut out)
}
